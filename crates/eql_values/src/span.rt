//! The test of a span.
ghost use Rattle.std.specs.Prelude.{◌≡◌};
ghost use Rattle.eql_values.specs.Chains.{in_time};

use crate::order::OrderKey;

/// Whether a time is within the span from the first of these events. The span is in nanoseconds,
/// and the time in nanoseconds since the epoch. It is where there is no span, and where there are
/// no events.
pub fn is_in_time(span: Option<i128>, events: &[OrderKey], now: i128) -> bool
    ensures { result ≡ in_time span events.now now }
{
    match (span, events.first()) {
        (Some(span), Some(first)) => match now.checked_sub(first.ts) {
            Some(passed) => passed <= span,
            None => now < first.ts,
        },
        _ => true,
    }
}
