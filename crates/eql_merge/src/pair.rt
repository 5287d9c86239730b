//! The merge of two lists that ascend.
ghost use Rattle.std.specs.Prelude.{◌≡◌, ◌++◌, [], IfNone, IfSome, IfOk};
ghost use Rattle.eql_merge.specs.Ranks.{Ascends, HaveNoTie, HaveSameFirsts};
ghost use Rattle.eql_merge.specs.Fronts.{later_is_first, TakesFirst};

use crate::ranked::Ranked;
use crate::run::Run;
use eql_values::Memory;
use std::alloc::Global;

/// Whether the first value of the later list comes before that of the earlier one, or the earlier one is empty.
pub fn is_later_first<T: Ranked>(earlier: &Run<T>, later: &Run<T>) -> bool
    ensures { result ≡ later_is_first T.rank earlier.now later.now }
{
    match (earlier.first(), later.first()) {
        (None, _) => true,
        (Some(_), None) => false,
        (Some(a), Some(b)) => b.is_before(a),
    }
}

/// Takes the value that comes first, if there is one.
fn take_first<T: Ranked>(earlier: &mut Run<T>, later: &mut Run<T>) -> Option<T>
    ensures none { IfNone result ((earlier.old ≡ []) × (later.old ≡ [])) }
    ensures some { IfSome result (λ x.
        TakesFirst T.rank x earlier.old later.old earlier.new later.new) }
{
    if is_later_first(earlier, later) {
        later.take_first()
    } else {
        earlier.take_first()
    }
}

/// All values of both lists, in order.
pub fn merge_pair<T: Ranked>(
    alloc: Global,
    mut earlier: Run<T>,
    mut later: Run<T>,
) -> Result<Vec<T>, Memory>
    requires earlier_ascends { Ascends T.rank earlier }
    requires later_ascends { Ascends T.rank later }
    requires apart { HaveNoTie T.rank earlier later }
    ensures ascends { IfOk result (λ all. Ascends T.rank all.items) }
    ensures all { IfOk result (λ all. HaveSameFirsts T.rank (earlier ++ later) all.items) }
{
    let mut merged = Vec::with_capacity(alloc, earlier.len().saturating_add(later.len()))?;
    while let Some(value) = take_first(&mut earlier, &mut later) {
        merged.push(value)?;
    }
    Ok(merged)
}
