//! Numbers and times in words.
ghost use Rattle.std.specs.Prelude.{◌≡◌, ◌<◌, ◌≤◌, ◌^◌, IfSome};
ghost use Rattle.std.specs.Char.{is_ascii_digit};
ghost use Rattle.std.specs.List.{list_all};
ghost use Rattle.eql_words.specs.Numbers.{in_unit, milliseconds_of, number_in, number_of, time_of};

/// The most milliseconds of a time: 36,500 days.
const LONGEST: u64 = 3_153_600_000_000;

/// Whether a word has only ASCII digits.
fn are_digits(word: &str) -> bool
    ensures { result ≡ list_all is_ascii_digit word.now }
{
    word.as_bytes().iter().all(|byte| byte.is_ascii_digit())
}

/// The number that one to `most` decimal digits write. The first ones may be zeros.
fn number_of(most: usize, word: &str) -> Option<u64>
    requires { most ≤ 19 }
    ensures value { result ≡ number_of most word.now }
    ensures bound { IfSome result (λ n. n < 10 ^ most) }
{
    if 0 < word.len() && word.len() <= most && are_digits(word) {
        word.parse::<u64>().ok()
    } else {
        None
    }
}

/// The number from `least` to `most` that one to seven decimal digits write.
pub(crate) fn number_in(least: u32, most: u32, word: &str) -> Option<u32>
    ensures { result ≡ number_in least most word.now }
{
    let number = u32::try_from(number_of(7, word)?).ok()?;
    if least <= number && number <= most {
        Some(number)
    } else {
        None
    }
}

/// The milliseconds of one to ten digits and a unit that has `each` of them.
fn in_unit(unit: &str, each: u64, word: &str) -> Option<u64>
    requires { each ≤ 86400000 }
    ensures { result ≡ in_unit unit.now each word.now }
{
    let digits = word.strip_suffix(unit)?;
    let number = number_of(10, digits)?;
    Some(number * each)
}

/// The milliseconds of a time of any length.
fn milliseconds_of(word: &str) -> Option<u64>
    ensures { result ≡ milliseconds_of word.now }
{
    in_unit("ms", 1, word)
        .or_else(|| in_unit("s", 1_000, word))
        .or_else(|| in_unit("m", 60_000, word))
        .or_else(|| in_unit("h", 3_600_000, word))
        .or_else(|| in_unit("d", 86_400_000, word))
}

/// The milliseconds of a time of at most 36,500 days.
pub(crate) fn time_of(word: &str) -> Option<u64>
    ensures { result ≡ time_of word.now }
{
    let milliseconds = milliseconds_of(word)?;
    if milliseconds <= LONGEST {
        Some(milliseconds)
    } else {
        None
    }
}
