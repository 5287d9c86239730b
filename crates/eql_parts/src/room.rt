//! A list of matches that gets more in room taken before.
ghost use Rattle.std.specs.Prelude.{◌≡◌, ◌+◌, ◌≤◌, ◌++◌, vec_len, vec_capacity};

use eql_values::Match;

/// Puts matches at the end of a list that has room for them.
pub(crate) fn push_matches(found: &mut Vec<Match>, more: Vec<Match>)
    requires room { vec_len found.old + vec_len more ≤ vec_capacity found.old }
    ensures { found.new.items ≡ found.old.items ++ more.items }
{
    let mut more = more;
    if found.append(&mut more).is_err() {
        unreachable!()
    }
}
