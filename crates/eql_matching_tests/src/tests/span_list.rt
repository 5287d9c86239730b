//! The list as a caller uses it: through its clauses alone, with no proof file.
ghost use Rattle.std.specs.Prelude.{◌≡◌, ◌≢◌, ◌<◌, [], ◌∷◌, ◌++◌, MatchOption, MatchResult};
ghost use Rattle.eql_span_list.specs.Entries.{HasTicket, HoldsAtTicket, IsAbsent, PopsFirst};

use eql_span_list::{SpanList, Ticket};
use std::marker::Send;
use std::thread;

/// Moves the value of a ticket to the end, or out where memory is short.
fn move_to_back(list: &mut SpanList<u64>, ticket: Ticket) -> Result<Ticket, u64>
    requires { HasTicket list.old ticket }
    ensures { HoldsAtTicket list.old ticket (λ xs x ys. MatchResult result
        (λ t. list.new ≡ (xs ++ ys) ++ (t, x) ∷ [])
        (λ back. (list.new ≡ xs ++ ys) × (back ≡ x))) }
{
    let value = list.remove(ticket);
    list.push_back(value)
}

/// Takes the values of two tickets out.
fn remove_both(list: &mut SpanList<u64>, first: Ticket, second: Ticket) -> (u64, u64)
    requires two { second ≢ first }
    requires in_list { HasTicket list.old first × HasTicket list.old second }
    ensures { IsAbsent list.new second }
{
    (list.remove(first), list.remove(second))
}

/// Takes the first value out where it is below `reach`.
fn pop_below(list: &mut SpanList<u64>, reach: u64) -> Option<u64>
    ensures { MatchOption result (list.new ≡ list.old)
        (λ x. PopsFirst list.old list.new x × (x < reach)) }
{
    match list.front() {
        Some(first) if *first < reach => list.pop_front(),
        _ => None,
    }
}

fn crosses_threads<S: Send>(_value: &S) {}

/// A list of any type that crosses threads does so too.
fn list_crosses_threads<T: Send>(list: &SpanList<T>) {
    crosses_threads(list);
}

/// Whether this value is first.
fn is_first(list: &SpanList<u64>, value: u64) -> bool {
    list.front().copied() == Some(value)
}

/// Whether this value is the first, which is taken out.
fn pops(list: &mut SpanList<u64>, value: u64) -> bool {
    list.pop_front() == Some(value)
}

/// Puts 1, 2 and 3 in, and takes the second out. Returns whether that is 2.
fn removes_second(list: &mut SpanList<u64>) -> bool {
    match (list.push_back(1), list.push_back(2), list.push_back(3)) {
        (Ok(_), Ok(second), Ok(_)) => list.remove(second) == 2,
        _ => false,
    }
}

/// Whether the second of three values is removed from an empty list, and the others stay in order.
fn keeps_others(list: &mut SpanList<u64>) -> bool {
    list.front().is_none() && removes_second(list) && pops(list, 1) && is_first(list, 3)
}

#[test]
fn a_removal_from_the_middle_leaves_the_others_in_order(rt: HostRuntime) {
    assert!(rt; keeps_others(&mut SpanList::new(rt.alloc())));
}

/// Puts 10 and 20 in, and moves the 10 to the end. Returns whether there is memory for that.
fn puts_and_moves(list: &mut SpanList<u64>) -> bool {
    match (list.push_back(10), list.push_back(20)) {
        (Ok(first), Ok(_)) => move_to_back(list, first).is_ok(),
        _ => false,
    }
}

/// Whether the list is 20 and 10. They are taken out.
fn pops_both(list: &mut SpanList<u64>) -> bool {
    pop_below(list, 20).is_none()
        && pop_below(list, 21) == Some(20)
        && pops(list, 10)
        && list.pop_front().is_none()
}

/// Puts 30 and 40 in, and takes both out by their tickets. Returns whether they are.
fn puts_and_removes(list: &mut SpanList<u64>) -> bool {
    match (list.push_back(30), list.push_back(40)) {
        (Ok(third), Ok(fourth)) => matches!(remove_both(list, third, fourth), (30, 40)),
        _ => false,
    }
}

/// Whether what is moved to the end is taken out last, and other values are removed by their tickets.
fn serves_callers(list: &mut SpanList<u64>) -> bool {
    puts_and_moves(list) && pops_both(list) && puts_and_removes(list)
}

#[test]
fn callers_stand_on_the_clauses(rt: HostRuntime) {
    assert!(rt; serves_callers(&mut SpanList::new(rt.alloc())));
}

/// Whether a push puts 7 in, or hands it back and leaves the list empty.
fn is_put_or_back(list: &mut SpanList<u64>) -> bool {
    match list.push_back(7) {
        Ok(_) => is_first(list, 7),
        Err(back) => back == 7 && list.front().is_none(),
    }
}

#[test]
fn a_refused_push_hands_the_value_back(rt: HostRuntime) {
    assert!(rt; is_put_or_back(&mut SpanList::new(rt.alloc())));
}

#[test]
fn a_list_moves_to_another_thread(rt: HostRuntime) {
    let mut list: SpanList<u64> = SpanList::new(rt.alloc());
    let ticket = list.push_back(5).expect(&rt, "memory");
    list_crosses_threads(&list);
    crosses_threads(&ticket);
    let child = thread::spawn(&rt, move || (pops(&mut list, 5), ticket)).expect(&rt, "a thread");
    let (is_five, _) = child.join(&rt);
    assert!(rt; is_five);
}
