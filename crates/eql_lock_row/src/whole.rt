//! What is done with all locks of a row, one after another.
ghost use Rattle.std.specs.Prelude.{◌≡◌, ◌+◌, ◌≤◌, ◌++◌, List, [], OnOk, length, map, reverse, vec_capacity, vec_len};
ghost use Rattle.std.specs.List.{AllZip};
ghost use Rattle.eql_turn_lock.specs.Calls.{Closes};
ghost use Rattle.eql_turn_lock.specs.History.{StartsWith};
ghost use Rattle.eql_turn_lock.specs.Passes.{first_view, new_view, split_view};
ghost use Rattle.eql_lock_row.specs.Rows.{AllAreJoined, AllKnow, AreFirst, AreOf, joined_views, views_in};

use eql_turn_lock::{Memory, Pass, TurnLock, Turned};
use std::alloc::Global;

/// Puts each value under a lock, the last one first. Where memory is short the others stay.
pub(crate) fn lock_all<T: Turned>(
    alloc: Global,
    values: &mut Vec<T>,
    locks: &mut Vec<TurnLock<T>>,
    passes: &mut Vec<Pass<T>>,
) -> Result<(), Memory>
    requires empty { (locks.old.items ≡ []) × (passes.old.items ≡ []) }
    requires room { (vec_len values.old ≤ vec_capacity locks.old)
        × (vec_len values.old ≤ vec_capacity passes.old) }
    ensures own { AreOf locks.new.items passes.new.items }
    ensures made { (done : List T) × (views_in passes.new.items ≡ map first_view done)
        × (reverse values.old.items ≡ done ++ reverse values.new.items) }
    ensures knows { AllKnow T.step_of T.is_open (views_in passes.new.items) }
    ensures all { OnOk result (values.new.items ≡ []) }
    ensures room { (vec_capacity values.new ≡ vec_capacity values.old)
        × (vec_len values.new + length locks.new.items ≡ vec_len values.old) }
{
    while let Some(value) = values.pop() {
        match TurnLock::make(alloc, value) {
            Ok((lock, pass)) => {
                locks.push_reserved(lock);
                passes.push_reserved(pass);
            }
            Err((memory, value)) => {
                values.push_reserved(value);
                return Err(memory);
            }
        }
    }
    Ok(())
}

/// Puts the values of locks behind others, the last one first.
pub(crate) fn unlock_all<T: Turned>(
    locks: Vec<TurnLock<T>>,
    passes: Vec<Pass<T>>,
    values: &mut Vec<T>,
)
    requires own { AreOf locks.items passes.items }
    requires first { AreFirst (views_in passes.items) }
    requires all_joined { AllAreJoined (views_in passes.items) }
    requires room { vec_len values.old + length locks.items ≤ vec_capacity values.old }
    ensures { (closed : List T)
        × AllZip (Closes T.step_of T.is_open) (views_in passes.items) closed
        × (values.new.items ≡ values.old.items ++ reverse closed) }
{
    let mut locks = locks;
    let mut passes = passes;
    while let Some(lock) = locks.pop() {
        let Some(pass) = passes.pop() else {
            unreachable!()
        };
        values.push_reserved(lock.close(pass));
    }
    locks.destroy_empty();
    passes.destroy_empty();
}

/// Splits a further pass off the first one of each lock.
pub(crate) fn split_all<T: Turned>(
    locks: &Vec<TurnLock<T>>,
    passes: &mut Vec<Pass<T>>,
    new: &mut Vec<Pass<T>>,
)
    requires own { AreOf locks.now.items passes.old.items }
    requires first { AreFirst (views_in passes.old.items) }
    requires empty { new.old.items ≡ [] }
    requires room { length locks.now.items ≤ vec_capacity new.old }
    ensures own { AreOf locks.now.items passes.new.items × AreOf locks.now.items new.new.items }
    ensures first { views_in passes.new.items ≡ map split_view (views_in passes.old.items) }
    ensures new { views_in new.new.items ≡ map new_view (views_in passes.old.items) }
    ensures knows { AllKnow T.step_of T.is_open (views_in passes.old.items)
        → AllKnow T.step_of T.is_open (views_in passes.new.items)
        × AllKnow T.step_of T.is_open (views_in new.new.items) }
{
    for place in 0..locks.len() {
        let pass = locks[place].split(&mut passes[place]);
        new.push_reserved(pass);
    }
}

/// Joins the other pass of each lock into the first one, the last one first.
pub(crate) fn join_all<T: Turned>(
    locks: &Vec<TurnLock<T>>,
    passes: &mut Vec<Pass<T>>,
    others: Vec<Pass<T>>,
)
    requires own { AreOf locks.now.items passes.old.items × AreOf locks.now.items others.items }
    requires first { AreFirst (views_in passes.old.items) }
    ensures own { AreOf locks.now.items passes.new.items }
    ensures joined { views_in passes.new.items
        ≡ joined_views (views_in passes.old.items) (views_in others.items) }
    ensures knows { AllKnow T.step_of T.is_open (views_in passes.new.items) }
    ensures seen { AllZip (λ w v. StartsWith w.seen v.seen)
        (views_in passes.new.items) (views_in passes.old.items) }
    ensures other { AllZip (λ w v. StartsWith w.seen v.seen)
        (views_in passes.new.items) (views_in others.items) }
{
    let mut others = others;
    while let Some(other) = others.pop() {
        let place = others.len();
        locks[place].join(&mut passes[place], other);
    }
    others.destroy_empty();
}
