//! A hub and its hands: how they are made, split, joined and closed.
ghost use Rattle.std.specs.Prelude.{◌≡◌, ◌<◌, ◌≤◌, ◌^◌, [], IfErr, IfOk, OnErr, Some, length, map, slice_get, vec_capacity};
ghost use Rattle.std.specs.List.{AllZip};
ghost use Rattle.eql_turn_lock.specs.Calls.{Closes};
ghost use Rattle.eql_turn_lock.specs.Passes.{first_view, new_view, split_view};
ghost use Rattle.eql_lock_row.specs.Rows.{AllAreJoined, AllKnow, AreFirst, joined_views};
ghost use Rattle.eql_hub.specs.Turns.{IsLaneTurn, IsPartTurn, is_open_lane, is_open_part};
ghost use Rattle.eql_hub.specs.Hands.{AllBegin, AreAllJoined, IsFirst, IsHandOf, Knows, is_fed_alone, may_pause};

use crate::wrapped::{TurnedLane, TurnedPart, unwrap_all, wrap_all};
use eql_lane::Lane;
use eql_lock_row::{LockRow, PassRow};
use eql_outside::{Source, Supply};
use eql_values::{LineReader, Memory};
use std::alloc::Global;
use std::marker::Model;
use std::sync::ledger::Ledger;

/// Lanes and parts, each under a lock of its own. Contracts see which locks they are, and which lanes the conductor alone feeds: those
/// whose reads may wait for a writer.
///
/// It keeps the room in which the lanes are handed back.
#[derive(Drop)]
pub struct Hub<S: Source, L: LineReader, G: Ledger> {
    pub(crate) lanes: LockRow<TurnedLane<S, L>>,
    pub(crate) parts: LockRow<TurnedPart<G>>,
    pub(crate) alone: Vec<bool>,
    room: Vec<Lane<S, L>>,
}

impl<S: Source, L: LineReader, G: Ledger> Model for Hub<S, L, G> {
    ghost use Rattle.std.specs.Prelude.{◌≡◌, ◌<◌, ◌≤◌, ◌^◌, [], length, vec_capacity};
    ghost use Rattle.eql_hub.specs.Hands.{HubView};

    ghost Value = { HubView };

    ghost view = { λ h. record { lanes = h.lanes; parts = h.parts; alone = h.alone.items } };

    ghost invariant = { λ h. (h.room.items ≡ []) × (length h.lanes ≤ vec_capacity h.room)
        × (length h.lanes < 2 ^ 32) × (length h.parts < 2 ^ 32)
        × (length h.alone.items ≡ length h.lanes) };
}

/// A pass of each lane and of each part, and the place from which the hand goes on. Contracts see what the passes know.
#[derive(Drop)]
pub struct Hand<S: Source, L: LineReader, G: Ledger> {
    pub(crate) lanes: PassRow<TurnedLane<S, L>>,
    pub(crate) parts: PassRow<TurnedPart<G>>,
    pub(crate) next: usize,
}

impl<S: Source, L: LineReader, G: Ledger> Model for Hand<S, L, G> {
    ghost use Rattle.eql_hub.specs.Hands.{HandView};

    ghost Value = { HandView S L };

    ghost view = { λ h. record { lanes = h.lanes; parts = h.parts } };
}

/// Lanes under locks, with their first passes and the room in which they are handed back.
#[derive(Drop)]
struct LockedLanes<S: Source, L: LineReader> {
    locks: LockRow<TurnedLane<S, L>>,
    passes: PassRow<TurnedLane<S, L>>,
    room: Vec<Lane<S, L>>,
}

// Puts lanes under locks. Where memory is short they come back.
fn lock_lanes<S: Source, L: LineReader>(
    alloc: Global,
    lanes: Vec<Lane<S, L>>,
) -> Result<LockedLanes<S, L>, Vec<Lane<S, L>>>
    ensures own { IfOk result (λ held. held.passes.locks ≡ held.locks) }
    ensures first { IfOk result (λ held. held.passes.views ≡ map first_view lanes.items) }
    ensures knows { IfOk result (λ held. AllKnow
        (IsLaneTurn S.left S.lent_as S.fault_plan L.read_of) is_open_lane held.passes.views) }
    ensures count { IfOk result (λ held. length held.locks ≡ length lanes.items) }
    ensures room { IfOk result (λ held. (held.room.items ≡ [])
        × (length held.locks ≤ vec_capacity held.room)) }
    ensures back { IfErr result (λ back. back.items ≡ lanes.items) }
{
    let Ok(mut room) = Vec::with_capacity(alloc, lanes.len()) else {
        return Err(lanes);
    };
    let Ok(mut wrapped) = Vec::with_capacity(alloc, lanes.len()) else {
        room.destroy_empty();
        return Err(lanes);
    };
    wrap_all(lanes, &mut wrapped);
    match LockRow::make(alloc, wrapped) {
        Ok((locks, passes)) => Ok(LockedLanes {
            locks,
            passes,
            room,
        }),
        Err((_, wrapped)) => {
            unwrap_all(wrapped, &mut room);
            Err(room)
        }
    }
}

// Whether a read of the source may wait for a writer.
fn may_pause(supply: Supply) -> bool
    ensures { result ≡ may_pause supply }
{
    match supply {
        Supply::Untold => false,
        Supply::File { bytes: _ } => false,
        Supply::Pausing => true,
    }
}

// Which lanes the conductor alone feeds.
fn fed_alone<S: Source, L: LineReader>(
    alloc: Global,
    lanes: &Vec<Lane<S, L>>,
) -> Result<Vec<bool>, Memory>
    ensures { IfOk result (λ alone. alone.items ≡ map (is_fed_alone S.supply_of) lanes.now.items) }
{
    let alone = lanes
        .iter()
        .map(|lane| may_pause(lane.supply()))
        .collect(alloc)?;
    Ok(alone)
}

impl<S: Source, L: LineReader> LockedLanes<S, L> {
    // The lanes, of which none was played on.
    fn unlock(self) -> Vec<Lane<S, L>>
        requires own { self.passes.locks ≡ self.locks }
        requires first { AreFirst self.passes.views }
        requires all_joined { AllAreJoined self.passes.views }
        requires empty { self.room.items ≡ [] }
        requires room { length self.locks ≤ vec_capacity self.room }
        ensures { AllZip (Closes (IsLaneTurn S.left S.lent_as S.fault_plan L.read_of) is_open_lane)
            self.passes.views result.items }
    {
        let _ = self.passes.len();
        let LockedLanes {
            locks,
            passes,
            room,
        } = self;
        let mut lanes = room;
        unwrap_all(locks.close(passes), &mut lanes);
        lanes
    }

    // The hub and its first hand, with these parts, of which lanes the conductor alone feeds these. Where memory is short the
    // lanes come back.
    fn with_parts<G: Ledger>(
        self,
        alloc: Global,
        parts: Vec<TurnedPart<G>>,
        alone: Vec<bool>,
    ) -> Result<(Hub<S, L, G>, Hand<S, L, G>), (Memory, Vec<Lane<S, L>>)>
        requires own { self.passes.locks ≡ self.locks }
        requires first { AreFirst self.passes.views }
        requires all_joined { AllAreJoined self.passes.views }
        requires knows { AllKnow (IsLaneTurn S.left S.lent_as S.fault_plan L.read_of) is_open_lane
            self.passes.views }
        requires empty { self.room.items ≡ [] }
        requires room { length self.locks ≤ vec_capacity self.room }
        requires few_lanes { length self.locks < 2 ^ 32 }
        requires few_parts { length parts.items < 2 ^ 32 }
        requires alone { length alone.items ≡ length self.locks }
        ensures own { IfOk result (λ made. IsHandOf made.0 made.1) }
        ensures alone { IfOk result (λ made. made.0.alone ≡ alone.items) }
        ensures lanes { IfOk result (λ made. made.1.lanes.views ≡ self.passes.views) }
        ensures parts { IfOk result (λ made. made.1.parts.views ≡ map first_view parts.items) }
        ensures knows { IfOk result
            (λ made. Knows S.left S.lent_as S.fault_plan L.read_of made.1) }
        ensures back { IfErr result (λ refused. AllZip
            (Closes (IsLaneTurn S.left S.lent_as S.fault_plan L.read_of) is_open_lane)
            self.passes.views refused.1.items) }
    {
        match LockRow::make(alloc, parts) {
            Ok((parts, part_passes)) => Ok((
                Hub {
                    lanes: self.locks,
                    parts,
                    alone,
                    room: self.room,
                },
                Hand {
                    lanes: self.passes,
                    parts: part_passes,
                    next: 0,
                },
            )),
            Err(_) => Err((Memory, self.unlock())),
        }
    }
}

impl<S: Source, L: LineReader, G: Ledger> Hand<S, L, G> {
    /// How many lanes it has a pass of.
    pub fn lane_count(&self) -> usize
        ensures locks { result ≡ length self.now.lanes.locks }
        ensures views { result ≡ length self.now.lanes.views }
    {
        self.lanes.len()
    }

    /// How many parts it has a pass of.
    pub fn part_count(&self) -> usize
        ensures locks { result ≡ length self.now.parts.locks }
        ensures views { result ≡ length self.now.parts.views }
    {
        self.parts.len()
    }
}

impl<S: Source, L: LineReader, G: Ledger> Hub<S, L, G> {
    /// A hub of these lanes and parts, and its first hand. Where memory is short the lanes come back in their order.
    pub fn make(
        alloc: Global,
        lanes: Vec<Lane<S, L>>,
        parts: Vec<TurnedPart<G>>,
    ) -> Result<(Hub<S, L, G>, Hand<S, L, G>), (Memory, Vec<Lane<S, L>>)>
        requires few_lanes { length lanes.items < 2 ^ 32 }
        requires few_parts { length parts.items < 2 ^ 32 }
        ensures own { IfOk result (λ made. IsHandOf made.0 made.1) }

        // The conductor alone feeds the lanes whose reads may wait for a writer, and no others.
        ensures alone { IfOk result
            (λ made. made.0.alone ≡ map (is_fed_alone S.supply_of) lanes.items) }
        ensures lanes { IfOk result (λ made. made.1.lanes.views ≡ map first_view lanes.items) }
        ensures parts { IfOk result (λ made. made.1.parts.views ≡ map first_view parts.items) }
        ensures knows { IfOk result
            (λ made. Knows S.left S.lent_as S.fault_plan L.read_of made.1) }
        ensures back { IfErr result (λ refused. refused.1.items ≡ lanes.items) }
    {
        let Ok(alone) = fed_alone(alloc, &lanes) else {
            return Err((Memory, lanes));
        };
        match lock_lanes(alloc, lanes) {
            Ok(held) => held.with_parts(alloc, parts, alone),
            Err(lanes) => Err((Memory, lanes)),
        }
    }

    /// How many lanes there are.
    pub fn lane_count(&self) -> u32
        ensures { result ≡ length self.now.lanes }
    {
        self.lanes.len() as u32
    }

    /// How many parts there are.
    pub fn part_count(&self) -> u32
        ensures { result ≡ length self.now.parts }
    {
        self.parts.len() as u32
    }

    /// There are fewer than 4,294,967,296 lanes, and as few parts. It does nothing.
    pub(crate) fn are_few(&self)
        ensures lanes { length self.now.lanes < 2 ^ 32 }
        ensures parts { length self.now.parts < 2 ^ 32 }
    {
        let _ = &self.room;
    }

    /// Whether the conductor alone feeds a lane, from 0.
    pub(crate) fn is_fed_alone(&self, lane: usize) -> bool
        requires { lane < length self.now.lanes }
        ensures { slice_get self.now.alone lane ≡ Some result }
    {
        match self.alone.get(lane) {
            Some(alone) => *alone,
            None => unreachable!(),
        }
    }

    /// Where a step begins after one that did something in this place: after a lane at the lane before it, and after the first lane
    /// at the last one; after a part at the place behind it. The conductor goes over the lanes from the first one on, so it meets
    /// a hand seldom, and doesn't follow it from lane to lane.
    pub(crate) fn place_after(&self, place: usize) -> usize {
        let lanes = self.lanes.len();
        if place >= lanes {
            self.place_behind(place)
        } else if place == 0 {
            lanes - 1
        } else {
            place - 1
        }
    }

    // The place behind one, and the first place behind the last one.
    fn place_behind(&self, place: usize) -> usize {
        self.are_few();
        let count = self.lanes.len() + self.parts.len();
        let behind = place.wrapping_add(1);
        if behind < count { behind } else { 0 }
    }

    /// A further hand, which has seen what the first one has, and begins one place behind the hand that was split off before it.
    /// After want of memory nothing has changed.
    pub fn split_hand(
        &self,
        alloc: Global,
        hand: &mut Hand<S, L, G>,
    ) -> Result<Hand<S, L, G>, Memory>
        requires own { IsHandOf self.now hand.old }
        requires first { IsFirst hand.old }
        ensures own { IsHandOf self.now hand.new × IfOk result (IsHandOf self.now) }
        ensures lanes { IfOk result (λ new.
            (hand.new.lanes.views ≡ map split_view hand.old.lanes.views)
            × (new.lanes.views ≡ map new_view hand.old.lanes.views)) }
        ensures parts { IfOk result (λ new.
            (hand.new.parts.views ≡ map split_view hand.old.parts.views)
            × (new.parts.views ≡ map new_view hand.old.parts.views)) }
        ensures knows { IfOk result (λ new. Knows S.left S.lent_as S.fault_plan L.read_of hand.old
            → Knows S.left S.lent_as S.fault_plan L.read_of hand.new
            × Knows S.left S.lent_as S.fault_plan L.read_of new) }
        ensures unchanged { OnErr result (hand.new ≡ hand.old) }
    {
        let Ok(lane_room) = self.lanes.room(alloc) else {
            return Err(Memory);
        };
        let Ok(part_room) = self.parts.room(alloc) else {
            return Err(Memory);
        };
        let lanes = self.lanes.split(&mut hand.lanes, lane_room);
        let parts = self.parts.split(&mut hand.parts, part_room);
        hand.next = self.place_behind(hand.next);
        Ok(Hand {
            lanes,
            parts,
            next: hand.next,
        })
    }

    /// Takes another hand into the first one, each of whose passes keeps the longer of what both have seen. It takes no memory.
    pub fn join_hand(&self, hand: &mut Hand<S, L, G>, other: Hand<S, L, G>)
        requires own { IsHandOf self.now hand.old × IsHandOf self.now other }
        requires first { IsFirst hand.old }
        ensures own { IsHandOf self.now hand.new }
        ensures lanes { hand.new.lanes.views
            ≡ joined_views hand.old.lanes.views other.lanes.views }
        ensures parts { hand.new.parts.views
            ≡ joined_views hand.old.parts.views other.parts.views }
        ensures knows { Knows S.left S.lent_as S.fault_plan L.read_of hand.new }

        // What each of the two had seen begins what the first one has seen now.
        ensures seen { AllBegin hand.new hand.old }
        ensures other { AllBegin hand.new other }
    {
        self.lanes.join(&mut hand.lanes, other.lanes);
        self.parts.join(&mut hand.parts, other.parts);
    }

    /// The lanes and the parts in their order, once all other hands were joined into the first one. It takes no memory.
    pub fn close(self, hand: Hand<S, L, G>) -> (Vec<Lane<S, L>>, Vec<TurnedPart<G>>)
        requires own { IsHandOf self hand }
        requires first { IsFirst hand }
        requires all_joined { AreAllJoined hand }
        ensures lanes { AllZip
            (Closes (IsLaneTurn S.left S.lent_as S.fault_plan L.read_of) is_open_lane)
            hand.lanes.views result.0.items }
        ensures parts { AllZip (Closes IsPartTurn is_open_part) hand.parts.views result.1.items }
    {
        let _ = hand.lane_count();
        let mut lanes = self.room;
        unwrap_all(self.lanes.close(hand.lanes), &mut lanes);
        (lanes, self.parts.close(hand.parts))
    }
}
