//! The steps of a hand in a thread of its own.
ghost use Rattle.std.specs.Prelude.{◌≡◌, ◌≤◌, ◌^◌, IfNone, IfSome};
ghost use Rattle.eql_hub.specs.Hands.{IsHandOf, Knows};
ghost use Rattle.eql_hub.specs.Steps.{Steps};
ghost use Rattle.eql_hands.specs.Growth.{AreLater, HaveMineWithin};
ghost use Rattle.eql_hands.specs.Runs.{EndsIdle, MeetsFault, Ran};

use crate::gate::{Gate, Moment};
use eql_hub::{Bell, Did, Hand, HandFault, Hub};
use eql_outside::Source;
use eql_values::LineReader;
use std::hint::spin_loop;
use std::sync::Wait;
use std::sync::ledger::Ledger;

// So many steps a hand does at most.
const MOST_STEPS: u64 = 1_099_511_627_776;

// After so many steps in a row that found nothing to do a hand sleeps, and before that it only rests for a moment.
const MOST_IDLE: u32 = 24;

// Rests after so many steps in a row that found nothing to do: the longer, the more they are, until the hand sleeps.
fn pause<R: Wait>(rt: &R, bell: &Bell, idle: u32, rings: u64) {
    if idle < MOST_IDLE {
        for _ in 0..idle {
            spin_loop();
        }
    } else {
        bell.wait(rt, rings);
    }
}

// Passes the gate, does one step, and passes the gate again.
fn step_through<S: Source, L: LineReader, G: Ledger, W: Gate>(
    hub: &Hub<S, L, G>,
    hand: &mut Hand<S, L, G>,
    number: u32,
    batch: u32,
    gate: &W,
) -> Did
    requires own { IsHandOf hub.now hand.old }
    requires batch_from { 1 ≤ batch }
    requires batch_to { batch ≤ 4096 }
    ensures own { IsHandOf hub.now hand.new }
    ensures knows { Knows S.left S.lent_as S.fault_plan L.read_of hand.old
        → Knows S.left S.lent_as S.fault_plan L.read_of hand.new }
    ensures steps { Steps S.left S.lent_as S.fault_plan L.read_of batch hub.now.alone result
        hand.old hand.new }
{
    gate.step(number, Moment::Enter);
    let did = hub.hand_step(hand, batch);
    gate.step(number, Moment::Leave);
    did
}

// Does steps until the hand is to stop, and returns the fault that it met, if it met one. The rings are read before each step, so
// that none is lost between a step that found nothing and the sleep behind it.
fn play_steps<R: Wait, S: Source, L: LineReader, G: Ledger, W: Gate>(
    rt: &R,
    hub: &Hub<S, L, G>,
    bell: &Bell,
    hand: &mut Hand<S, L, G>,
    number: u32,
    batch: u32,
    gate: &W,
) -> Option<HandFault>
    requires own { IsHandOf hub.now hand.old }
    requires batch_from { 1 ≤ batch }
    requires batch_to { batch ≤ 4096 }
    ensures own { IsHandOf hub.now hand.new }
    ensures ran { Ran S.left S.lent_as S.fault_plan L.read_of batch hub.now.alone (2 ^ 40) result
        hand.old hand.new }
    ensures knows { Knows S.left S.lent_as S.fault_plan L.read_of hand.old
        → Knows S.left S.lent_as S.fault_plan L.read_of hand.new }
{
    let mut idle: u32 = 0;
    for _step in 0..MOST_STEPS {
        let rings = bell.rings();
        match step_through(hub, hand, number, batch, gate) {
            Did::Fault(fault) => return Some(fault),
            Did::Nothing => {
                if !bell.is_on() {
                    return None;
                }
                idle = MOST_IDLE.min(idle.saturating_add(1));
                pause(rt, bell, idle, rings);
            }
            Did::Fed { lane: _ } => idle = 0,
            Did::Turned { part: _ } => idle = 0,
        }
    }
    None
}

/// Plays steps of a hand, each of at most `batch` lines or events, from 1 to 4,096. It stops after a fault, which it returns, after a
/// step that found nothing to do while no run is on, and after 1,099,511,627,776 steps.
///
/// While a run is on, a hand that finds nothing to do sleeps until the bell is rung. It passes the gate with the hand's number before
/// and after each step; the gate may make it wait too.
pub fn run_hand<R: Wait, S: Source, L: LineReader, G: Ledger, W: Gate>(
    rt: &R,
    hub: &Hub<S, L, G>,
    bell: &Bell,
    hand: Hand<S, L, G>,
    number: u32,
    batch: u32,
    gate: &W,
) -> (Hand<S, L, G>, Option<HandFault>)
    requires own { IsHandOf hub.now hand }
    requires batch_from { 1 ≤ batch }
    requires batch_to { batch ≤ 4096 }
    ensures own { IsHandOf hub.now result.0 }

    // It did these steps and no others, and the fault is that of the last one.
    ensures ran { Ran S.left S.lent_as S.fault_plan L.read_of batch hub.now.alone (2 ^ 40) result.1
        hand result.0 }
    ensures knows { Knows S.left S.lent_as S.fault_plan L.read_of hand
        → Knows S.left S.lent_as S.fault_plan L.read_of result.0 }

    // Each pass is the same, and what it knew begins what it knows now.
    ensures same { AreLater hand result.0 }
    ensures fault { IfSome result.1 (λ fault. MeetsFault S.left S.lent_as S.fault_plan L.read_of
        batch hub.now.alone (2 ^ 40) fault hand result.0) }

    // Where it met no fault, its last step found nothing to do, or it did all its steps.
    ensures rest { IfNone result.1 (EndsIdle S.left S.lent_as S.fault_plan L.read_of
        batch hub.now.alone (2 ^ 40) hand result.0) }
    ensures bound { HaveMineWithin (2 ^ 40) hand result.0 }
{
    let mut hand = hand;
    let fault = play_steps(rt, hub, bell, &mut hand, number, batch, gate);
    (hand, fault)
}
