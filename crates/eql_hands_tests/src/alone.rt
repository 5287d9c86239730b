//! A hand that plays by itself on a hub, as a thread beside the conductor does.
ghost use Rattle.std.specs.Prelude.{◌≡◌, ◌≤◌};

use crate::opening::{fresh_lane, fresh_parts, source_over};
use crate::plans::plan_of;
use eql_hands::{NoGate, run_hand};
use eql_hub::{Bell, HandFault, Hub};
use eql_lane::Lane;
use eql_outside::MemSource;
use eql_stages::PlanReader;
use eql_values::Counts;
use std::alloc::Global;
use std::marker::Brand;
use std::sync::Wait;
use std::sync::ledger::{Blank, Ledger};
use std::test::Fail;

/// The query of the reference's example of pending sequences, and its events.
static QUERY: &[u8] =
    br#"sequence by user.name [process where process.name == "attrib"] [process where process.name == "bash"] [process where process.name == "cat"]"#;

static ELEVEN: &[u8] =
    br#"{"@timestamp":1000,"event":{"category":"process"},"user":{"name":"root"},"process":{"name":"attrib"}}
{"@timestamp":2000,"event":{"category":"process"},"user":{"name":"root"},"process":{"name":"attrib"}}
{"@timestamp":3000,"event":{"category":"process"},"user":{"name":"elkbee"},"process":{"name":"bash"}}
{"@timestamp":4000,"event":{"category":"process"},"user":{"name":"root"},"process":{"name":"bash"}}
{"@timestamp":5000,"event":{"category":"process"},"user":{"name":"root"},"process":{"name":"bash"}}
{"@timestamp":6000,"event":{"category":"process"},"user":{"name":"elkbee"},"process":{"name":"attrib"}}
{"@timestamp":7000,"event":{"category":"process"},"user":{"name":"root"},"process":{"name":"attrib"}}
{"@timestamp":8000,"event":{"category":"process"},"user":{"name":"elkbee"},"process":{"name":"bash"}}
{"@timestamp":9000,"event":{"category":"process"},"user":{"name":"root"},"process":{"name":"cat"}}
{"@timestamp":10000,"event":{"category":"process"},"user":{"name":"elkbee"},"process":{"name":"cat"}}
{"@timestamp":11000,"event":{"category":"process"},"user":{"name":"root"},"process":{"name":"cat"}}
"#;

/// What a further hand left: the counts of the lane, and the fault that it met.
#[derive(Drop)]
struct Played {
    counts: Counts,
    met: Option<HandFault>,
}

/// Makes a hub of one lane and of parts of three stages, and has a hand play there that was split off the first one.
fn play_alone<R: Wait, G: Ledger>(
    rt: &R,
    alloc: Global,
    lane: Lane<MemSource, PlanReader>,
    blank: Blank,
) -> Result<Played, Fail>
    requires { (blank.name ≡ G.name) × (blank.parts ≡ G.parts) × (16 ≤ G.parts) }
{
    let (_ledger, share) = blank.open::<G>();
    let parts = fresh_parts(alloc, 3, share)?;
    let lanes = vec![in alloc; lane]?;
    let Ok((hub, mut first)) = Hub::make(alloc, lanes, parts) else {
        return Err(Fail::new("no hub"));
    };
    let Ok(other) = hub.split_hand(alloc, &mut first) else {
        return Err(Fail::new("no hand"));
    };
    let (other, met) = run_hand(rt, &hub, &Bell::new(), other, 1, 4, &NoGate);
    hub.join_hand(&mut first, other);
    let (lanes, _) = hub.close(first);
    let Some(lane) = lanes.first() else {
        return Err(Fail::new("no lane"));
    };
    Ok(Played {
        counts: lane.counts(),
        met,
    })
}

/// Nobody else plays, so all that was read was read by this hand. No run is on, so it ends once there is nothing to do.
#[test]
fn a_hand_reads_a_lane_to_its_end(rt: HostRuntime) -> Result<(), Fail> {
    let alloc = rt.alloc();
    let plan = plan_of(alloc, QUERY)?;
    let lane = fresh_lane(alloc, &plan, source_over(alloc, ELEVEN)?, 0)?;
    let played = play_alone::<HostRuntime, Brand>(&rt, alloc, lane, Blank::new(16))?;
    assert!(rt; played.met.is_none());
    assert_eq!(rt; played.counts.lines, 11);
    assert_eq!(rt; played.counts.accepted, 11);
    Ok(())
}
