//! Replays that were worked out by hand: the reference's example of pending sequences, and a part on which nothing waits.
ghost use Rattle.std.specs.Prelude.{◌≡◌, ◌<◌};

use crate::listed::list;
use crate::plans::{REFERENCE, plan_of};
use eql_auto::Steps;
use eql_parts::{Part, PartOp, PartReply};
use eql_replay::{Foreign, Foreigns};
use eql_values::{Holders, Mark};
use std::alloc::Global;
use std::marker::Brand;
use std::process::Abort;
use std::sync::ledger::{Blank, Ledger};
use std::test::Fail;

/// The events of the reference's example: the time in milliseconds, the user and the process of each.
pub(crate) const ELEVEN: [(u32, &str, &str); 11] = [
    (1000, "root", "attrib"),
    (2000, "root", "attrib"),
    (3000, "elkbee", "bash"),
    (4000, "root", "bash"),
    (5000, "root", "bash"),
    (6000, "elkbee", "attrib"),
    (7000, "root", "attrib"),
    (8000, "elkbee", "bash"),
    (9000, "root", "cat"),
    (10000, "elkbee", "cat"),
    (11000, "root", "cat"),
];

/// The lines that they list.
pub(crate) const LISTED: &str = "1 [\"root\"] 0:2 0:4 0:9\n2 [\"elkbee\"] 0:6 0:8 0:10\n";

/// A text of such events.
pub(crate) fn starts(alloc: Global, events: &[(u32, &str, &str)]) -> Result<Vec<u8>, Fail> {
    let mut text = String::new(alloc);
    for (ms, user, name) in events {
        write!(
            text,
            "{{\"@timestamp\":{ms},\"event\":{{\"category\":\"process\"}},\"user\":{{\"name\":\"{user}\"}},\"process\":{{\"name\":\"{name}\"}}}}\n"
        )?;
    }
    Ok(text.into_bytes())
}

/// What is played before the first call and before the fifth.
fn plays(alloc: Global, first: Foreign, fifth: Foreign) -> Result<Vec<Foreigns>, Fail> {
    let mut plays = Vec::new(alloc);
    plays.push(Foreigns::of(vec![in alloc; first]?))?;
    for _ in 0..3 {
        plays.push(Foreigns::of(Vec::new(alloc)))?;
    }
    plays.push(Foreigns::of(vec![in alloc; fifth]?))?;
    Ok(plays)
}

const FEED: Foreign = Foreign::Feed { lane: 0, max: 3 };

const TURN: Foreign = Foreign::Turn { part: 0, max: 1 };

/// With three lines fed by others before the first call, and a part turned before the fifth, and the other way round.
#[test]
fn others_change_nothing_of_the_references_example(rt: HostRuntime) -> Result<(), Fail> {
    let alloc = rt.alloc();
    let plan = plan_of(alloc, REFERENCE)?;
    let texts = vec![in alloc; starts(alloc, &ELEVEN)?]?;
    for (first, fifth) in [(FEED, TURN), (TURN, FEED)] {
        for (slack, batch) in [(None, 256), (None, 1), (Some(0), 1), (Some(0), 256)] {
            let plays = plays(alloc, first, fifth)?;
            let listed = list(alloc, &plan, &texts, slack, batch, plays)?;
            assert!(rt; listed.is_done);
            assert_eq!(rt; listed.listing.as_str(), LISTED);
        }
    }
    Ok(())
}

/// A turn of a part of two stages, with no span, on which nothing waits.
fn check_idle<R: Abort, G: Ledger>(rt: &R, alloc: Global, blank: Blank) -> Result<(), Fail>
    requires { (blank.name ≡ G.name) × (blank.parts ≡ G.parts) × (0 < G.parts) }
{
    let (_kept, share) = blank.open::<G>();
    let mut steps = Steps::of(share);
    let none = Holders::of(Vec::new(alloc));
    let mut part = Part::new(alloc, 2, None, none, Mark::Start, &mut steps)?;
    let is_idle = match part.play(PartOp::Turn { max: 1 }, &mut steps) {
        PartReply::Idle => true,
        _ => false,
    };
    assert!(rt; is_idle);
    Ok(())
}

#[test]
fn a_part_with_nothing_to_play_is_idle(rt: HostRuntime) -> Result<(), Fail> {
    check_idle::<HostRuntime, Brand>(&rt, rt.alloc(), Blank::new(1))
}
