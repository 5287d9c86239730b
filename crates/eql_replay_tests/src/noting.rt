//! What the conductor plays on lanes and parts, call by call, in a run of two lanes, and which calls of the sink it makes.
use crate::listed::written;
use crate::plans::{REFERENCE, plan_of};
use crate::scribe::run_noted;
use crate::worked::{ELEVEN, starts};
use std::alloc::{AllocError, Global};
use std::fmt::Write;
use std::test::Fail;

/// Adds a note to each of the sixteen parts.
fn push_all(notes: &mut String, what: &str) -> Result<(), AllocError> {
    for p in 0..16u32 {
        write!(notes, "{p} {what};")?;
    }
    Ok(())
}

/// Adds the notes of turns: of these parts so many that played an event, and of each part one that played none.
fn push_turns(notes: &mut String, events: &[(u32, u32)]) -> Result<(), AllocError> {
    for p in 0..16u32 {
        for (part, count) in events {
            if *part == p {
                for _ in 0..*count {
                    write!(notes, "{p} turned 1;")?;
                }
            }
        }
        write!(notes, "{p} turned 0;")?;
    }
    Ok(())
}

/// The part of the user `root`, and that of `elkbee`.
const ROOT: u32 = 8;

const ELKBEE: u32 = 11;

/// Adds the notes of a round: each part is delivered to, is turned until nothing waits, and is collected from.
fn push_round(notes: &mut String, events: &[(u32, u32)]) -> Result<(), AllocError> {
    push_all(notes, "delivered")?;
    push_turns(notes, events)?;
    push_all(notes, "collected")
}

/// What is played on the parts: nothing in the first round, the first events of both lanes in the second, which has a
/// cut, and the others in the third.
fn parts_played(alloc: Global) -> Result<String, AllocError> {
    let mut notes = String::new(alloc);
    push_round(&mut notes, &[])?;
    push_round(&mut notes, &[(ROOT, 1), (ELKBEE, 1)])?;
    push_all(&mut notes, "snapped")?;
    push_round(&mut notes, &[(ROOT, 2)])?;
    Ok(notes)
}

/// What is played on the lanes. In the first round the lows are 1,000 and 2,000, and nothing lies below the lesser. In the
/// second they are 3,000 and 4,000, and the first line of each lies below the lesser. In the third both are at their end.
const LANES_PLAYED: &str = "0 fed 1;1 fed 1;0 low 1000;1 low 2000;0 took to 1000;1 took to 1000;\
    0 fed 1;1 fed 1;0 low 3000;1 low 4000;0 took to 3000;1 took to 3000;0 snapped;1 snapped;\
    0 closed;1 closed;0 low end;1 low end;0 took to end;1 took to end;";

/// Two texts of two lines each.
fn two_texts(alloc: Global) -> Result<Vec<Vec<u8>>, Fail> {
    let first = starts(alloc, &[(1000, "root", "attrib"), (3000, "root", "bash")])?;
    let second = starts(alloc, &[(2000, "elkbee", "bash"), (4000, "root", "cat")])?;
    Ok(vec![in alloc; first, second]?)
}

/// Two lanes are read line by line in three rounds, with a cut after the second. The match is written in the third.
#[test]
fn three_rounds_are_played_so(rt: HostRuntime) -> Result<(), Fail> {
    let alloc = rt.alloc();
    let texts = two_texts(alloc)?;
    let parts = parts_played(alloc)?;
    let plan = plan_of(alloc, REFERENCE)?;
    let noted = run_noted(alloc, &plan, &texts, 2, Vec::new(alloc))?;
    assert!(rt; noted.end.is_ok());
    assert_eq!(rt; noted.lanes.as_str(), LANES_PLAYED);
    assert_eq!(rt; noted.parts.as_str(), parts.as_str());
    assert_eq!(rt; noted.calls.as_str(), "kept;wrote 23;");
    let listing = written(alloc, &noted.sink)?;
    assert_eq!(rt; listing.as_str(), "1 [\"root\"] 0:1 0:2 1:2\n");
    Ok(())
}

/// The reference's example, read line by line, has cuts after rounds 5 and 10. Before each all is kept: nothing, and the
/// line that was written in round 10. The other is written in round 11.
#[test]
fn lines_are_written_and_then_kept(rt: HostRuntime) -> Result<(), Fail> {
    let alloc = rt.alloc();
    let texts = vec![in alloc; starts(alloc, &ELEVEN)?]?;
    let plan = plan_of(alloc, REFERENCE)?;
    let noted = run_noted(alloc, &plan, &texts, 5, Vec::new(alloc))?;
    assert!(rt; noted.end.is_ok());
    assert_eq!(rt; noted.calls.as_str(), "kept;wrote 23;kept;wrote 26;");
    Ok(())
}
