//! A lane that holds so many events that it reads no further until some are taken.
use crate::listed::written;
use crate::plans::{REFERENCE, plan_of};
use crate::scribe::run_noted;
use crate::worked::starts;
use eql_replay::{Foreign, Foreigns};
use std::alloc::Global;
use std::fmt::Write;
use std::test::Fail;

/// As many events of no stage, a millisecond apart from second 1 on, and one behind them that is the last of a sequence.
fn many_events(alloc: Global, count: u32) -> Result<Vec<u8>, Fail> {
    let mut text = String::new(alloc);
    for i in 0..count {
        let ms = i.saturating_add(1000);
        write!(text, "{{\"@timestamp\":{ms}}}\n")?;
    }
    let last = starts(alloc, &[(count.saturating_add(1000), "root", "cat")])?;
    text.push_str(str::from_utf8(last.as_slice())?)?;
    Ok(text.into_bytes())
}

/// What others play before the first call: they feed lane 0 with 65,537 lines.
fn fill(alloc: Global) -> Result<Vec<Foreigns>, Fail> {
    let mut feeds = Vec::new(alloc);
    for _ in 0..16 {
        feeds.push(Foreign::Feed { lane: 0, max: 4096 })?;
    }
    feeds.push(Foreign::Feed { lane: 0, max: 1 })?;
    Ok(vec![in alloc; Foreigns::of(feeds)]?)
}

/// Others have read 65,537 events of lane 0, of which all but the newest lie below its low. So it tells that 65,536
/// are held, in each of the three rounds until lane 1 is read to its end. Then they are taken, and lane 0 is read on.
#[test]
fn a_full_lane_waits_until_its_events_are_taken(rt: HostRuntime) -> Result<(), Fail> {
    let alloc = rt.alloc();
    let plan = plan_of(alloc, REFERENCE)?;
    let first = many_events(alloc, 65_537)?;
    let second = starts(alloc, &[(10, "root", "attrib"), (20, "root", "bash")])?;
    let texts = vec![in alloc; first, second]?;
    let noted = run_noted(alloc, &plan, &texts, 100, fill(alloc)?)?;
    let mut lanes = String::new(alloc);
    lanes.push_str("0 held 65536;1 fed 1;0 low 66536;1 low 10;0 took to 10;1 took to 10;")?;
    lanes.push_str("0 held 65536;1 fed 1;0 low 66536;1 low 20;0 took to 20;1 took to 20;")?;
    lanes.push_str("0 held 65536;1 closed;0 low 66536;1 low end;0 took to 66536;1 took to 66536;")?;
    lanes.push_str("0 fed 1;1 closed;0 low 66537;1 low end;0 took to 66537;1 took to 66537;")?;
    lanes.push_str("0 closed;1 closed;0 low end;1 low end;0 took to end;1 took to end;")?;
    assert_eq!(rt; noted.lanes.as_str(), lanes.as_str());
    assert!(rt; noted.end.is_ok());
    assert_eq!(rt;
        written(alloc, &noted.sink)?.as_str(),
        "1 [\"root\"] 1:1 1:2 0:65538\n"
    );
    Ok(())
}
