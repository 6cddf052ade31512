//! Notes worked by hand.
use slack_base::{
    AskList, ClashList, Drift, Id, Interval, NoteList, OutOfMemory, SentList, Violation,
    ViolationList,
};
use stat_report::notes_text;
use std::alloc::Global;
use std::test::Fail;

const fn id(cycle: u64, core: u32, number: u64) -> Id {
    Id {
        cycle,
        core,
        number,
    }
}

/// A drift in which nothing was served.
fn drift(alloc: Global) -> Drift {
    Drift {
        start: 0,
        len: 12,
        served: AskList::new(alloc),
        clashes: ClashList::new(alloc),
        sent: SentList::new(alloc),
    }
}

/// What was served in the wrong order.
fn out_of_order(alloc: Global) -> Result<ViolationList, OutOfMemory> {
    let mut seen = ViolationList::new(alloc);
    seen.push(Violation::Bus {
        channel: 1,
        high: id(7, 1, 0),
        low: id(5, 0, 2),
    })?;
    seen.push(Violation::Map {
        line: 256,
        high: id(9, 0, 0),
        low: id(8, 1, 1),
    })?;
    seen.push(Violation::Bus {
        channel: 0,
        high: id(4, 1, 0),
        low: id(3, 2, 0),
    })?;
    Ok(seen)
}

/// What was taken late.
fn late(alloc: Global) -> Result<ViolationList, OutOfMemory> {
    let mut seen = ViolationList::new(alloc);
    seen.push(Violation::Line {
        core: 2,
        id: id(12, 1, 0),
        due: 14,
        clock: 15,
    })?;
    seen.push(Violation::Reply {
        core: 3,
        id: id(9, 1, 0),
        due: 11,
        clock: 12,
    })?;
    Ok(seen)
}

#[test]
fn notes_of_each_kind(rt: HostRuntime) -> Result<(), Fail> {
    let alloc = rt.alloc();
    let mut notes = NoteList::new(alloc);
    notes.push(Interval::Kept { cycles: 1000 })?;
    notes.push(Interval::Rolled {
        cycles: 12,
        drift: drift(alloc),
        seen: out_of_order(alloc)?,
    })?;
    notes.push(Interval::Bounded {
        cycles: 30,
        drift: drift(alloc),
        seen: late(alloc)?,
    })?;
    let expected =
        b"interval 0 kept 1000\ninterval 1 rolled 12 bus 2 map 1 line 0 reply 0\nbus channel 1 high 7.1.0 low 5.0.2\nmap line 256 high 9.0.0 low 8.1.1\nbus channel 0 high 4.1.0 low 3.2.0\ninterval 2 bounded 30 bus 0 map 0 line 1 reply 1\nline core 2 id 12.1.0 due 14 clock 15\nreply core 3 id 9.1.0 due 11 clock 12\nticks drift 2084 replay 24\n";
    assert_eq!(rt;
        notes_text(alloc, &notes, 2084, 24)?.as_slice(),
        expected.as_slice()
    );
    Ok(())
}
