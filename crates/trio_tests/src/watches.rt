//! What watches find of small histories, and what the scan of a drift finds of the same.

use crate::histories::{END, OF_CORE_0, OF_CORE_2, OF_SERVED, SERVED, TAKEN_BY_0, TAKEN_BY_2};
use slack_base::{
    Ask, AskList, ClashList, Drift, Id, OutOfMemory, SentList, Taken, TakenList, Violation,
    ViolationList,
};
use std::alloc::Global;
use std::test::Fail;
use target_law::Trio;
use violation_watch::{Watch, scan};

/// What the manager's watch finds of asks, each with what it clashes with.
fn found_of_asks(
    alloc: Global,
    served: &[(Ask, Option<Id>)],
) -> Result<ViolationList, OutOfMemory> {
    let target = Trio::new();
    let mut watch = Watch::new(alloc);
    for (ask, clash) in served {
        watch.on_serve(&target, ask, *clash)?;
    }
    Ok(watch.into_found())
}

/// What the watch of a core finds of posts.
fn found_of_posts(alloc: Global, core: u32, taken: &[Taken]) -> Result<ViolationList, OutOfMemory> {
    let mut watch = Watch::new(alloc);
    for one in taken {
        watch.on_take(core, &one.post, one.clock, one.touched, END)?;
    }
    Ok(watch.into_found())
}

fn taken_list(alloc: Global, taken: &[Taken]) -> Result<TakenList, OutOfMemory> {
    let mut list = TakenList::new(alloc);
    for one in taken {
        list.push(*one)?;
    }
    Ok(list)
}

fn append(list: &mut ViolationList, violations: &[Violation]) -> Result<(), OutOfMemory> {
    for violation in violations {
        list.push(*violation)?;
    }
    Ok(())
}

#[test]
fn asks_in_and_out_of_order(rt: HostRuntime) -> Result<(), Fail> {
    let found = found_of_asks(rt.alloc(), SERVED.as_slice())?;
    assert_eq!(rt; found.as_slice(), OF_SERVED.as_slice());
    Ok(())
}

#[test]
fn posts_in_time_and_late(rt: HostRuntime) -> Result<(), Fail> {
    let found = found_of_posts(rt.alloc(), 0, TAKEN_BY_0.as_slice())?;
    assert_eq!(rt; found.as_slice(), OF_CORE_0.as_slice());
    let found = found_of_posts(rt.alloc(), 2, TAKEN_BY_2.as_slice())?;
    assert_eq!(rt; found.as_slice(), OF_CORE_2.as_slice());
    Ok(())
}

/// What the scan finds in a drift of three cores, of which core 1 takes nothing.
fn scanned(
    alloc: Global,
    history: &[(Ask, Option<Id>)],
    first: &[Taken],
    last: &[Taken],
) -> Result<Option<ViolationList>, OutOfMemory> {
    let mut served = AskList::new(alloc);
    let mut clashes = ClashList::new(alloc);
    for (ask, clash) in history {
        served.push(*ask)?;
        clashes.push(*clash)?;
    }
    let mut sent = SentList::new(alloc);
    sent.push(taken_list(alloc, first)?)?;
    sent.push(TakenList::new(alloc))?;
    sent.push(taken_list(alloc, last)?)?;
    if clashes.len() != served.len() {
        return Ok(None);
    }
    let drift = Drift {
        start: 10,
        len: END - 10,
        served,
        clashes,
        sent,
    };
    let found = scan(alloc, &Trio::new(), &drift)?;
    Ok(Some(found))
}

/// What the watches of the manager and of the cores find of the same.
fn watched(
    alloc: Global,
    history: &[(Ask, Option<Id>)],
    first: &[Taken],
    last: &[Taken],
) -> Result<ViolationList, OutOfMemory> {
    let mut found = found_of_asks(alloc, history)?;
    append(&mut found, found_of_posts(alloc, 0, first)?.as_slice())?;
    append(&mut found, found_of_posts(alloc, 2, last)?.as_slice())?;
    Ok(found)
}

#[test]
fn the_scan_is_what_watches_find(rt: HostRuntime) -> Result<(), Fail> {
    let alloc = rt.alloc();
    let (asks, first, last) = (
        SERVED.as_slice(),
        TAKEN_BY_0.as_slice(),
        TAKEN_BY_2.as_slice(),
    );
    let found = scanned(alloc, asks, first, last)?.expect(&rt, "a clash for each ask");
    let seen = watched(alloc, asks, first, last)?;
    assert_eq!(rt; found.as_slice(), seen.as_slice());
    let mut wanted = ViolationList::new(alloc);
    append(&mut wanted, OF_SERVED.as_slice())?;
    append(&mut wanted, OF_CORE_0.as_slice())?;
    append(&mut wanted, OF_CORE_2.as_slice())?;
    assert_eq!(rt; found.as_slice(), wanted.as_slice());
    Ok(())
}

/// A watch that has seen nothing found nothing, and one that saw a post in time neither.
#[test]
fn nothing_was_found(rt: HostRuntime) -> Result<(), Fail> {
    let mut watch = Watch::new(rt.alloc());
    assert!(rt; watch.found().is_empty());
    let [first, ..] = &TAKEN_BY_0;
    watch.on_take(0, &first.post, first.clock, first.touched, END)?;
    assert!(rt; watch.found().is_empty());
    Ok(())
}
