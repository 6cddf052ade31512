//! The scan of a drift.
ghost use Rattle.std.specs.Prelude.{◌≡◌, ◌+◌, ◌^◌, ◌<◌, ◌≤◌, [], ◌++◌, length, IfOk, OnOk};
ghost use Rattle.std.specs.List.{flat_map};
ghost use Rattle.slack_base.specs.declared.bounds.TheConstants.{TOP};
ghost use Rattle.violation_watch.specs.Scan.{all_serve_entries, all_take_entries, take_entries, scan_of};
ghost use Rattle.violation_watch.specs.Watching.{Knows};

use crate::watches::Watch;
use slack_base::{Ask, Drift, Id, OutOfMemory, Taken, TakenList, ViolationList};
use std::alloc::Global;
use target_law::Target;

/// All that monitors record of a drift, in order: of the asks as they were served, and then of the posts of core after
/// core.
pub fn scan<T: Target>(
    alloc: Global,
    target: &T,
    drift: &Drift,
) -> Result<ViolationList, OutOfMemory>
    requires clashes { length drift.now.clashes ≡ length drift.now.served }
    requires end { drift.now.start + drift.now.len ≤ TOP }
    requires cores { length drift.now.sent < 2 ^ 32 }
    ensures { IfOk result (λ found. found ≡ scan_of (T.rules target.now) drift.now) }
{
    let mut watch = Watch::new(alloc);
    see_served(
        &mut watch,
        target,
        drift.served.as_slice(),
        drift.clashes.as_slice(),
    )?;
    see_sent(&mut watch, drift.sent.as_slice(), drift.start + drift.len)?;
    Ok(watch.into_found())
}

/// Shows a watch that is new all asks that were served.
fn see_served<T: Target>(
    watch: &mut Watch,
    target: &T,
    asks: &[Ask],
    clashes: &[Option<Id>],
) -> Result<(), OutOfMemory>
    requires new { Knows [] watch.old }
    requires clashes { length clashes.now ≡ length asks.now }
    ensures { OnOk result (watch.new.found ≡ watch.old.found ++ all_serve_entries (T.rules target.now) [] clashes.now asks.now) }
{
    for (ask, clash) in asks.iter().zip(clashes) {
        watch.on_serve(target, ask, *clash)?;
    }
    Ok(())
}

/// Shows a watch the posts of all cores.
fn see_sent(watch: &mut Watch, sent: &[TakenList], end: u64) -> Result<(), OutOfMemory>
    requires { length sent.now < 2 ^ 32 }
    ensures { OnOk result (watch.new.found ≡ watch.old.found ++ all_take_entries 0 end sent.now) }
{
    for (core, taken) in sent.iter().enumerate() {
        see_taken(watch, core as u32, taken.as_slice(), end)?;
    }
    Ok(())
}

/// Shows a watch the posts of a core.
fn see_taken(watch: &mut Watch, core: u32, taken: &[Taken], end: u64) -> Result<(), OutOfMemory>
    ensures { OnOk result (watch.new.found ≡ watch.old.found ++ flat_map (take_entries core end) taken.now) }
{
    for one in taken {
        watch.on_take(core, &one.post, one.clock, one.touched, end)?;
    }
    Ok(())
}
