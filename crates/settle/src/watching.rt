//! Monitors see what was added to a history.
ghost use Rattle.std.specs.Prelude.{◌≡◌, ◌≤◌, OnOk, length, take};
ghost use Rattle.violation_watch.specs.Watching.{SawServed, SawTaken};

use slack_base::{Ask, Id, OutOfMemory, Taken};
use target_law::Target;
use violation_watch::Watch;

/// The manager's watch, which saw the first asks served, sees the others, each with what it clashed with.
///
/// Out of memory: it has seen some of them.
pub fn watch_served<T: Target>(
    target: &T,
    watch: &mut Watch,
    served: &[Ask],
    clashes: &[Option<Id>],
    from: usize,
) -> Result<(), OutOfMemory>
    requires count { length clashes.now ≡ length served.now }
    requires from { from ≤ length served.now }
    requires saw { SawServed (T.rules target.now) (take from clashes.now) (take from served.now) watch.old }
    ensures { OnOk result (SawServed (T.rules target.now) clashes.now served.now watch.new) }
{
    for place in from..served.len() {
        watch.on_serve(target, &served[place], clashes[place])?;
    }
    Ok(())
}

/// A core's watch, which saw the first posts taken, sees the others, in a drift that ends at clock `end`.
///
/// Out of memory: it has seen some of them.
pub fn watch_taken(
    core: u32,
    end: u64,
    watch: &mut Watch,
    taken: &[Taken],
    from: usize,
) -> Result<(), OutOfMemory>
    requires from { from ≤ length taken.now }
    requires saw { SawTaken core end (take from taken.now) watch.old }
    ensures { OnOk result (SawTaken core end taken.now watch.new) }
{
    for place in from..taken.len() {
        let at = taken[place];
        watch.on_take(core, &at.post, at.clock, at.touched, end)?;
    }
    Ok(())
}
