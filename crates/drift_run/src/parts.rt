//! What the actors leave once their legs are done, and what their monitors see after that.
ghost use Rattle.std.specs.Prelude.{◌≡◌, ◌++◌, map, IfOk, OnOk};
ghost use Rattle.manager.specs.Places.{PlacePairs};
ghost use Rattle.violation_watch.specs.Scan.{all_take_entries};
ghost use Rattle.drift_run.specs.Parts.{part_of, watch_of, HasSeenFirst};

use core_actor::{ActorParts, CoreActor};
use drive_script::Lane;
use settle::{Part, watch_taken};
use slack_base::{OutOfMemory, Taken, Violation, ViolationList};
use std::alloc::Global;
use violation_watch::Watch;

/// A core's monitor, the number of the core, and how many posts the monitor has seen.
#[derive(Drop)]
pub(crate) struct CoreWatch {
    core: u32,
    watch: Watch,
    seen: usize,
}

impl CoreWatch {
    ghost use Rattle.std.specs.Prelude.{◌≡◌, ◌≤◌, ◌++◌, length, take, OnOk};
    ghost use Rattle.std.specs.List.{flat_map};
    ghost use Rattle.violation_watch.specs.Scan.{take_entries};
    ghost use Rattle.violation_watch.specs.Watching.{SawTaken};

    /// The monitor sees the posts that the core took since, and all that it found goes behind the list.
    fn see_rest(
        mut self,
        end: u64,
        taken: &[Taken],
        found: &mut ViolationList,
    ) -> Result<(), OutOfMemory>
        requires seen { self.seen ≤ length taken.now }
        requires saw { SawTaken self.core end (take self.seen taken.now) self.watch }
        ensures { OnOk result (found.new ≡ found.old ++ flat_map (take_entries self.core end) taken.now) }
    {
        watch_taken(self.core, end, &mut self.watch, taken, self.seen)?;
        append(found, self.watch.found().as_slice())
    }
}

/// Puts violations behind a list.
fn append(list: &mut ViolationList, more: &[Violation]) -> Result<(), OutOfMemory>
    ensures { OnOk result (list.new ≡ list.old ++ more.now) }
{
    for one in more {
        list.push(*one)?;
    }
    Ok(())
}

/// The part that an actor brings to the end of its drift, and its monitor.
fn part_of<C: Send + Drop>(actor: CoreActor<C>) -> (Part<C>, CoreWatch)
    ensures part { result.0 ≡ part_of actor }
    ensures watch { result.1 ≡ watch_of actor }
{
    let number = actor.pacer.number();
    let seen = actor.lane.taken.len();
    let ActorParts {
        lane,
        asks,
        posts,
        watch,
    } = actor.into_raw();
    let Lane {
        core,
        clock,
        posts: waiting,
        taken,
        ..
    } = lane;
    let part = Part {
        core,
        clock,
        taken,
        waiting,
        asks,
        posts,
    };
    let watch = CoreWatch {
        core: number,
        watch,
        seen,
    };
    (part, watch)
}

/// The parts and the monitors of actors, in their order.
pub(crate) fn parts_of<C: Send + Drop>(
    alloc: Global,
    actors: Vec<CoreActor<C>>,
) -> Result<(Vec<Part<C>>, Vec<CoreWatch>), OutOfMemory>
    ensures parts { IfOk result (λ r. r.0.items ≡ map part_of actors.items) }
    ensures watches { IfOk result (λ r. r.1.items ≡ map watch_of actors.items) }
{
    let mut parts = Vec::with_capacity(alloc, actors.len())?;
    let mut watches = Vec::with_capacity(alloc, actors.len())?;
    for actor in actors {
        let (part, watch) = part_of(actor);
        parts.push(part)?;
        watches.push(watch)?;
    }
    Ok((parts, watches))
}

/// The monitors of all cores see what the cores took since, in a drift that ends at clock `end`. What they found goes
/// behind what was found before, core after core.
pub(crate) fn see_rest<C: Drop>(
    end: u64,
    lanes: &[Lane<C>],
    watches: Vec<CoreWatch>,
    before: ViolationList,
) -> Result<ViolationList, OutOfMemory>
    requires { PlacePairs (HasSeenFirst end) lanes.now watches.items }
    ensures { IfOk result (λ found. found ≡ before ++ all_take_entries 0 end (map (λ lane. lane.taken) lanes.now)) }
{
    let mut found = before;
    for (lane, watch) in lanes.iter().zip(watches) {
        watch.see_rest(end, lane.taken.as_slice(), &mut found)?;
    }
    Ok(found)
}
