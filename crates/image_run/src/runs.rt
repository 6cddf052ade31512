//! Running an image.
ghost use Rattle.std.specs.Prelude.{◌≡◌, IfOk};
ghost use Rattle.slack_base.specs.Images.{Fits};
ghost use Rattle.slack_base.specs.Numbers.{numbers_of};
ghost use Rattle.target_law.specs.Proper.{IsProper};
ghost use Rattle.lockstep_model.specs.Rules.{owns_of};
ghost use Rattle.lockstep_model.specs.Views.{machine_of};
ghost use Rattle.image_run.specs.Ends.{IsRunEnd, rules_for};
ghost use Rattle.target_law.specs.Ticks.{drift_ticks_of, replay_ticks_of};

use crate::modes::run_in_mode;
use io_edge::Gate;
use lockstep_model::{Machine, RvTarget, start};
use sim_words::Mode;
use slack_base::{Config, Image, NoteList, OutOfMemory, StepList};
use std::alloc::Global;
use std::thread::Threads;
use target_law::{Bounded, drift_ticks, replay_ticks};

/// What a run left: the machine at its end, the notes of its intervals, and the ticks that its cores made in drifts and in
/// replays.
#[derive(Drop)]
pub struct Ran {
    pub machine: Machine,
    pub notes: NoteList,
    pub drift_ticks: u64,
    pub replay_ticks: u64,
}

/// Runs an image in a mode, by these steps if it is of a given interleaving, to the checkpoint where the run
/// stops.
pub fn run_image<R: Threads + Sync, G: Gate + Sync>(
    rt: &R,
    alloc: Global,
    gate: &G,
    config: &Config,
    mode: Mode,
    steps: &StepList,
    image: &Image,
) -> Result<Ran, OutOfMemory>
    requires image { Fits config.now.base config.now.memory image.now }
    ensures end { IfOk result (λ r. IsRunEnd (record { may = G.may_hold gate.now; must = G.must_hold gate.now }) (numbers_of config.now) mode steps.now image.now r.notes (machine_of r.machine)) }
    ensures proper { IfOk result (λ r. IsProper (rules_for (numbers_of config.now) image.now) (owns_of (numbers_of config.now)) (machine_of r.machine)) }
    ensures drift_ticks { IfOk result (λ r. r.drift_ticks ≡ drift_ticks_of config.now.cores r.notes) }
    ensures replay_ticks { IfOk result (λ r. r.replay_ticks ≡ replay_ticks_of config.now.cores r.notes) }
{
    let target = RvTarget::make(alloc, *config, image)?;
    let machine = start(alloc, &target, image)?;
    let Bounded { end, notes } = run_in_mode(
        rt, alloc, gate, &target, machine, config, mode, steps,
    )?;
    let drift_ticks = drift_ticks(config.cores, &notes);
    let replay_ticks = replay_ticks(config.cores, &notes);
    Ok(Ran {
        machine: end,
        notes,
        drift_ticks,
        replay_ticks,
    })
}
