//! Running the image of an order.
ghost use Rattle.std.specs.Prelude.{◌≡◌, ◌+◌, ◌*◌, ◌^◌, ◌≤◌, length, IfOk};
ghost use Rattle.slack_base.specs.declared.bounds.TheConstants.{MOST_CORES};
ghost use Rattle.slack_base.specs.Images.{Fits};
ghost use Rattle.lockstep_model.specs.Views.{machine_of};
ghost use Rattle.stat_report.specs.Dump.{lines_in};
ghost use Rattle.target_law.specs.Ticks.{drift_ticks_of, replay_ticks_of};
ghost use Rattle.sim_words.specs.OrderValues.{order_value};
ghost use Rattle.simulate_call.specs.Outputs.{IsRun};

use image_run::{Ran, run_image};
use io_edge::Gate;
use sim_words::Order;
use slack_base::{Image, OutOfMemory};
use std::alloc::Global;
use std::thread::Threads;

/// The run of an image by an order, to the checkpoint where it stops.
pub fn run_by<R: Threads + Sync, G: Gate + Sync>(
    rt: &R,
    alloc: Global,
    gate: &G,
    order: &Order,
    image: &Image,
) -> Result<Ran, OutOfMemory>
    requires image { Fits order.now.config.base order.now.config.memory image.now }
    ensures run { IfOk result (λ r. IsRun (record { may = G.may_hold gate.now; must = G.must_hold gate.now }) (order_value order.now) image.now r.notes (machine_of r.machine)) }
    ensures drift_ticks { IfOk result (λ r. r.drift_ticks ≡ drift_ticks_of order.now.config.cores r.notes) }
    ensures replay_ticks { IfOk result (λ r. r.replay_ticks ≡ replay_ticks_of order.now.config.cores r.notes) }
    ensures cores { IfOk result (λ r. length r.machine.cores ≤ MOST_CORES) }
    ensures lines { IfOk result (λ r. order.now.config.base + 16 * lines_in (machine_of r.machine).chans ≤ 2 ^ 32) }
{
    let ran = run_image(
        rt,
        alloc,
        gate,
        &order.config,
        order.mode,
        &order.steps,
        image,
    )?;
    Ok(ran)
}
