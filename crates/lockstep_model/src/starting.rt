//! A machine before the first cycle.
ghost use Rattle.std.specs.Prelude.{◌≡◌, ◌+◌, ◌++◌, ◌∷◌, [], None, length, map, IfOk};
ghost use Rattle.std.specs.List.{All, range_with_len};
ghost use Rattle.slack_base.specs.Images.{Fits};
ghost use Rattle.slack_base.specs.Numbers.{numbers_of};
ghost use Rattle.bus_model.specs.Channels.{AsBus};
ghost use Rattle.bus_model.specs.Starting.{first_bus};
ghost use Rattle.timed_core.specs.Code.{code_of};
ghost use Rattle.target_law.specs.Marks.{IsUnmarked};
ghost use Rattle.target_law.specs.Numbered.{AllNumbered};
ghost use Rattle.target_law.specs.Proper.{IsProper, IsPunctual};
ghost use Rattle.lockstep_model.specs.Rules.{rules_of, owns_of, stored_values};
ghost use Rattle.lockstep_model.specs.Start.{start_of, first_buses, first_console, first_core_value, IsFirstChannel};
ghost use Rattle.lockstep_model.specs.Views.{cores_of, machine_of, values_of};

use crate::rv_targets::RvTarget;
use bus_model::Channel;
use slack_base::{Config, Image, OutOfMemory, Row};
use std::alloc::Global;
use target_law::State;
use timed_core::TimedCore;

/// The state of a RISC-V machine: its cores, and its channels, which are the buses and the console after them.
pub type Machine = State<RvTarget>;

/// The machine of an image before the first cycle. The target was made of the same image. Nothing is marked.
pub fn start(alloc: Global, target: &RvTarget, image: &Image) -> Result<Machine, OutOfMemory>
    requires image { Fits target.now.config.base target.now.config.memory image.now }
    requires code { target.now.code ≡ code_of image.now (numbers_of target.now.config) }
    ensures state { IfOk result (λ m. machine_of m ≡ start_of (numbers_of target.now.config) image.now) }
    ensures proper { let t = target.now in IfOk result (λ m. IsProper (rules_of (numbers_of t.config) t.code) (owns_of (numbers_of t.config)) (machine_of m)) }
    ensures punctual { IfOk result (λ m. IsPunctual (machine_of m)) }
    ensures unmarked { IfOk result (IsUnmarked stored_values) }
{
    Ok(Machine {
        clock: 0,
        cores: first_cores(alloc, &target.config, image.entry)?,
        chans: first_channels(alloc, &target.config, image)?,
    })
}

/// The cores before the first cycle.
fn first_cores(alloc: Global, config: &Config, entry: u32) -> Result<Row<TimedCore>, OutOfMemory>
    ensures cores { IfOk result (λ cores. cores_of cores ≡ map (first_core_value (numbers_of config.now) entry) (range_with_len 0 config.now.cores)) }
    ensures unmarked { IfOk result (All (λ core. core.saved ≡ None)) }
{
    let mut cores = Row::new(alloc);
    for number in 0..config.cores {
        cores.push(TimedCore::new(alloc, number, config, entry)?)?;
    }
    Ok(cores)
}

/// The buses before the first cycle.
fn first_buses(alloc: Global, config: &Config, image: &Image) -> Result<Row<Channel>, OutOfMemory>
    requires { Fits config.now.base config.now.memory image.now }
    ensures chans { IfOk result (λ chans. values_of chans ≡ first_buses (numbers_of config.now) image.now) }
    ensures each { IfOk result (λ chans. AllNumbered (IsFirstChannel (numbers_of config.now)) 0 (values_of chans)) }
    ensures unmarked { IfOk result (All (λ chan. chan.saved ≡ None)) }
{
    let mut chans = Row::new(alloc);
    for number in 0..config.buses {
        chans.push(Channel::bus(alloc, number, config, image)?)?;
    }
    Ok(chans)
}

/// The buses and the console before the first cycle.
fn first_channels(
    alloc: Global,
    config: &Config,
    image: &Image,
) -> Result<Row<Channel>, OutOfMemory>
    requires { Fits config.now.base config.now.memory image.now }
    ensures chans { IfOk result (λ chans. values_of chans ≡ first_buses (numbers_of config.now) image.now ++ first_console ∷ []) }
    ensures count { IfOk result (λ chans. length (values_of chans) ≡ config.now.buses + 1) }
    ensures each { IfOk result (λ chans. AllNumbered (IsFirstChannel (numbers_of config.now)) 0 (values_of chans)) }
    ensures unmarked { IfOk result (All (λ chan. chan.saved ≡ None)) }
{
    let mut chans = first_buses(alloc, config, image)?;
    chans.push(Channel::console(alloc))?;
    Ok(chans)
}
