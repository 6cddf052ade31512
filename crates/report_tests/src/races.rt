//! Two cores that race for a line: what is told of them, and that no line breaks meanwhile.
ghost use Rattle.std.specs.Prelude.{◌≡◌, ◌≤◌};
ghost use Rattle.slack_base.specs.declared.bounds.TheConstants.{TOP};
ghost use Rattle.slack_base.specs.Numbers.{numbers_of};
ghost use Rattle.target_law.specs.Proper.{IsProper};
ghost use Rattle.lockstep_model.specs.Rules.{owns_of, rules_of};
ghost use Rattle.lockstep_model.specs.Views.{machine_of};

use crate::machines::{RACE, STORES, TWO_CORES, image_of};
use coherence_law::{LineList, breaks};
use lockstep_model::{Machine, RvTarget, start};
use slack_base::{Config, OutOfMemory};
use stat_report::{report_json, report_text};
use std::alloc::Global;
use std::test::Fail;
use target_law::{run_to, stopped};
use timed_core::TimedCore;

/// The lines of a machine that break.
fn broken(alloc: Global, _target: &RvTarget, machine: &Machine) -> Result<LineList, OutOfMemory>
    requires { IsProper (rules_of (numbers_of _target.now.config) _target.now.code) (owns_of (numbers_of _target.now.config)) (machine_of machine.now) }
{
    breaks(alloc, machine)
}

/// Whether no line of a machine breaks in its first cycles.
fn stays_coherent(
    alloc: Global,
    target: &RvTarget,
    machine: &mut Machine,
    cycles: u64,
) -> Result<bool, OutOfMemory>
    requires first { machine.old.clock ≡ 0 }
    requires top { cycles ≤ TOP }
    requires proper { IsProper (rules_of (numbers_of target.now.config) target.now.code) (owns_of (numbers_of target.now.config)) (machine_of machine.old) }
{
    for clock in 0..cycles {
        run_to(alloc, target, machine, clock + 1)?;
        if !broken(alloc, target, machine)?.is_empty() {
            return Ok(false);
        }
    }
    Ok(true)
}

/// Whether a core had to give up a line to another.
fn have_raced(cores: &[TimedCore]) -> bool {
    cores.iter().any(|core| core.counts().snoops > 0)
}

/// The machine of a program for two cores after so many cycles.
fn machine_after(
    alloc: Global,
    config: Config,
    program: &[u8],
    cycles: u64,
) -> Result<Option<Machine>, OutOfMemory>
    requires { cycles ≤ TOP }
{
    if config.base != 0 || program.is_empty() || program.len() > config.memory as usize {
        return Ok(None);
    }
    let image = image_of(alloc, program, config.memory)?;
    let target = RvTarget::make(alloc, config, &image)?;
    let mut machine = start(alloc, &target, &image)?;
    run_to(alloc, &target, &mut machine, cycles)?;
    Ok(Some(machine))
}

/// Whether two cores race for a line, so that it moves from one to the other, and no line breaks until both have ended.
fn races(alloc: Global, config: Config, program: &[u8]) -> Result<bool, OutOfMemory> {
    if config.base != 0 || program.is_empty() || program.len() > config.memory as usize {
        return Ok(false);
    }
    let image = image_of(alloc, program, config.memory)?;
    let target = RvTarget::make(alloc, config, &image)?;
    let mut machine = start(alloc, &target, &image)?;
    let stays = stays_coherent(alloc, &target, &mut machine, 100)?;
    Ok(stays && stopped(&target, &machine) && have_raced(machine.cores.as_slice()))
}

#[test]
fn a_race_breaks_no_line(rt: HostRuntime) -> Result<(), Fail> {
    let config = Config::checked(TWO_CORES).expect(&rt, "two cores");
    assert!(rt; races(rt.alloc(), config, RACE)?);
    Ok(())
}

/// As `docs/MACHINE.md` has it cycle by cycle.
#[rattlefmt::skip]
const TEXT: &[u8] = b"\
    cores 2\ncycles 22\n\
    core 0 exit 0 at 14 retired 5 accesses 1 misses 1 retries 0 waits 9 snoops 1 writebacks 0\n\
    core 1 exit 0 at 21 retired 5 accesses 1 misses 6 retries 5 waits 11 snoops 0 writebacks 0\n\
    bus 0 asks 8 retries 5 free 17\nconsole 0\n\n";

#[rattlefmt::skip]
const OBJECT: &[u8] = b"\
    {\"buses\":[{\"asks\":8,\"free\":17,\"retries\":5}],\"console\":\"\",\"cores\":[\
    {\"accesses\":1,\"at\":14,\"end\":\"exit\",\"misses\":1,\"retired\":5,\"retries\":0,\"snoops\":1,\"value\":0,\"waits\":9,\"writebacks\":0},\
    {\"accesses\":1,\"at\":21,\"end\":\"exit\",\"misses\":6,\"retired\":5,\"retries\":5,\"snoops\":0,\"value\":0,\"waits\":11,\"writebacks\":0}\
    ],\"cycles\":22}\n";

#[test]
fn two_cores_store_to_one_line(rt: HostRuntime) -> Result<(), Fail> {
    let config = Config::checked(TWO_CORES).expect(&rt, "two cores");
    let machine = machine_after(rt.alloc(), config, STORES, 100)?.expect(&rt, "a machine");
    assert_eq!(rt; report_text(rt.alloc(), &machine)?.as_slice(), TEXT);
    assert_eq!(rt; report_json(rt.alloc(), &machine)?.as_slice(), OBJECT);
    Ok(())
}
