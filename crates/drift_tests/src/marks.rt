//! A machine that drifted away from its mark, and was taken back to it.
ghost use Rattle.std.specs.Prelude.{◌≡◌, ◌+◌, ◌≤◌, IfOk};
ghost use Rattle.checkpoint.specs.Marked.{IsMarkedWhole};
ghost use Rattle.slack_base.specs.declared.bounds.TheConstants.{TOP};
ghost use Rattle.slack_base.specs.Images.{Fits};
ghost use Rattle.slack_base.specs.Numbers.{numbers_of};
ghost use Rattle.target_law.specs.Marks.{IsMarkedAt};
ghost use Rattle.target_law.specs.Proper.{IsProper};
ghost use Rattle.timed_core.specs.Code.{code_of};
ghost use Rattle.lockstep_model.specs.Rules.{owns_of, rules_of, stored_values};
ghost use Rattle.lockstep_model.specs.Views.{machine_of};

use crate::machines::{Program, STORES, Setup, are_same, is_lockstep, lockstep, setup_of};
use checkpoint::Checkpoint;
use drift_run::{Pace, drift_serial};
use io_edge::NeverHold;
use lockstep_model::{Machine, RvTarget};
use slack_base::{OutOfMemory, RawConfig};
use std::alloc::Global;
use std::process::Abort;
use std::test::Fail;

/// How the drift is paced.
const PACE: Pace = Pace {
    slack: 8,
    patience: 10,
    slots: 16,
};

/// A machine that drifted from its mark.
#[derive(Drop)]
struct Away {
    checkpoint: Checkpoint,
    machine: Machine,
}

/// Marks a machine, and lets it drift over so many cycles.
fn drift_away(
    alloc: Global,
    target: &RvTarget,
    machine: Machine,
    cycles: u64,
) -> Result<Away, OutOfMemory>
    requires proper { IsProper (rules_of (numbers_of target.now.config) target.now.code) (owns_of (numbers_of target.now.config)) (machine_of machine) }
    requires top { machine.clock + cycles ≤ TOP }
    ensures marked { IfOk result (λ r. IsMarkedAt stored_values (machine_of machine) r.machine) }
{
    let mut marked = machine;
    let checkpoint = Checkpoint::take(target, &mut marked)?;
    let drifted = drift_serial(alloc, target, marked, cycles, &PACE, &NeverHold)?;
    Ok(Away {
        checkpoint,
        machine: drifted.end,
    })
}

/// How many sets core 0 has noted, and how many lines bus 0.
fn noted_in(machine: &Machine) -> Option<(u64, u64)>
    requires { IsMarkedWhole stored_values machine.now }
{
    let core = machine.cores.get(0)?;
    let bus = machine.chans.get(0)?;
    Some((core.noted(), bus.noted()))
}

/// What comes of a machine that drifted from its mark.
#[derive(Clone, Copy)]
struct Returned {
    /// The clock to which it drifted.
    clock: u64,
    /// It wasn't as it was at its mark.
    away: bool,
    /// How many sets core 0 had noted, and how many lines bus 0.
    noted: Option<(u64, u64)>,
    /// It was taken back to what it was.
    back: bool,
    /// It was what it becomes later.
    later: bool,
}

/// A machine is marked at a clock, drifts over so many cycles, and is taken back.
fn take_back(alloc: Global, setup: &Setup, clock: u64, cycles: u64) -> Result<Returned, OutOfMemory>
    requires fits { Fits setup.now.target.config.base setup.now.target.config.memory setup.now.image }
    requires code { setup.now.target.code ≡ code_of setup.now.image (numbers_of setup.now.target.config) }
    requires top { (clock ≤ 1000) × (cycles ≤ 1000) }
{
    let machine = lockstep(alloc, setup, clock)?;
    let Away {
        checkpoint,
        mut machine,
    } = drift_away(alloc, &setup.target, machine, cycles)?;
    let reached = machine.clock;
    let noted = noted_in(&machine);
    let away = !is_lockstep(alloc, setup, clock, &machine)?;
    checkpoint.restore(&setup.target, &mut machine);
    Ok(Returned {
        clock: reached,
        away,
        noted,
        back: is_lockstep(alloc, setup, clock, &machine)?,
        later: is_lockstep(alloc, setup, clock + cycles, &machine)?,
    })
}

/// `lui x8, 1`, loads of lines 256, 257 and 256, and an exit with 0.
const TWO_LINES: Program = Program::Text(
    b"lui x8, 1\nlw x5, 0(x8)\nlw x5, 16(x8)\nlw x5, 0(x8)\naddi x17, x0, 93\naddi x10, x0, 0\necall\n",
);

/// Cores, sets, ways and buses.
type Size = (u32, u32, u32, u32);

/// A program, the size of a machine, the clock of its mark, and over how many cycles it drifts.
type Row = (Program, Size, u64, u64);

/// The machine of a row, and what comes of it.
fn taken_back<R: Abort + AllocGlobal>(rt: &R, row: &Row) -> Result<Returned, Fail> {
    let (runs, size, clock, cycles) = row;
    let (cores, sets, ways, buses) = *size;
    let numbers = RawConfig {
        cores,
        sets,
        ways,
        buses,
        ..RawConfig::DEFAULT
    };
    let setup = setup_of(rt, numbers, runs)?;
    Ok(take_back(rt.alloc(), &setup, (*clock).min(1000), (*cycles).min(1000))?)
}

/// A machine that drifted is another one, and is taken back.
#[rattlefmt::skip]
const ROWS: [Row; 20] = [
    // Two cores that store to one line. At cycle 5 core 0 waits for it, and core 1 asks once more.
    (STORES, (2, 16, 4, 1), 5, 60),
    // One core, marked before the first cycle. It fills the sets of lines 256 and 257, and the bus sends these two lines.
    (TWO_LINES, (1, 16, 4, 1), 0, 37),
    // Generated programs, on machines of all sizes.
    (Program::Seed(1), (1, 1, 1, 1), 40, 60),
    (Program::Seed(1), (2, 64, 8, 2), 40, 60),
    (Program::Seed(1), (3, 4, 2, 4), 40, 60),
    (Program::Seed(1), (4, 2, 1, 1), 40, 60),
    (Program::Seed(1), (5, 16, 4, 2), 40, 60),
    (Program::Seed(1), (8, 8, 1, 4), 40, 60),
    (Program::Seed(2), (1, 1, 1, 1), 40, 60),
    (Program::Seed(2), (2, 64, 8, 2), 40, 60),
    (Program::Seed(2), (3, 4, 2, 4), 40, 60),
    (Program::Seed(2), (4, 2, 1, 1), 40, 60),
    (Program::Seed(2), (5, 16, 4, 2), 40, 60),
    (Program::Seed(2), (8, 8, 1, 4), 40, 60),
    (Program::Seed(3), (1, 1, 1, 1), 40, 60),
    (Program::Seed(3), (2, 64, 8, 2), 40, 60),
    (Program::Seed(3), (3, 4, 2, 4), 40, 60),
    (Program::Seed(3), (4, 2, 1, 1), 40, 60),
    (Program::Seed(3), (5, 16, 4, 2), 40, 60),
    (Program::Seed(3), (8, 8, 1, 4), 40, 60),
];

#[test]
fn machines_are_taken_back(rt: HostRuntime) -> Result<(), Fail> {
    for (place, row) in ROWS.iter().enumerate() {
        let found = taken_back(&rt, row)?;
        let (runs, _, clock, cycles) = row;
        assert_eq!(rt;
            found.clock,
            (*clock).saturating_add(*cycles),
            "row {place}"
        );
        assert!(rt; found.away && found.back && !found.later, "row {place}");
        if let Program::Text(_) = runs {
            assert_eq!(rt; found.noted, Some((2, 2)));
        }
    }
    Ok(())
}
