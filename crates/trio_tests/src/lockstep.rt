//! The small machine cycle by cycle, and by leaps, beside what it does by hand.
ghost use Rattle.std.specs.Prelude.{◌≤◌, OnOk};
ghost use Rattle.slack_base.specs.declared.bounds.TheConstants.{TOP};
ghost use Rattle.target_law.specs.Proper.{IsProper, IsPunctual};
ghost use Rattle.target_law.specs.Trio.{trio_rules, trio_owns, trio_values};
ghost use Rattle.target_law.specs.Views.{state_of};

use crate::machine::{Calls, Reached, TEN, TWENTY, calls_of, reached};
use leap_run::run;
use slack_base::{OutOfMemory, TOP};
use std::alloc::Global;
use std::test::Fail;
use target_law::{State, Trio, cycle, stopped};

/// What is done with a state.
enum Step {
    /// Each cycle up to a clock.
    To(u64),
    /// By leaps up to a clock.
    Leap(u64),
    /// By leaps in intervals of so many cycles, until all cores have ended or a clock is reached.
    Run(u64, u64),
    /// One cycle.
    Cycle,
}

/// What comes of some steps from the start: the state, whether it is stopped, and the calls that were made.
type Run = (&'static str, &'static [Step], Reached, bool, Calls);

/// The fifth post is counted by core 1 at 10 (asked at 8), by core 2 at 14 (asked at 12) and by core 0 at 18 (asked at 16). So
/// all have ended after the cycle of 18.
#[rattlefmt::skip]
const RUNS: [Run; 8] = [
    ("twenty cycles one by one", &[Step::To(20)], TWENTY, true, (60, 22, 22)),
    ("twenty cycles by leaps", &[Step::Leap(20)], TWENTY, true, (60, 22, 22)),
    // Of the checkpoints 7, 14 and 21 the last is the first after all have ended. Asks: 11, 7 and 6; those of 18 or before
    // are counted, 10, 7 and 5.
    ("a run to its stop", &[Step::Run(7, 100)], (21, [5, 10, 7], 24), true, (63, 24, 24)),
    // Asks: 6, 4 and 3; those of 9 or before are counted, 5, 4 and 3.
    ("a run to its limit", &[Step::Run(7, 12)], (12, [3, 5, 4], 13), false, (36, 13, 13)),
    ("a run that begins at its limit", &[Step::Run(7, 12), Step::Run(7, 12)], (12, [3, 5, 4], 13), false, (36, 13, 13)),
    // Each core asks at 12 once more; that of core 0 at 10 is counted.
    ("one cycle more", &[Step::Run(7, 12), Step::Cycle], (13, [3, 6, 4], 16), false, (39, 16, 16)),
    ("intervals of one cycle", &[Step::Run(1, 10)], TEN, false, (30, 12, 12)),
    // Of the checkpoints 10, 20, 30 and 40 the second is the first at which all have ended.
    ("a run that goes on", &[Step::Run(1, 10), Step::Run(10, 40)], TWENTY, true, (60, 22, 22)),
];

/// A clock to which a state can come from this one.
fn ahead(now: u64, clock: u64) -> u64
    requires { now ≤ TOP }
    ensures { (now ≤ result) × (result ≤ TOP) }
{
    clock.min(TOP).max(now)
}

/// Does a step.
fn go(alloc: Global, target: &Trio, state: &mut State<Trio>, step: &Step) -> Result<(), OutOfMemory>
    requires proper { IsProper trio_rules trio_owns (state_of trio_values state.old) }
    requires punctual { IsPunctual (state_of trio_values state.old) }
    ensures proper { OnOk result (IsProper trio_rules trio_owns (state_of trio_values state.new)) }
    ensures punctual { OnOk result (IsPunctual (state_of trio_values state.new)) }
{
    let now = state.clock;
    match *step {
        Step::To(clock) => target_law::run_to(alloc, target, state, ahead(now, clock)),
        Step::Leap(clock) => leap_run::run_to(alloc, target, state, ahead(now, clock)),
        Step::Run(interval, limit) => {
            run(alloc, target, state, interval.max(1), ahead(now, limit))
        }
        Step::Cycle => {
            if now == TOP {
                return Ok(());
            }
            cycle(alloc, target, state)
        }
    }
}

/// What comes of some steps from the start.
fn ran(alloc: Global, steps: &[Step]) -> Result<(Reached, bool, Calls), OutOfMemory> {
    let target = Trio::new();
    let mut state = Trio::start(alloc)?;
    for step in steps {
        go(alloc, &target, &mut state, step)?;
    }
    Ok((reached(&state), stopped(&target, &state), calls_of(&target)))
}

#[test]
fn runs(rt: HostRuntime) -> Result<(), Fail> {
    for (name, steps, end, has_stopped, calls) in &RUNS {
        let (found, ended, made) = ran(rt.alloc(), steps)?;
        assert_eq!(rt; found, *end, "{name}");
        assert_eq!(rt; (ended, made), (*has_stopped, *calls), "{name}");
    }
    Ok(())
}
