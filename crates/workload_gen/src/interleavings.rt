//! Generated interleavings.
ghost use Rattle.std.specs.Prelude.{◌≡◌, ◌≤◌, map, IfOk};
ghost use Rattle.workload_gen.specs.Choices.{step};
ghost use Rattle.workload_gen.specs.Draws.{draws};

use crate::choices::step;
use crate::draws::Draws;
use slack_base::{OutOfMemory, StepList};
use std::alloc::Global;

/// So many steps of so many cores, one for each word that is drawn with the seed.
pub fn steps(alloc: Global, seed: u32, cores: u32, count: u32) -> Result<StepList, OutOfMemory>
    requires { 1 ≤ cores }
    ensures { IfOk result (λ steps. steps ≡ map (step cores) (draws seed count)) }
{
    let mut draws = Draws::new(seed);
    let mut steps = StepList::new(alloc);
    for _ in 0..count {
        steps.push(step(draws.draw(), cores))?;
    }
    Ok(steps)
}
