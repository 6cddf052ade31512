//! A core that goes on by itself.
ghost use Rattle.std.specs.Prelude.{◌≡◌, ◌-◌, ◌≤◌, ◌++◌, OnOk};
ghost use Rattle.slack_base.specs.declared.bounds.TheConstants.{TOP};
ghost use Rattle.target_law.specs.Cycles.{ticks_of};
ghost use Rattle.target_law.specs.Proper.{IsCore};

use crate::targets::Target;
use slack_base::{AskList, OutOfMemory};

/// Ticks a core from a clock up to another, one tick after another, with no new post. The asks are appended.
pub fn advance_to<C: Send + Drop, T: Target<Core = C>>(
    target: &T,
    core: &mut C,
    from: u64,
    until: u64,
    asks: &mut AskList,
) -> Result<(), OutOfMemory>
    requires order { from ≤ until }
    requires top { until ≤ TOP }
    requires core { IsCore (T.rules target.now) (T.owns target.now) (T.values.core core.old) }
    ensures core { OnOk result (T.values.core core.new ≡ (ticks_of (T.rules target.now) from (until - from) (T.values.core core.old)).0) }
    ensures asks { OnOk result (asks.new ≡ asks.old ++ (ticks_of (T.rules target.now) from (until - from) (T.values.core core.old)).1) }
{
    let mut clock = from;
    while clock < until {
        clock = target.advance(core, clock, until, asks)?;
    }
    Ok(())
}
