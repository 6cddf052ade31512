//! One leap: cycles gone over at once.
ghost use Rattle.std.specs.Prelude.{◌≡◌, ◌-◌, ◌<◌, ◌≤◌, [], IfOk, OnOk};
ghost use Rattle.slack_base.specs.declared.bounds.TheConstants.{TOP};
ghost use Rattle.target_law.specs.Cycles.{lockstep};
ghost use Rattle.target_law.specs.Proper.{IsProper, IsPunctual};
ghost use Rattle.leap_run.specs.Views.{state_at};

use crate::messages::Messages;
use crate::sweeps::advance_cores;
use slack_base::OutOfMemory;
use target_law::Target;

/// Goes over cycles at once from a clock on, as many as it may, and no further than `until`: the clock that comes next.
pub(crate) fn leap<C: Send + Drop, D: Send + Drop, T: Target<Core = C, Chan = D>>(
    target: &T,
    cores: &mut [C],
    chans: &mut [D],
    from: u64,
    until: u64,
    messages: &mut Messages,
) -> Result<u64, OutOfMemory>
    requires order { from < until }
    requires top { until ≤ TOP }
    requires proper { IsProper (T.rules target.now) (T.owns target.now) (state_at T.values from cores.old chans.old) }
    requires punctual { IsPunctual (state_at T.values from cores.old chans.old) }
    requires asks { messages.old.asks ≡ [] }
    requires posts { messages.old.posts ≡ [] }
    ensures ahead { IfOk result (λ clock. (from < clock) × (clock ≤ until)) }
    ensures state { IfOk result (λ clock. state_at T.values clock cores.new chans.new ≡ lockstep (T.rules target.now) (state_at T.values from cores.old chans.old) (clock - from)) }
    ensures asks { OnOk result (messages.new.asks ≡ []) }
    ensures posts { OnOk result (messages.new.posts ≡ []) }
{
    let end = advance_cores(target, cores, from, until, &mut messages.asks)?;
    if !messages.asks.is_empty() {
        messages.exchange(target, cores, chans)?;
    }
    Ok(end)
}
