//! The cores tick by themselves as far as they may.
ghost use Rattle.std.specs.Prelude.{◌≡◌, ◌+◌, ◌-◌, ◌<◌, ◌≤◌, ◌++◌, [], min, All, IfOk, OnOk, map, length};
ghost use Rattle.slack_base.specs.declared.bounds.TheConstants.{TOP};
ghost use Rattle.target_law.specs.Cycles.{ticks_of};
ghost use Rattle.target_law.specs.Numbered.{AllNumbered};
ghost use Rattle.target_law.specs.Proper.{IsCore, IsCoreOf};
ghost use Rattle.leap_run.specs.Leaps.{AllBut, advanced, asks_in, IsQuiet, MayReach};

use crate::outlook::look_ahead;
use slack_base::{AskList, OutOfMemory};
use target_law::{Target, advance_to};

/// Each core ticks by itself from a clock up to another. The asks are appended, core after core.
fn advance_all<C: Send + Drop, T: Target<Core = C>>(
    target: &T,
    cores: &mut [C],
    from: u64,
    until: u64,
    asks: &mut AskList,
) -> Result<(), OutOfMemory>
    requires order { from ≤ until }
    requires top { until ≤ TOP }
    requires cores { All (λ core. IsCore (T.rules target.now) (T.owns target.now) (T.values.core core)) cores.old }
    ensures cores { OnOk result (map T.values.core cores.new ≡ advanced (T.rules target.now) from (until - from) (map T.values.core cores.old)) }
    ensures asks { OnOk result (asks.new ≡ asks.old ++ asks_in (T.rules target.now) from (until - from) (map T.values.core cores.old)) }
{
    for core in cores.iter_mut() {
        advance_to(target, core, from, until, asks)?;
    }
    Ok(())
}

/// A core ticks by itself from a clock on, up to another, or to the first tick in which it sends something: the clock that
/// comes next.
fn advance_until_asking<C: Send + Drop, T: Target<Core = C>>(
    target: &T,
    core: &mut C,
    from: u64,
    until: u64,
    asks: &mut AskList,
) -> Result<u64, OutOfMemory>
    requires order { from < until }
    requires top { until ≤ TOP }
    requires core { IsCore (T.rules target.now) (T.owns target.now) (T.values.core core.old) }
    requires asks { asks.old ≡ [] }
    ensures ahead { IfOk result (λ clock. (from < clock) × (clock ≤ until)) }
    ensures core { IfOk result (λ clock. T.values.core core.new ≡ (ticks_of (T.rules target.now) from (clock - from) (T.values.core core.old)).0) }
    ensures asks { IfOk result (λ clock. asks.new ≡ (ticks_of (T.rules target.now) from (clock - from) (T.values.core core.old)).1) }
    ensures last { IfOk result (λ clock. IsQuiet (T.rules target.now) from (clock - from - 1) (T.values.core core.old)) }
{
    let mut clock = target.advance(core, from, until, asks)?;
    while clock < until && asks.is_empty() {
        clock = target.advance(core, clock, until, asks)?;
    }
    Ok(clock)
}

/// One core ticks by itself from a clock on, up to another, or to the first tick in which it sends something. The others,
/// which send nothing until then, follow. The clock that comes next is handed back.
fn advance_alone<C: Send + Drop, T: Target<Core = C>>(
    target: &T,
    cores: &mut [C],
    lone: usize,
    from: u64,
    until: u64,
    asks: &mut AskList,
) -> Result<u64, OutOfMemory>
    requires lone { lone < length cores.old }
    requires order { from < until }
    requires top { until ≤ TOP }
    requires cores { All (λ core. IsCore (T.rules target.now) (T.owns target.now) (T.values.core core)) cores.old }
    requires others { AllBut lone (λ core. IsQuiet (T.rules target.now) from (until - from) (T.values.core core)) cores.old }
    requires asks { asks.old ≡ [] }
    ensures ahead { IfOk result (λ clock. (from < clock) × (clock ≤ until)) }
    ensures cores { IfOk result (λ clock. map T.values.core cores.new ≡ advanced (T.rules target.now) from (clock - from) (map T.values.core cores.old)) }
    ensures asks { IfOk result (λ clock. asks.new ≡ asks_in (T.rules target.now) from (clock - from) (map T.values.core cores.old)) }
    ensures last { IfOk result (λ clock. All (λ core. IsQuiet (T.rules target.now) from (clock - from - 1) (T.values.core core)) cores.old) }
{
    let (front, rest) = cores.split_at_mut(lone);
    let Some((one, back)) = rest.split_first_mut() else {
        unreachable!()
    };
    let end = advance_until_asking(target, one, from, until, asks)?;
    advance_all(target, front, from, end, asks)?;
    advance_all(target, back, from, end, asks)?;
    Ok(end)
}

/// The clock up to which cycles may be gone over at once where nothing is sent through the first so many: what is sent
/// after them is answered no sooner than the lookahead later.
fn horizon(from: u64, quiet: u64, lookahead: u64, until: u64) -> u64
    ensures { result ≡ min until (from + quiet + lookahead) }
{
    until.min(from.saturating_add(quiet).saturating_add(lookahead))
}

/// The cores tick by themselves from a clock on as far as they may, and no further than `until`: the clock that comes next.
/// Where one of them alone may send something soon, it goes on until it does, and the others follow.
pub(crate) fn advance_cores<C: Send + Drop, T: Target<Core = C>>(
    target: &T,
    cores: &mut [C],
    from: u64,
    until: u64,
    asks: &mut AskList,
) -> Result<u64, OutOfMemory>
    requires some { 1 ≤ length cores.old }
    requires order { from < until }
    requires top { until ≤ TOP }
    requires cores { AllNumbered (IsCoreOf (T.rules target.now) (T.owns target.now)) 0 (map T.values.core cores.old) }
    requires asks { asks.old ≡ [] }
    ensures ahead { IfOk result (λ clock. (from < clock) × (clock ≤ until)) }
    ensures reach { IfOk result (λ clock. MayReach (T.rules target.now) T.values.core from clock cores.old) }
    ensures cores { IfOk result (λ clock. map T.values.core cores.new ≡ advanced (T.rules target.now) from (clock - from) (map T.values.core cores.old)) }
    ensures asks { IfOk result (λ clock. asks.new ≡ asks_in (T.rules target.now) from (clock - from) (map T.values.core cores.old)) }
{
    let ahead = look_ahead(target, cores, from);
    let lookahead = target.lookahead();
    if ahead.others > ahead.all.saturating_add(lookahead) {
        let until = until.min(from.saturating_add(ahead.others));
        let end = advance_alone(target, cores, ahead.lone, from, until, asks)?;
        return Ok(end);
    }
    let end = horizon(from, ahead.all, lookahead, until);
    advance_all(target, cores, from, end, asks)?;
    Ok(end)
}
