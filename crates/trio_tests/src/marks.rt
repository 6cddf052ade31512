//! Marks of the small machine.
ghost use Rattle.std.specs.Prelude.{◌≡◌, ◌<◌, ◌≤◌, length, map, OnOk, IfOk};
ghost use Rattle.slack_base.specs.declared.bounds.TheConstants.{TOP};
ghost use Rattle.target_law.specs.Marks.{IsMarkedAt, SameMarks};
ghost use Rattle.target_law.specs.Numbered.{AllNumbered};
ghost use Rattle.target_law.specs.Proper.{IsProper, IsProperAsk, IsCore, IsCoreOf, IsChanOf};
ghost use Rattle.target_law.specs.Trio.{trio_rules, trio_owns, trio_values};
ghost use Rattle.target_law.specs.Views.{state_of};

use crate::machine::{Reached, TWENTY, reached};
use checkpoint::Checkpoint;
use slack_base::{Ask, AskList, Id, OutOfMemory, Post, PostKind, PostList};
use std::alloc::Global;
use std::test::Fail;
use target_law::{State, Target, Trio, TrioChan, TrioCore, run_to};

/// A tick of a core, and a post for it if it is addressed to it.
fn tick_one(
    target: &Trio,
    core: &mut TrioCore,
    cycle: u64,
    post: Post,
    asks: &mut AskList,
) -> Result<(), OutOfMemory>
    requires clock { cycle ≤ TOP }
    requires core { IsCore trio_rules trio_owns (trio_values.core core.old) }
    ensures { OnOk result (trio_values.saved_core core.new ≡ trio_values.saved_core core.old) }
{
    target.tick(core, cycle, asks)?;
    if target.post_is_proper(target.number_of(core), &post) {
        target.put(core, post)?;
    }
    Ok(())
}

/// The same of each core.
fn tick_each(
    target: &Trio,
    cores: &mut [TrioCore],
    cycle: u64,
    post: Post,
    asks: &mut AskList,
) -> Result<(), OutOfMemory>
    requires clock { cycle ≤ TOP }
    requires cores { AllNumbered (IsCoreOf trio_rules trio_owns) 0 (map trio_values.core cores.old) }
    ensures { OnOk result (map trio_values.saved_core cores.new ≡ map trio_values.saved_core cores.old) }
{
    for core in cores.iter_mut() {
        tick_one(target, core, cycle, post, asks)?;
    }
    Ok(())
}

/// Serves an ask on the first channel.
fn serve_one(
    target: &Trio,
    chans: &mut [TrioChan],
    ask: &Ask,
    posts: &mut PostList,
) -> Result<(), OutOfMemory>
    requires count { length chans.old ≡ 1 }
    requires ask { IsProperAsk trio_rules ask.now }
    requires chans { AllNumbered (IsChanOf trio_rules trio_owns) 0 (map trio_values.chan chans.old) }
    ensures { OnOk result (map trio_values.saved_chan chans.new ≡ map trio_values.saved_chan chans.old) }
{
    target.serve(&mut chans[0], ask, posts)
}

/// Something happens by hand: each core ticks, core 1 is sent a post, and an ask of core 0 is served.
fn go_on(alloc: Global, target: &Trio, state: &mut State<Trio>) -> Result<(), OutOfMemory>
    requires clock { state.old.clock < TOP }
    requires proper { IsProper trio_rules trio_owns (state_of trio_values state.old) }
    ensures { OnOk result (SameMarks trio_values state.old state.new) }
{
    let mut asks = AskList::new(alloc);
    let mut posts = PostList::new(alloc);
    let cycle = state.clock;
    let id = Id {
        cycle,
        core: 0,
        number: 0,
    };
    let post = Post {
        to: 1,
        due: cycle + 2,
        id,
        line: 0,
        kind: PostKind::Retry,
    };
    let ask = Ask::Read { id, line: 0 };
    tick_each(target, state.cores.as_mut_slice(), cycle, post, &mut asks)?;
    serve_one(target, state.chans.as_mut_slice(), &ask, &mut posts)?;
    state.clock += 1;
    Ok(())
}

/// Marks a state, and goes on from there.
fn mark_and_go_on(
    alloc: Global,
    target: &Trio,
    state: &mut State<Trio>,
) -> Result<Checkpoint, OutOfMemory>
    requires clock { state.old.clock < TOP }
    requires proper { IsProper trio_rules trio_owns (state_of trio_values state.old) }
    ensures marked { OnOk result (IsMarkedAt trio_values (state_of trio_values state.old) state.new) }
    ensures clock { IfOk result (λ checkpoint. checkpoint.clock ≡ state.old.clock) }
{
    let checkpoint = Checkpoint::take(target, state)?;
    go_on(alloc, target, state)?;
    Ok(checkpoint)
}

/// Asks before clock 6: 3 of core 0 (0, 2, 4), 2 of core 1 (0, 3) and 2 of core 2 (0, 4), 7 in all. Those of 3 or before
/// are counted: 1 of core 2 by core 0, 2 of core 0 by core 1, 2 of core 1 by core 2.
const SIX: Reached = (6, [1, 2, 2], 7);

/// The ticks of 6 count the asks of 4 too, by core 0 and core 1, and one ask is served by hand.
const ON_FROM_SIX: Reached = (7, [2, 3, 2], 8);

/// Asks before clock 9: 5 of core 0 (0 to 8), 3 of core 1 (0, 3, 6) and 3 of core 2 (0, 4, 8), 11 in all. Those of 6 or
/// before are counted: 2 of core 2 by core 0, 4 of core 0 by core 1, 3 of core 1 by core 2.
const NINE: Reached = (9, [2, 4, 3], 11);

/// The ticks of 9 count those of 7 too, of which there are none.
const ON_FROM_NINE: Reached = (10, [2, 4, 3], 12);

/// A state at clock 6, as it goes on from its mark, as it is taken back, and 14 cycles later.
fn taken_back(alloc: Global) -> Result<[Reached; 4], OutOfMemory> {
    let target = Trio::new();
    let mut state = Trio::start(alloc)?;
    run_to(alloc, &target, &mut state, 6)?;
    let marked = reached(&state);
    let checkpoint = mark_and_go_on(alloc, &target, &mut state)?;
    let on = reached(&state);
    checkpoint.restore(&target, &mut state);
    let back = reached(&state);
    run_to(alloc, &target, &mut state, 20)?;
    Ok([marked, on, back, reached(&state)])
}

/// A state that went on from its mark at clock 6, once what came after the mark is kept.
fn kept(alloc: Global) -> Result<Reached, OutOfMemory> {
    let target = Trio::new();
    let mut state = Trio::start(alloc)?;
    run_to(alloc, &target, &mut state, 6)?;
    let checkpoint = mark_and_go_on(alloc, &target, &mut state)?;
    checkpoint.commit(&target, &mut state);
    Ok(reached(&state))
}

/// The clock of a first mark, a state that goes on from a second one at clock 9, and as it is taken back.
fn marked_twice(alloc: Global) -> Result<(u64, Reached, Reached), OutOfMemory> {
    let target = Trio::new();
    let mut state = Trio::start(alloc)?;
    run_to(alloc, &target, &mut state, 6)?;
    let first = Checkpoint::take(&target, &mut state)?;
    run_to(alloc, &target, &mut state, 9)?;
    let second = mark_and_go_on(alloc, &target, &mut state)?;
    let on = reached(&state);
    second.restore(&target, &mut state);
    Ok((first.clock, on, reached(&state)))
}

/// A state is taken back to its mark, and at clock 20 all is as if nothing of this had been. What came after a mark is kept.
/// Of two marks the second counts.
#[test]
fn marks(rt: HostRuntime) -> Result<(), Fail> {
    assert_eq!(rt; taken_back(rt.alloc())?, [SIX, ON_FROM_SIX, SIX, TWENTY]);
    assert_eq!(rt; kept(rt.alloc())?, ON_FROM_SIX);
    assert_eq!(rt; marked_twice(rt.alloc())?, (6, ON_FROM_NINE, NINE));
    Ok(())
}
