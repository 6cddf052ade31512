//! Cycles that are gone over at once, against as many ticks.
use crate::cores::{Coming, LUI_X8, LW_X5, ONE_LINE, REPLY, code_of, core_of, go_on};
use mesi_cache::HeldLine;
use slack_base::{AskList, CoreEnd, Counts, PostKind};
use std::alloc::Global;
use std::process::Abort;
use timed_core::{Code, TimedCore};

/// mul x5, x8, x8
const MUL_X5: u32 = 0x0284_02b3;
/// div x5, x8, x8
const DIV_X5: u32 = 0x0284_42b3;

/// Where the cycles end.
const END: u32 = 24;

/// A program and a post; and the cycle after the first that sends something, which is the end where none does.
struct Leap {
    name: &'static str,
    words: &'static [u32],
    post: Coming,
    next: u64,
}

#[rattlefmt::skip]
const LEAPS: [Leap; 6] = [
    Leap { name: "a load asks", words: &[LUI_X8, LW_X5, 0], post: (7, 256, REPLY), next: 2 },
    Leap { name: "a busy core is snooped", words: &[LUI_X8, DIV_X5, 0], post: (9, 256, PostKind::SnoopShare), next: 10 },
    Leap { name: "a busy core goes on", words: &[MUL_X5, DIV_X5, MUL_X5], post: (4, 256, PostKind::Invalidate), next: 24 },
    Leap { name: "an ended core is snooped", words: &[0, 0, 0], post: (5, 256, PostKind::SnoopOwn), next: 6 },
    Leap { name: "an ended core stays", words: &[0, 0, 0], post: (30, 256, PostKind::SnoopOwn), next: 24 },
    Leap { name: "a core that never waits", words: &[LUI_X8, MUL_X5, LUI_X8], post: (24, 256, PostKind::Retry), next: 24 },
];

/// What the readers tell of a core at the end.
#[derive(Clone, Copy, PartialEq)]
struct Told {
    pc: u32,
    x5: u32,
    held: Option<HeldLine>,
    end: CoreEnd,
    counts: Counts,
}

fn what_is_told(core: &TimedCore) -> Told {
    Told {
        pc: core.pc(),
        x5: core.reg(5),
        held: core.held(256),
        end: core.end(),
        counts: core.counts(),
    }
}

/// Goes on to the end in two pieces or in one, and gives the cycle after the first of them.
fn go_on_in_pieces(rt: &impl Abort, core: &mut TimedCore, code: &Code, asks: &mut AskList) -> u64 {
    let end = u64::from(END);
    let next = core
        .advance(code, 0, end, asks)
        .expect(rt, "memory for a leap");
    if next < end {
        core.advance(code, next, end, asks)
            .expect(rt, "memory for a leap");
    }
    next
}

/// What is told of a core that leapt, and the cycle after the first piece.
fn leapt(
    rt: &impl Abort,
    alloc: Global,
    code: &Code,
    post: Coming,
    asks: &mut AskList,
) -> (Told, u64) {
    let mut core = core_of(rt, alloc, ONE_LINE, &[post]);
    let next = go_on_in_pieces(rt, &mut core, code, asks);
    (what_is_told(&core), next)
}

/// What is told of a core that ticked.
fn ticked(rt: &impl Abort, alloc: Global, code: &Code, post: Coming, asks: &mut AskList) -> Told {
    let mut core = core_of(rt, alloc, ONE_LINE, &[post]);
    go_on(rt, &mut core, code, asks, 0, END);
    what_is_told(&core)
}

/// Whether the first piece of a leap ends where it is to, and both pieces make what as many ticks make.
fn is_right(rt: &impl Abort, alloc: Global, leap: &Leap) -> bool {
    let code = code_of(rt, alloc, leap.words);
    let mut asks_of_leaps = AskList::new(alloc);
    let (told, next) = leapt(rt, alloc, &code, leap.post, &mut asks_of_leaps);
    let mut asks = AskList::new(alloc);
    let wanted = ticked(rt, alloc, &code, leap.post, &mut asks);
    next == leap.next && told == wanted && asks_of_leaps.as_slice() == asks.as_slice()
}

#[test]
fn leaps_are_ticks(rt: HostRuntime) {
    for leap in &LEAPS {
        assert!(rt; is_right(&rt, rt.alloc(), leap), "{}", leap.name);
    }
}
