//! Since when a core with four sets of one line leaves them alone. Line 256, at 8192, belongs to set 0, and line 257 to
//! set 1.
use crate::cores::Fact::*;
use crate::cores::Step::*;
use crate::cores::{Case, *};
use slack_base::PostKind;

/// lw x5, 2(x8)
const LW_MISALIGNED: u32 = 0x0024_2283;
/// lw x5, 4(x0)
const LW_OUTSIDE: u32 = 0x0040_2283;

/// A post in cycle 3, and the touches after it, where a reply brought line 256 in cycle 1. Replies and snoops touch.
#[rattlefmt::skip]
const POSTS: &[Case] = &[
    Case { name: "a reply of the line", shape: FOUR_SETS, words: &[FENCE], posts: &[(1, 256, REPLY), (3, 256, REPLY)], steps: &[Ticks(0, 5), See(&[Touched(256, 4), Touched(257, 0)])] },
    Case { name: "a snoop that shares of the line", shape: FOUR_SETS, words: &[FENCE], posts: &[(1, 256, REPLY), (3, 256, PostKind::SnoopShare)], steps: &[Ticks(0, 5), See(&[Touched(256, 4), Touched(257, 0)])] },
    Case { name: "a snoop that takes of the line", shape: FOUR_SETS, words: &[FENCE], posts: &[(1, 256, REPLY), (3, 256, PostKind::SnoopOwn)], steps: &[Ticks(0, 5), See(&[Touched(256, 4), Touched(257, 0)])] },
    Case { name: "an invalidation of the line", shape: FOUR_SETS, words: &[FENCE], posts: &[(1, 256, REPLY), (3, 256, PostKind::Invalidate)], steps: &[Ticks(0, 5), See(&[Touched(256, 2), Touched(257, 0)])] },
    Case { name: "a retry of the line", shape: FOUR_SETS, words: &[FENCE], posts: &[(1, 256, REPLY), (3, 256, PostKind::Retry)], steps: &[Ticks(0, 5), See(&[Touched(256, 2), Touched(257, 0)])] },
    Case { name: "a snoop that shares of another line", shape: FOUR_SETS, words: &[FENCE], posts: &[(1, 256, REPLY), (3, 257, PostKind::SnoopShare)], steps: &[Ticks(0, 5), See(&[Touched(256, 2), Touched(257, 4)])] },
];

/// What is executed in cycle 1, where the core holds no line, and the touches after cycle 2. Accesses touch unless they trap.
#[rattlefmt::skip]
const ACCESSES: &[Case] = &[
    Case { name: "lw x5, 4(x8)", shape: FOUR_SETS, words: &[LUI_X8, LW_X5, FENCE], posts: &[], steps: &[Ticks(0, 3), See(&[Touched(256, 2), Touched(257, 0)])] },
    Case { name: "lw x5, 16(x8)", shape: FOUR_SETS, words: &[LUI_X8, LW_NEXT_LINE, FENCE], posts: &[], steps: &[Ticks(0, 3), See(&[Touched(256, 0), Touched(257, 2)])] },
    Case { name: "sw x8, 0(x8)", shape: FOUR_SETS, words: &[LUI_X8, SW_X8, FENCE], posts: &[], steps: &[Ticks(0, 3), See(&[Touched(256, 2), Touched(257, 0)])] },
    Case { name: "lr.w x5, (x8)", shape: FOUR_SETS, words: &[LUI_X8, LR_X5, FENCE], posts: &[], steps: &[Ticks(0, 3), See(&[Touched(256, 2), Touched(257, 0)])] },
    Case { name: "sc.w x6, x8, (x8), which fails", shape: FOUR_SETS, words: &[LUI_X8, SC_X6, FENCE], posts: &[], steps: &[Ticks(0, 3), See(&[Touched(256, 2), Touched(257, 0)])] },
    Case { name: "amoadd.w x5, x8, (x8)", shape: FOUR_SETS, words: &[LUI_X8, AMOADD_X5, FENCE], posts: &[], steps: &[Ticks(0, 3), See(&[Touched(256, 2), Touched(257, 0)])] },
    Case { name: "lw x5, 2(x8), which traps", shape: FOUR_SETS, words: &[LUI_X8, LW_MISALIGNED, FENCE], posts: &[], steps: &[Ticks(0, 3), See(&[Touched(256, 0), Touched(257, 0)])] },
    Case { name: "lw x5, 4(x0), which traps", shape: FOUR_SETS, words: &[LUI_X8, LW_OUTSIDE, FENCE], posts: &[], steps: &[Ticks(0, 3), See(&[Touched(256, 0), Touched(257, 0)])] },
    Case { name: "fence", shape: FOUR_SETS, words: &[LUI_X8, FENCE, FENCE], posts: &[], steps: &[Ticks(0, 3), See(&[Touched(256, 0), Touched(257, 0)])] },
];

/// A load that hits touches: the one at 4100 misses in cycle 1, and hits in cycle 3, in which the reply comes; the one at
/// 4104 hits in cycle 4. Touches are taken back: after the mark the load of line 256 hits in cycle 3, and that of line 257
/// misses in cycle 4.
#[rattlefmt::skip]
const LATER: &[Case] = &[
    Case { name: "a load that hits", shape: FOUR_SETS, words: &[LUI_X8, LW_X5, LW_X5, FENCE], posts: &[(3, 256, REPLY)], steps: &[Ticks(0, 6), See(&[Touched(256, 5), Touched(257, 0)])] },
    Case { name: "touches are taken back", shape: FOUR_SETS, words: &[LUI_X8, LW_X5, LW_NEXT_LINE], posts: &[(3, 256, REPLY)], steps: &[
        Ticks(0, 2), Mark, Ticks(2, 5), See(&[Touched(256, 4), Touched(257, 5)]), Undo, See(&[Touched(256, 2), Touched(257, 0)]),
    ] },
];

#[test]
fn replies_and_snoops_touch(rt: HostRuntime) {
    check(&rt, rt.alloc(), POSTS);
}

#[test]
fn accesses_touch_unless_they_trap(rt: HostRuntime) {
    check(&rt, rt.alloc(), ACCESSES);
}

#[test]
fn touches_of_hits_and_marked_cores(rt: HostRuntime) {
    check(&rt, rt.alloc(), LATER);
}
