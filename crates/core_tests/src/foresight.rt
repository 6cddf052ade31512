//! For how long a core asks for nothing, as far as its next instructions tell.
use crate::cores::Fact::*;
use crate::cores::Step::*;
use crate::cores::{Case, *};
use slack_base::PostKind;

/// mul x5, x8, x8: 3 cycles
const MUL_X5: u32 = 0x0284_02b3;
/// div x5, x8, x8: 16 cycles
const DIV_X5: u32 = 0x0284_42b3;
/// jal x0, -4
const JUMP_BACK: u32 = 0xffdf_f06f;
/// beq x0, x0, -4
const BRANCH_BACK: u32 = 0xfe00_0ee3;

const ECALL: u32 = 0x0000_0073;

/// A program, a post about line 256 for cycle 0, and for how many cycles the core is quiet then, if its next post is due at
/// cycle 100.
#[rattlefmt::skip]
const QUIET: &[Case] = &[
    Case { name: "no instruction", shape: ONE_LINE, words: &[LUI_X8, 0, 0, 0], posts: &[(0, 256, REPLY), (100, 256, PostKind::Retry)], steps: &[Ticks(0, 1), See(&[Quiet(1, 0)])] },
    Case { name: "busy, and three cycles more", shape: ONE_LINE, words: &[LUI_X8, DIV_X5, MUL_X5, 0], posts: &[(0, 256, REPLY), (100, 256, PostKind::Retry)], steps: &[Ticks(0, 2), See(&[Quiet(2, 18)])] },
    Case { name: "waiting", shape: ONE_LINE, words: &[LUI_X8, LW_X5, 0, 0], posts: &[(0, 256, PostKind::Retry), (100, 256, PostKind::Retry)], steps: &[Ticks(0, 2), See(&[Quiet(2, 98)])] },
    Case { name: "ended", shape: ONE_LINE, words: &[0, 0, 0, 0], posts: &[(0, 256, REPLY), (100, 256, PostKind::Retry)], steps: &[Ticks(0, 2), See(&[Quiet(2, 98)])] },
    Case { name: "a load and a store hit", shape: ONE_LINE, words: &[LUI_X8, LW_X5, MUL_X5, SW_X8], posts: &[(0, 256, REPLY), (100, 256, PostKind::Retry)], steps: &[Ticks(0, 1), See(&[Quiet(1, 5)])] },
    Case { name: "a store doesn't hit a shared line", shape: ONE_LINE, words: &[LUI_X8, LW_X5, MUL_X5, SW_X8], posts: &[(0, 256, SHARED_REPLY), (100, 256, PostKind::Retry)], steps: &[Ticks(0, 1), See(&[Quiet(1, 4)])] },
    Case { name: "the line isn't held", shape: ONE_LINE, words: &[LUI_X8, LW_X5, 0, 0], posts: &[(0, 256, PostKind::Retry), (100, 256, PostKind::Retry)], steps: &[Ticks(0, 1), See(&[Quiet(1, 0)])] },
    Case { name: "the next line isn't held", shape: ONE_LINE, words: &[LUI_X8, LW_NEXT_LINE, 0, 0], posts: &[(0, 256, REPLY), (100, 256, PostKind::Retry)], steps: &[Ticks(0, 1), See(&[Quiet(1, 0)])] },
    Case { name: "the base is written before", shape: ONE_LINE, words: &[LUI_X8, LUI_X8, LW_X5, 0], posts: &[(0, 256, REPLY), (100, 256, PostKind::Retry)], steps: &[Ticks(0, 1), See(&[Quiet(1, 1)])] },
    Case { name: "64 instructions of a loop", shape: ONE_LINE, words: &[LUI_X8, LUI_X8, JUMP_BACK, 0], posts: &[(0, 256, REPLY), (100, 256, PostKind::Retry)], steps: &[Ticks(0, 1), See(&[Quiet(1, 64)])] },
    Case { name: "a loop up to the post", shape: ONE_LINE, words: &[LUI_X8, DIV_X5, JUMP_BACK, 0], posts: &[(0, 256, REPLY), (100, 256, PostKind::Retry)], steps: &[Ticks(0, 1), See(&[Quiet(1, 99)])] },
    Case { name: "a branch", shape: ONE_LINE, words: &[LUI_X8, MUL_X5, BRANCH_BACK, 0], posts: &[(0, 256, REPLY), (100, 256, PostKind::Retry)], steps: &[Ticks(0, 1), See(&[Quiet(1, 4)])] },
    Case { name: "a service", shape: ONE_LINE, words: &[LUI_X8, MUL_X5, ECALL, 0], posts: &[(0, 256, REPLY), (100, 256, PostKind::Retry)], steps: &[Ticks(0, 1), See(&[Quiet(1, 3)])] },
    Case { name: "LR", shape: ONE_LINE, words: &[LUI_X8, LR_X5, 0, 0], posts: &[(0, 256, REPLY), (100, 256, PostKind::Retry)], steps: &[Ticks(0, 1), See(&[Quiet(1, 0)])] },
    Case { name: "an AMO", shape: ONE_LINE, words: &[LUI_X8, AMOADD_X5, 0, 0], posts: &[(0, 256, REPLY), (100, 256, PostKind::Retry)], steps: &[Ticks(0, 1), See(&[Quiet(1, 0)])] },
];

#[test]
fn a_core_is_quiet_so_long(rt: HostRuntime) {
    check(&rt, rt.alloc(), QUIET);
}
