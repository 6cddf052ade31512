//! Loads and stores of the parts of a word, lowest address first.
use crate::cores::Fact::*;
use crate::cores::Step::*;
use crate::cores::{Case, *};
use mesi_cache::{Held, HeldLine};
use slack_base::{PostKind, Words};

/// addi x9, x0, -2
const ADDI_X9: u32 = 0xffe0_0493;

/// The second word, at 8196, has the bytes 01, 7f, ff and 80.
const PARTS: Words = Words {
    w0: 11,
    w1: 0x80ff_7f01,
    w2: 33,
    w3: 44,
};

/// The reply that brings them.
const PARTS_REPLY: PostKind = PostKind::Reply {
    exclusive: true,
    words: PARTS,
};

/// Each load of x6, and what it gives.
#[rattlefmt::skip]
const LOADS: &[Case] = &[
    Case { name: "lb x6, 4(x8)", shape: ONE_LINE, words: &[LUI_X8, 0x0044_0303], posts: &[(2, 256, PARTS_REPLY)], steps: &[Ticks(0, 3), See(&[Register(6, 1)])] },
    Case { name: "lb x6, 5(x8)", shape: ONE_LINE, words: &[LUI_X8, 0x0054_0303], posts: &[(2, 256, PARTS_REPLY)], steps: &[Ticks(0, 3), See(&[Register(6, 0x7f)])] },
    Case { name: "lb x6, 6(x8)", shape: ONE_LINE, words: &[LUI_X8, 0x0064_0303], posts: &[(2, 256, PARTS_REPLY)], steps: &[Ticks(0, 3), See(&[Register(6, 0xffff_ffff)])] },
    Case { name: "lb x6, 7(x8)", shape: ONE_LINE, words: &[LUI_X8, 0x0074_0303], posts: &[(2, 256, PARTS_REPLY)], steps: &[Ticks(0, 3), See(&[Register(6, 0xffff_ff80)])] },
    Case { name: "lbu x6, 4(x8)", shape: ONE_LINE, words: &[LUI_X8, 0x0044_4303], posts: &[(2, 256, PARTS_REPLY)], steps: &[Ticks(0, 3), See(&[Register(6, 1)])] },
    Case { name: "lbu x6, 5(x8)", shape: ONE_LINE, words: &[LUI_X8, 0x0054_4303], posts: &[(2, 256, PARTS_REPLY)], steps: &[Ticks(0, 3), See(&[Register(6, 0x7f)])] },
    Case { name: "lbu x6, 6(x8)", shape: ONE_LINE, words: &[LUI_X8, 0x0064_4303], posts: &[(2, 256, PARTS_REPLY)], steps: &[Ticks(0, 3), See(&[Register(6, 0xff)])] },
    Case { name: "lbu x6, 7(x8)", shape: ONE_LINE, words: &[LUI_X8, 0x0074_4303], posts: &[(2, 256, PARTS_REPLY)], steps: &[Ticks(0, 3), See(&[Register(6, 0x80)])] },
    Case { name: "lh x6, 4(x8)", shape: ONE_LINE, words: &[LUI_X8, 0x0044_1303], posts: &[(2, 256, PARTS_REPLY)], steps: &[Ticks(0, 3), See(&[Register(6, 0x7f01)])] },
    Case { name: "lh x6, 6(x8)", shape: ONE_LINE, words: &[LUI_X8, 0x0064_1303], posts: &[(2, 256, PARTS_REPLY)], steps: &[Ticks(0, 3), See(&[Register(6, 0xffff_80ff)])] },
    Case { name: "lhu x6, 4(x8)", shape: ONE_LINE, words: &[LUI_X8, 0x0044_5303], posts: &[(2, 256, PARTS_REPLY)], steps: &[Ticks(0, 3), See(&[Register(6, 0x7f01)])] },
    Case { name: "lhu x6, 6(x8)", shape: ONE_LINE, words: &[LUI_X8, 0x0064_5303], posts: &[(2, 256, PARTS_REPLY)], steps: &[Ticks(0, 3), See(&[Register(6, 0x80ff)])] },
    Case { name: "lw x6, 4(x8)", shape: ONE_LINE, words: &[LUI_X8, 0x0044_2303], posts: &[(2, 256, PARTS_REPLY)], steps: &[Ticks(0, 3), See(&[Register(6, 0x80ff_7f01)])] },
];

/// Each store of x9, which is fffffffe, and the second word after it. The other words stay.
#[rattlefmt::skip]
const STORES: &[Case] = &[
    Case { name: "sb x9, 4(x8)", shape: ONE_LINE, words: &[LUI_X8, ADDI_X9, 0x0094_0223], posts: &[(3, 256, PARTS_REPLY)], steps: &[Ticks(0, 4), See(&[Holds(256, Some(HeldLine { held: Held::Modified, words: Words { w1: 0x80ff_7ffe, ..PARTS } }))])] },
    Case { name: "sb x9, 5(x8)", shape: ONE_LINE, words: &[LUI_X8, ADDI_X9, 0x0094_02a3], posts: &[(3, 256, PARTS_REPLY)], steps: &[Ticks(0, 4), See(&[Holds(256, Some(HeldLine { held: Held::Modified, words: Words { w1: 0x80ff_fe01, ..PARTS } }))])] },
    Case { name: "sb x9, 6(x8)", shape: ONE_LINE, words: &[LUI_X8, ADDI_X9, 0x0094_0323], posts: &[(3, 256, PARTS_REPLY)], steps: &[Ticks(0, 4), See(&[Holds(256, Some(HeldLine { held: Held::Modified, words: Words { w1: 0x80fe_7f01, ..PARTS } }))])] },
    Case { name: "sb x9, 7(x8)", shape: ONE_LINE, words: &[LUI_X8, ADDI_X9, 0x0094_03a3], posts: &[(3, 256, PARTS_REPLY)], steps: &[Ticks(0, 4), See(&[Holds(256, Some(HeldLine { held: Held::Modified, words: Words { w1: 0xfeff_7f01, ..PARTS } }))])] },
    Case { name: "sh x9, 4(x8)", shape: ONE_LINE, words: &[LUI_X8, ADDI_X9, 0x0094_1223], posts: &[(3, 256, PARTS_REPLY)], steps: &[Ticks(0, 4), See(&[Holds(256, Some(HeldLine { held: Held::Modified, words: Words { w1: 0x80ff_fffe, ..PARTS } }))])] },
    Case { name: "sh x9, 6(x8)", shape: ONE_LINE, words: &[LUI_X8, ADDI_X9, 0x0094_1323], posts: &[(3, 256, PARTS_REPLY)], steps: &[Ticks(0, 4), See(&[Holds(256, Some(HeldLine { held: Held::Modified, words: Words { w1: 0xfffe_7f01, ..PARTS } }))])] },
    Case { name: "sw x9, 4(x8)", shape: ONE_LINE, words: &[LUI_X8, ADDI_X9, 0x0094_2223], posts: &[(3, 256, PARTS_REPLY)], steps: &[Ticks(0, 4), See(&[Holds(256, Some(HeldLine { held: Held::Modified, words: Words { w1: 0xffff_fffe, ..PARTS } }))])] },
];

#[test]
fn a_load_gives_its_part(rt: HostRuntime) {
    check(&rt, rt.alloc(), LOADS);
}

#[test]
fn a_store_writes_its_part(rt: HostRuntime) {
    check(&rt, rt.alloc(), STORES);
}
