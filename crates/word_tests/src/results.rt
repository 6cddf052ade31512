//! The rules of the RISC-V manual at corner operands, computed by hand.
use rv_exec::{
    alu, amo_result, branch_taken, is_aligned_load, is_aligned_store, load_part, store_part,
    target, word,
};
use slack_base::{AmoOp, BranchOp, ImmOp, LoadOp, RegOp, StoreOp};

const MINUS_ONE: u32 = 0xffff_ffff;

const MINUS_SEVEN: u32 = 0xffff_fff9;

const LEAST: u32 = 0x8000_0000;

const GREATEST: u32 = 0x7fff_ffff;

/// An operation, its two operands, and what it gives.
#[rattlefmt::skip]
const OPERATIONS: [(RegOp, u32, u32, u32); 56] = [
    // sums, bits and comparisons
    (RegOp::Add, MINUS_ONE, 1, 0),
    (RegOp::Add, GREATEST, 1, LEAST),
    (RegOp::Sub, 0, 1, MINUS_ONE),
    (RegOp::Sub, LEAST, 1, GREATEST),
    (RegOp::And, 0xff00_ff00, 0x0f0f_0f0f, 0x0f00_0f00),
    (RegOp::Or, 0xff00_ff00, 0x0f0f_0f0f, 0xff0f_ff0f),
    (RegOp::Xor, 0xff00_ff00, 0x0f0f_0f0f, 0xf00f_f00f),
    (RegOp::Slt, MINUS_ONE, 0, 1),
    (RegOp::Slt, 0, MINUS_ONE, 0),
    (RegOp::Slt, LEAST, GREATEST, 1),
    (RegOp::Slt, 5, 5, 0),
    (RegOp::Sltu, MINUS_ONE, 0, 0),
    (RegOp::Sltu, 0, MINUS_ONE, 1),
    (RegOp::Sltu, LEAST, GREATEST, 0),
    // shifts
    (RegOp::Sll, MINUS_ONE, 0, MINUS_ONE),
    (RegOp::Sll, 3, 31, LEAST),
    (RegOp::Sll, 1, 32, 1),
    (RegOp::Sll, 1, MINUS_ONE, LEAST),
    (RegOp::Srl, MINUS_ONE, 0, MINUS_ONE),
    (RegOp::Srl, LEAST, 31, 1),
    (RegOp::Srl, LEAST, 32, LEAST),
    (RegOp::Sra, LEAST, 0, LEAST),
    (RegOp::Sra, LEAST, 31, MINUS_ONE),
    (RegOp::Sra, LEAST, 32, LEAST),
    (RegOp::Sra, GREATEST, 31, 0),
    (RegOp::Sra, MINUS_SEVEN, 1, 0xffff_fffc),
    // products
    (RegOp::Mul, MINUS_ONE, MINUS_ONE, 1),
    (RegOp::Mul, LEAST, 2, 0),
    (RegOp::Mul, MINUS_ONE, 7, MINUS_SEVEN),
    (RegOp::Mulh, MINUS_ONE, MINUS_ONE, 0),
    (RegOp::Mulh, LEAST, LEAST, 0x4000_0000),
    (RegOp::Mulh, LEAST, GREATEST, 0xc000_0000),
    (RegOp::Mulh, GREATEST, GREATEST, 0x3fff_ffff),
    (RegOp::Mulhsu, MINUS_ONE, MINUS_ONE, MINUS_ONE),
    (RegOp::Mulhsu, LEAST, MINUS_ONE, LEAST),
    (RegOp::Mulhsu, 1, MINUS_ONE, 0),
    (RegOp::Mulhsu, MINUS_ONE, 1, MINUS_ONE),
    (RegOp::Mulhu, MINUS_ONE, MINUS_ONE, 0xffff_fffe),
    (RegOp::Mulhu, LEAST, LEAST, 0x4000_0000),
    (RegOp::Mulhu, 1, MINUS_ONE, 0),
    // quotients and remainders
    (RegOp::Div, LEAST, MINUS_ONE, LEAST),
    (RegOp::Div, 7, 0, MINUS_ONE),
    (RegOp::Div, MINUS_SEVEN, 2, 0xffff_fffd),
    (RegOp::Div, 7, 0xffff_fffe, 0xffff_fffd),
    (RegOp::Div, MINUS_SEVEN, 0xffff_fffe, 3),
    (RegOp::Divu, LEAST, MINUS_ONE, 0),
    (RegOp::Divu, 7, 0, MINUS_ONE),
    (RegOp::Divu, MINUS_SEVEN, 2, 0x7fff_fffc),
    (RegOp::Rem, LEAST, MINUS_ONE, 0),
    (RegOp::Rem, 7, 0, 7),
    (RegOp::Rem, MINUS_SEVEN, 0, MINUS_SEVEN),
    (RegOp::Rem, MINUS_SEVEN, 2, MINUS_ONE),
    (RegOp::Rem, 7, 0xffff_fffe, 1),
    (RegOp::Remu, LEAST, MINUS_ONE, LEAST),
    (RegOp::Remu, 7, 0, 7),
    (RegOp::Remu, MINUS_SEVEN, 2, 1),
];

/// A comparison with the immediate -1, which is the greatest number without a sign.
const COMPARISONS: [(ImmOp, u32, u32); 3] = [
    (ImmOp::Sltiu, 5, 1),
    (ImmOp::Sltiu, MINUS_ONE, 0),
    (ImmOp::Slti, 5, 0),
];

/// A comparison, its operands, and whether its branch is taken.
#[rattlefmt::skip]
const BRANCHES: [(BranchOp, u32, u32, bool); 16] = [
    (BranchOp::Beq, 5, 5, true),
    (BranchOp::Beq, 5, 6, false),
    (BranchOp::Bne, 5, 5, false),
    (BranchOp::Bne, 5, 6, true),
    (BranchOp::Blt, LEAST, GREATEST, true),
    (BranchOp::Blt, 0, MINUS_ONE, false),
    (BranchOp::Blt, 5, 5, false),
    (BranchOp::Bge, LEAST, GREATEST, false),
    (BranchOp::Bge, 0, MINUS_ONE, true),
    (BranchOp::Bge, 5, 5, true),
    (BranchOp::Bltu, LEAST, GREATEST, false),
    (BranchOp::Bltu, 0, MINUS_ONE, true),
    (BranchOp::Bltu, 5, 5, false),
    (BranchOp::Bgeu, LEAST, GREATEST, true),
    (BranchOp::Bgeu, 0, MINUS_ONE, false),
    (BranchOp::Bgeu, 5, 5, true),
];

/// An address, an offset, and the target.
#[rattlefmt::skip]
const TARGETS: [(u32, i32, u32); 5] = [
    (0x1000, 16, 0x1010),
    (0x1000, -16, 0xff0),
    (0, -4, 0xffff_fffc),
    (0xffff_fffc, 8, 4),
    (LEAST, -1_048_576, 0x7ff0_0000),
];

/// An operation, the old word, the operand, and the new word.
#[rattlefmt::skip]
const ATOMICS: [(AmoOp, u32, u32, u32); 13] = [
    (AmoOp::Amoswap, 1, 2, 2),
    (AmoOp::Amoadd, MINUS_ONE, 1, 0),
    (AmoOp::Amoxor, 0xf0f0, 0xff00, 0x0ff0),
    (AmoOp::Amoand, 0xf0f0, 0xff00, 0xf000),
    (AmoOp::Amoor, 0xf0f0, 0xff00, 0xfff0),
    (AmoOp::Amomin, LEAST, GREATEST, LEAST),
    (AmoOp::Amomin, 1, MINUS_ONE, MINUS_ONE),
    (AmoOp::Amomax, LEAST, GREATEST, GREATEST),
    (AmoOp::Amomax, 1, MINUS_ONE, 1),
    (AmoOp::Amominu, LEAST, GREATEST, GREATEST),
    (AmoOp::Amominu, 1, MINUS_ONE, 1),
    (AmoOp::Amomaxu, LEAST, GREATEST, LEAST),
    (AmoOp::Amomaxu, 1, MINUS_ONE, MINUS_ONE),
];

/// A load, the byte of the word at which it begins, and what it gives.
#[rattlefmt::skip]
const LOADS: [(LoadOp, u32, u32); 10] = [
    (LoadOp::Lb, 0, 0x0000_0001),
    (LoadOp::Lb, 1, 0x0000_007f),
    (LoadOp::Lb, 2, 0xffff_ffff),
    (LoadOp::Lb, 3, 0xffff_ff80),
    (LoadOp::Lh, 0, 0x0000_7f01),
    (LoadOp::Lh, 2, 0xffff_80ff),
    (LoadOp::Lw, 0, 0x80ff_7f01),
    (LoadOp::Lbu, 2, 0x0000_00ff),
    (LoadOp::Lbu, 3, 0x0000_0080),
    (LoadOp::Lhu, 2, 0x0000_80ff),
];

/// A store, the byte of the word at which it begins, and the word then.
#[rattlefmt::skip]
const STORES: [(StoreOp, u32, u32); 7] = [
    (StoreOp::Sb, 0, 0x1122_33dd),
    (StoreOp::Sb, 1, 0x1122_dd44),
    (StoreOp::Sb, 2, 0x11dd_3344),
    (StoreOp::Sb, 3, 0xdd22_3344),
    (StoreOp::Sh, 0, 0x1122_ccdd),
    (StoreOp::Sh, 2, 0xccdd_3344),
    (StoreOp::Sw, 0, 0xaabb_ccdd),
];

#[test]
fn results_of_operations(rt: HostRuntime) {
    for (op, a, b, want) in &OPERATIONS {
        assert!(rt; alu(*op, *a, *b) == *want, "{op:?} of {a} and {b}");
    }
    for (op, a, want) in &COMPARISONS {
        assert!(rt; alu(op.reg_op(), *a, word(-1)) == *want, "{op:?} of {a}");
    }
    for (op, old, operand, want) in &ATOMICS {
        assert!(rt;
            amo_result(*op, *old, *operand) == *want,
            "{op:?} of {old} and {operand}"
        );
    }
}

#[test]
fn ways_of_branches(rt: HostRuntime) {
    for (op, a, b, want) in &BRANCHES {
        assert!(rt; branch_taken(*op, *a, *b) == *want, "{op:?} of {a} and {b}");
    }
    for (from, offset, want) in &TARGETS {
        assert!(rt; target(*from, *offset) == *want, "{from} and {offset}");
    }
}

/// Whether a load from a word gives this.
fn loads(op: LoadOp, byte: u32, want: u32) -> bool {
    byte < 4 && is_aligned_load(op, byte) && load_part(op, 0x80ff_7f01, byte) == want
}

/// Whether a store into a word gives this.
fn stores(op: StoreOp, byte: u32, want: u32) -> bool {
    byte < 4 && is_aligned_store(op, byte) && store_part(op, 0x1122_3344, byte, 0xaabb_ccdd) == want
}

#[test]
fn parts_of_words(rt: HostRuntime) {
    for (op, byte, want) in &LOADS {
        assert!(rt; loads(*op, *byte, *want), "{op:?} at {byte}");
    }
    for (op, byte, want) in &STORES {
        assert!(rt; stores(*op, *byte, *want), "{op:?} at {byte}");
    }
    assert!(rt; !is_aligned_load(LoadOp::Lh, 3));
    assert!(rt; !is_aligned_load(LoadOp::Lw, 6));
    assert!(rt; !is_aligned_store(StoreOp::Sh, 3));
    assert!(rt; !is_aligned_store(StoreOp::Sw, 6));
}
