//! Words and texts as LLVM's assembler gives them (`llvm-mc -triple=riscv32 -mattr=+m,+a -show-encoding`).
ghost use Rattle.std.specs.Prelude.{◌≡◌, ℕ, ℤ, IfSome, Some};
ghost use Rattle.slack_base.specs.declared.instructions.BranchOp.{BranchOp};
ghost use Rattle.slack_base.specs.declared.instructions.Instr.TheVariants.{Branch};
ghost use Rattle.rv_decode.specs.Fields.{opcode_of};
ghost use Rattle.rv_decode.specs.Encodes.{Encodes};
ghost use Rattle.rv_decode.specs.Ranges.{IsBranchOffset};

use rv_decode::{Instr, decode, encode, text_of};
use std::alloc::Global;

const LISTED: [(u32, &str); 74] = [
    (0xff010113, "addi x2, x2, -16"),
    (0x05d00893, "addi x17, x0, 93"),
    (0x80010093, "addi x1, x2, -2048"),
    (0x7ff10093, "addi x1, x2, 2047"),
    (0xfff22193, "slti x3, x4, -1"),
    (0x00123193, "sltiu x3, x4, 1"),
    (0xfff34293, "xori x5, x6, -1"),
    (0x0ff46393, "ori x7, x8, 255"),
    (0x00f57493, "andi x9, x10, 15"),
    (0x00311093, "slli x1, x2, 3"),
    (0x01f11093, "slli x1, x2, 31"),
    (0x00525193, "srli x3, x4, 5"),
    (0x41f35293, "srai x5, x6, 31"),
    (0x00001437, "lui x8, 1"),
    (0xffffffb7, "lui x31, 1048575"),
    (0x12345517, "auipc x10, 74565"),
    (0x0100006f, "jal x0, 16"),
    (0x7ffff0ef, "jal x1, 1048574"),
    (0x80000fef, "jal x31, -1048576"),
    (0x001002ef, "jal x5, 2048"),
    (0xffdff06f, "jal x0, -4"),
    (0x00008067, "jalr x0, 0(x1)"),
    (0x800300e7, "jalr x1, -2048(x6)"),
    (0x7e208fe3, "beq x1, x2, 4094"),
    (0x00051863, "bne x10, x0, 16"),
    (0x8041c063, "blt x3, x4, -4096"),
    (0x0062d0e3, "bge x5, x6, 2048"),
    (0xfe83efe3, "bltu x7, x8, -2"),
    (0x01ff7f63, "bgeu x30, x31, 30"),
    (0xfff10083, "lb x1, -1(x2)"),
    (0x7ff21183, "lh x3, 2047(x4)"),
    (0x01042283, "lw x5, 16(x8)"),
    (0x0003c303, "lbu x6, 0(x7)"),
    (0x8004d403, "lhu x8, -2048(x9)"),
    (0x80110023, "sb x1, -2048(x2)"),
    (0x7e321fa3, "sh x3, 2047(x4)"),
    (0x00a42023, "sw x10, 0(x8)"),
    (0xfe112e23, "sw x1, -4(x2)"),
    (0x003100b3, "add x1, x2, x3"),
    (0x00629233, "sll x4, x5, x6"),
    (0x009423b3, "slt x7, x8, x9"),
    (0x00c5b533, "sltu x10, x11, x12"),
    (0x00f746b3, "xor x13, x14, x15"),
    (0x0128d833, "srl x16, x17, x18"),
    (0x015a69b3, "or x19, x20, x21"),
    (0x018bfb33, "and x22, x23, x24"),
    (0x41bd0cb3, "sub x25, x26, x27"),
    (0x41eede33, "sra x28, x29, x30"),
    (0x025282b3, "mul x5, x5, x5"),
    (0x023110b3, "mulh x1, x2, x3"),
    (0x0262a233, "mulhsu x4, x5, x6"),
    (0x029433b3, "mulhu x7, x8, x9"),
    (0x0273c3b3, "div x7, x7, x7"),
    (0x02c5d533, "divu x10, x11, x12"),
    (0x02f766b3, "rem x13, x14, x15"),
    (0x0328f833, "remu x16, x17, x18"),
    (0x100422af, "lr.w x5, (x8)"),
    (0x140422af, "lr.w.aq x5, (x8)"),
    (0x120422af, "lr.w.rl x5, (x8)"),
    (0x160f2faf, "lr.w.aqrl x31, (x30)"),
    (0x1884232f, "sc.w x6, x8, (x8)"),
    (0x1e21a0af, "sc.w.aqrl x1, x2, (x3)"),
    (0x0854232f, "amoswap.w x6, x5, (x8)"),
    (0x005e202f, "amoadd.w x0, x5, (x28)"),
    (0x2421a0af, "amoxor.w.aq x1, x2, (x3)"),
    (0x6221a0af, "amoand.w.rl x1, x2, (x3)"),
    (0x4621a0af, "amoor.w.aqrl x1, x2, (x3)"),
    (0x8021a0af, "amomin.w x1, x2, (x3)"),
    (0xa021a0af, "amomax.w x1, x2, (x3)"),
    (0xc021a0af, "amominu.w x1, x2, (x3)"),
    (0xe021a0af, "amomaxu.w x1, x2, (x3)"),
    (0x0ff0000f, "fence"),
    (0x00000073, "ecall"),
    (0x00100073, "ebreak"),
];

/// Words off the table: among them LR with rs2 not 0, selecting fields of no row, FENCE.I, MRET, LD and a word of
/// the compressed set.
const OTHERS: [u32; 16] = [
    0x00000000, 0xffffffff, 0x101422af, 0x0000100f, 0x30200073, 0x00200073, 0x00013083, 0x00113023,
    0x00002063, 0x00001067, 0x02011093, 0x20015093, 0x420180b3, 0x100432af, 0x281120af, 0x00004501,
];

/// Whether a word is decoded to an instruction of this word and this text.
fn is_listed(alloc: Global, bits: u32, text: &str) -> bool {
    let Some(instr) = decode(bits) else {
        return false;
    };
    match text_of(alloc, &instr) {
        Ok(bytes) => encode(&instr) == bits && bytes.as_slice() == text.as_bytes(),
        Err(_) => false,
    }
}

#[test]
fn words_and_texts(rt: HostRuntime) {
    for (bits, text) in &LISTED {
        assert!(rt; is_listed(rt.alloc(), *bits, text), "{text}");
    }
    for bits in &OTHERS {
        assert!(rt; decode(*bits).is_none(), "{bits:08x}");
    }
}

/// How far a branch goes. Its clauses follow from those of `decode` alone.
fn branch_offset(bits: u32) -> Option<i32>
    ensures branch { (op : BranchOp) (rs1 rs2 : ℕ) (offset : ℤ) → Encodes bits (Branch op rs1 rs2 offset) → result ≡ Some offset }
    ensures in_range { IfSome result IsBranchOffset }
    ensures opcode { IfSome result (λ _. opcode_of bits ≡ 0b1100011) }
{
    match decode(bits)? {
        Instr::Branch { offset, .. } => Some(offset),
        _ => None,
    }
}

#[test]
fn offsets_of_branches(rt: HostRuntime) {
    // bltu, and jal
    assert_eq!(rt; branch_offset(0xfe83efe3), Some(-2));
    assert_eq!(rt; branch_offset(0xffdff06f), None);
}
