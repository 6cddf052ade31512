//! Words in the formats of the RISC-V Unprivileged ISA (20191213, chapters 2.2, 2.3 and 8).
ghost use Rattle.std.specs.Prelude.{◌≡◌, ◌+◌, ◌*◌, ◌^◌, ◌<◌, ◌≤◌, ◌-ℤ◌, ◌≤ℤ◌, ◌<ℤ◌, neg_ℤ, pos};
ghost use Rattle.rv_decode.specs.Encodes.{IsRType, IsIType, IsSType, IsBType, IsUType, IsJType, IsAtomic};
ghost use Rattle.rv_decode.specs.Ranges.{IsRegister, IsImmediate, IsBranchOffset, IsJumpOffset};

use crate::opcodes;

/// A number in two's complement: its sign's bit, and the number that the bits below it stand for.
struct SignedBits {
    sign: u32,
    below: u32,
}

impl SignedBits {
    /// The bits of a number, the sign's place weighing `weight`.
    fn of(value: i32, weight: i32) -> SignedBits
        requires small { weight ≤ℤ pos (2 ^ 30) }
        requires low { neg_ℤ weight ≤ℤ value }
        requires high { value <ℤ weight }
        ensures below { pos result.below <ℤ weight }
        ensures value { (result.sign ≡ 0 → value ≡ pos result.below) × (result.sign ≡ 1 → value ≡ pos result.below -ℤ weight) }
        ensures sign { result.sign ≤ 1 }
    {
        if value < 0 {
            SignedBits {
                sign: 1,
                below: (value + weight) as u32,
            }
        } else {
            SignedBits {
                sign: 0,
                below: value as u32,
            }
        }
    }
}

/// The R format.
pub(crate) fn r_type(opcode: u32, f3: u32, f7: u32, rd: u32, rs1: u32, rs2: u32) -> u32
    requires opcode { opcode < 128 }
    requires f3 { f3 < 8 }
    requires f7 { f7 < 128 }
    requires rd { IsRegister rd }
    requires rs1 { IsRegister rs1 }
    requires rs2 { IsRegister rs2 }
    ensures { IsRType result opcode f3 f7 rd rs1 rs2 }
{
    (f7 << 25) + (rs2 << 20) + (rs1 << 15) + (f3 << 12) + (rd << 7) + opcode
}

/// The I format.
pub(crate) fn i_type(opcode: u32, f3: u32, rd: u32, rs1: u32, immediate: i32) -> u32
    requires opcode { opcode < 128 }
    requires f3 { f3 < 8 }
    requires rd { IsRegister rd }
    requires rs1 { IsRegister rs1 }
    requires immediate { IsImmediate immediate }
    ensures { IsIType result opcode f3 rd rs1 immediate }
{
    let SignedBits { sign, below } = SignedBits::of(immediate, 1 << 11);
    let high = (sign << 6) + (below >> 5);
    r_type(opcode, f3, high, rd, rs1, below & 0x1f)
}

/// The S format.
pub(crate) fn s_type(opcode: u32, f3: u32, rs1: u32, rs2: u32, immediate: i32) -> u32
    requires opcode { opcode < 128 }
    requires f3 { f3 < 8 }
    requires rs1 { IsRegister rs1 }
    requires rs2 { IsRegister rs2 }
    requires immediate { IsImmediate immediate }
    ensures { IsSType result opcode f3 rs1 rs2 immediate }
{
    let SignedBits { sign, below } = SignedBits::of(immediate, 1 << 11);
    let high = (sign << 6) + (below >> 5);
    r_type(opcode, f3, high, below & 0x1f, rs1, rs2)
}

/// The B format.
pub(crate) fn b_type(opcode: u32, f3: u32, rs1: u32, rs2: u32, offset: i32) -> u32
    requires opcode { opcode < 128 }
    requires f3 { f3 < 8 }
    requires rs1 { IsRegister rs1 }
    requires rs2 { IsRegister rs2 }
    requires offset { IsBranchOffset offset }
    ensures { IsBType result opcode f3 rs1 rs2 offset }
{
    let SignedBits { sign, below } = SignedBits::of(offset, 1 << 12);
    let high = (sign << 6) + ((below >> 5) & 0x3f);
    let low = (below & 0x1f) + (below >> 11);
    r_type(opcode, f3, high, low, rs1, rs2)
}

/// The U format.
pub(crate) fn u_type(opcode: u32, rd: u32, upper: u32) -> u32
    requires opcode { opcode < 128 }
    requires rd { IsRegister rd }
    requires upper { upper < 2 ^ 20 }
    ensures { IsUType result opcode rd upper }
{
    (upper << 12) + (rd << 7) + opcode
}

/// The J format.
pub(crate) fn j_type(opcode: u32, rd: u32, offset: i32) -> u32
    requires opcode { opcode < 128 }
    requires rd { IsRegister rd }
    requires offset { IsJumpOffset offset }
    ensures { IsJType result opcode rd offset }
{
    let SignedBits { sign, below } = SignedBits::of(offset, 1 << 20);
    let low = ((below >> 1) & 0x3ff) << 9;
    let upper = (sign << 19) + low + (((below >> 11) & 1) << 8) + (below >> 12);
    u_type(opcode, rd, upper)
}

/// An atomic instruction on a word of memory.
pub(crate) fn atomic(funct5: u32, aq: bool, rl: bool, rd: u32, rs1: u32, rs2: u32) -> u32
    requires funct5 { funct5 < 32 }
    requires rd { IsRegister rd }
    requires rs1 { IsRegister rs1 }
    requires rs2 { IsRegister rs2 }
    ensures { IsAtomic result funct5 aq rl rd rs1 rs2 }
{
    let f7 = (funct5 << 2) + (u32::from(aq) << 1) + u32::from(rl);
    r_type(opcodes::AMO, 0b010, f7, rd, rs1, rs2)
}
