//! The fields of an instruction's word, as the RISC-V Unprivileged ISA (20191213, chapter 2.2 and figure 2.4)
//! places them.
ghost use Rattle.std.specs.Prelude.{◌≡◌, ◌+◌, ◌^◌, ◌<◌, ◌≤◌, ◌-ℤ◌, ◌==◌, pos};
ghost use Rattle.rv_decode.specs.Fields.{field, opcode_of, rd_of, f3_of, rs1_of, rs2_of, f7_of, funct5_of, aq_of, rl_of, immediate_i, immediate_s, immediate_b, immediate_j, upper_of};

/// The bits `high` to `low`, as a number.
#[inline(always)]
fn field(bits: u32, high: u32, low: u32) -> u32
    requires ordered { low ≤ high }
    requires within { high < 32 }
    requires short { high < low + 31 }
    ensures { result ≡ field bits high low }
{
    (bits >> low) & ((1 << (high + 1 - low)) - 1)
}

/// The number whose sign weighs so much below zero.
#[inline(always)]
fn signed(below: u32, sign: u32) -> i32
    requires below { below < 2 ^ 31 }
    requires sign { sign < 2 ^ 31 }
    ensures { result ≡ pos below -ℤ pos sign }
{
    below as i32 - sign as i32
}

pub(crate) fn opcode(bits: u32) -> u32
    ensures { result ≡ opcode_of bits }
{
    field(bits, 6, 0)
}

pub(crate) fn rd(bits: u32) -> u32
    ensures { result ≡ rd_of bits }
{
    field(bits, 11, 7)
}

pub(crate) fn f3(bits: u32) -> u32
    ensures { result ≡ f3_of bits }
{
    field(bits, 14, 12)
}

pub(crate) fn rs1(bits: u32) -> u32
    ensures { result ≡ rs1_of bits }
{
    field(bits, 19, 15)
}

pub(crate) fn rs2(bits: u32) -> u32
    ensures { result ≡ rs2_of bits }
{
    field(bits, 24, 20)
}

pub(crate) fn f7(bits: u32) -> u32
    ensures { result ≡ f7_of bits }
{
    field(bits, 31, 25)
}

pub(crate) fn funct5(bits: u32) -> u32
    ensures { result ≡ funct5_of bits }
{
    field(bits, 31, 27)
}

/// The flag that orders a memory access before those that follow.
pub(crate) fn aq(bits: u32) -> bool
    ensures { result ≡ (aq_of bits == 1) }
{
    field(bits, 26, 26) == 1
}

/// The flag that orders a memory access after those that came before.
pub(crate) fn rl(bits: u32) -> bool
    ensures { result ≡ (rl_of bits == 1) }
{
    field(bits, 25, 25) == 1
}

/// The upper twenty bits.
pub(crate) fn upper(bits: u32) -> u32
    ensures { result ≡ upper_of bits }
{
    field(bits, 31, 12)
}

/// The immediate of the I format.
pub(crate) fn immediate_i(bits: u32) -> i32
    ensures { result ≡ immediate_i bits }
{
    signed(field(bits, 30, 20), field(bits, 31, 31) << 11)
}

/// The immediate of the S format.
pub(crate) fn immediate_s(bits: u32) -> i32
    ensures { result ≡ immediate_s bits }
{
    let below = (field(bits, 30, 25) << 5) + field(bits, 11, 7);
    signed(below, field(bits, 31, 31) << 11)
}

/// The immediate of the B format.
pub(crate) fn immediate_b(bits: u32) -> i32
    ensures { result ≡ immediate_b bits }
{
    let below = (field(bits, 7, 7) << 11) + (field(bits, 30, 25) << 5) + (field(bits, 11, 8) << 1);
    signed(below, field(bits, 31, 31) << 12)
}

/// The immediate of the J format.
pub(crate) fn immediate_j(bits: u32) -> i32
    ensures { result ≡ immediate_j bits }
{
    let below = (field(bits, 19, 12) << 12)
        + (field(bits, 20, 20) << 11)
        + (field(bits, 30, 21) << 1);
    signed(below, field(bits, 31, 31) << 20)
}
