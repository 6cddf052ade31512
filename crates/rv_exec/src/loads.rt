//! What a load takes of a word.
ghost use Rattle.std.specs.Prelude.{◌≡◌, ◌<◌, ◌%◌, IsTrue};
ghost use Rattle.rv_exec.specs.Access.{is_aligned_load, load_of, part_of, sign_extension};

use slack_base::LoadOp;

/// What a load gives that begins at `byte` of a word, where byte 0 is the lowest: the address modulo 4, which
/// is a multiple of the size of the load (RISC-V Unprivileged ISA 20191213, chapter 2.6).
#[tactic(auto, using(crate::proofs::Parts::word_part), unfolding(crate::specs::Access::load_of))]
pub fn load_part(op: LoadOp, word: u32, byte: u32) -> u32
    requires within { byte < 4 }
    requires aligned { IsTrue (is_aligned_load op byte) }
    ensures { result ≡ load_of op word byte }
{
    match op {
        LoadOp::Lb => extended_byte(byte_at(word, byte)),
        LoadOp::Lh => extended_half(half_at(word, byte)),
        LoadOp::Lw => word,
        LoadOp::Lbu => u32::from(byte_at(word, byte)),
        LoadOp::Lhu => u32::from(half_at(word, byte)),
    }
}

#[tactic(auto, using(crate::proofs::Parts::byte_part))]
fn byte_at(word: u32, byte: u32) -> u8
    requires { byte < 4 }
    ensures { result ≡ part_of 1 word byte }
{
    (word >> (8 * byte) & 0xff) as u8
}

#[tactic(auto, using(crate::proofs::Parts::half_part))]
fn half_at(word: u32, byte: u32) -> u16
    requires within { byte < 4 }
    requires aligned { byte % 2 ≡ 0 }
    ensures { result ≡ part_of 2 word byte }
{
    (word >> (8 * byte) & 0xffff) as u16
}

#[tactic(auto, using(crate::proofs::Parts::signs))]
fn extended_byte(byte: u8) -> u32
    ensures { result ≡ sign_extension 8 byte }
{
    i32::from(byte.cast_signed()).cast_unsigned()
}

#[tactic(auto, using(crate::proofs::Parts::signs))]
fn extended_half(half: u16) -> u32
    ensures { result ≡ sign_extension 16 half }
{
    i32::from(half.cast_signed()).cast_unsigned()
}
