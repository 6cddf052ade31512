//! What a store leaves of a word.
ghost use Rattle.std.specs.Prelude.{◌≡◌, ◌<◌, ◌%◌, IsTrue};
ghost use Rattle.rv_exec.specs.Access.{is_aligned_store, word_with, store_of};

use slack_base::StoreOp;

/// The word after a store of `value` that begins at `byte`, where byte 0 is the lowest: the address modulo 4,
/// which is a multiple of the size of the store (RISC-V Unprivileged ISA 20191213, chapter 2.6).
#[tactic(auto, using(crate::proofs::Parts::word_replaced), unfolding(crate::specs::Access::store_of))]
pub fn store_part(op: StoreOp, word: u32, byte: u32, value: u32) -> u32
    requires within { byte < 4 }
    requires aligned { IsTrue (is_aligned_store op byte) }
    ensures { result ≡ store_of op word byte value }
{
    match op {
        StoreOp::Sb => with_byte(word, byte, value),
        StoreOp::Sh => with_half(word, byte, value),
        StoreOp::Sw => value,
    }
}

#[tactic(auto, using(crate::proofs::Parts::byte_replaced))]
fn with_byte(word: u32, byte: u32, value: u32) -> u32
    requires { byte < 4 }
    ensures { result ≡ word_with 1 word byte value }
{
    let shift = 8 * byte;
    (word & !(0xff << shift)) | ((value & 0xff) << shift)
}

#[tactic(auto, using(crate::proofs::Parts::half_replaced))]
fn with_half(word: u32, byte: u32, value: u32) -> u32
    requires within { byte < 4 }
    requires aligned { byte % 2 ≡ 0 }
    ensures { result ≡ word_with 2 word byte value }
{
    let shift = 8 * byte;
    (word & !(0xffff << shift)) | ((value & 0xffff) << shift)
}
