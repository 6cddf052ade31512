//! Which addresses are aligned for a load or a store.
ghost use Rattle.std.specs.Prelude.{◌≡◌, ◌%◌};
ghost use Rattle.rv_exec.specs.Access.{is_aligned_load, is_aligned_store};

use slack_base::{LoadOp, StoreOp};

/// Whether the address is a multiple of the size of the load, which its part below the word, the address
/// modulo 4, says too.
#[tactic(auto, using(crate::proofs::Aligned::in_word))]
pub fn is_aligned_load(op: LoadOp, address: u32) -> bool
    ensures value { result ≡ is_aligned_load op address }
    ensures byte { result ≡ is_aligned_load op (address % 4) }
{
    match op {
        LoadOp::Lb | LoadOp::Lbu => true,
        LoadOp::Lh | LoadOp::Lhu => address % 2 == 0,
        LoadOp::Lw => address % 4 == 0,
    }
}

/// Whether the address is a multiple of the size of the store, which its part below the word, the address
/// modulo 4, says too.
#[tactic(auto, using(crate::proofs::Aligned::in_word))]
pub fn is_aligned_store(op: StoreOp, address: u32) -> bool
    ensures value { result ≡ is_aligned_store op address }
    ensures byte { result ≡ is_aligned_store op (address % 4) }
{
    match op {
        StoreOp::Sb => true,
        StoreOp::Sh => address % 2 == 0,
        StoreOp::Sw => address % 4 == 0,
    }
}
