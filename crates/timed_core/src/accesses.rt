//! The accesses of instructions to memory.
ghost use Rattle.std.specs.Prelude.{◌≡◌, ◌%◌, Some};
ghost use Rattle.slack_base.specs.declared.stamps.Id.{Id};
ghost use Rattle.timed_core.specs.Accesses.{is_aligned, is_write, hits, asked_for};
ghost use Rattle.timed_core.specs.Outcomes.{ask_of};

use crate::outcomes::Outcome;
use mesi_cache::Held;
use rv_exec::{is_aligned_load, is_aligned_store};
use slack_base::{AmoOp, LoadOp, StoreOp};

/// What an instruction does at an address of memory. Each `rd` is the register that it writes.
#[derive(Clone, Copy, Debug, PartialEq, Eq)]
pub enum Access {
    Load { op: LoadOp, rd: u8 },
    Store { op: StoreOp, value: u32 },
    LoadReserved { rd: u8 },
    StoreConditional { rd: u8, value: u32 },
    Amo { op: AmoOp, rd: u8, operand: u32 },
}

impl Access {
    /// Whether the address is a multiple of the size of the access, which its part below the word, the address
    /// modulo 4, says too.
    #[inline(always)]
    pub fn is_aligned(self, address: u32) -> bool
        ensures value { result ≡ is_aligned self address }
        ensures byte { result ≡ is_aligned self (address % 4) }
    {
        match self {
            Access::Load { op, .. } => is_aligned_load(op, address),
            Access::Store { op, .. } => is_aligned_store(op, address),
            Access::LoadReserved { .. } | Access::StoreConditional { .. } | Access::Amo { .. } =>
                address % 4 == 0,
        }
    }

    /// Whether the access writes its line.
    #[inline(always)]
    pub fn is_write(self) -> bool
        ensures { result ≡ is_write self }
    {
        match self {
            Access::Load { .. } | Access::LoadReserved { .. } => false,
            Access::Store { .. } | Access::StoreConditional { .. } | Access::Amo { .. } => true,
        }
    }

    /// Whether the access hits a line that is held in this state.
    #[inline(always)]
    pub fn hits(self, held: Held) -> bool
        ensures { result ≡ hits self held }
    {
        !self.is_write() || held.may_write()
    }

    /// What the access comes to where it misses: it asks for its line.
    #[inline(always)]
    pub fn miss(self, line: u32) -> Outcome
        ensures ask { (id : Id) → ask_of result id ≡ Some (asked_for self id line) }
        ensures waits { result ≡ Outcome.Ready → ⊥ }
    {
        if self.is_write() {
            Outcome::ReadOwn { line }
        } else {
            Outcome::Read { line }
        }
    }
}
