//! What an instruction does to a core, as contracts say it.

use crate::accesses::Access;
use slack_base::Trap;

/// What an instruction does.
#[derive(Clone, Copy, Debug, PartialEq, Eq)]
pub enum Effect {
    /// The register becomes the value, and pc goes on to the next instruction.
    Write { rd: u32, value: u32 },
    /// The register becomes the address of the next instruction, and pc the target.
    Jump { rd: u32, target: u32 },
    /// pc becomes the target.
    Branch { target: u32 },
    /// pc goes on to the next instruction.
    Pass,
    /// Memory is accessed.
    Memory { address: u32, access: Access },
    /// The core ends by a trap.
    Stop(Trap),
    /// A service is called.
    Call,
}
