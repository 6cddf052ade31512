//! Reading the input of a command.
ghost use Rattle.std.specs.Prelude.{ℕ, List, ◌≡◌, ◌+◌, ◌<◌, ◌≤◌, ◌^◌, ◌↔◌, length, IfOk, IfErr, IfSome, IsOk, IsErrOf};
ghost use Rattle.io_edge.specs.Counting.{Rose};
ghost use Rattle.simulate_call.specs.Inputs.{GivesTo, IsInput, IsUnread, TookTooMany, most_bytes};

use crate::answers::Answer;
use io_edge::{ReadAllError, Source, read_all};
use sim_words::Command;
use slack_base::ByteList;
use std::alloc::Global;

/// The most bytes that an input may have.
pub const MOST_BYTES: u64 = 16781312;

/// All bytes of the source, for a command that reads it. The command `gen` reads nothing.
pub fn read_input<S: Source>(
    alloc: Global,
    command: Command,
    source: &mut S,
) -> Result<ByteList, Answer>
    ensures input { IfOk result (IsInput command (S.left source.old) (S.left source.new)) }
    ensures within { IfOk result (λ bytes. length bytes ≤ most_bytes) }
    ensures unread { IfErr result IsUnread }
    ensures generated { command ≡ Command.Gen → (source.new ≡ source.old) × IsOk result }
    ensures read_fault { IsErrOf result Answer.ReadFault → Rose (S.faults source.old) (S.faults source.new) }
    ensures too_long { S.taken source.old < 2 ^ 63 → (IsErrOf result (Answer.TooLong (most_bytes + 1)) ↔ TookTooMany (S.taken source.old) (S.taken source.new)) }
    ensures no_more { S.taken source.old < 2 ^ 63 → S.taken source.new ≤ S.taken source.old + (most_bytes + 1) }
    ensures given { (bytes : List ℕ) → GivesTo command (S.left source.old) (S.taken source.old) (S.faults source.old) (S.faults source.new) bytes
        → IfErr result (λ answer. answer ≡ Answer.OutOfMemory) }
    ensures told { S.taken source.old < 2 ^ 63 → IfSome (S.left source.old) (λ told. S.taken source.new ≤ S.taken source.old + length told) }
{
    if command == Command::Gen {
        return Ok(ByteList::new(alloc));
    }
    match read_all(alloc, source, MOST_BYTES) {
        Ok(bytes) => Ok(bytes),
        Err(ReadAllError::Fault) => Err(Answer::ReadFault),
        Err(ReadAllError::TooLong) => Err(Answer::TooLong {
            taken: MOST_BYTES + 1,
        }),
        Err(ReadAllError::OutOfMemory) => Err(Answer::OutOfMemory),
    }
}
