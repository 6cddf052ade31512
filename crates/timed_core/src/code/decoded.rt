//! The instructions of words in their order.
ghost use Rattle.std.specs.Prelude.{◌≡◌, ◌*◌, ◌%◌, length, vec_len, IfOk};
ghost use Rattle.timed_core.specs.Code.{AreDecoded};

use crate::kept::Kept;
use byteorder::{ByteOrder, LittleEndian};
use rv_decode::decode;
use slack_base::OutOfMemory;
use std::alloc::Global;

/// The instructions of the words of these bytes.
pub fn decoded(alloc: Global, bytes: &[u8]) -> Result<Vec<Kept>, OutOfMemory>
    requires { length bytes.now % 4 ≡ 0 }
    ensures instrs { IfOk result (λ kept. AreDecoded bytes.now kept.items) }
    ensures count { IfOk result (λ kept. 4 * vec_len kept ≡ length bytes.now) }
{
    let count = bytes.len() / 4;
    let mut kept = Vec::with_capacity(alloc, count)?;
    for n in 0..count {
        let instr = decode(LittleEndian::read_u32(&bytes[4 * n..]));
        kept.push(Kept::of(instr))?;
    }
    Ok(kept)
}
