//! All of a source, and all of a text to a sink.
ghost use Rattle.std.specs.Prelude.{◌≡◌, ◌+◌, ◌-◌, ◌<◌, ◌≤◌, ◌^◌, ◌↔◌, [], Some, drop, length, IfOk, IfSome, OnOk, OnErr, IsErrOf};
ghost use Rattle.io_edge.specs.Counting.{Rose};
ghost use Rattle.io_edge.specs.Streams.{with_after};
ghost use Rattle.io_edge.specs.Whole.{IsFront, AppendsFront};
ghost use Rattle.io_edge.specs.declared.whole.ReadAllError.TheVariants.{OutOfMemory as NoMemory};

use crate::streams::{Failed, Sink, Source};
use slack_base::{ByteList, OutOfMemory};
use std::alloc::{AllocError, Global};
use thiserror::Error;

/// Why not all of a source was read.
#[derive(Clone, Copy, Debug, PartialEq, Eq, Error)]
pub enum ReadAllError {
    #[error("the source failed")]
    Fault,
    #[error("the input is too long")]
    TooLong,
    #[error("out of memory")]
    OutOfMemory,
}

impl From<AllocError> for ReadAllError {
    ghost from_gives = { λ _ e. e ≡ NoMemory };

    fn from(_error: AllocError) -> ReadAllError {
        ReadAllError::OutOfMemory
    }
}

/// All bytes of a source, `most` at most. Where there are more, exactly one byte more is taken.
pub fn read_all<S: Source>(
    alloc: Global,
    source: &mut S,
    most: u64,
) -> Result<ByteList, ReadAllError>
    requires { most ≤ 2 ^ 32 }
    // What is read is all that the source told, and none is left.
    ensures all { IfOk result (λ bytes. IfSome (S.left source.old) (λ told. (bytes ≡ told) × (S.left source.new ≡ Some []))) }
    ensures within { IfOk result (λ bytes. length bytes ≤ most) }
    ensures counted { S.taken source.old < 2 ^ 63 → IfOk result (λ bytes. S.taken source.new ≡ S.taken source.old + length bytes) }
    ensures fault { IsErrOf result ReadAllError.Fault → Rose (S.faults source.old) (S.faults source.new) }
    ensures too_long { S.taken source.old < 2 ^ 63 → (IsErrOf result ReadAllError.TooLong ↔ (S.taken source.new ≡ S.taken source.old + (most + 1))) }
    // Each byte that was taken is a byte that the source told.
    ensures front { S.taken source.old < 2 ^ 63 → IsFront (S.left source.old) (S.left source.new) (S.taken source.new - S.taken source.old) }
    ensures no_more { S.taken source.old < 2 ^ 63 → S.taken source.new ≤ S.taken source.old + (most + 1) }
    ensures never_falls { S.faults source.old ≤ S.faults source.new }
{
    let mut bytes = Vec::new(alloc);
    let mut buffer = [0; 4096];
    loop {
        let room = (most + 1 - bytes.len() as u64).min(4096) as usize;
        let Ok(n) = source.take(&mut buffer[..room]) else {
            return Err(ReadAllError::Fault);
        };
        if n == 0 {
            return Ok(ByteList::of(bytes));
        }
        if bytes.len() as u64 + n as u64 > most {
            return Err(ReadAllError::TooLong);
        }
        bytes.extend_from_slice(&buffer[..n])?;
    }
}

/// Writes all bytes: each call of the sink offers all that are left, and for no bytes there is none. A sink that fails
/// has a front of them, and not all.
pub fn write_all<W: Sink>(sink: &mut W, bytes: &[u8]) -> Result<(), Failed>
    ensures whole { OnOk result (W.written sink.new ≡ with_after (W.written sink.old) bytes.now) }
    // For no bytes the sink isn't called.
    ensures untouched { bytes.now ≡ [] → sink.new ≡ sink.old }
    ensures front { OnErr result (AppendsFront (W.written sink.old) (W.written sink.new) bytes.now) }
    ensures failed { OnErr result (Rose (W.faults sink.old) (W.faults sink.new)) }
    ensures never_falls { W.faults sink.old ≤ W.faults sink.new }
{
    let mut done = 0;
    while done < bytes.len() {
        done += sink.put(&bytes[done..])?;
    }
    Ok(())
}
