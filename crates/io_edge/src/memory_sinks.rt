//! A sink over memory, which fails where it is told to.
ghost use Rattle.std.specs.Prelude.{◌≡◌, ◌<◌, ◌≤◌, ◌+◌, ◌++◌, IfOk, length, vec_len, vec_capacity};

use crate::streams::{CallList, Failed, Sink};
use slack_base::OutOfMemory;
use std::alloc::Global;
use std::marker::Model;

/// Room in memory. A call appends `step` bytes at most and no more than there is room for, and fails where its
/// number is in `fails`, or where no room is left for a piece that isn't empty.
#[derive(Debug, Drop)]
pub struct MemorySink {
    bytes: Vec<u8>,
    room: usize,
    step: u32,
    fails: CallList,
    calls: u64,
    faults: u64,
}

impl Model for MemorySink {
    ghost use Rattle.io_edge.specs.Store.{Store};

    ghost Value = { Store };

    ghost use Rattle.std.specs.Prelude.{◌≡◌, ◌+◌, ◌<◌, ◌≤◌, vec_len, vec_capacity};

    ghost view = { λ s. record { written = s.bytes.items; room = s.room; step = s.step; fails = s.fails; calls = s.calls; faults = s.faults } };

    ghost invariant = { λ s. (vec_len s.bytes + s.room ≤ vec_capacity s.bytes) × (0 < s.step) };
}

impl MemorySink {
    ghost use Rattle.io_edge.specs.Store.{fresh_store};

    /// A sink with room for so many bytes, all of it reserved.
    pub fn make(
        alloc: Global,
        room: u64,
        step: u32,
        fails: CallList,
    ) -> Result<MemorySink, OutOfMemory>
        requires { 0 < step }
        ensures { IfOk result (λ sink. sink ≡ fresh_store room step fails) }
    {
        let room = room as usize;
        Ok(MemorySink {
            bytes: Vec::with_capacity(alloc, room)?,
            room,
            step,
            fails,
            calls: 0,
            faults: 0,
        })
    }

    /// The bytes that were written.
    pub fn written(&self) -> &[u8]
        ensures { result.now ≡ self.now.written }
    {
        self.bytes.as_slice()
    }
}

impl Sink for MemorySink {
    ghost use Rattle.std.specs.Prelude.{◌≡◌, ◌<◌, ◌≤◌, ◌+◌, ◌⊎◌, length, Some, IfOk, OnOk, OnErr, IsErr, ◌↔◌, Contains, min};
    ghost use Rattle.io_edge.specs.Counting.{Rose, raised_by};
    ghost use Rattle.io_edge.specs.Streams.{Appends, AppendsNothing};

    ghost written = { λ s. Some s.written };

    ghost faults = { λ s. s.faults };

    /// Appends the least of the step, the piece and the room that is left, but for a call that is to fail.
    fn put(&mut self, piece: &[u8]) -> Result<usize, Failed>
        ensures appended { IfOk result (λ n. Appends (Some self.old.written) (Some self.new.written) n piece.now) }
        ensures unmoved { OnErr result (AppendsNothing (Some self.old.written) (Some self.new.written)) }
        ensures failed { OnErr result (Rose self.old.faults self.new.faults) }
        ensures never_falls { self.old.faults ≤ self.new.faults }
        ensures least { IfOk result (λ n. (n ≡ min self.old.step (min (length piece.now) self.old.room)) × (self.new.room + n ≡ self.old.room)) }
        ensures told_to_fail { Contains self.old.fails (raised_by 1 self.old.calls) → IsErr result }
        ensures full { 0 < length piece.now → self.old.room ≡ 0 → IsErr result }
        ensures only { IsErr result → Contains self.old.fails (raised_by 1 self.old.calls) ⊎ ((0 < length piece.now) × (self.old.room ≡ 0)) }
        ensures calls { self.new.calls ≡ raised_by 1 self.old.calls }
        ensures fault { OnErr result (self.new.faults ≡ raised_by 1 self.old.faults) }
        ensures no_fault { OnOk result (self.new.faults ≡ self.old.faults) }
        ensures same { (self.new.step ≡ self.old.step) × (self.new.fails ≡ self.old.fails) }
        ensures room_kept { OnErr result (self.new.room ≡ self.old.room) }
    {
        self.calls = self.calls.saturating_add(1);
        let is_full = self.room == 0 && !piece.is_empty();
        if is_full || self.fails.as_slice().contains(&self.calls) {
            self.faults = self.faults.saturating_add(1);
            return Err(Failed);
        }
        let n = piece.len().min(self.room).min(self.step as usize);
        append_reserved(&mut self.bytes, &piece[..n]);
        self.room -= n;
        Ok(n)
    }
}

/// Appends bytes for which there is room.
fn append_reserved(bytes: &mut Vec<u8>, piece: &[u8])
    requires { vec_len bytes.old + length piece.now ≤ vec_capacity bytes.old }
    ensures items { bytes.new.items ≡ bytes.old.items ++ piece.now }
    ensures capacity { vec_capacity bytes.new ≡ vec_capacity bytes.old }
{
    for byte in piece {
        bytes.push_reserved(*byte);
    }
}
