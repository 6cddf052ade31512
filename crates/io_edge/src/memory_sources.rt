//! A source over bytes in memory, which fails where it is told to.
ghost use Rattle.std.specs.Prelude.{◌≡◌, ◌<◌};

use crate::streams::{CallList, Failed, Source};
use slack_base::ByteList;
use std::marker::Model;

/// Bytes in memory. A call moves `step` bytes at most, and fails where its number is in `fails`.
#[derive(Debug, Drop)]
pub struct MemorySource {
    bytes: ByteList,
    position: usize,
    step: u32,
    fails: CallList,
    calls: u64,
    taken: u64,
    faults: u64,
}

impl Model for MemorySource {
    ghost use Rattle.io_edge.specs.Supply.{Supply};

    ghost Value = { Supply };

    ghost use Rattle.std.specs.Prelude.{drop, length, ◌<◌, ◌≤◌};

    ghost view = { λ s. record { left = drop s.position s.bytes; step = s.step; fails = s.fails; calls = s.calls; taken = s.taken; faults = s.faults } };

    ghost invariant = { λ s. (s.position ≤ length s.bytes) × (0 < s.step) };
}

impl MemorySource {
    ghost use Rattle.io_edge.specs.Supply.{fresh_supply};

    /// A source of these bytes. It takes no memory.
    pub fn make(bytes: ByteList, step: u32, fails: CallList) -> MemorySource
        requires { 0 < step }
        ensures { result ≡ fresh_supply bytes step fails }
    {
        MemorySource {
            bytes,
            position: 0,
            step,
            fails,
            calls: 0,
            taken: 0,
            faults: 0,
        }
    }
}

impl Source for MemorySource {
    ghost use Rattle.std.specs.Prelude.{◌≡◌, ◌<◌, ◌≤◌, length, Some, IfOk, OnOk, OnErr, IsErr, ◌↔◌, Contains, min};
    ghost use Rattle.io_edge.specs.Counting.{Rose, raised_by};
    ghost use Rattle.io_edge.specs.Streams.{MovesFirst, MovesNothing};

    ghost left = { λ s. Some s.left };

    ghost taken = { λ s. s.taken };

    ghost faults = { λ s. s.faults };

    /// Moves the least of the step, the buffer and what is left, but for a call that is to fail.
    fn take(&mut self, into: &mut [u8]) -> Result<usize, Failed>
        requires { 0 < length into.old }
        ensures moved { IfOk result (λ n. MovesFirst (Some self.old.left) (Some self.new.left) n into.new) }
        ensures counted { IfOk result (λ n. self.new.taken ≡ raised_by n self.old.taken) }
        ensures unmoved { OnErr result (MovesNothing (Some self.old.left) (Some self.new.left) self.old.taken self.new.taken) }
        ensures failed { OnErr result (Rose self.old.faults self.new.faults) }
        ensures never_falls { self.old.faults ≤ self.new.faults }
        ensures least { IfOk result (λ n. n ≡ min self.old.step (min (length into.old) (length self.old.left))) }
        ensures told_to_fail { IsErr result ↔ Contains self.old.fails (raised_by 1 self.old.calls) }
        ensures calls { self.new.calls ≡ raised_by 1 self.old.calls }
        ensures fault { OnErr result (self.new.faults ≡ raised_by 1 self.old.faults) }
        ensures no_fault { OnOk result (self.new.faults ≡ self.old.faults) }
        ensures same { (self.new.step ≡ self.old.step) × (self.new.fails ≡ self.old.fails) }
    {
        self.calls = self.calls.saturating_add(1);
        if self.fails.as_slice().contains(&self.calls) {
            self.faults = self.faults.saturating_add(1);
            return Err(Failed);
        }
        let rest = &self.bytes.as_slice()[self.position..];
        let n = into.len().min(rest.len()).min(self.step as usize);
        into[..n].copy_from_slice(&rest[..n]);
        self.position += n;
        self.taken = self.taken.saturating_add(n as u64);
        Ok(n)
    }
}
