//! Cores that only advance.
ghost use Rattle.std.specs.Prelude.{◌≡◌, ◌+◌, MatchBool};

use core_gate::Pacer;
use slack_base::TOP;
use std::thread::{self, Threads, join_mut};

/// After so many idle turns in a row a thread gives up.
pub const PATIENCE: u32 = 100_000_000;

/// Observes global time, and advances where that is allowed and the end isn't reached. Returns whether it advanced.
pub fn step(pacer: &mut Pacer, end: u64) -> bool
    ensures { MatchBool result (pacer.new.clock ≡ pacer.old.clock + 1) (pacer.new.clock ≡ pacer.old.clock) }
{
    pacer.observe();
    let ready = pacer.may_advance() && pacer.clock() < TOP && pacer.clock() < end;
    if ready {
        pacer.advance();
    }
    ready
}

fn advance_all(pacer: &mut Pacer, end: u64) {
    let mut idle = 0u32;
    for _ in 0..u64::MAX {
        if pacer.clock() >= end || idle >= PATIENCE {
            return;
        }
        if step(pacer, end) {
            idle = 0;
        } else {
            idle = idle.saturating_add(1);
            thread::yield_now();
        }
    }
}

/// Two cores, which advance in threads of their own.
#[derive(Drop)]
pub struct Pair {
    pub first: Pacer,
    pub second: Pacer,
    pub end: u64,
}

impl Pair {
    pub fn advance<R: Threads>(&mut self, rt: &R) {
        let end = self.end;
        let first = &mut self.first;
        let second = &mut self.second;
        join_mut(
            rt,
            &mut || advance_all(first, end),
            &mut || { advance_all(second, end) },
        );
    }
}

/// Advances two pairs in threads of their own.
pub fn advance_pairs<R: Threads + Sync>(rt: &R, first: &mut Pair, second: &mut Pair) {
    join_mut(rt, &mut || first.advance(rt), &mut || second.advance(rt));
}
