//! A core as it was at its mark, but for its cache and its touches.
ghost use Rattle.std.specs.Prelude.{◌≡◌, IfOk};

use crate::harts::Hart;
use slack_base::{CoreEnd, Counts, OutOfMemory};
use stamp_queue::Inbox;
use std::marker::Model;

/// All of a hart but its cache and its touches. A contract sees the record of the fields.
#[derive(Drop)]
pub struct Parts {
    pub number: u32,
    pub pc: u32,
    pub registers: [u32; 32],
    pub reservation: Option<u32>,
    pub busy: u32,
    pub waiting: bool,
    pub ended: CoreEnd,
    pub counts: Counts,
}

impl Model for Parts {
    ghost use Rattle.slack_base.specs.declared.bounds.TheConstants.{TOP};
    ghost use Rattle.timed_core.specs.Cores.{IsBy};
    ghost use Rattle.timed_core.specs.Parts.{PartsValue};

    ghost Value = { PartsValue };

    ghost view = { λ p. record {
      number = p.number;
      pc = p.pc;
      registers = p.registers;
      reservation = p.reservation;
      busy = p.busy;
      waiting = p.waiting;
      ended = p.ended;
      counts = p.counts;
    } };

    ghost invariant = { λ p. IsBy TOP p.ended };
}

/// What is kept of a core at its mark: a copy of the small parts of its hart and of its inbox.
#[derive(Drop)]
pub struct Saved {
    pub parts: Parts,
    pub inbox: Inbox,
}

impl Saved {
    ghost use Rattle.timed_core.specs.Parts.{parts_of};

    /// A copy of all of a hart but its cache and its touches, and of its inbox.
    pub fn of(hart: &Hart, inbox: &Inbox) -> Result<Saved, OutOfMemory>
        ensures { IfOk result (λ saved. saved ≡ record { parts = parts_of hart.now.value; inbox = inbox.now }) }
    {
        Ok(Saved {
            parts: hart.parts(),
            inbox: inbox.copy()?,
        })
    }
}
