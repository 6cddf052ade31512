//! A ring whose items are letters.
ghost use Rattle.std.specs.Prelude.{◌<◌};
ghost use Rattle.stamp_queue.specs.Rings.{AreEnds};

use slack_base::{Ask, AskList, Id, OutOfMemory};
use stamp_queue::{AskReceiver, AskSender, ask_ring, drain_asks};
use std::alloc::Global;

const ID: Id = Id {
    cycle: 1,
    core: 0,
    number: 0,
};

pub fn letter(byte: u8) -> Ask {
    Ask::Put { id: ID, byte }
}

pub fn letter_of(ask: &Ask) -> u8 {
    match *ask {
        Ask::Put { byte, .. } => byte,
        _ => b'?',
    }
}

/// A ring, and the letters that were received so far: `-` stands for none.
#[derive(Drop)]
pub struct Letters {
    sender: AskSender,
    receiver: AskReceiver,
    next: u8,
    received: Vec<u8>,
    ghost ends: { AreEnds sender receiver },
}

impl Letters {
    pub fn new(alloc: Global, slots: u32) -> Result<Letters, OutOfMemory>
        requires { 0 < slots }
    {
        let (sender, receiver) = ask_ring(alloc, slots)?;
        Ok(Letters {
            sender,
            receiver,
            next: b'a',
            received: Vec::new(alloc),
        })
    }

    pub fn received(&self) -> &[u8] {
        self.received.as_slice()
    }

    /// Sends the next letter (`s`), flushes (`f`), receives one (`r`) or drains (`d`).
    pub fn step(&mut self, alloc: Global, step: u8) -> Result<(), OutOfMemory> {
        match step {
            b's' => self.send()?,
            b'f' => self.sender.flush(),
            b'r' => {
                let byte = self.receiver.receive().map_or(b'-', |ask| letter_of(&ask));
                self.received.push(byte)?;
            }
            _ => self.drain(alloc)?,
        }
        Ok(())
    }

    fn send(&mut self) -> Result<(), OutOfMemory> {
        self.sender.send(letter(self.next))?;
        self.next = self.next.wrapping_add(1);
        Ok(())
    }

    fn drain(&mut self, alloc: Global) -> Result<(), OutOfMemory> {
        let mut left = AskList::new(alloc);
        drain_asks(&mut self.sender, &mut self.receiver, &mut left)?;
        for ask in left.as_slice() {
            self.received.push(letter_of(ask))?;
        }
        Ok(())
    }
}
