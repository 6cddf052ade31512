//! Marks of the small target's cores and channels: whole copies.

use crate::trio::{ChanTally, CoreTally, TrioChan, TrioCore};
use slack_base::OutOfMemory;

impl CoreTally {
    ghost use Rattle.std.specs.Prelude.{◌≡◌, IfOk};

    /// An equal one.
    fn copy(&self) -> Result<CoreTally, OutOfMemory>
        ensures { IfOk result (λ copy. copy ≡ self.now) }
    {
        Ok(CoreTally {
            number: self.number,
            count: self.count,
            inbox: self.inbox.copy()?,
        })
    }
}

impl ChanTally {
    ghost use Rattle.std.specs.Prelude.{◌≡◌};

    /// An equal one.
    fn copy(&self) -> ChanTally
        ensures { result ≡ self.now }
    {
        ChanTally {
            number: self.number,
            total: self.total,
            highest: self.highest,
        }
    }
}

impl TrioCore {
    ghost use Rattle.std.specs.Prelude.{◌≡◌, None, Some, IfNone, IfSome, OnOk};

    /// Saves the present value, in place of one that was saved before.
    pub fn mark(&mut self) -> Result<(), OutOfMemory>
        ensures { OnOk result (self.new ≡ record { value = self.old.value; saved = Some self.old.value }) }
    {
        self.saved = Some(self.tally.copy()?);
        Ok(())
    }

    /// Goes back to the saved value, if there is one, and ends the mark.
    pub fn undo(&mut self)
        ensures marked { IfSome self.old.saved (λ v. self.new.value ≡ v) }
        ensures unmarked { IfNone self.old.saved (self.new.value ≡ self.old.value) }
        ensures saved { self.new.saved ≡ None }
    {
        if let Some(saved) = self.saved.take() {
            self.tally = saved;
        }
    }

    /// Ends the mark, if there is one.
    pub fn keep(&mut self)
        ensures { self.new ≡ record { value = self.old.value; saved = None } }
    {
        self.saved = None;
    }
}

impl TrioChan {
    ghost use Rattle.std.specs.Prelude.{◌≡◌, None, Some, IfNone, IfSome};

    /// Saves the present value, in place of one that was saved before.
    pub fn mark(&mut self)
        ensures { self.new ≡ record { value = self.old.value; saved = Some self.old.value } }
    {
        self.saved = Some(self.tally.copy());
    }

    /// Goes back to the saved value, if there is one, and ends the mark.
    pub fn undo(&mut self)
        ensures marked { IfSome self.old.saved (λ v. self.new.value ≡ v) }
        ensures unmarked { IfNone self.old.saved (self.new.value ≡ self.old.value) }
        ensures saved { self.new.saved ≡ None }
    {
        if let Some(saved) = self.saved.take() {
            self.tally = saved;
        }
    }

    /// Ends the mark, if there is one.
    pub fn keep(&mut self)
        ensures { self.new ≡ record { value = self.old.value; saved = None } }
    {
        self.saved = None;
    }
}
