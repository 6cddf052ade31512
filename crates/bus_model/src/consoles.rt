//! The console: the bytes that were put on it.
ghost use Rattle.std.specs.Prelude.{◌≡◌, [], None, Some, IfNone, IfSome, OnOk};

use slack_base::{Ask, HighestId, Id, OutOfMemory};
use std::alloc::Global;
use std::marker::Model;

/// The console of a machine, which may be marked. Since bytes only come behind those that are there, a mark keeps how
/// many there were.
#[derive(Debug, Drop)]
pub(crate) struct Console {
    bytes: Vec<u8>,
    highest: HighestId,
    mark: Option<ConsoleMark>,
}

/// How many bytes the console had at its mark, and the greatest id that it had served.
#[derive(Clone, Copy, Debug)]
struct ConsoleMark {
    count: usize,
    highest: HighestId,
}

impl Model for Console {
    ghost use Rattle.slack_base.specs.Marks.{Marked};
    ghost use Rattle.bus_model.specs.Channels.{ConsoleValue};

    ghost Value = { Marked ConsoleValue };

    ghost use Rattle.bus_model.specs.Views.{console_of, HadBytes};

    ghost view = { console_of };

    ghost invariant = { HadBytes };
}

impl Console {
    ghost use Rattle.bus_model.specs.Channels.{AsConsole};
    ghost use Rattle.bus_model.specs.Closing.{clash};
    ghost use Rattle.bus_model.specs.Serving.{console_served};

    /// The console with no bytes. It takes no memory.
    pub(crate) fn new(alloc: Global) -> Console
        ensures { result ≡ record { value = record { bytes = []; highest = None }; saved = None } }
    {
        Console {
            bytes: Vec::new(alloc),
            highest: HighestId::none(),
            mark: None,
        }
    }

    /// Serves an ask: appends the byte of a Put.
    pub(crate) fn serve(&mut self, ask: &Ask) -> Result<(), OutOfMemory>
        ensures console { OnOk result (self.new.value ≡ console_served self.old.value ask.now) }
        ensures saved { self.new.saved ≡ self.old.saved }
    {
        if let Ask::Put { byte, .. } = *ask {
            self.bytes.push(byte)?;
        }
        self.highest.note(ask.id());
        Ok(())
    }

    /// Marks the console as it stands. An older mark is replaced.
    pub(crate) fn mark(&mut self)
        ensures { self.new ≡ record { value = self.old.value; saved = Some self.old.value } }
    {
        self.mark = Some(ConsoleMark {
            count: self.bytes.len(),
            highest: self.highest,
        });
    }

    /// The console is again as it was at its mark, and isn't marked any more.
    pub(crate) fn undo(&mut self)
        ensures marked { IfSome self.old.saved (λ v. self.new.value ≡ v) }
        ensures unmarked { IfNone self.old.saved (self.new.value ≡ self.old.value) }
        ensures saved { self.new.saved ≡ None }
    {
        if let Some(ConsoleMark { count, highest }) = self.mark.take() {
            self.bytes.truncate(count);
            self.highest = highest;
        }
    }

    /// The console stays as it is, and isn't marked any more.
    pub(crate) fn keep(&mut self)
        ensures { self.new ≡ record { value = self.old.value; saved = None } }
    {
        self.mark = None;
    }

    /// The bytes in the order in which they came.
    pub(crate) fn bytes(&self) -> &[u8]
        ensures { result.now ≡ self.now.value.bytes }
    {
        self.bytes.as_slice()
    }

    /// The greatest id since the console was closed, where it is above the ask's.
    pub(crate) fn clash(&self, ask: &Ask) -> Option<Id>
        ensures { result ≡ clash (AsConsole self.now.value) ask.now }
    {
        self.highest.above(ask.id())
    }

    /// Forgets the greatest id.
    pub(crate) fn close(&mut self)
        ensures { self.new ≡ record { value = record self.old.value { highest = None }; saved = self.old.saved } }
    {
        self.highest.reset();
    }
}
