//! A channel: a bus or the console.
ghost use Rattle.std.specs.Prelude.{◌≡◌, ◌+◌, ◌<◌, ◌≤◌, ◌++◌, [], None, Some, IfNone, IfOk, IfSome, IsSome, OnErr, OnOk};
ghost use Rattle.bus_model.specs.Asks.{channel_of};

use crate::buses::Bus;
use crate::consoles::Console;
use slack_base::{Ask, Config, Id, Image, OutOfMemory, PostList};
use status_map::{EntryView, PostBatch};
use std::alloc::Global;
use std::marker::Model;

/// A channel that asks go to, one after another, and that may be marked, to come back to it as it was there. A mark
/// copies no line and no byte: each entry is noted before it first changes. A contract sees the channel's value, and its
/// value at the mark where there is one.
#[derive(Debug, Drop)]
pub struct Channel {
    kind: Kind,
    /// Room for the posts of an ask while it is served, so that none is made for each ask.
    batch: PostBatch,
}

#[derive(Debug, Drop)]
enum Kind {
    Bus(Bus),
    Console(Console),
}

impl Model for Channel {
    ghost use Rattle.slack_base.specs.Marks.{Marked};
    ghost use Rattle.bus_model.specs.Channels.{ChannelValue};

    ghost Value = { Marked ChannelValue };

    ghost use Rattle.bus_model.specs.Kinds.{saved_of, value_of};

    ghost view = { λ c. record { value = value_of c.kind; saved = saved_of c.kind } };
}

/// The number of the channel that an ask is of, in a machine with so many buses: the lines go round the buses, and a
/// byte goes to the console, whose number comes after theirs.
pub fn channel_of(ask: &Ask, buses: u32) -> u32
    requires { 0 < buses }
    ensures { result ≡ channel_of buses ask.now }
{
    match ask.line() {
        Some(line) => line % buses,
        None => buses,
    }
}

impl Channel {
    ghost use Rattle.slack_base.specs.Images.{Fits};
    ghost use Rattle.slack_base.specs.Numbers.{numbers_of};
    ghost use Rattle.bus_model.specs.Channels.{AsBus, AsConsole, bus_setting, entry_at, found_entry, number_of, free_of, asks_of, retries_of, count_of, bytes_of, IsSound};
    ghost use Rattle.bus_model.specs.Asks.{MayServe, HasLine};
    ghost use Rattle.bus_model.specs.Closing.{clash, closed};
    ghost use Rattle.bus_model.specs.Noting.{IsNotedSince};
    ghost use Rattle.bus_model.specs.Settings.{setting_of};
    ghost use Rattle.bus_model.specs.Starting.{first_bus};
    ghost use Rattle.bus_model.specs.Serving.{served};

    /// The bus of a number, before the first cycle: memory has the image's bytes, and no core holds a line.
    pub fn bus(
        alloc: Global,
        index: u32,
        config: &Config,
        image: &Image,
    ) -> Result<Channel, OutOfMemory>
        requires bus { index < config.now.buses }
        requires image { Fits config.now.base config.now.memory image.now }
        ensures value { IfOk result (λ channel. channel.value ≡ AsBus (first_bus (numbers_of config.now) image.now index)) }
        ensures saved { IfOk result (λ channel. channel.saved ≡ None) }
        ensures sound { IfOk result (λ channel. IsSound channel.value) }
        ensures setting { IfOk result (λ channel. bus_setting channel.value ≡ Some (setting_of (numbers_of config.now) index)) }
    {
        let bus = Bus::new(alloc, index, config, image)?;
        Ok(Channel {
            kind: Kind::Bus(bus),
            batch: PostBatch::new(),
        })
    }

    /// The console with no bytes. It takes no memory.
    pub fn console(alloc: Global) -> Channel
        ensures { result ≡ record { value = AsConsole (record { bytes = []; highest = None }); saved = None } }
    {
        Channel {
            kind: Kind::Console(Console::new(alloc)),
            batch: PostBatch::new(),
        }
    }

    /// Serves an ask. The posts are appended, in the order in which they are sent.
    #[tactic(auto, unfolding(crate::specs::Serving::served))]
    pub fn serve(&mut self, ask: &Ask, out: &mut PostList) -> Result<(), OutOfMemory>
        requires { MayServe self.old.value ask.now }
        ensures channel { OnOk result (self.new.value ≡ (served self.old.value ask.now).0) }
        ensures saved { self.new.saved ≡ self.old.saved }
        ensures setting { OnOk result (bus_setting self.new.value ≡ bus_setting self.old.value) }
        ensures posts { OnOk result (out.new ≡ out.old ++ (served self.old.value ask.now).1) }
    {
        match &mut self.kind {
            Kind::Bus(bus) => bus.serve(ask, &mut self.batch, out),
            Kind::Console(console) => console.serve(ask),
        }
    }

    /// The id that an ask clashes with, if any. On a bus it is the greatest above the ask's own that has the bus before
    /// the ask, granted behind all lower ids, would be done with it; on the console the greatest that was served, where
    /// it is above the ask's. Only what was served since the channel was closed counts. It takes no memory.
    pub fn clash(&self, ask: &Ask) -> Option<Id>
        requires { MayServe self.now.value ask.now }
        ensures { result ≡ clash self.now.value ask.now }
    {
        match &self.kind {
            Kind::Bus(bus) => bus.clash(ask),
            Kind::Console(console) => console.clash(ask),
        }
    }

    /// Closes the channel: a bus empties its calendar, and is free once all its slots have ended; the console forgets
    /// the greatest id. Nothing else changes. It takes no memory.
    pub fn close(&mut self)
        ensures channel { self.new.value ≡ closed self.old.value }
        ensures saved { self.new.saved ≡ self.old.saved }
        ensures setting { bus_setting self.new.value ≡ bus_setting self.old.value }
    {
        match &mut self.kind {
            Kind::Bus(bus) => bus.close(),
            Kind::Console(console) => console.close(),
        }
    }

    /// Marks the channel as it stands. An older mark is replaced.
    pub fn mark(&mut self) -> Result<(), OutOfMemory>
        ensures marked { OnOk result (self.new ≡ record { value = self.old.value; saved = Some self.old.value }) }
        ensures refused { OnErr result (self.new ≡ self.old) }
    {
        match &mut self.kind {
            Kind::Bus(bus) => bus.mark(),
            Kind::Console(console) => {
                console.mark();
                Ok(())
            }
        }
    }

    /// The channel is again as it was at its mark, and isn't marked any more. It takes no memory.
    pub fn undo(&mut self)
        ensures marked { IfSome self.old.saved (λ v. self.new.value ≡ v) }
        ensures unmarked { IfNone self.old.saved (self.new.value ≡ self.old.value) }
        ensures saved { self.new.saved ≡ None }
    {
        match &mut self.kind {
            Kind::Bus(bus) => bus.undo(),
            Kind::Console(console) => console.undo(),
        }
    }

    /// The channel stays as it is, and isn't marked any more. It takes no memory.
    pub fn keep(&mut self)
        ensures { self.new ≡ record { value = self.old.value; saved = None } }
    {
        match &mut self.kind {
            Kind::Bus(bus) => bus.keep(),
            Kind::Console(console) => console.keep(),
        }
    }

    /// How many lines have been noted since the mark: each before its entry first changed. The console notes none.
    pub fn noted(&self) -> u64
        requires { IsSome self.now.saved }
        ensures { IfSome self.now.saved (λ saved. IsNotedSince saved self.now.value result) }
    {
        match &self.kind {
            Kind::Bus(bus) => bus.noted(),
            Kind::Console(_) => 0,
        }
    }

    /// The entry of a line of the bus.
    pub fn entry(&self, line: u32) -> EntryView
        requires { HasLine self.now.value line }
        ensures { entry_at self.now.value line ≡ Some result }
    {
        match &self.kind {
            Kind::Bus(bus) => bus.entry(line),
            Kind::Console(_) => unreachable!(),
        }
    }

    /// The entry of a line: none where the channel is no bus, or the line isn't one of it.
    pub fn find_entry(&self, line: u32) -> Option<EntryView>
        ensures { result ≡ found_entry self.now.value line }
    {
        match &self.kind {
            Kind::Bus(bus) => bus.find_entry(line),
            Kind::Console(_) => None,
        }
    }

    /// The number of the bus: none on the console.
    pub fn number(&self) -> Option<u32>
        ensures { result ≡ number_of self.now.value }
    {
        match &self.kind {
            Kind::Bus(bus) => Some(bus.number()),
            Kind::Console(_) => None,
        }
    }

    /// The cycle from which the bus is free: 0 on the console.
    pub fn free(&self) -> u64
        ensures { result ≡ free_of self.now.value }
    {
        match &self.kind {
            Kind::Bus(bus) => bus.free(),
            Kind::Console(_) => 0,
        }
    }

    /// How many asks the bus has served: 0 on the console.
    pub fn asks(&self) -> u64
        ensures { result ≡ asks_of self.now.value }
    {
        match &self.kind {
            Kind::Bus(bus) => bus.asks(),
            Kind::Console(_) => 0,
        }
    }

    /// How many retries the bus has sent: 0 on the console.
    pub fn retries(&self) -> u64
        ensures { result ≡ retries_of self.now.value }
    {
        match &self.kind {
            Kind::Bus(bus) => bus.retries(),
            Kind::Console(_) => 0,
        }
    }

    /// The bytes on the console: none on a bus.
    pub fn console_bytes(&self) -> &[u8]
        ensures { result.now ≡ bytes_of self.now.value }
    {
        match &self.kind {
            Kind::Bus(_) => &[],
            Kind::Console(console) => console.bytes(),
        }
    }

    /// How many lines of memory the bus has: 0 on the console.
    pub fn lines(&self) -> u32
        ensures { result ≡ count_of self.now.value }
    {
        match &self.kind {
            Kind::Bus(bus) => bus.lines(),
            Kind::Console(_) => 0,
        }
    }
}
