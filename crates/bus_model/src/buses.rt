//! A bus: when it is granted, and the status map of its lines.
ghost use Rattle.std.specs.Prelude.{◌≡◌, ◌+◌, ◌/◌, ◌<◌, ◌≤◌, ◌++◌, [], length, None, Some, IfNone, IfOk, IfSome, IsSome, OnErr, OnOk};

use crate::counters::Counters;
use crate::lines::Lines;
use crate::posts::{retries_in, send_all};
use crate::settings::Setting;
use crate::starting::first_entries;
use slack_base::{Ask, Config, Id, Image, OutOfMemory, PostList, capped, raised};
use slot_calendar::Calendar;
use status_map::{EntryView, PostBatch};
use std::alloc::Global;
use std::marker::Model;

/// A bus of a machine, which may be marked. A mark keeps what the bus counted and its calendar, and from then on the
/// entry of each line is noted before it first changes.
#[derive(Debug, Drop)]
pub(crate) struct Bus {
    setting: Setting,
    counters: Counters,
    calendar: Calendar,
    lines: Lines,
    mark: Option<BusMark>,
}

/// What a bus had counted at its mark, and its calendar there.
#[derive(Debug, Drop)]
pub(crate) struct BusMark {
    counters: Counters,
    calendar: Calendar,
}

impl Model for Bus {
    ghost use Rattle.slack_base.specs.Marks.{Marked};
    ghost use Rattle.bus_model.specs.Channels.{BusValue};

    ghost Value = { Marked BusValue };

    ghost use Rattle.bus_model.specs.Views.{bus_of, IsSoundInside};

    ghost view = { bus_of };

    ghost invariant = { IsSoundInside };
}

impl Bus {
    ghost use Rattle.slack_base.specs.Images.{Fits};
    ghost use Rattle.slack_base.specs.Messages.{line_of};
    ghost use Rattle.slack_base.specs.Numbers.{numbers_of};
    ghost use Rattle.bus_model.specs.Channels.{AsBus, entry_of, found_on, IsSoundBus};
    ghost use Rattle.bus_model.specs.Asks.{IsAskOf, IsLineOf};
    ghost use Rattle.bus_model.specs.Closing.{bus_closed, clash};
    ghost use Rattle.bus_model.specs.Noting.{IsNotedSince};
    ghost use Rattle.bus_model.specs.Starting.{first_bus};
    ghost use Rattle.bus_model.specs.Serving.{bus_served, for_bus, on_line};

    /// The bus of a number, before the first cycle.
    pub(crate) fn new(
        alloc: Global,
        index: u32,
        config: &Config,
        image: &Image,
    ) -> Result<Bus, OutOfMemory>
        requires bus { index < config.now.buses }
        requires image { Fits config.now.base config.now.memory image.now }
        ensures value { IfOk result (λ bus. bus.value ≡ first_bus (numbers_of config.now) image.now index) }
        ensures saved { IfOk result (λ bus. bus.saved ≡ None) }
        ensures sound { IfOk result (λ bus. IsSoundBus bus.value) }
    {
        let entries = first_entries(alloc, index, config, image)?;
        let lines = Lines::new(alloc, entries)?;
        Ok(Bus {
            setting: Setting::of(config, index),
            counters: Counters::new(),
            calendar: Calendar::new(alloc),
            lines,
            mark: None,
        })
    }

    /// Serves an ask. The posts are appended. The batch is room for them, and whatever stands in it is taken out.
    #[tactic(auto, unfolding(crate::specs::Serving::bus_served))]
    pub(crate) fn serve(
        &mut self,
        ask: &Ask,
        batch: &mut PostBatch,
        out: &mut PostList,
    ) -> Result<(), OutOfMemory>
        requires { IsAskOf self.old.value.setting ask.now }
        ensures bus { OnOk result (self.new.value ≡ (bus_served self.old.value ask.now).0) }
        ensures saved { self.new.saved ≡ self.old.saved }
        ensures posts { OnOk result (out.new ≡ out.old ++ (bus_served self.old.value ask.now).1) }
    {
        match ask.line() {
            Some(line) => {
                self.grant(ask, line, batch)?;
                send_all(batch.posts(), out)
            }
            None => Ok(()),
        }
    }

    /// Grants the bus to an ask for a line of it, and puts the posts into a batch, in place of what stood there. Where it
    /// gets no memory for that, nothing but its calendar changes.
    fn grant(&mut self, ask: &Ask, line: u32, out: &mut PostBatch) -> Result<(), OutOfMemory>
        requires ask { IsAskOf self.old.value.setting ask.now }
        requires line { line_of ask.now ≡ Some line }
        ensures bus { OnOk result (self.new.value ≡ (on_line self.old.value ask.now (Some line)).0) }
        ensures saved { self.new.saved ≡ self.old.saved }
        ensures posts { OnOk result (out.new ≡ (on_line self.old.value ask.now (Some line)).1) }
        ensures refused { OnErr result (record self.new.value { slots = self.old.value.slots } ≡ self.old.value) }
    {
        let setting = self.setting;
        let id = ask.id();
        let place = (line / setting.buses) as usize;
        let grant = self
            .calendar
            .place(id, id.cycle, self.counters.free, setting.occupancy)?;
        self.lines.prepare(place, self.mark.is_some())?;
        out.clear();
        self.lines.serve(place, ask, grant, &setting.delays, out);
        self.counters.asks = raised(self.counters.asks);
        self.counters.retries = capped(self.counters.retries + retries_in(out.posts()));
        Ok(())
    }

    /// Marks the bus as it stands. An older mark is replaced. It takes no memory where the bus is closed.
    pub(crate) fn mark(&mut self) -> Result<(), OutOfMemory>
        ensures marked { OnOk result (self.new ≡ record { value = self.old.value; saved = Some self.old.value }) }
        ensures refused { OnErr result (self.new ≡ self.old) }
    {
        let calendar = self.calendar.copy()?;
        self.lines.forget();
        self.mark = Some(BusMark {
            counters: self.counters,
            calendar,
        });
        Ok(())
    }

    /// The bus is again as it was at its mark, and isn't marked any more.
    pub(crate) fn undo(&mut self)
        ensures marked { IfSome self.old.saved (λ v. self.new.value ≡ v) }
        ensures unmarked { IfNone self.old.saved (self.new.value ≡ self.old.value) }
        ensures saved { self.new.saved ≡ None }
    {
        if let Some(BusMark { counters, calendar }) = self.mark.take() {
            self.counters = counters;
            self.calendar = calendar;
            self.lines.put_back();
        }
    }

    /// The bus stays as it is, and isn't marked any more.
    pub(crate) fn keep(&mut self)
        ensures { self.new ≡ record { value = self.old.value; saved = None } }
    {
        if self.mark.take().is_some() {
            self.lines.forget();
        }
    }

    /// How many lines were noted since the mark.
    pub(crate) fn noted(&self) -> u64
        ensures { IfSome self.now.saved (λ saved. IsNotedSince (AsBus saved) (AsBus self.now.value) result) }
    {
        self.lines.noted()
    }

    /// The id that an ask clashes with, if any.
    pub(crate) fn clash(&self, ask: &Ask) -> Option<Id>
        ensures { result ≡ clash (AsBus self.now.value) ask.now }
    {
        let id = ask.id();
        self.calendar
            .clash(id, id.cycle, self.counters.free, self.setting.occupancy)
    }

    /// Empties the calendar: the bus is free once all its slots have ended.
    pub(crate) fn close(&mut self)
        ensures { self.new ≡ record { value = bus_closed self.old.value; saved = self.old.saved } }
    {
        self.counters.free = self
            .calendar
            .close(self.counters.free, self.setting.occupancy);
    }

    /// The entry of a line of the bus.
    pub(crate) fn entry(&self, line: u32) -> EntryView
        requires { IsLineOf self.now.value.setting line }
        ensures { entry_of self.now.value line ≡ Some result }
    {
        let place = (line / self.setting.buses) as usize;
        self.lines.entry(place)
    }

    /// The entry of a line, where the line is one of the bus.
    pub(crate) fn find_entry(&self, line: u32) -> Option<EntryView>
        ensures { result ≡ found_on self.now.value line }
    {
        if line % self.setting.buses != self.setting.number {
            return None;
        }
        let place = (line / self.setting.buses) as usize;
        self.lines.find(place)
    }

    /// The bus's number.
    pub(crate) fn number(&self) -> u32
        ensures { result ≡ self.now.value.setting.number }
    {
        self.setting.number
    }

    /// The cycle from which the bus was free when it was closed last.
    pub(crate) fn free(&self) -> u64
        ensures { result ≡ self.now.value.free }
    {
        self.counters.free
    }

    /// How many asks the bus has served.
    pub(crate) fn asks(&self) -> u64
        ensures { result ≡ self.now.value.asks }
    {
        self.counters.asks
    }

    /// How many retries the bus has sent.
    pub(crate) fn retries(&self) -> u64
        ensures { result ≡ self.now.value.retries }
    {
        self.counters.retries
    }

    /// How many lines the bus has.
    pub(crate) fn lines(&self) -> u32
        ensures { result ≡ length self.now.value.entries }
    {
        self.setting.lines / self.setting.buses
    }
}
