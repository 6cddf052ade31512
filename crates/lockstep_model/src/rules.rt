//! The RISC-V machine is a target.
ghost use Rattle.std.specs.Prelude.{◌≡◌};
ghost use Rattle.slack_base.specs.Numbers.{numbers_of};
ghost use Rattle.lockstep_model.specs.Rules.{is_line};

use crate::rv_targets::RvTarget;
use bus_model::{Channel, channel_of};
use slack_base::{Ask, AskList, Id, OutOfMemory, Post, PostList, TOP};
use target_law::Target;
use timed_core::TimedCore;

impl Target for RvTarget {
    ghost use Rattle.slack_base.specs.Numbers.{numbers_of};
    ghost use Rattle.bus_model.specs.Channels.{ChannelValue};
    ghost use Rattle.timed_core.specs.Cores.{HartValue};
    ghost use Rattle.lockstep_model.specs.Rules.{rules_of, owns_of, stored_values};
    ghost use Rattle.lockstep_model.specs.Lawful.{lawful, machine_from};

    type Core = TimedCore;

    type Chan = Channel;

    ghost Inner = { HartValue };

    ghost Channel = { ChannelValue };

    ghost values = { stored_values };

    ghost rules = { λ t. rules_of (numbers_of t.config) t.code };

    ghost owns = { λ t. owns_of (numbers_of t.config) };

    fn cores(&self) -> u32 {
        self.config.cores
    }

    fn channels(&self) -> u32 {
        self.config.buses + 1
    }

    fn lookahead(&self) -> u64 {
        self.config.lookahead()
    }

    fn channel_of(&self, ask: &Ask) -> u32 {
        channel_of(ask, self.config.buses)
    }

    fn number_of(&self, core: &TimedCore) -> u32 {
        core.number()
    }

    fn ask_is_proper(&self, ask: &Ask) -> bool {
        let id = ask.id();
        id.core < self.config.cores && (id.cycle <= TOP && self.is_line(ask.line()))
    }

    fn post_is_proper(&self, core: u32, post: &Post) -> bool {
        post.to < self.config.cores && post.line < self.config.memory / 16 && post.to == core
    }

    fn ended(&self, core: &TimedCore) -> bool {
        core.has_ended()
    }

    fn put(&self, core: &mut TimedCore, post: Post) -> Result<(), OutOfMemory> {
        core.put(post)
    }

    fn tick(&self, core: &mut TimedCore, cycle: u64, out: &mut AskList) -> Result<(), OutOfMemory> {
        core.tick(&self.code, cycle, out)
    }

    fn advance(
        &self,
        core: &mut TimedCore,
        from: u64,
        until: u64,
        out: &mut AskList,
    ) -> Result<u64, OutOfMemory> {
        core.advance(&self.code, from, until, out)
    }

    fn quiet(&self, core: &TimedCore, from: u64) -> u64 {
        core.quiet(&self.code, from)
    }

    fn serve(&self, chan: &mut Channel, ask: &Ask, out: &mut PostList) -> Result<(), OutOfMemory> {
        chan.serve(ask, out)
    }

    fn clash(&self, chan: &Channel, ask: &Ask) -> Option<Id> {
        chan.clash(ask)
    }

    fn close(&self, chan: &mut Channel) {
        chan.close();
    }

    fn touched(&self, core: &TimedCore, post: &Post) -> u64 {
        core.touched(post)
    }

    fn mark_core(&self, core: &mut TimedCore) -> Result<(), OutOfMemory> {
        core.mark()
    }

    fn undo_core(&self, core: &mut TimedCore) {
        core.undo();
    }

    fn keep_core(&self, core: &mut TimedCore) {
        core.keep();
    }

    fn mark_chan(&self, chan: &mut Channel) -> Result<(), OutOfMemory> {
        chan.mark()
    }

    fn undo_chan(&self, chan: &mut Channel) {
        chan.undo();
    }

    fn keep_chan(&self, chan: &mut Channel) {
        chan.keep();
    }

    ghost laws = { λ t. lawful (numbers_of t.config) t.code (machine_from (numbers_of t.config) t.code t.config.cores_in_bounds.0 t.config.buses_in_bounds t.config.sets_in_bounds t.config.memory_in_bounds.0 t.whole t.config.memory_delay_in_bounds.0 t.config.snoop_in_bounds.0 t.config.transfer_in_bounds.0) };
}

impl RvTarget {
    /// Whether a line, if there is one, is one of memory.
    fn is_line(&self, line: Option<u32>) -> bool
        ensures { result ≡ is_line (numbers_of self.now.config) line }
    {
        match line {
            Some(line) => line < self.config.memory / 16,
            None => true,
        }
    }
}
