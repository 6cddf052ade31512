//! A monitor that looks on while a drift is under way.
ghost use Rattle.std.specs.Prelude.{◌≡◌, IsTrue};
ghost use Rattle.violation_watch.specs.Scan.{late_entry, is_harmless};

use slack_base::{Ask, Id, OutOfMemory, Post, PostKind, Violation, ViolationList};
use std::alloc::Global;
use std::collections::BTreeMap;
use target_law::Target;

/// A monitor. The manager's watch sees the asks that are served, and a core's watch the posts that the core takes; what
/// they find, one list after another, is the scan of the drift.
#[derive(Drop)]
pub struct Watch {
    /// Of each line the greatest id of its asks that were served.
    highs: BTreeMap<u32, Id>,
    found: ViolationList,
}

impl Watch {
    ghost use Rattle.std.specs.Prelude.{◌≡◌, ◌++◌, OnOk, OnErr};
    ghost use Rattle.std.specs.BTreeMap.{get, IsUnchanged};
    ghost use Rattle.std.specs.Ordering.{nat_cmp};
    ghost use Rattle.slack_base.specs.HighestIds.{clash_with};
    ghost use Rattle.violation_watch.specs.Noting.{IsNoted};
    ghost use Rattle.violation_watch.specs.Scan.{bus_entry, map_entry};
    ghost use Rattle.violation_watch.specs.Watching.{IsNew, HasServed, IsCutOff, HasTaken};

    /// A monitor that has seen nothing. It takes no memory.
    pub fn new(alloc: Global) -> Watch
        ensures { IsNew result }
    {
        Watch {
            highs: BTreeMap::new(alloc),
            found: ViolationList::new(alloc),
        }
    }

    /// What was found, in order.
    pub fn found(&self) -> &ViolationList
        ensures { result.now ≡ self.now.found }
    {
        &self.found
    }

    /// What was found, in order; the rest is let go.
    pub fn into_found(self) -> ViolationList
        ensures { result ≡ self.found }
    {
        self.found
    }

    /// Sees an ask that is served, with what it clashed with just before. It looks up the ask's line among those seen, and
    /// goes through no history.
    ///
    /// Out of memory: nothing is noted of the ask, and at most its clash was found.
    pub fn on_serve<T: Target>(
        &mut self,
        target: &T,
        ask: &Ask,
        clash: Option<Id>,
    ) -> Result<(), OutOfMemory>
        ensures ok { OnOk result (HasServed (T.rules target.now) clash ask.now self.old self.new) }
        ensures err { OnErr result (IsCutOff (T.rules target.now) clash ask.now self.old self.new) }
    {
        let low = ask.id();
        self.on_clash(target.channel_of(ask), low, clash)?;
        match ask.line() {
            Some(line) => self.on_line(line, low),
            None => Ok(()),
        }
    }

    /// Sees a post that the core of this number takes at a clock, with the core's touch just before, in a drift that ends
    /// at clock `end`.
    ///
    /// Out of memory: nothing was found of it.
    pub fn on_take(
        &mut self,
        core: u32,
        post: &Post,
        clock: u64,
        touched: u64,
        end: u64,
    ) -> Result<(), OutOfMemory>
        ensures ok { OnOk result (HasTaken core end (record { post = post.now; clock = clock; touched = touched }) self.old self.new) }
        ensures err { OnErr result (self.new ≡ self.old) }
    {
        if clock > post.due && !is_harmless(post, clock, touched, end) {
            self.found.push(late(core, post, clock))?;
        }
        Ok(())
    }

    /// Sees whether an ask clashed.
    fn on_clash(&mut self, channel: u32, low: Id, clash: Option<Id>) -> Result<(), OutOfMemory>
        ensures ok { OnOk result (self.new ≡ record self.old { found = self.old.found ++ bus_entry channel low clash }) }
        ensures err { OnErr result (self.new ≡ self.old) }
    {
        if let Some(high) = clash {
            self.found.push(Violation::Bus { channel, high, low })?;
        }
        Ok(())
    }

    /// Sees the id of an ask of a line.
    fn on_line(&mut self, line: u32, low: Id) -> Result<(), OutOfMemory>
        ensures found { OnOk result (self.new.found ≡ self.old.found ++ map_entry line low (clash_with (get nat_cmp self.old.highs line) low)) }
        ensures highs { OnOk result (IsNoted self.old.highs line low self.new.highs) }
        ensures same { OnErr result (self.new.found ≡ self.old.found) }
        ensures unchanged { OnErr result (IsUnchanged self.old.highs self.new.highs) }
    {
        if let Some(high) = self.above(line, low) {
            self.found.push(Violation::Map { line, high, low })?;
            return Ok(());
        }
        self.highs.insert(line, low)?;
        Ok(())
    }

    /// The greatest id of a line's asks, where it is above this one.
    fn above(&self, line: u32, low: Id) -> Option<Id>
        ensures { result ≡ clash_with (get nat_cmp self.now.highs line) low }
    {
        let high = self.highs.get(&line).copied();
        high.filter(|high| low.precedes(high))
    }
}

/// Whether a late post changed nothing that the core saw.
fn is_harmless(post: &Post, clock: u64, touched: u64, end: u64) -> bool
    ensures { result ≡ is_harmless end (record { post = post.now; clock = clock; touched = touched }) }
{
    matches!(post.kind, PostKind::Invalidate) && touched <= post.due && clock < end
}

/// A post that was taken late, as it is recorded.
fn late(core: u32, post: &Post, clock: u64) -> Violation
    ensures { result ≡ late_entry core post.now clock post.now.kind }
{
    let id = post.id;
    let due = post.due;
    match post.kind {
        PostKind::Reply { .. } | PostKind::Retry => Violation::Reply {
            core,
            id,
            due,
            clock,
        },
        PostKind::SnoopShare | PostKind::SnoopOwn | PostKind::Invalidate => Violation::Line {
            core,
            id,
            due,
            clock,
        },
    }
}
