//! A small target for tests: three cores that count the posts they get, and one channel that counts its asks.
ghost use Rattle.std.specs.Prelude.{◌≡◌, nat_le, nat_lt, filter};
ghost use Rattle.target_law.specs.Trio.{raised_for};

mod marks;

use crate::states::State;
use crate::targets::Target;
use slack_base::{
    Ask, AskList, HighestId, Id, OutOfMemory, Post, PostKind, PostList, Row, TOP, raised,
};
use stamp_queue::Inbox;
use std::alloc::Global;
use std::marker::Model;
use std::sync::atomic::{AtomicU64, Ordering};

/// The target. It tells how often its calls were made; no clause speaks of that.
#[derive(Drop)]
pub struct Trio {
    /// How many ticks there were.
    pub ticked: AtomicU64,
    /// How many asks were served.
    pub served: AtomicU64,
    /// How many posts were put into inboxes.
    pub taken: AtomicU64,
}

impl Trio {
    ghost use Rattle.std.specs.Prelude.{◌≡◌, IfOk};
    ghost use Rattle.target_law.specs.Proper.{IsProper, IsPunctual};
    ghost use Rattle.target_law.specs.Trio.{trio_rules, trio_owns, trio_values, trio_start};
    ghost use Rattle.target_law.specs.Views.{state_of};

    /// The target, none of whose calls was made.
    pub fn new() -> Trio {
        Trio {
            ticked: AtomicU64::new(0),
            served: AtomicU64::new(0),
            taken: AtomicU64::new(0),
        }
    }

    /// The state before the first cycle.
    pub fn start(alloc: Global) -> Result<State<Trio>, OutOfMemory>
        ensures state { IfOk result (λ state. state_of trio_values state ≡ trio_start) }
        ensures proper { IfOk result (λ state. IsProper trio_rules trio_owns (state_of trio_values state)) }
        ensures punctual { IfOk result (λ state. IsPunctual (state_of trio_values state)) }
    {
        let mut cores = Row::new(alloc);
        cores.push(TrioCore::new(alloc, 0))?;
        cores.push(TrioCore::new(alloc, 1))?;
        cores.push(TrioCore::new(alloc, 2))?;
        let mut chans = Row::new(alloc);
        chans.push(TrioChan::new(0))?;
        Ok(State {
            clock: 0,
            cores,
            chans,
        })
    }
}

/// What a core counted, and the posts that wait for it.
#[derive(Drop)]
struct CoreTally {
    number: u32,
    count: u64,
    inbox: Inbox,
}

impl Model for CoreTally {
    ghost use Rattle.slack_base.specs.Inboxes.{CoreValue};
    ghost use Rattle.target_law.specs.Trio.{TrioInner};

    ghost Value = { CoreValue TrioInner };

    ghost view = { λ c. record { inner = record { number = c.number; count = c.count }; inbox = c.inbox } };
}

/// What a channel counted, and the greatest id that it served since it was closed.
#[derive(Drop)]
struct ChanTally {
    number: u32,
    total: u64,
    highest: HighestId,
}

impl Model for ChanTally {
    ghost use Rattle.target_law.specs.Trio.{TrioChannel};

    ghost Value = { TrioChannel };

    ghost view = { λ c. record { number = c.number; total = c.total; highest = c.highest } };
}

/// A core: its number, what it counted, and the posts that wait for it.
#[derive(Drop)]
pub struct TrioCore {
    tally: CoreTally,
    saved: Option<CoreTally>,
}

impl Model for TrioCore {
    ghost use Rattle.slack_base.specs.Inboxes.{CoreValue};
    ghost use Rattle.slack_base.specs.Marks.{Marked};
    ghost use Rattle.target_law.specs.Trio.{TrioInner};

    ghost Value = { Marked (CoreValue TrioInner) };

    ghost view = { λ c. record { value = c.tally; saved = c.saved } };
}

/// A channel: its number, what it counted, and the greatest id that it served since it was closed.
#[derive(Drop)]
pub struct TrioChan {
    tally: ChanTally,
    saved: Option<ChanTally>,
}

impl Model for TrioChan {
    ghost use Rattle.slack_base.specs.Marks.{Marked};
    ghost use Rattle.target_law.specs.Trio.{TrioChannel};

    ghost Value = { Marked TrioChannel };

    ghost view = { λ c. record { value = c.tally; saved = c.saved } };
}

impl TrioCore {
    ghost use Rattle.std.specs.Prelude.{◌≡◌, None};
    ghost use Rattle.target_law.specs.Trio.{first_core};

    /// A core that has counted nothing.
    pub fn new(alloc: Global, number: u32) -> TrioCore
        ensures { result ≡ record { value = first_core number; saved = None } }
    {
        TrioCore {
            tally: CoreTally {
                number,
                count: 0,
                inbox: Inbox::new(alloc),
            },
            saved: None,
        }
    }

    /// How many posts it counted.
    pub fn count(&self) -> u64
        ensures { result ≡ self.now.value.inner.count }
    {
        self.tally.count
    }
}

impl TrioChan {
    ghost use Rattle.std.specs.Prelude.{◌≡◌, None};
    ghost use Rattle.target_law.specs.Trio.{first_chan};

    /// A channel that has counted nothing.
    pub fn new(number: u32) -> TrioChan
        ensures { result ≡ record { value = first_chan number; saved = None } }
    {
        TrioChan {
            tally: ChanTally {
                number,
                total: 0,
                highest: HighestId::none(),
            },
            saved: None,
        }
    }

    /// How many asks it counted.
    pub fn total(&self) -> u64
        ensures { result ≡ self.now.value.total }
    {
        self.tally.total
    }
}

/// Counts the posts that are due at a cycle, and takes them out.
fn count_due(inbox: &mut Inbox, cycle: u64, count: u64) -> u64
    ensures count { result ≡ raised_for count (filter (λ p. nat_le p.due cycle) inbox.old) }
    ensures inbox { inbox.new ≡ filter (λ p. nat_lt cycle p.due) inbox.old }
{
    let mut counted = count;
    while let Some(_post) = inbox.take_due(cycle) {
        counted = raised(counted);
    }
    counted
}

impl Target for Trio {
    ghost use Rattle.target_law.specs.Trio.{TrioInner, TrioChannel, trio_rules, trio_owns, trio_values};
    ghost use Rattle.target_law.specs.TrioLaws.{trio_laws};

    type Core = TrioCore;

    type Chan = TrioChan;

    ghost Inner = { TrioInner };

    ghost Channel = { TrioChannel };

    ghost values = { trio_values };

    ghost rules = { λ _. trio_rules };

    ghost owns = { λ _. trio_owns };

    fn cores(&self) -> u32 {
        3
    }

    fn channels(&self) -> u32 {
        1
    }

    fn lookahead(&self) -> u64 {
        2
    }

    fn channel_of(&self, _ask: &Ask) -> u32 {
        0
    }

    fn number_of(&self, core: &TrioCore) -> u32 {
        core.tally.number
    }

    fn ask_is_proper(&self, ask: &Ask) -> bool {
        let id = ask.id();
        id.core < 3 && id.cycle <= TOP
    }

    fn post_is_proper(&self, core: u32, post: &Post) -> bool {
        post.to < 3 && post.to == core
    }

    fn ended(&self, core: &TrioCore) -> bool {
        core.tally.count >= 5
    }

    fn put(&self, core: &mut TrioCore, post: Post) -> Result<(), OutOfMemory> {
        self.taken.fetch_add(1, Ordering::SeqCst);
        core.tally.inbox.put(post)
    }

    fn tick(&self, core: &mut TrioCore, cycle: u64, out: &mut AskList) -> Result<(), OutOfMemory> {
        self.ticked.fetch_add(1, Ordering::SeqCst);
        let tally = &mut core.tally;
        tally.count = count_due(&mut tally.inbox, cycle, tally.count);
        if cycle % (tally.number as u64 + 2) == 0 {
            let id = Id {
                cycle,
                core: tally.number,
                number: 0,
            };
            out.push(Ask::Read { id, line: 0 })?;
        }
        Ok(())
    }

    fn serve(&self, chan: &mut TrioChan, ask: &Ask, out: &mut PostList) -> Result<(), OutOfMemory> {
        self.served.fetch_add(1, Ordering::SeqCst);
        let id = ask.id();
        chan.tally.total = raised(chan.tally.total);
        chan.tally.highest.note(id);
        out.push(Post {
            to: (id.core + 1) % 3,
            due: id.cycle + 2,
            id,
            line: 0,
            kind: PostKind::Retry,
        })
    }

    fn clash(&self, chan: &TrioChan, ask: &Ask) -> Option<Id> {
        chan.tally.highest.above(ask.id())
    }

    fn close(&self, chan: &mut TrioChan) {
        chan.tally.highest.reset();
    }

    fn touched(&self, _core: &TrioCore, _post: &Post) -> u64 {
        TOP
    }

    fn mark_core(&self, core: &mut TrioCore) -> Result<(), OutOfMemory> {
        core.mark()
    }

    fn undo_core(&self, core: &mut TrioCore) {
        core.undo();
    }

    fn keep_core(&self, core: &mut TrioCore) {
        core.keep();
    }

    fn mark_chan(&self, chan: &mut TrioChan) -> Result<(), OutOfMemory> {
        chan.mark();
        Ok(())
    }

    fn undo_chan(&self, chan: &mut TrioChan) {
        chan.undo();
    }

    fn keep_chan(&self, chan: &mut TrioChan) {
        chan.keep();
    }

    ghost laws = { λ _. trio_laws };
}
