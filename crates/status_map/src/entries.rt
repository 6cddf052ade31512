//! An entry of the status map, and what each kind of ask does to it.
ghost use Rattle.std.specs.Prelude.{◌≡◌, ◌+◌, ◌^◌, ◌<◌, ◌≤◌, [], ◌∷◌, ◌++◌, length, max, map};
ghost use Rattle.slack_base.specs.declared.bounds.TheConstants.{MOST_CORES, TOP};
ghost use Rattle.slack_base.specs.Messages.{id_of};
ghost use Rattle.status_map.specs.Cores.{others};
ghost use Rattle.status_map.specs.Entries.{NamesBelow, AreShort};
ghost use Rattle.status_map.specs.Table.{send, post_of, serve, WritesBack};

use crate::batches::PostBatch;
use crate::cores::{is_other, with_core};
use crate::views::{Delays, EntryKind, EntryView};
use slack_base::{Ask, Id, MOST_CORES, Post, PostKind, Words};
use std::marker::Model;

/// The entry of a line: which cores were promised it, from which cycle this is settled, and the words that memory has.
/// The cores that it names are below `MOST_CORES`. A contract sees its view.
#[derive(Clone, Copy, Debug, PartialEq, Eq)]
pub struct Entry {
    view: EntryView,
}

// A bus keeps an entry for each line of memory, and the start of a run touches them all.
const _: () = prove!(size_of::<Entry>() == 32);

impl Model for Entry {
    ghost use Rattle.slack_base.specs.declared.bounds.TheConstants.{MOST_CORES};
    ghost use Rattle.status_map.specs.declared.views.EntryView.{EntryView};
    ghost use Rattle.status_map.specs.Entries.{NamesBelow};

    ghost Value = { EntryView };

    ghost view = { λ e. e.view };

    ghost invariant = { λ e. NamesBelow MOST_CORES e.view.kind };

    ghost inverse = { λ v. record { view = v } };
}

/// An ask for a line that was granted its bus at a cycle.
#[derive(Clone, Copy)]
struct Granted {
    id: Id,
    line: u32,
    grant: u64,
}

impl Granted {
    /// Sends a post to a core, due so long after the grant.
    fn send(&self, to: u32, delay: u64, kind: PostKind, out: &mut PostBatch)
        requires grant { self.now.grant ≤ TOP }
        requires delay { delay ≤ 64 }
        requires room { length out.old < MOST_CORES }
        ensures { out.new ≡ out.old ++ post_of self.now.id self.now.line self.now.grant (send to delay kind) ∷ [] }
    {
        out.push(Post {
            to,
            due: self.grant + delay,
            id: self.id,
            line: self.line,
            kind,
        });
    }

    /// Invalidates the line in each core of a set but the one that asks, in the order of the cores.
    fn invalidate(&self, cores: u16, delay: u64, out: &mut PostBatch)
        requires core { self.now.id.core < MOST_CORES }
        requires grant { self.now.grant ≤ TOP }
        requires delay { delay ≤ 64 }
        requires empty { out.old ≡ [] }
        ensures posts { let a = self.now in out.new ≡ map (λ k. post_of a.id a.line a.grant (send k delay PostKind.Invalidate)) (others cores a.id.core) }
        ensures room { length out.new < MOST_CORES }
    {
        for core in 0..MOST_CORES {
            if is_other(cores, self.id.core, core) {
                self.send(core, delay, PostKind::Invalidate, out);
            }
        }
    }
}

impl Entry {
    /// The entry of a line that no core holds.
    pub fn idle(words: Words) -> Entry
        ensures { result ≡ record { kind = EntryKind.Idle; settled = 0; words = words } }
    {
        Entry {
            view: EntryView {
                kind: EntryKind::Idle,
                settled: 0,
                words,
            },
        }
    }

    /// What the entry says.
    pub fn view(&self) -> EntryView
        ensures view { result ≡ self.now }
        ensures cores { NamesBelow MOST_CORES result.kind }
    {
        self.view
    }

    /// Who holds the line from now on, and the words that memory has.
    fn set(&mut self, kind: EntryKind, words: Words)
        requires { NamesBelow MOST_CORES kind }
        ensures { self.new ≡ record self.old { kind = kind; words = words } }
    {
        self.view.kind = kind;
        self.view.words = words;
    }

    /// Settles the line after a reply with this due.
    fn settle(&mut self, due: u64)
        requires { due < 2 ^ 63 }
        ensures { self.new ≡ record self.old { settled = max self.old.settled (due + 1) } }
    {
        self.view.settled = self.view.settled.max(due + 1);
    }

    /// Promises the line to a core, with the words that memory has.
    fn reply(&mut self, asked: &Granted, to: u32, delay: u64, exclusive: bool, out: &mut PostBatch)
        requires grant { asked.now.grant ≤ TOP }
        requires delay { delay ≤ 64 }
        requires room { length out.old < MOST_CORES }
        ensures entry { self.new ≡ record self.old { settled = max self.old.settled (asked.now.grant + delay + 1) } }
        ensures posts { let a = asked.now in out.new ≡ out.old ++ post_of a.id a.line a.grant (send to delay (PostKind.Reply exclusive self.old.words)) ∷ [] }
    {
        let words = self.view().words;
        asked.send(to, delay, PostKind::Reply { exclusive, words }, out);
        self.settle(asked.grant + delay);
    }

    /// Serves an ask for the line that was granted its bus at a cycle, by the table of asks and entries. A `Put` is for
    /// no line, and changes nothing.
    #[tactic(auto, unfolding(crate::specs::Table::serve, crate::specs::Table::row))]
    pub fn serve(&mut self, ask: &Ask, grant: u64, delays: &Delays, out: &mut PostBatch)
        requires core { (id_of ask.now).core < MOST_CORES }
        requires grant { grant ≤ TOP }
        requires delays { AreShort delays.now }
        requires empty { out.old ≡ [] }
        ensures entry { self.new ≡ (serve delays.now grant ask.now self.old).entry }
        ensures posts { out.new ≡ (serve delays.now grant ask.now self.old).posts }
    {
        match *ask {
            Ask::Read { id, line } => self.read(id, line, grant, delays, out),
            Ask::ReadOwn { id, line } => self.read_own(id, line, grant, delays, out),
            Ask::WriteBack { id, words, .. } => self.write_back(id.core, words),
            Ask::Flush { id, line, words } => self.flush(id, line, words, grant, delays, out),
            Ask::Put { .. } => {}
        }
    }

    /// A core asks to read the line.
    #[tactic(auto, unfolding(crate::specs::Table::serve, crate::specs::Table::row))]
    pub fn read(&mut self, id: Id, line: u32, grant: u64, delays: &Delays, out: &mut PostBatch)
        requires core { id.core < MOST_CORES }
        requires grant { grant ≤ TOP }
        requires delays { AreShort delays.now }
        requires empty { out.old ≡ [] }
        ensures entry { self.new ≡ (serve delays.now grant (Ask.Read id line) self.old).entry }
        ensures posts { out.new ≡ (serve delays.now grant (Ask.Read id line) self.old).posts }
    {
        let core = id.core;
        let asked = Granted { id, line, grant };
        let EntryView {
            kind,
            settled,
            words,
        } = self.view();
        match kind {
            EntryKind::Moving { .. } => asked.send(core, delays.snoop, PostKind::Retry, out),
            EntryKind::Owned { .. } if grant < settled => {
                asked.send(core, delays.snoop, PostKind::Retry, out);
            }
            EntryKind::Owned { core: owner } if u32::from(owner) != core => {
                asked.send(u32::from(owner), delays.snoop, PostKind::SnoopShare, out);
                let moving = EntryKind::Moving {
                    owner,
                    requester: core as u8,
                    exclusive: false,
                };
                self.set(moving, words);
            }
            EntryKind::Idle | EntryKind::Owned { .. } => {
                self.set(EntryKind::Owned { core: core as u8 }, words);
                self.reply(&asked, core, delays.memory, true, out);
            }
            EntryKind::Shared { cores } => {
                let sharers = with_core(cores, core);
                self.set(EntryKind::Shared { cores: sharers }, words);
                self.reply(&asked, core, delays.memory, false, out);
            }
        }
    }

    /// A core asks to own the line.
    #[tactic(auto, unfolding(crate::specs::Table::serve, crate::specs::Table::row))]
    pub fn read_own(&mut self, id: Id, line: u32, grant: u64, delays: &Delays, out: &mut PostBatch)
        requires core { id.core < MOST_CORES }
        requires grant { grant ≤ TOP }
        requires delays { AreShort delays.now }
        requires empty { out.old ≡ [] }
        ensures entry { self.new ≡ (serve delays.now grant (Ask.ReadOwn id line) self.old).entry }
        ensures posts { out.new ≡ (serve delays.now grant (Ask.ReadOwn id line) self.old).posts }
    {
        let core = id.core;
        let asked = Granted { id, line, grant };
        let EntryView {
            kind,
            settled,
            words,
        } = self.view();
        if grant < settled {
            asked.send(core, delays.snoop, PostKind::Retry, out);
            return;
        }
        match kind {
            EntryKind::Moving { .. } => asked.send(core, delays.snoop, PostKind::Retry, out),
            EntryKind::Owned { core: owner } if u32::from(owner) != core => {
                asked.send(u32::from(owner), delays.snoop, PostKind::SnoopOwn, out);
                let moving = EntryKind::Moving {
                    owner,
                    requester: core as u8,
                    exclusive: true,
                };
                self.set(moving, words);
            }
            EntryKind::Idle | EntryKind::Owned { .. } => {
                self.set(EntryKind::Owned { core: core as u8 }, words);
                self.reply(&asked, core, delays.memory, true, out);
            }
            EntryKind::Shared { cores } => {
                asked.invalidate(cores, delays.snoop, out);
                self.set(EntryKind::Owned { core: core as u8 }, words);
                self.reply(&asked, core, delays.memory, true, out);
            }
        }
    }

    /// A core sends back the words of a line that it wrote and no longer holds.
    #[tactic(auto, unfolding(crate::specs::Table::serve, crate::specs::Table::row))]
    pub fn write_back(&mut self, core: u32, words: Words)
        requires { core < MOST_CORES }
        ensures { WritesBack core words self.old self.new }
    {
        let core = core as u8;
        match self.view().kind {
            EntryKind::Owned { core: owner } if owner == core => self.set(EntryKind::Idle, words),
            EntryKind::Moving {
                owner,
                requester,
                exclusive,
            } if owner == core => {
                let moving = EntryKind::Moving {
                    owner,
                    requester,
                    exclusive,
                };
                self.set(moving, words);
            }
            _ => {}
        }
    }

    /// The owner of a line on its way answers the snoop, with the line's words where it still held it.
    #[tactic(auto, unfolding(crate::specs::Table::serve, crate::specs::Table::row))]
    pub fn flush(
        &mut self,
        id: Id,
        line: u32,
        words: Option<Words>,
        grant: u64,
        delays: &Delays,
        out: &mut PostBatch,
    )
        requires core { id.core < MOST_CORES }
        requires grant { grant ≤ TOP }
        requires delays { AreShort delays.now }
        requires empty { out.old ≡ [] }
        ensures entry { self.new ≡ (serve delays.now grant (Ask.Flush id line words) self.old).entry }
        ensures posts { out.new ≡ (serve delays.now grant (Ask.Flush id line words) self.old).posts }
    {
        let core = id.core;
        let asked = Granted { id, line, grant };
        let old = self.view();
        let EntryKind::Moving {
            owner,
            requester,
            exclusive,
        } = old.kind
        else {
            return;
        };
        if u32::from(owner) != core {
            return;
        }
        let receiver = u32::from(requester);
        match words {
            _ if exclusive => {
                let memory = words.unwrap_or(old.words);
                self.set(EntryKind::Owned { core: requester }, memory);
            }
            Some(flushed) => {
                let cores = with_core(with_core(0, core), receiver);
                self.set(EntryKind::Shared { cores }, flushed);
            }
            None => {
                let cores = with_core(0, receiver);
                self.set(EntryKind::Shared { cores }, old.words);
            }
        }
        self.reply(&asked, receiver, delays.transfer, exclusive, out);
    }
}
