//! What posts do to a hart.
ghost use Rattle.std.specs.Prelude.{◌≡◌, ◌+◌, ◌≤◌, length};
ghost use Rattle.slack_base.specs.declared.bounds.TheConstants.{TOP};
ghost use Rattle.timed_core.specs.Posts.{without_reservation, written_back, evicted, replied, retried, snooped, given_up, applied};
ghost use Rattle.timed_core.specs.TouchedCaches.{IsPrepared};
ghost use Rattle.timed_core.specs.Views.{cache_in};
ghost use Rattle.mesi_cache.specs.Caches.{line_in};
ghost use Rattle.std.specs.Option.{option_map};

use crate::harts::{Hart, line_number};
use mesi_cache::{Held, Victim};
use slack_base::{Ask, Id, PostKind, Words, raised};

impl Hart {
    /// Applies a post about a line: what is asked for then, with this id. A reply and a snoop touch the line's set, at the
    /// id's cycle. What changes the set notes it first.
    #[tactic(auto, unfolding(crate::specs::Posts::applied))]
    pub fn apply(&mut self, kind: PostKind, base: u32, line: u32, id: Id) -> Option<Ask>
        requires { id.cycle ≤ TOP }
        ensures after { self.new.value ≡ (applied kind base line id self.old.value).0 }
        ensures saved { self.new.saved ≡ self.old.saved }
        ensures noted { length self.new.noted ≤ length self.old.noted + 1 }
        ensures ask { result ≡ (applied kind base line id self.old.value).1 }
    {
        match kind {
            PostKind::Reply { exclusive, words } => {
                self.prepare(line);
                self.touch(line, id.cycle);
                self.reply(base, line, exclusive, words, id)
            }
            PostKind::Retry => {
                self.retry();
                None
            }
            PostKind::SnoopShare => {
                self.prepare(line);
                self.touch(line, id.cycle);
                let words = self.snoop(line, false);
                Some(Ask::Flush { id, line, words })
            }
            PostKind::SnoopOwn => {
                self.prepare(line);
                self.touch(line, id.cycle);
                let words = self.give_up(base, line);
                Some(Ask::Flush { id, line, words })
            }
            PostKind::Invalidate => {
                self.prepare(line);
                self.give_up(base, line);
                None
            }
        }
    }

    /// Fills the line with its words: a Modified victim is sent back.
    #[tactic(auto, unfolding(crate::specs::Posts::replied))]
    fn reply(&mut self, base: u32, line: u32, exclusive: bool, words: Words, id: Id) -> Option<Ask>
        requires { IsPrepared line (cache_in self.old) }
        ensures after { self.new ≡ record self.old { value = (replied base line exclusive words id self.old.value).0 } }
        ensures ask { result ≡ (replied base line exclusive words id self.old.value).1 }
    {
        let victim = self.cache.fill(line, exclusive, words);
        self.waiting = false;
        self.evict(base, victim, id)
    }

    #[tactic(auto, unfolding(crate::specs::Posts::evicted))]
    fn evict(&mut self, base: u32, victim: Option<Victim>, id: Id) -> Option<Ask>
        ensures after { self.new ≡ record self.old { value = (evicted base victim id self.old.value).0 } }
        ensures ask { result ≡ (evicted base victim id self.old.value).1 }
    {
        let victim = victim?;
        self.lose_reservation(base, victim.line);
        self.write_back(&victim, id)
    }

    /// Sends a Modified victim back.
    fn write_back(&mut self, victim: &Victim, id: Id) -> Option<Ask>
        ensures after { self.new ≡ record self.old { value = (written_back victim.now id self.old.value).0 } }
        ensures ask { result ≡ (written_back victim.now id self.old.value).1 }
    {
        match victim.held {
            Held::Shared | Held::Exclusive => None,
            Held::Modified => {
                self.counts.writebacks = raised(self.counts.writebacks);
                Some(Ask::WriteBack {
                    id,
                    line: victim.line,
                    words: victim.words,
                })
            }
        }
    }

    /// Loses the reservation if it is in the line.
    fn lose_reservation(&mut self, base: u32, line: u32)
        ensures { self.new ≡ record self.old { value = without_reservation base line self.old.value } }
    {
        if let Some(address) = self.reservation
            && line_number(base, address) == line
        {
            self.reservation = None;
        }
    }

    fn retry(&mut self)
        ensures { self.new ≡ record self.old { value = retried self.old.value } }
    {
        self.waiting = false;
        self.counts.retries = raised(self.counts.retries);
    }

    /// Gives the line up, and a reservation in it: its words, if the cache holds it.
    fn give_up(&mut self, base: u32, line: u32) -> Option<Words>
        requires { IsPrepared line (cache_in self.old) }
        ensures after { self.new ≡ record self.old { value = given_up base line self.old.value } }
        ensures words { result ≡ option_map (λ l. l.words) (line_in self.old.value.cache line) }
    {
        let words = self.snoop(line, true);
        self.lose_reservation(base, line);
        words
    }

    /// Another core takes the line (`own`) or reads it: its words, if the cache holds it.
    fn snoop(&mut self, line: u32, own: bool) -> Option<Words>
        requires { IsPrepared line (cache_in self.old) }
        ensures after { self.new ≡ record self.old { value = snooped line own self.old.value } }
        ensures words { result ≡ option_map (λ l. l.words) (line_in self.old.value.cache line) }
    {
        self.counts.snoops = raised(self.counts.snoops);
        self.cache.snoop(line, own)
    }
}
