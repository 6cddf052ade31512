//! A drift between two pieces, and its next piece.

use crate::lanes::Lane;
use crate::sweeps::tick_all;
use crate::turns::{line_up, serve_all, take_all};
use slack_base::{Ask, AskList, ClashList, OutOfMemory, PostList};
use std::thread::Threads;
use target_law::Target;

/// The clock of all cores, their lanes, the channels, and the asks that were served with what each clashed with.
#[derive(Drop)]
pub struct Underway<C: Drop, D: Drop> {
    pub clock: u64,
    pub lanes: Vec<Lane<C>>,
    pub chans: Vec<D>,
    pub served: AskList,
    pub clashes: ClashList,
    /// Room for the asks of a piece.
    pub asks: Vec<Ask>,
    /// Room for the posts of a piece.
    pub posts: PostList,
}

impl<C: Send + Drop, D: Send + Drop> Underway<C, D> {
    ghost use Rattle.std.specs.Prelude.{◌≡◌, ◌+◌, ◌-◌, ◌≤◌, OnOk};
    ghost use Rattle.slack_base.specs.declared.bounds.TheConstants.{TOP};
    ghost use Rattle.pacing.specs.Open.{IsOpen};
    ghost use Rattle.pacing.specs.Pieces.{IsPiece, ByPieces};
    ghost use Rattle.pacing.specs.Views.{underway_of};

    /// A piece of so many cycles.
    ///
    /// Out of memory: the drift is left in the middle of the piece.
    fn piece<R: Threads + Sync, T: Target<Core = C, Chan = D> + Sync>(
        &mut self,
        rt: &R,
        target: &T,
        len: u64,
    ) -> Result<(), OutOfMemory>
        requires open { IsOpen (T.rules target.now) (T.owns target.now) (underway_of T.values self.old) }
        requires top { self.old.clock + len ≤ TOP }
        ensures piece { OnOk result (IsPiece (T.rules target.now) len (underway_of T.values self.old) (underway_of T.values self.new)) }
        ensures clock { OnOk result (self.new.clock ≡ self.old.clock + len) }
    {
        tick_all(rt, target, self.clock, len, self.lanes.as_mut_slice())?;
        self.clock += len;
        line_up(self.lanes.as_slice(), &mut self.asks)?;
        self.posts.clear();
        serve_all(
            target,
            &mut self.chans,
            self.asks.as_slice(),
            &mut self.served,
            &mut self.clashes,
            &mut self.posts,
        )?;
        take_all(
            target,
            self.lanes.as_mut_slice(),
            self.posts.as_slice(),
            self.clock,
        )?;
        Ok(())
    }

    /// Pieces of so many cycles up to an end clock, the last one cut to it.
    ///
    /// Out of memory: the drift is left in the middle of a piece.
    pub(crate) fn pieces<R: Threads + Sync, T: Target<Core = C, Chan = D> + Sync>(
        &mut self,
        rt: &R,
        target: &T,
        end: u64,
        quantum: u64,
    ) -> Result<(), OutOfMemory>
        requires open { IsOpen (T.rules target.now) (T.owns target.now) (underway_of T.values self.old) }
        requires order { self.old.clock ≤ end }
        requires top { end ≤ TOP }
        requires quantum { 1 ≤ quantum }
        ensures open { OnOk result (IsOpen (T.rules target.now) (T.owns target.now) (underway_of T.values self.new)) }
        ensures pieces { OnOk result (ByPieces (T.rules target.now) quantum end (underway_of T.values self.old) (underway_of T.values self.new)) }
    {
        while self.clock < end {
            let len = quantum.min(end - self.clock);
            self.piece(rt, target, len)?;
        }
        Ok(())
    }
}
