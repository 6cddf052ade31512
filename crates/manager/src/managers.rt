//! What a manager has.
ghost use Rattle.std.specs.Prelude.{◌≡◌, [], IfOk, All, length, map};
ghost use Rattle.core_gate.specs.Seats.{cores_of};
ghost use Rattle.manager.specs.Openings.{IsOpening};

use core_gate::Overseer;
use slack_base::{Ask, AskList, ClashList, OutOfMemory, PostList, Row, ViolationList};
use stamp_queue::{AskReceiver, PostSender};
use std::alloc::Global;
use std::collections::VecDeque;
use violation_watch::Watch;

/// The ends of the rings on which asks come, one for each core.
pub type AskReceiverList = Row<AskReceiver>;
/// The ends of the rings to which posts go, one for each core.
pub type PostSenderList = Row<PostSender>;

/// What a manager has of one core: the end of the ring from which its asks come, the asks that were received and not yet
/// served, the oldest first, and the end of the ring to which its posts go.
#[derive(Drop)]
pub struct Desk {
    pub asks: AskReceiver,
    pub pending: VecDeque<Ask>,
    pub posts: PostSender,
}

/// The manager of a drift: the channels, a desk for each core, the clock table's overseer, the history that it makes, and
/// the monitor that looks on.
#[derive(Drop)]
pub struct Manager<D: Drop> {
    pub(crate) chans: Vec<D>,
    pub(crate) desks: Vec<Desk>,
    pub(crate) overseer: Overseer,
    pub(crate) served: AskList,
    pub(crate) clashes: ClashList,
    /// Room for the posts of an ask.
    pub(crate) posts: PostList,
    pub(crate) watch: Watch,
}

impl<D: Drop> Manager<D> {
    /// The manager of these channels, by the ends of the rings of each core, in core order, and the overseer of their clocks.
    /// Nothing was served yet.
    pub fn new(
        alloc: Global,
        chans: Row<D>,
        asks: AskReceiverList,
        posts: PostSenderList,
        overseer: Overseer,
    ) -> Result<Manager<D>, OutOfMemory>
        requires asks { length asks ≡ cores_of overseer }
        requires posts { length posts ≡ cores_of overseer }
        ensures { IfOk result (IsOpening chans asks posts overseer) }
    {
        let desks = desks_of(alloc, asks.into_vec(), posts.into_vec())?;
        Ok(Manager {
            chans: chans.into_vec(),
            desks,
            overseer,
            served: AskList::new(alloc),
            clashes: ClashList::new(alloc),
            posts: PostList::new(alloc),
            watch: Watch::new(alloc),
        })
    }

    /// The channels, the asks that were served with what each clashed with, and what the monitor found. Asks that wait,
    /// and the ends of rings, are let go.
    pub fn into_parts(self) -> (Row<D>, AskList, ClashList, ViolationList)
        ensures { (result.0 ≡ self.chans.items) × (result.1 ≡ self.served) × (result.2 ≡ self.clashes) × (result.3 ≡ self.watch.found) }
    {
        (
            Row::of(self.chans),
            self.served,
            self.clashes,
            self.watch.into_found(),
        )
    }

    /// The channels, the desks, the asks that were served with what each clashed with, and the monitor, so that the drift
    /// can be finished. The overseer is let go.
    pub fn into_raw(self) -> (Vec<D>, Vec<Desk>, AskList, ClashList, Watch)
        ensures { (result.0 ≡ self.chans) × (result.1 ≡ self.desks) × (result.2 ≡ self.served) × (result.3 ≡ self.clashes) × (result.4 ≡ self.watch) }
    {
        (
            self.chans,
            self.desks,
            self.served,
            self.clashes,
            self.watch,
        )
    }
}

/// A desk for each core, at which nothing waits.
fn desks_of(
    alloc: Global,
    receivers: Vec<AskReceiver>,
    senders: Vec<PostSender>,
) -> Result<Vec<Desk>, OutOfMemory>
    requires { length senders.items ≡ length receivers.items }
    ensures receivers { IfOk result (λ desks. map (λ desk. desk.asks) desks.items ≡ receivers.items) }
    ensures senders { IfOk result (λ desks. map (λ desk. desk.posts) desks.items ≡ senders.items) }
    ensures pending { IfOk result (λ desks. All (λ desk. desk.pending.items ≡ []) desks.items) }
{
    let mut desks = Vec::with_capacity(alloc, receivers.len())?;
    for (asks, posts) in receivers.into_iter().zip(senders) {
        desks.push(Desk {
            asks,
            pending: VecDeque::new(alloc),
            posts,
        })?;
    }
    Ok(desks)
}
