//! What a core brings to the end of a drift by threads.
use slack_base::{Post, TakenList};
use stamp_queue::{AskSender, PostReceiver};
use std::collections::VecDeque;

/// A core at its clock, the posts that it took, those that it received and hasn't taken yet, the oldest first, and its ends
/// of its two rings.
#[derive(Drop)]
pub struct Part<C: Drop> {
    pub core: C,
    pub clock: u64,
    pub taken: TakenList,
    pub waiting: VecDeque<Post>,
    pub asks: AskSender,
    pub posts: PostReceiver,
}
