//! The nodes of a wheel: the posts that wait in it, and places that are free.
ghost use Rattle.std.specs.Prelude.{◌≡◌, ◌≢◌, ℕ, ◌%◌, drop, MatchOption, IfOk, IfSome, OnErr, IsTrue};
ghost use Rattle.std.specs.declared.option.Option.TheVariants.{None, Some};
ghost use Rattle.slack_base.specs.Inboxes.{with_post};
ghost use Rattle.stamp_queue.specs.Slots.{slot_posts, chain_len, IsSlot, KeepsSlot, KeepsAll, HasPlace, IsFreeIn, IsWritten, node_of, StandsBefore, IsNextNoLater};

use super::order::is_later;
use slack_base::{OutOfMemory, Post};

/// The place that stands for none.
pub(super) const NOWHERE: u32 = u32::MAX;

/// A post of a slot: with the place of the next post of the slot, and how many stand behind it there. Or a place that
/// is free: with a post that was taken, and the place of the next that is free.
#[derive(Clone, Copy, Debug)]
pub(super) struct Node {
    pub post: Post,
    pub next: u32,
    pub behind: u32,
    pub is_used: bool,
}

impl Node {
    ghost use Rattle.std.specs.Prelude.{◌≡◌, false};
    ghost use Rattle.std.specs.declared.option.Option.TheVariants.{None};
    ghost use Rattle.stamp_queue.specs.Slots.{kept_post, rest_of};

    /// The node is free from now on, with the place of the next that is free.
    pub fn release(&mut self, next: u32)
        ensures node { self.new ≡ record self.old { next = next; is_used = false } }
        ensures free { kept_post self.new ≡ None }
    {
        self.is_used = false;
        self.next = next;
    }

    /// The place of the next post of the slot, if there is one.
    pub fn rest(&self) -> Option<u32>
        ensures { result ≡ rest_of self.now }
    {
        if self.behind == 0 {
            None
        } else {
            Some(self.next)
        }
    }
}

/// Puts a post into a slot, behind those that are no later, by the place of its first: the place of its first from now
/// on.
#[inline]
pub(super) fn insert(
    nodes: &mut Vec<Node>,
    free: &mut u32,
    first: Option<u32>,
    post: &Post,
) -> Result<u32, OutOfMemory>
    requires { IsSlot nodes.old.items (post.now.due % 256) first }
    ensures slot { IfOk result (λ place. IsSlot nodes.new.items (post.now.due % 256) (Some place)) }
    ensures posts { IfOk result (λ place. slot_posts nodes.new.items (Some place) ≡ with_post (slot_posts nodes.old.items first) post.now) }
    ensures others { (k : ℕ) → k ≢ post.now.due % 256 → KeepsSlot nodes.old.items nodes.new.items k }
    ensures err { OnErr result (KeepsAll nodes.old.items nodes.new.items) }
{
    let behind = count_from(nodes, first).ok_or(OutOfMemory)?;
    let place = put_node(nodes, free, post, first.unwrap_or(NOWHERE), behind)?;
    if behind > 0 {
        settle(nodes, place, *post);
    }
    Ok(place)
}

/// How many posts a slot has, by the place of its first: none where that doesn't fit.
fn count_from(nodes: &[Node], first: Option<u32>) -> Option<u32>
    requires { HasPlace nodes.now first }
    ensures { IfSome result (λ count. count ≡ chain_len nodes.now first) }
{
    match first {
        Some(place) => nodes[place as usize].behind.checked_add(1),
        None => Some(0),
    }
}

/// Writes a node with a post to the place that is given, if it is free, or else behind all nodes: where it is written.
#[inline]
fn put_node(
    nodes: &mut Vec<Node>,
    free: &mut u32,
    post: &Post,
    next: u32,
    behind: u32,
) -> Result<u32, OutOfMemory>
    ensures ok { IfOk result (λ place. IsWritten nodes.old.items nodes.new.items place (node_of post.now next behind)) }
    ensures err { OnErr result (nodes.new.items ≡ nodes.old.items) }
{
    let place = *free;
    if is_free(nodes, place) {
        *free = nodes[place as usize].next;
        nodes[place as usize] = Node {
            post: *post,
            next,
            behind,
            is_used: true,
        };
        return Ok(place);
    }
    push_node(nodes, post, next, behind)
}

/// Writes a node with a post behind all nodes: where it is written.
#[cold]
#[inline(never)]
fn push_node(nodes: &mut Vec<Node>, post: &Post, next: u32, behind: u32) -> Result<u32, OutOfMemory>
    ensures ok { IfOk result (λ place. IsWritten nodes.old.items nodes.new.items place (node_of post.now next behind)) }
    ensures err { OnErr result (nodes.new.items ≡ nodes.old.items) }
{
    let Ok(place) = u32::try_from(nodes.len()) else {
        return Err(OutOfMemory);
    };
    nodes.push(Node {
        post: *post,
        next,
        behind,
        is_used: true,
    })?;
    Ok(place)
}

/// Whether the place is one of the nodes, with no post.
fn is_free(nodes: &[Node], place: u32) -> bool
    ensures { IsTrue result → IsFreeIn nodes.now place }
{
    match nodes.get(place as usize) {
        Some(node) => !node.is_used,
        None => false,
    }
}

/// Puts a post into its place among those of a slot, the first of which is at hand: those that are no later each go one
/// node forward, and the post goes behind them.
#[inline(never)]
fn settle(nodes: &mut [Node], first: u32, post: Post)
    requires { IsSlot nodes.old (post.due % 256) (Some first) }
    ensures slot { IsSlot nodes.new (post.due % 256) (Some first) }
    ensures posts { slot_posts nodes.new (Some first) ≡ with_post (drop 1 (slot_posts nodes.old (Some first))) post }
    ensures others { (k : ℕ) → k ≢ post.due % 256 → KeepsSlot nodes.old nodes.new k }
{
    let mut place = first;
    while let Some(next) = next_no_later(nodes, place, &post) {
        nodes[place as usize].post = nodes[next as usize].post;
        place = next;
    }
    nodes[place as usize].post = post;
}

/// The place of the next post of the slot, if there is one and it is no later.
fn next_no_later(nodes: &[Node], place: u32, post: &Post) -> Option<u32>
    requires { IsSlot nodes.now (post.now.due % 256) (Some place) }
    ensures { MatchOption result (StandsBefore nodes.now place post.now) (IsNextNoLater nodes.now place post.now) }
{
    let next = nodes[place as usize].rest()?;
    let other = nodes[next as usize].post;
    if is_later(&other, post) {
        None
    } else {
        Some(next)
    }
}
