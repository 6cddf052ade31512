//! Posts that are numbered, through a ring in one thread and across two.
use slack_base::{Id, OutOfMemory, Post, PostKind};
use stamp_queue::{PostReceiver, PostSender, post_ring};
use std::alloc::Global;
use std::sync::atomic::{AtomicBool, Ordering};
use std::thread::{self, Threads, join_mut};

const SLOTS: u32 = 256;

/// The posts of a round.
const POSTS: u64 = 100_000;

/// After so many flushes the sender gives up.
const PATIENCE: u32 = 10_000_000;

fn numbered(number: u64) -> Post {
    Post {
        to: 0,
        due: number,
        id: Id {
            cycle: 0,
            core: 0,
            number: 0,
        },
        line: 0,
        kind: PostKind::Retry,
    }
}

/// So many rounds in one thread, which receives each post as soon as it is sent. Returns how many came in order.
pub fn alone(alloc: Global, rounds: u32) -> Result<u64, OutOfMemory> {
    let (mut sender, mut receiver) = post_ring(alloc, SLOTS)?;
    let mut received = 0u64;
    for number in 0..u64::from(rounds) * POSTS {
        sender.send(numbered(number))?;
        if receiver.receive().is_some_and(|post| post.due == number) {
            received = received.saturating_add(1);
        }
    }
    Ok(received)
}

/// So many rounds, in each of which one thread sends and another receives. Returns how many came in order.
pub fn across<R: Threads>(rt: &R, alloc: Global, rounds: u32) -> Result<u64, OutOfMemory> {
    let (mut sender, mut receiver) = post_ring(alloc, SLOTS)?;
    let mut received = 0u64;
    for _ in 0..rounds {
        let done = AtomicBool::new(false);
        let (in_order, sent) = join_mut(
            rt,
            &mut || receive_round(&mut receiver, &done),
            &mut || send_round(&mut sender, &done),
        );
        sent?;
        received = received.saturating_add(in_order);
    }
    Ok(received)
}

/// Sends the posts of a round, and flushes until they are received. Where that fails the round is done.
fn send_round(sender: &mut PostSender, done: &AtomicBool) -> Result<(), OutOfMemory> {
    let sent = send_all(sender);
    if sent.is_ok() {
        flush_until(sender, done);
    }
    done.store(true, Ordering::SeqCst);
    sent
}

fn send_all(sender: &mut PostSender) -> Result<(), OutOfMemory> {
    for number in 0..POSTS {
        sender.send(numbered(number))?;
    }
    Ok(())
}

fn flush_until(sender: &mut PostSender, done: &AtomicBool) {
    for _ in 0..PATIENCE {
        if done.load(Ordering::SeqCst) {
            return;
        }
        sender.flush();
        thread::yield_now();
    }
}

/// Receives the posts of a round, and returns how many came in order.
fn receive_round(receiver: &mut PostReceiver, done: &AtomicBool) -> u64 {
    let mut received = 0u64;
    let mut in_order = 0u64;
    for _ in 0..u64::MAX {
        if received == POSTS {
            break;
        }
        match receiver.receive() {
            Some(post) => {
                in_order = in_order.saturating_add(u64::from(post.due == received));
                received = received.saturating_add(1);
            }
            None if done.load(Ordering::SeqCst) => break,
            None => thread::yield_now(),
        }
    }
    done.store(true, Ordering::SeqCst);
    in_order
}
