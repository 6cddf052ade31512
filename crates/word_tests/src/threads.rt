//! A ring whose ends are in two threads.
ghost use Rattle.std.specs.Prelude.{◌≡◌, ◌<◌, ◌++◌, [], IfOk, OnOk};
ghost use Rattle.stamp_queue.specs.Rings.{all_sent, SameSender, SameReceiver, HandsOver};

use slack_base::{Id, OutOfMemory, Post, PostKind, PostList};
use stamp_queue::{PostReceiver, PostSender, drain_posts, post_ring};
use std::alloc::Global;
use std::sync::atomic::{AtomicBool, Ordering};
use std::test::Fail;
use std::thread::{self, Threads, join_mut};

const COUNT: u32 = 100_000;

/// So many turns in a row with nothing to do, and a thread gives up.
const PATIENCE: u32 = 100_000;

fn numbered(number: u32) -> Post {
    Post {
        to: 0,
        due: u64::from(number),
        id: Id {
            cycle: 0,
            core: 0,
            number: 0,
        },
        line: 0,
        kind: PostKind::Retry,
    }
}

/// Sends all, and flushes until the other thread has done.
fn sending(sender: &mut PostSender, posts: &[Post], done: &AtomicBool) -> Result<(), OutOfMemory>
    ensures sent { OnOk result (all_sent sender.new ≡ all_sent sender.old ++ posts.now) }
    ensures same { SameSender sender.old sender.new }
{
    send_all(sender, posts)?;
    flush_until(sender, done);
    Ok(())
}

fn send_all(sender: &mut PostSender, posts: &[Post]) -> Result<(), OutOfMemory>
    ensures sent { OnOk result (all_sent sender.new ≡ all_sent sender.old ++ posts.now) }
    ensures same { SameSender sender.old sender.new }
{
    for post in posts {
        sender.send(*post)?;
    }
    Ok(())
}

fn flush_until(sender: &mut PostSender, done: &AtomicBool)
    ensures sent { all_sent sender.new ≡ all_sent sender.old }
    ensures same { SameSender sender.old sender.new }
{
    for _ in 0..u32::MAX {
        if done.load(Ordering::SeqCst) {
            return;
        }
        sender.flush();
        thread::yield_now();
    }
}

/// Receives so many posts, or until none has come for long.
fn receiving(
    receiver: &mut PostReceiver,
    out: &mut PostList,
    done: &AtomicBool,
) -> Result<(), OutOfMemory>
    ensures out { OnOk result (HandsOver receiver.old receiver.new out.old out.new) }
    ensures same { SameReceiver receiver.old receiver.new }
{
    let received = receive_until(receiver, out);
    done.store(true, Ordering::SeqCst);
    received
}

fn receive_until(receiver: &mut PostReceiver, out: &mut PostList) -> Result<(), OutOfMemory>
    ensures out { OnOk result (HandsOver receiver.old receiver.new out.old out.new) }
    ensures same { SameReceiver receiver.old receiver.new }
{
    let mut idle = 0;
    for _ in 0..u32::MAX {
        match receiver.receive() {
            Some(post) => {
                out.push(post)?;
                idle = 0;
            }
            None if out.len() >= COUNT as usize || idle >= PATIENCE => return Ok(()),
            None => {
                idle += 1;
                thread::yield_now();
            }
        }
    }
    Ok(())
}

/// What one thread sends and another receives, and then what is left: all, in order.
fn across<R: Threads>(
    rt: &R,
    alloc: Global,
    slots: u32,
    posts: &[Post],
) -> Result<PostList, OutOfMemory>
    requires { 0 < slots }
    ensures { IfOk result (λ out. out ≡ posts.now) }
{
    let (mut sender, mut receiver) = post_ring(alloc, slots)?;
    let mut out = PostList::new(alloc);
    let done = AtomicBool::new(false);
    let (sent, received) = join_mut(
        rt,
        &mut || sending(&mut sender, posts, &done),
        &mut || receiving(&mut receiver, &mut out, &done),
    );
    sent?;
    received?;
    drain_posts(&mut sender, &mut receiver, &mut out)?;
    Ok(out)
}

/// The posts that are sent.
fn numbered_posts(alloc: Global) -> Result<PostList, OutOfMemory> {
    let mut posts = PostList::new(alloc);
    for number in 0..COUNT {
        posts.push(numbered(number))?;
    }
    Ok(posts)
}

/// Whether all posts are there, in their order.
fn are_all(posts: &PostList) -> bool {
    posts.len() == COUNT as usize
        && posts
            .as_slice()
            .iter()
            .zip(0..COUNT)
            .all(|(post, number)| post.due == u64::from(number))
}

#[test]
fn posts_go_to_another_thread_in_order(rt: HostRuntime) -> Result<(), Fail> {
    let posts = numbered_posts(rt.alloc())?;
    let one = across(&rt, rt.alloc(), 1, posts.as_slice())?;
    assert!(rt; are_all(&one));
    let many = across(&rt, rt.alloc(), 256, posts.as_slice())?;
    assert!(rt; are_all(&many));
    Ok(())
}
