//! The posts of an inbox, in the order in which they are taken.
use slack_base::{Id, OutOfMemory, Post, PostKind};
use stamp_queue::Inbox;
use std::alloc::Global;
use std::test::Fail;

/// A retry: its due, the cycle, the core and the number of its id, and its line.
type Retry = (u64, u64, u32, u64, u32);

/// What is done to an inbox, and what it answers.
#[derive(Clone, Copy)]
enum Step {
    Put(Retry),
    /// Takes the first post that is due at a cycle.
    Take(u64, Option<Retry>),
    /// Counts the posts.
    Len(usize),
    /// Looks up the due of the first post.
    Next(u64),
}

use Step::{Len, Next, Put, Take};

const LAST: u64 = 18446744073709551615;

/// A name, and steps from an inbox with no post on.
type Run = (&'static str, &'static [Step]);

#[rattlefmt::skip]
const RUNS: &'static [Run] = &[
    ("by due and id, and a late one in its place", &[
        Put((600, 1, 0, 0, 0)), Put((5, 1, 1, 0, 0)), Put((261, 1, 2, 0, 0)), Put((5, 1, 0, 0, 0)), Put((4, 3, 0, 0, 0)),
        Take(4, Some((4, 3, 0, 0, 0))), Take(4, None), Take(261, Some((5, 1, 0, 0, 0))), Take(261, Some((5, 1, 1, 0, 0))),
        Take(261, Some((261, 1, 2, 0, 0))), Take(261, None), Take(600, Some((600, 1, 0, 0, 0))), Take(600, None), Len(0),
    ]),
    ("the due, and then the cycle, the core and the number", &[
        Put((6, 9, 9, 9, 0)), Put((7, 1, 2, 3, 0)), Put((7, 1, 2, 4, 0)), Put((7, 1, 3, 0, 0)), Put((7, 2, 0, 0, 0)), Put((8, 0, 0, 0, 0)),
        Take(LAST, Some((6, 9, 9, 9, 0))), Take(LAST, Some((7, 1, 2, 3, 0))), Take(LAST, Some((7, 1, 2, 4, 0))),
        Take(LAST, Some((7, 1, 3, 0, 0))), Take(LAST, Some((7, 2, 0, 0, 0))), Take(LAST, Some((8, 0, 0, 0, 0))), Take(LAST, None),
    ]),
    ("the same the other way round", &[
        Put((8, 0, 0, 0, 0)), Put((7, 2, 0, 0, 0)), Put((7, 1, 3, 0, 0)), Put((7, 1, 2, 4, 0)), Put((7, 1, 2, 3, 0)), Put((6, 9, 9, 9, 0)),
        Take(LAST, Some((6, 9, 9, 9, 0))), Take(LAST, Some((7, 1, 2, 3, 0))), Take(LAST, Some((7, 1, 2, 4, 0))),
        Take(LAST, Some((7, 1, 3, 0, 0))), Take(LAST, Some((7, 2, 0, 0, 0))), Take(LAST, Some((8, 0, 0, 0, 0))), Take(LAST, None),
    ]),
    ("posts of one due and one id, in the order in which they were put", &[
        Put((7, 1, 1, 0, 0)), Put((6, 1, 0, 0, 0)), Put((7, 1, 0, 0, 30)), Put((7, 1, 0, 0, 10)), Put((7, 1, 0, 0, 20)), Len(5),
        Take(7, Some((6, 1, 0, 0, 0))), Take(7, Some((7, 1, 0, 0, 30))), Take(7, Some((7, 1, 0, 0, 10))), Take(7, Some((7, 1, 0, 0, 20))),
        Take(7, Some((7, 1, 1, 0, 0))), Take(7, None),
    ]),
    // a post waits before its due, and is taken at it and at any time after
    ("5 at 0", &[Put((5, 1, 0, 0, 0)), Take(0, None), Len(1)]),
    ("5 at 4", &[Put((5, 1, 0, 0, 0)), Take(4, None), Len(1)]),
    ("5 at 5", &[Put((5, 1, 0, 0, 0)), Take(5, Some((5, 1, 0, 0, 0))), Len(0)]),
    ("5 at 6", &[Put((5, 1, 0, 0, 0)), Take(6, Some((5, 1, 0, 0, 0))), Len(0)]),
    ("5 at the last cycle", &[Put((5, 1, 0, 0, 0)), Take(LAST, Some((5, 1, 0, 0, 0))), Len(0)]),
    ("0 at 0", &[Put((0, 1, 0, 0, 0)), Take(0, Some((0, 1, 0, 0, 0))), Len(0)]),
    ("the last cycle before it", &[Put((LAST, 1, 0, 0, 0)), Take(18446744073709551614, None), Len(1)]),
    ("the last cycle at it", &[Put((LAST, 1, 0, 0, 0)), Take(LAST, Some((LAST, 1, 0, 0, 0))), Len(0)]),
    ("a post with a later due hides none with a sooner one", &[
        Take(9, None), Next(LAST),
        Put((19, 0, 0, 0, 0)), Put((18, 1, 0, 0, 0)), Put((17, 2, 0, 0, 0)), Put((16, 3, 0, 0, 0)), Put((15, 4, 0, 0, 0)),
        Put((14, 5, 0, 0, 0)), Put((13, 6, 0, 0, 0)), Put((12, 7, 0, 0, 0)), Put((11, 8, 0, 0, 0)), Put((10, 9, 0, 0, 0)),
        Put((9, 10, 0, 0, 0)), Put((8, 11, 0, 0, 0)), Put((7, 12, 0, 0, 0)), Put((6, 13, 0, 0, 0)), Put((5, 14, 0, 0, 0)),
        Put((4, 15, 0, 0, 0)), Put((3, 16, 0, 0, 0)), Put((2, 17, 0, 0, 0)), Put((1, 18, 0, 0, 0)), Put((0, 19, 0, 0, 0)),
        Len(20), Take(1, Some((0, 19, 0, 0, 0))), Put((1, 0, 0, 0, 0)), Take(1, Some((1, 0, 0, 0, 0))),
        Take(19, Some((1, 18, 0, 0, 0))), Take(19, Some((2, 17, 0, 0, 0))), Take(19, Some((3, 16, 0, 0, 0))), Take(19, Some((4, 15, 0, 0, 0))), Take(19, Some((5, 14, 0, 0, 0))),
        Take(19, Some((6, 13, 0, 0, 0))), Take(19, Some((7, 12, 0, 0, 0))), Take(19, Some((8, 11, 0, 0, 0))), Take(19, Some((9, 10, 0, 0, 0))), Take(19, Some((10, 9, 0, 0, 0))),
        Take(19, Some((11, 8, 0, 0, 0))), Take(19, Some((12, 7, 0, 0, 0))), Take(19, Some((13, 6, 0, 0, 0))), Take(19, Some((14, 5, 0, 0, 0))), Take(19, Some((15, 4, 0, 0, 0))),
        Take(19, Some((16, 3, 0, 0, 0))), Take(19, Some((17, 2, 0, 0, 0))), Take(19, Some((18, 1, 0, 0, 0))), Take(19, Some((19, 0, 0, 0, 0))),
        Len(0),
    ]),
    ("before, on and behind the wheel, one of them late", &[
        Put((600, 1, 0, 0, 0)), Put((5, 1, 1, 0, 0)), Put((261, 1, 2, 0, 0)), Put((5, 1, 0, 0, 0)), Put((4, 3, 0, 0, 0)),
        Next(4), Take(4, Some((4, 3, 0, 0, 0))), Next(5), Take(261, Some((5, 1, 0, 0, 0))), Take(261, Some((5, 1, 1, 0, 0))),
        Take(261, Some((261, 1, 2, 0, 0))), Take(261, None), Put((2, 9, 0, 0, 0)), Next(2), Take(599, Some((2, 9, 0, 0, 0))),
        Take(599, None), Next(600), Take(600, Some((600, 1, 0, 0, 0))), Len(0),
    ]),
];

fn post_of(retry: &Retry) -> Post {
    let (due, cycle, core, number, line) = *retry;
    Post {
        to: 0,
        due,
        id: Id {
            cycle,
            core,
            number,
        },
        line,
        kind: PostKind::Retry,
    }
}

/// Whether an inbox answers a step as the step says.
fn answers(inbox: &mut Inbox, step: &Step) -> bool {
    match step {
        Put(retry) => inbox.put(post_of(retry)).is_ok(),
        Take(cycle, Some(retry)) => inbox.take_due(*cycle) == Some(post_of(retry)),
        Take(cycle, None) => inbox.take_due(*cycle).is_none(),
        Len(count) => inbox.len() == *count && inbox.is_empty() == (*count == 0),
        Next(due) => inbox.next_due() == *due,
    }
}

/// Whether an inbox answers each of these steps.
fn answers_all(inbox: &mut Inbox, steps: &[Step]) -> bool {
    for step in steps {
        if !answers(inbox, step) {
            return false;
        }
    }
    true
}

/// Whether a new inbox answers each of these steps.
fn begins_with(alloc: Global, steps: &[Step]) -> bool {
    let mut inbox = Inbox::new(alloc);
    answers_all(&mut inbox, steps)
}

#[test]
fn posts_in_their_order(rt: HostRuntime) {
    for (name, steps) in RUNS {
        assert!(rt; begins_with(rt.alloc(), steps), "{name}");
    }
}

/// Whether an inbox and its copy answer as if the other weren't there: what is put into the one or taken from it later
/// leaves the other as it was.
fn copy_stands_alone(alloc: Global) -> Result<bool, OutOfMemory> {
    let mut inbox = Inbox::new(alloc);
    let begins = answers_all(&mut inbox, &[Put((9, 1, 1, 0, 0)), Put((5, 1, 0, 0, 0))]);
    let mut copy = inbox.copy()?;
    Ok(begins && answers_all(&mut inbox, INBOX_LATER) && answers_all(&mut copy, COPY_LATER))
}

#[rattlefmt::skip]
const INBOX_LATER: &'static [Step] = &[Take(9, Some((5, 1, 0, 0, 0))), Put((4, 2, 0, 0, 0))];

#[rattlefmt::skip]
const COPY_LATER: &'static [Step] =
    &[Len(2), Take(9, Some((5, 1, 0, 0, 0))), Take(9, Some((9, 1, 1, 0, 0))), Len(0)];

#[test]
fn a_copy_stands_alone(rt: HostRuntime) -> Result<(), Fail> {
    assert!(rt; copy_stands_alone(rt.alloc())?);
    Ok(())
}

/// Puts three posts of two slots and takes them out again, three hundred times: whether each is taken.
fn goes_round(inbox: &mut Inbox) -> bool {
    for round in 0..300u64 {
        let (first, last) = ((round, 0, 0, 0, 0), (round + 7, 0, 0, 0, 0));
        let steps = [
            Put(first),
            Put(first),
            Put(last),
            Take(round, Some(first)),
            Take(round, Some(first)),
            Take(round + 7, Some(last)),
            Len(0),
        ];
        if !answers_all(inbox, &steps) {
            return false;
        }
    }
    true
}

/// How many nodes an inbox has for its posts, as its text for debugging shows them.
fn nodes_in(alloc: Global, inbox: &Inbox) -> Result<usize, Fail> {
    let text = format!(in alloc; "{inbox:?}")?;
    let nodes = text
        .as_bytes()
        .windows(6)
        .filter(|part| *part == b"Node {".as_slice());
    Ok(nodes.count())
}

/// Nodes whose posts were taken are used again: there are as many as posts at a time.
#[test]
fn nodes_are_used_again(rt: HostRuntime) -> Result<(), Fail> {
    let mut inbox = Inbox::new(rt.alloc());
    assert!(rt; goes_round(&mut inbox));
    assert_eq!(rt; nodes_in(rt.alloc(), &inbox)?, 3);
    Ok(())
}
