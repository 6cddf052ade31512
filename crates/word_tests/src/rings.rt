//! Rings in one thread.
ghost use Rattle.std.specs.Prelude.{◌<◌};

use crate::letters::{Letters, letter, letter_of};
use slack_base::{Ask, AskList, OutOfMemory};
use stamp_queue::{Receiver, Sender, ask_ring, drain_asks};
use std::alloc::Global;

/// What is received, by the number of slots and the steps.
const ROWS: [(u32, &[u8], &[u8]); 23] = [
    (1, b"r", b"-"),
    (1, b"fr", b"-"),
    (1, b"d", b""),
    (1, b"srsr", b"ab"),
    (1, b"ssrr", b"a-"),
    (1, b"ssrfr", b"ab"),
    (1, b"ssfrrfr", b"a-b"),
    (1, b"ssrsrfr", b"abc"),
    (1, b"sssrfrfr", b"abc"),
    (1, b"sdrd", b"a-"),
    (1, b"sssd", b"abc"),
    (1, b"ssrsd", b"abc"),
    (1, b"ssdssrfr", b"abcd"),
    (2, b"sssrrr", b"ab-"),
    (2, b"sssrfrr", b"abc"),
    (2, b"ssssrsrrfrr", b"abcde"),
    (2, b"sssssd", b"abcde"),
    (2, b"srssrsrd", b"abcd"),
    (2, b"sssdrsr", b"abc-d"),
    (
        16,
        b"ssssssssssssssssssssrrrrrrrrrrrrrrrrr",
        b"abcdefghijklmnop-",
    ),
    (
        16,
        b"ssssssssssssssssssssrrfrrrrrrrrrrrrrrrrr",
        b"abcdefghijklmnopqr-",
    ),
    (16, b"ssssssssssssssssssssrrrd", b"abcdefghijklmnopqrst"),
    (16, b"ssssssssssssssssssssdsr", b"abcdefghijklmnopqrstu"),
];

/// Whether a row's steps receive what it says.
fn receives(alloc: Global, slots: u32, steps: &[u8], received: &[u8]) -> Result<bool, OutOfMemory>
    requires { 0 < slots }
{
    let mut ring = Letters::new(alloc, slots)?;
    for step in steps {
        ring.step(alloc, *step)?;
    }
    Ok(ring.received() == received)
}

#[test]
fn what_is_sent_is_received_in_order(rt: HostRuntime) {
    for (slots, steps, received) in &ROWS {
        let holds = *slots > 0 && receives(rt.alloc(), *slots, steps, received) == Ok(true);
        assert!(rt; holds, "{slots} slots");
    }
}

/// Whether asks are these letters.
fn are_letters(asks: &AskList, letters: &[u8]) -> bool {
    asks.len() == letters.len()
        && asks
            .as_slice()
            .iter()
            .zip(letters)
            .all(|(ask, byte)| letter_of(ask) == *byte)
}

/// Sends `a`, `b` and `c` over one slot: whether what was sent is left, but for an ask that was in hand where memory was
/// refused.
fn passes_nothing_by(alloc: Global) -> bool {
    let Ok((mut sender, mut receiver)) = ask_ring(alloc, 1) else {
        return true;
    };
    if sender.send(letter(b'a')).is_err() {
        return false;
    }
    let second = sender.send(letter(b'b')).is_ok();
    let third = sender.send(letter(b'c')).is_ok();
    let mut left = AskList::new(alloc);
    if drain_asks(&mut sender, &mut receiver, &mut left).is_ok() {
        return are_letters(&left, sent_letters(second, third));
    }
    left.is_empty()
        && drain_asks(&mut sender, &mut receiver, &mut left).is_ok()
        && are_letters(&left, b"bc")
}

/// The letters that were sent, where the second or the third may not have been.
fn sent_letters(second: bool, third: bool) -> &'static [u8] {
    if !second {
        b"ac"
    } else if third {
        b"abc"
    } else {
        b"ab"
    }
}

/// Whichever allocation is refused: `rt try --test --fail-alloc N` refuses the one of that number.
#[test]
fn want_of_memory_passes_nothing_by(rt: HostRuntime) {
    assert!(rt; passes_nothing_by(rt.alloc()));
}

fn crosses<X: Send>() {}

/// The ends of a ring may go to another thread where their items may.
fn ends_cross_with_their_items<X: Send + Drop>() {
    crosses::<Sender<X>>();
    crosses::<Receiver<X>>();
}

/// This is proved, or no test of the crate runs.
#[test]
fn ends_go_to_another_thread(_rt: HostRuntime) {
    ends_cross_with_their_items::<Ask>();
}
