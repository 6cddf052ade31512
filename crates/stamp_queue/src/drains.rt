//! Rings whose two ends are in one thread again: all that is left is received.
ghost use Rattle.std.specs.Prelude.{◌≡◌, ◌<◌, OnOk, OnErr};
ghost use Rattle.stamp_queue.specs.Rings.{all_pushed, all_sent, all_received, waiting};
ghost use Rattle.stamp_queue.specs.Rings.{SameSender, SameReceiver, AreEnds, IsBehind, HandsOver, LosesLast};

use crate::receivers::Receiver;
use crate::rings::{AskReceiver, AskSender, PostReceiver, PostSender};
use crate::senders::Sender;
use slack_base::{AskList, OutOfMemory, PostList, Row};

/// Receives all asks that are left, the overflow list's too, and appends them in order. Where memory is refused, the
/// ask for which there was none is lost, and those behind it are left.
pub fn drain_asks(
    sender: &mut AskSender,
    receiver: &mut AskReceiver,
    out: &mut AskList,
) -> Result<(), OutOfMemory>
    requires { AreEnds sender.old receiver.old }
    ensures sent { all_sent sender.new ≡ all_sent sender.old }
    ensures behind { IsBehind receiver.new sender.new }
    ensures all { OnOk result (all_received receiver.new ≡ all_sent sender.new) }
    ensures out { OnOk result (HandsOver receiver.old receiver.new out.old out.new) }
    ensures lost { OnErr result (LosesLast receiver.old receiver.new out.old out.new) }
    ensures same { SameSender sender.old sender.new × SameReceiver receiver.old receiver.new }
{
    drain(sender, receiver, out)
}

/// Receives all posts that are left, the overflow list's too, and appends them in order. Where memory is refused, the
/// post for which there was none is lost, and those behind it are left.
pub fn drain_posts(
    sender: &mut PostSender,
    receiver: &mut PostReceiver,
    out: &mut PostList,
) -> Result<(), OutOfMemory>
    requires { AreEnds sender.old receiver.old }
    ensures sent { all_sent sender.new ≡ all_sent sender.old }
    ensures behind { IsBehind receiver.new sender.new }
    ensures all { OnOk result (all_received receiver.new ≡ all_sent sender.new) }
    ensures out { OnOk result (HandsOver receiver.old receiver.new out.old out.new) }
    ensures lost { OnErr result (LosesLast receiver.old receiver.new out.old out.new) }
    ensures same { SameSender sender.old sender.new × SameReceiver receiver.old receiver.new }
{
    drain(sender, receiver, out)
}

/// Receives all items that are left. What waits goes through the ring, as all items do.
fn drain<X: Drop>(
    sender: &mut Sender<X>,
    receiver: &mut Receiver<X>,
    out: &mut Row<X>,
) -> Result<(), OutOfMemory>
    requires { AreEnds sender.old receiver.old }
    ensures sent { all_sent sender.new ≡ all_sent sender.old }
    ensures behind { IsBehind receiver.new sender.new }
    ensures all { OnOk result (all_received receiver.new ≡ all_sent sender.new) }
    ensures out { OnOk result (HandsOver receiver.old receiver.new out.old out.new) }
    ensures lost { OnErr result (LosesLast receiver.old receiver.new out.old out.new) }
    ensures same { SameSender sender.old sender.new × SameReceiver receiver.old receiver.new }
{
    receive_pushed(sender, receiver, out)?;
    while !sender.overflow.is_empty() {
        sender.producer.slots_beside(&mut receiver.consumer);
        sender.flush();
        receive_pushed(sender, receiver, out)?;
    }
    Ok(())
}

/// Receives all items that are in the ring.
fn receive_pushed<X: Drop>(
    sender: &mut Sender<X>,
    receiver: &mut Receiver<X>,
    out: &mut Row<X>,
) -> Result<(), OutOfMemory>
    requires { AreEnds sender.old receiver.old }
    ensures sent { (all_pushed sender.new ≡ all_pushed sender.old) × (waiting sender.new ≡ waiting sender.old) }
    ensures behind { IsBehind receiver.new sender.new }
    ensures all { OnOk result (all_received receiver.new ≡ all_pushed sender.new) }
    ensures out { OnOk result (HandsOver receiver.old receiver.new out.old out.new) }
    ensures lost { OnErr result (LosesLast receiver.old receiver.new out.old out.new) }
    ensures same { SameSender sender.old sender.new × SameReceiver receiver.old receiver.new }
{
    let count = receiver.consumer.slots_beside(&mut sender.producer);
    for _ in 0..count {
        out.push(receiver.consumer.pop_known())?;
    }
    Ok(())
}
