//! What comes between the ticks of two pieces: asks are put in order and served, and their posts are taken.
ghost use Rattle.std.specs.Prelude.{◌≡◌, ◌++◌, length, map, OnOk, All};
ghost use Rattle.std.specs.List.{flat_map};
ghost use Rattle.std.specs.List.Sorted.{IsPermutation, IsSortedByKey};
ghost use Rattle.slack_base.specs.Messages.{id_of};
ghost use Rattle.slack_base.specs.Stamps.{id_cmp};
ghost use Rattle.target_law.specs.Cycles.{through};
ghost use Rattle.target_law.specs.Numbered.{AllNumbered};
ghost use Rattle.target_law.specs.Proper.{IsProperAsk, IsProperPost, IsChanOf};
ghost use Rattle.pacing.specs.Open.{IsLaneOf};
ghost use Rattle.pacing.specs.Pieces.{all_taking};
ghost use Rattle.pacing.specs.Views.{lane_of};

use crate::lanes::Lane;
use drive_script::worlds::serve_ask;
use slack_base::{Ask, AskList, ClashList, OutOfMemory, Post, PostList};
use target_law::Target;

/// Appends the asks of all cores, in core order.
fn gather<C: Drop>(lanes: &[Lane<C>], asks: &mut Vec<Ask>) -> Result<(), OutOfMemory>
    ensures { OnOk result (asks.new.items ≡ asks.old.items ++ flat_map (λ lane. lane.asks) lanes.now) }
{
    for lane in lanes {
        asks.extend_from_slice(lane.asks.as_slice())?;
    }
    Ok(())
}

/// Puts asks into the order of their ids.
pub fn sort_by_id(asks: &mut [Ask])
    ensures same { IsPermutation asks.old asks.new }
    ensures sorted { IsSortedByKey id_of id_cmp asks.new }
{
    asks.sort_unstable_by_key(|ask| ask.id());
}

/// The asks of all cores, in the order of their ids. What `asks` held before is let go.
pub(crate) fn line_up<C: Drop>(lanes: &[Lane<C>], asks: &mut Vec<Ask>) -> Result<(), OutOfMemory>
    ensures same { OnOk result (IsPermutation (flat_map (λ lane. lane.asks) lanes.now) asks.new.items) }
    ensures sorted { OnOk result (IsSortedByKey id_of id_cmp asks.new.items) }
{
    asks.clear();
    gather(lanes, asks)?;
    sort_by_id(asks.as_mut_slice());
    Ok(())
}

/// Serves asks one after another, each on its channel. They are appended to those that were served, and what each clashes
/// with just before, and its posts, are appended too.
pub(crate) fn serve_all<D: Send + Drop, T: Target<Chan = D>>(
    target: &T,
    chans: &mut Vec<D>,
    asks: &[Ask],
    served: &mut AskList,
    clashes: &mut ClashList,
    posts: &mut PostList,
) -> Result<(), OutOfMemory>
    requires count { length chans.old.items ≡ (T.rules target.now).channels }
    requires chans { AllNumbered (IsChanOf (T.rules target.now) (T.owns target.now)) 0 (map T.values.chan chans.old.items) }
    requires asks { All (IsProperAsk (T.rules target.now)) asks.now }
    ensures chans { OnOk result (map T.values.chan chans.new.items ≡ (through (T.rules target.now) (map T.values.chan chans.old.items) asks.now).chans) }
    ensures served { OnOk result (served.new ≡ served.old ++ asks.now) }
    ensures clashes { OnOk result (clashes.new ≡ clashes.old ++ (through (T.rules target.now) (map T.values.chan chans.old.items) asks.now).clashes) }
    ensures posts { OnOk result (posts.new ≡ posts.old ++ (through (T.rules target.now) (map T.values.chan chans.old.items) asks.now).posts) }
{
    for ask in asks {
        serve_ask(target, chans, ask, clashes, posts)?;
        served.push(*ask)?;
    }
    Ok(())
}

/// Posts are taken at a clock, one after another, each by the core that it is addressed to.
pub(crate) fn take_all<C: Send + Drop, T: Target<Core = C>>(
    target: &T,
    lanes: &mut [Lane<C>],
    posts: &[Post],
    clock: u64,
) -> Result<(), OutOfMemory>
    requires count { length lanes.old ≡ (T.rules target.now).cores }
    requires lanes { AllNumbered (IsLaneOf (T.rules target.now) (T.owns target.now)) 0 (map (lane_of T.values) lanes.old) }
    requires posts { All (IsProperPost (T.rules target.now)) posts.now }
    ensures { OnOk result (map (lane_of T.values) lanes.new ≡ all_taking (T.rules target.now) clock (map (lane_of T.values) lanes.old) posts.now) }
{
    for post in posts {
        lanes[post.to as usize].take(target, *post, clock)?;
    }
    Ok(())
}
