//! Which ask is served next.
ghost use Rattle.std.specs.Prelude.{◌≡◌, ℕ, IfSome, IfNone};
ghost use Rattle.slack_base.specs.declared.stamps.Id.{Id};
ghost use Rattle.drive_script.specs.Finishing.{IsFirstLeast, NoKey, is_before};
ghost use Rattle.manager.specs.Queues.{queues_of, next_id, servable_id};

use crate::managers::Desk;
use drive_script::finishing::earlier;
use slack_base::Id;
use target_law::Target;

/// The id of the oldest ask that waits at the desk of this place, if it is a proper ask of this core.
fn servable_id<T: Target>(target: &T, desk: &Desk, place: usize) -> Option<Id>
    ensures { result ≡ servable_id (T.rules target.now) place desk.now.pending.items }
{
    let ask = desk.pending.front()?;
    let id = ask.id();
    if target.ask_is_proper(ask) && id.core as usize == place {
        Some(id)
    } else {
        None
    }
}

/// The place of the desk at which the oldest ask may be served and has the least id: none where no desk's may be served.
pub(crate) fn next_place<T: Target>(target: &T, desks: &Vec<Desk>) -> Option<usize>
    ensures some { IfSome result (λ c. (i : Id) × IsFirstLeast Id is_before (next_id (T.rules target.now) (queues_of desks.now.items)) c i) }
    ensures none { IfNone result (NoKey (next_id (T.rules target.now) (queues_of desks.now.items))) }
{
    let mut best = None;
    for place in 0..desks.len() {
        best = earlier(best, place, servable_id(target, &desks[place], place));
    }
    let (place, _) = best?;
    Some(place)
}
