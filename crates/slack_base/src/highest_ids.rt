//! The greatest id of some messages.
ghost use Rattle.std.specs.Prelude.{◌≡◌, Some, None};
ghost use Rattle.slack_base.specs.HighestIds.{later_of, clash_with};

use crate::stamps::Id;
use std::marker::Model;

/// The greatest id of the messages that were noted since the last reset, if there was any. A contract sees the id.
#[derive(Clone, Copy, Debug, PartialEq, Eq)]
pub struct HighestId {
    id: Option<Id>,
}

impl Model for HighestId {
    ghost use Rattle.std.specs.Prelude.{Option};
    ghost use Rattle.slack_base.specs.declared.stamps.Id.{Id};

    ghost Value = { Option Id };

    ghost view = { λ h. h.id };

    ghost inverse = { λ id. record { id = id } };
}

impl HighestId {
    /// No message was noted.
    pub fn none() -> HighestId
        ensures { result ≡ None }
    {
        HighestId { id: None }
    }

    /// The greatest id, if a message was noted.
    pub fn get(&self) -> Option<Id>
        ensures { result ≡ self.now }
    {
        self.id
    }

    /// Notes a message.
    pub fn note(&mut self, id: Id)
        ensures { self.new ≡ Some (later_of self.old id) }
    {
        self.id = Some(later_of(self.id, id));
    }

    /// The greatest id, where it is above this one.
    pub fn above(&self, id: Id) -> Option<Id>
        ensures { result ≡ clash_with self.now id }
    {
        self.id.filter(|high| id.precedes(high))
    }

    /// Forgets all messages.
    pub fn reset(&mut self)
        ensures { self.new ≡ None }
    {
        self.id = None;
    }
}

/// The greater of an id and the greatest of those before it.
fn later_of(highest: Option<Id>, id: Id) -> Id
    ensures { result ≡ later_of highest id }
{
    let Some(high) = highest else {
        return id;
    };
    if id.precedes(&high) { high } else { id }
}
