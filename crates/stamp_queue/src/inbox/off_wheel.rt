//! The posts of an inbox whose dues are off the wheel, in a map from due to posts.
ghost use Rattle.std.specs.Prelude.{◌≡◌, [], ◌∷◌, MatchBool, MatchOption, IfOk, OnOk, OnErr};
ghost use Rattle.std.specs.Ordering.{nat_cmp};
ghost use Rattle.std.specs.Map.{remove_entry};
ghost use Rattle.std.specs.BTreeMap.{is_at};
ghost use Rattle.slack_base.specs.Inboxes.{with_post};
ghost use Rattle.stamp_queue.specs.Inbox.{next_due};
ghost use Rattle.stamp_queue.specs.OffWheel.{NoneHasDue};

use super::same_due::SameDue;
use slack_base::{OutOfMemory, Post};
use std::alloc::Global;
use std::collections::BTreeMap;
use std::marker::Model;

/// The posts of each due. A contract sees the list of all of them, in order.
#[derive(Debug, Drop)]
pub(super) struct OffWheel {
    posts: BTreeMap<u64, SameDue>,
    alloc: Global,
}

impl Model for OffWheel {
    ghost use Rattle.std.specs.Prelude.{List};
    ghost use Rattle.slack_base.specs.declared.messages.Post.{Post};

    ghost Value = { List Post };

    ghost use Rattle.stamp_queue.specs.OffWheel.{all_posts, AreEntries};

    ghost view = { λ o. all_posts o.posts.entries };

    ghost invariant = { λ o. AreEntries o.posts.entries };
}

impl OffWheel {
    /// The map with no post. It takes no memory.
    pub fn new(alloc: Global) -> OffWheel
        ensures { result ≡ [] }
    {
        OffWheel {
            posts: BTreeMap::new(alloc),
            alloc,
        }
    }

    /// An equal map.
    pub fn copy(&self) -> Result<OffWheel, OutOfMemory>
        ensures { IfOk result (λ copy. copy ≡ self.now) }
    {
        Ok(OffWheel {
            posts: self.posts.clone()?,
            alloc: self.alloc,
        })
    }

    /// Whether a post has this due.
    pub fn has(&self, due: u64) -> bool
        ensures { MatchBool result (NoneHasDue self.now due → ⊥) (NoneHasDue self.now due) }
    {
        self.posts.contains_key(&due)
    }

    /// The due of the first post: the greatest `u64` where there is none.
    pub fn first(&self) -> u64
        ensures { result ≡ next_due self.now }
    {
        match self.posts.first_key_value() {
            Some((due, _)) => *due,
            None => u64::MAX,
        }
    }

    /// Puts a post into its place, behind those of the same due and id that are there.
    #[cold]
    #[inline(never)]
    pub fn put(&mut self, post: Post) -> Result<(), OutOfMemory>
        ensures ok { OnOk result (self.new ≡ with_post self.old post) }
        ensures err { OnErr result (self.new ≡ self.old) }
    {
        if let Some(posts) = self.posts.get_mut(&post.due) {
            posts.put(post)?;
            return Ok(());
        }
        let posts = SameDue::of(self.alloc, post)?;
        self.posts.insert(post.due, posts)?;
        Ok(())
    }

    /// Takes out the first post. It takes no memory.
    #[cold]
    #[inline(never)]
    pub fn take_first(&mut self) -> Option<Post>
        ensures { MatchOption result ((self.old ≡ []) × (self.new ≡ [])) (λ p. self.old ≡ p ∷ self.new) }
    {
        let (first, _) = self.posts.first_key_value()?;
        let due = *first;
        let posts = self.posts.get_mut(&due)?;
        let post = posts.take_first();
        if posts.is_empty() {
            remove_due(&mut self.posts, due);
        }
        Some(post)
    }
}

/// Takes the posts of a due out of a map.
fn remove_due(posts: &mut BTreeMap<u64, SameDue>, due: u64)
    ensures { posts.new.entries ≡ remove_entry (is_at (nat_cmp due)) posts.old.entries }
{
    posts.remove(&due);
}
