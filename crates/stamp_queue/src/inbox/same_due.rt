//! Posts of one due, in order.
ghost use Rattle.std.specs.Prelude.{◌≡◌, ◌≢◌, [], ◌∷◌, IfOk, OnOk, OnErr, IsTrue, ◌↔◌};
ghost use Rattle.slack_base.specs.Inboxes.{with_post};

use super::order::place_of;
use slack_base::{OutOfMemory, Post};
use std::alloc::{AllocError, Global};
use std::marker::Model;

/// The posts of one due, in the order of their ids. A contract sees the list of them.
#[derive(Debug, Drop)]
pub(super) struct SameDue {
    posts: Vec<Post>,
}

impl Model for SameDue {
    ghost use Rattle.std.specs.Prelude.{List};
    ghost use Rattle.slack_base.specs.declared.messages.Post.{Post};

    ghost Value = { List Post };

    ghost view = { λ s. s.posts.items };
}

impl Clone for SameDue {
    ghost is_clone = { λ old new. new ≡ old };

    fn clone(&self) -> Result<SameDue, AllocError> {
        Ok(SameDue {
            posts: self.posts.clone()?,
        })
    }
}

impl SameDue {
    /// One post alone.
    pub fn of(alloc: Global, post: Post) -> Result<SameDue, OutOfMemory>
        ensures { IfOk result (λ posts. posts ≡ post ∷ []) }
    {
        let mut posts = Vec::new(alloc);
        posts.push(post)?;
        Ok(SameDue { posts })
    }

    /// Puts a post behind those that are no later.
    pub fn put(&mut self, post: Post) -> Result<(), OutOfMemory>
        ensures ok { OnOk result (self.new ≡ with_post self.old post) }
        ensures err { OnErr result (self.new ≡ self.old) }
    {
        let place = place_of(&self.posts, &post);
        self.posts.insert(place, post)?;
        Ok(())
    }

    /// Takes out the first post. It takes no memory.
    pub fn take_first(&mut self) -> Post
        requires { self.old ≢ [] }
        ensures { self.old ≡ result ∷ self.new }
    {
        self.posts.remove(0)
    }

    /// Whether no post is left.
    pub fn is_empty(&self) -> bool
        ensures { IsTrue result ↔ (self.now ≡ []) }
    {
        self.posts.is_empty()
    }
}
