//! The posts that one ask causes.
ghost use Rattle.std.specs.Prelude.{◌≡◌, ◌<◌, ◌≤◌, [], ◌∷◌, ◌++◌, length};
ghost use Rattle.slack_base.specs.declared.bounds.TheConstants.{MOST_CORES};

use slack_base::{Id, MOST_CORES, Post, PostKind};
use std::marker::Model;

/// The most posts that a batch has room for: one to each core.
const ROOM: usize = MOST_CORES as usize;

/// What stands in a place that holds no post.
const NO_POST: Post = Post {
    to: 0,
    due: 0,
    id: Id {
        cycle: 0,
        core: 0,
        number: 0,
    },
    line: 0,
    kind: PostKind::Retry,
};

/// At most `MOST_CORES` posts, in the order in which they were sent. It takes no memory. A contract sees the list of
/// them.
#[derive(Debug, Drop)]
pub struct PostBatch {
    posts: [Post; ROOM],
    len: usize,
}

impl Model for PostBatch {
    ghost use Rattle.std.specs.Prelude.{List, take, length, ◌≤◌, ◌≡◌};
    ghost use Rattle.slack_base.specs.declared.bounds.TheConstants.{MOST_CORES};
    ghost use Rattle.slack_base.specs.declared.messages.Post.{Post};

    ghost Value = { List Post };

    ghost view = { λ b. take b.len b.posts };

    ghost invariant = { λ b. (b.len ≤ MOST_CORES) × (length b.posts ≡ MOST_CORES) };
}

impl PostBatch {
    /// The empty batch.
    pub fn new() -> PostBatch
        ensures { result ≡ [] }
    {
        PostBatch {
            posts: [NO_POST; ROOM],
            len: 0,
        }
    }

    /// The posts in their order: at most one to each core that a machine may have.
    pub fn posts(&self) -> &[Post]
        ensures posts { result.now ≡ self.now }
        ensures few { length result.now ≤ MOST_CORES }
    {
        &self.posts[..self.len]
    }

    /// Takes all posts out.
    pub fn clear(&mut self)
        ensures { self.new ≡ [] }
    {
        self.len = 0;
    }

    /// Puts a post at the end.
    pub(crate) fn push(&mut self, post: Post)
        requires { length self.old < MOST_CORES }
        ensures { self.new ≡ self.old ++ post ∷ [] }
    {
        let posts = &mut self.posts;
        posts[self.len] = post;
        self.len += 1;
    }
}
