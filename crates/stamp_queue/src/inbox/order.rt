//! The order of posts: by due, then by id.
ghost use Rattle.std.specs.Prelude.{◌≡◌, ◌≤◌, ◌∷◌, ◌++◌, length, take, drop};
ghost use Rattle.slack_base.specs.Inboxes.{is_later, with_post};

use slack_base::Post;

/// The place behind the posts that are no later, in a list in order.
pub(super) fn place_of(posts: &[Post], post: &Post) -> usize
    ensures within { result ≤ length posts.now }
    ensures place { with_post posts.now post.now ≡ take result posts.now ++ post.now ∷ drop result posts.now }
{
    let mut place = 0;
    while place < posts.len() && !is_later(&posts[place], post) {
        place += 1;
    }
    place
}

/// Whether the first post comes later than the second, by (due, id).
pub(super) fn is_later(q: &Post, p: &Post) -> bool
    ensures { result ≡ is_later q.now p.now }
{
    q.due > p.due || (q.due == p.due && q.id > p.id)
}
