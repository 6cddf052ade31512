//! The posts that an ask causes.
ghost use Rattle.std.specs.Prelude.{◌≡◌, ◌++◌, count_by, OnOk};
ghost use Rattle.bus_model.specs.Serving.{is_retry};

use slack_base::{OutOfMemory, Post, PostKind, PostList};

fn is_retry(post: &Post) -> bool
    ensures { result ≡ is_retry post.now }
{
    matches!(post.kind, PostKind::Retry)
}

/// How many of the posts are retries. Mostly there is one post.
pub(crate) fn retries_in(posts: &[Post]) -> u64
    ensures { result ≡ count_by is_retry posts.now }
{
    if let [post] = posts {
        return is_retry(post) as u64;
    }
    posts.iter().filter(|post| is_retry(post)).count() as u64
}

/// Appends posts to a list.
pub(crate) fn send_all(posts: &[Post], out: &mut PostList) -> Result<(), OutOfMemory>
    ensures { OnOk result (out.new ≡ out.old ++ posts.now) }
{
    for post in posts {
        out.push(*post)?;
    }
    Ok(())
}
