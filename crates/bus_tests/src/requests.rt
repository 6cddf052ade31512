//! What a core asks, as rows write it, and the posts that come of that.
ghost use Rattle.std.specs.Prelude.{◌≡◌};
ghost use Rattle.slack_base.specs.Messages.{id_of};

use slack_base::{Ask, Id, Post, PostKind, Words};
use status_map::{EntryKind, EntryView};

/// The core, the cycle and the number of an id.
pub(crate) type Short = (u32, u64, u64);

/// A post: the core that it goes to, its due, and what it says.
pub(crate) type Sent = (u32, u64, PostKind);

/// An entry: who holds the line, from which cycle it is settled, and the words that memory has.
pub(crate) type View = (EntryKind, u64, Words);

/// What a core asks of a line, with the line's words where it sends them, or the byte that it puts on the console.
#[derive(Clone, Copy)]
pub(crate) enum Request {
    Read(u32),
    ReadOwn(u32),
    WriteBack(u32, Words),
    Flush(u32, Option<Words>),
    Put(u8),
}

/// A line of zeros.
pub(crate) const ZEROS: Words = Words {
    w0: 0,
    w1: 0,
    w2: 0,
    w3: 0,
};

pub(crate) fn id_at(short: &Short) -> Id {
    let (core, cycle, number) = *short;
    Id {
        cycle,
        core,
        number,
    }
}

pub(crate) fn ask_of(id: Id, request: &Request) -> Ask
    ensures { id_of result ≡ id }
{
    match *request {
        Request::Read(line) => Ask::Read { id, line },
        Request::ReadOwn(line) => Ask::ReadOwn { id, line },
        Request::WriteBack(line, words) => Ask::WriteBack { id, line, words },
        Request::Flush(line, words) => Ask::Flush { id, line, words },
        Request::Put(byte) => Ask::Put { id, byte },
    }
}

/// Whether the post of an ask goes to this core, with this due, and says this of the ask's line.
fn is_post(post: &Post, ask: &Ask, wanted: &Sent) -> bool {
    let of_ask = post.id == ask.id() && Some(post.line) == ask.line();
    of_ask && post.to == wanted.0 && post.due == wanted.1 && post.kind == wanted.2
}

/// Whether these are the posts of an ask, in their order.
pub(crate) fn are_posts(posts: &[Post], ask: &Ask, wanted: &[Sent]) -> bool {
    if posts.len() != wanted.len() {
        return false;
    }
    for (post, sent) in posts.iter().zip(wanted) {
        if !is_post(post, ask, sent) {
            return false;
        }
    }
    true
}

/// Whether an entry is this.
pub(crate) fn is_view(entry: &EntryView, wanted: &View) -> bool {
    entry.kind == wanted.0 && entry.settled == wanted.1 && entry.words == wanted.2
}
