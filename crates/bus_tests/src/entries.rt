//! Asks for one line, with the posts that come of them and the entry that they leave.
use crate::requests::{Request, Sent, View, are_posts, ask_of, is_view};
use crate::stages::STAGES;
use slack_base::{Id, Words};
use status_map::{Delays, Entry, EntryView, PostBatch};

const DELAYS: Delays = Delays {
    snoop: 2,
    memory: 10,
    transfer: 3,
};

/// The core that asks, what it asks, when that is granted its bus, and the posts that come of it.
pub(crate) type Asked = (u32, Request, u32, &'static [Sent]);

/// The entry of a line that had these words, after some asks: what it is then, and what each of some further
/// asks makes of it. Where no entry stands beside an ask, it is as before.
pub(crate) struct Stage {
    pub(crate) name: &'static str,
    pub(crate) words: Words,
    pub(crate) asked: &'static [Asked],
    pub(crate) view: View,
    pub(crate) rows: &'static [(Asked, Option<View>)],
}

/// Serves an ask, and says whether the posts came that are written beside it.
fn sends(entry: &mut Entry, asked: &Asked) -> bool {
    let (core, request, grant, wanted) = *asked;
    let id = Id {
        cycle: 77,
        core: core % 16,
        number: 3,
    };
    let ask = ask_of(id, &request);
    let mut out = PostBatch::new();
    entry.serve(&ask, u64::from(grant), &DELAYS, &mut out);
    are_posts(out.posts(), &ask, wanted)
}

/// Serves asks one after another, and says whether each time the posts came that are written beside them.
fn all_send(entry: &mut Entry, rows: &[Asked]) -> bool {
    for asked in rows {
        if !sends(entry, asked) {
            return false;
        }
    }
    true
}

/// Whether an ask that finds this entry leaves that one.
fn leaves(entry: &Entry, asked: &Asked, wanted: &View) -> bool {
    let mut served = *entry;
    sends(&mut served, asked) && is_view(&served.view(), wanted)
}

/// The place of the first ask that doesn't make of this entry what is written beside it.
fn first_wrong(entry: &Entry, stage: &Stage) -> Option<usize> {
    for (place, (asked, wanted)) in stage.rows.iter().enumerate() {
        if !leaves(entry, asked, &wanted.unwrap_or(stage.view)) {
            return Some(place);
        }
    }
    None
}

/// The entry of a stage, and whether it is as is written, with the asks that lead to it.
fn entry_at(stage: &Stage) -> (Entry, bool) {
    let mut entry = Entry::idle(stage.words);
    let sent = all_send(&mut entry, stage.asked);
    (entry, sent && is_view(&entry.view(), &stage.view))
}

#[test]
fn asks_for_a_line(rt: HostRuntime) {
    for stage in &STAGES {
        let name = stage.name;
        let (entry, holds) = entry_at(stage);
        assert!(rt; holds, "{name}");
        assert_eq!(rt; first_wrong(&entry, stage), None, "{name}");
    }
}
