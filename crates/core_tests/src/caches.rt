//! A cache alone, and cases that say what is done with it and what comes of it.
ghost use Rattle.std.specs.Prelude.{◌≡◌, length};
ghost use Rattle.mesi_cache.specs.Caches.{HasShape};

use crate::cores::{Shape, config_of};
use mesi_cache::{Cache, Found, Held, HeldLine, Victim};
use slack_base::Words;
use std::alloc::Global;
use std::process::Abort;

/// A call of a cache. Where no word is named, it is the last of the line.
#[derive(Clone, Copy)]
pub enum Call {
    /// A line comes that other caches may hold too.
    FillShared(u32),
    /// A line comes that no other cache holds.
    FillAlone(u32),
    Read(u32),
    /// A line and a word of it.
    ReadWord(u32, u32),
    /// A line and the value.
    Write(u32, u32),
    /// A line, a word of it, and the value.
    WriteWord(u32, u32, u32),
    /// Another core reads the line.
    Share(u32),
    /// Another core takes the line.
    GiveUp(u32),
}

/// The lines of a set and their states, the most recently used first.
pub type Lines = &'static [(u32, Held)];

/// What is done with a cache, and what comes of it.
#[derive(Clone, Copy)]
pub enum Step {
    /// A call, its answer, and the lines of the first set then.
    Gives(Call, Option<u32>, Lines),
    /// A call, and its answer.
    Answers(Call, Option<u32>),
    /// Lines from one on, up to another, come, to be held alone, and none falls out.
    Fills(u32, u32),
    /// A line comes, Exclusive or Shared, and what falls out.
    Drops(u32, bool, Option<Victim>),
    /// Another core takes the line, and its words.
    Takes(u32, Option<Words>),
    /// The number of a set and its lines.
    Has(u32, Lines),
    /// The line is the most recent of its set.
    IsFirst(u32),
    /// A line and its state.
    Looks(u32, Option<Held>),
    /// A line, its state and its words.
    Peeks(u32, Option<HeldLine>),
    /// A line, and where it is found.
    Finds(u32, Option<Found>),
    /// A line, and its last word, which is read where the line was found.
    FindsWord(u32, Option<u32>),
    /// A line that is found and used, and the place where it was.
    Uses(u32, Option<u32>),
    /// A line that is found and written, the value, and the word that was there.
    Exchanges(u32, u32, Option<u32>),
    /// How many sets there are.
    HasSets(u32),
    /// A line, and the number of its set.
    IsInSet(u32, u32),
    /// A set is copied, calls are made, and the set is put back.
    PutsBack(u32, &'static [Call]),
}

/// An empty cache, and what is done with it.
pub struct Case {
    pub name: &'static str,
    pub shape: Shape,
    pub steps: &'static [Step],
}

/// The words of a line as it comes from memory: its number is the last.
fn words_of(line: u32) -> Words {
    Words {
        w0: 1,
        w1: 2,
        w2: 3,
        w3: line,
    }
}

/// Reads a word of a line, if the cache holds it.
fn read_held(cache: &mut Cache, line: u32, word: u32) -> Option<u32>
    ensures { HasShape (length cache.old.sets) cache.old.ways cache.new }
{
    cache.lookup(line)?;
    if word >= 4 {
        return None;
    }
    Some(cache.read(line, word))
}

/// Writes a word of a line, if this cache alone holds it, and answers it.
fn write_held(cache: &mut Cache, line: u32, word: u32, value: u32) -> Option<u32>
    ensures { HasShape (length cache.old.sets) cache.old.ways cache.new }
{
    let held = cache.lookup(line)?;
    if !held.may_write() || word >= 4 {
        return None;
    }
    cache.write(line, word, value);
    Some(value)
}

/// A line comes: the number of the line that fell out.
fn fill(cache: &mut Cache, line: u32, alone: bool) -> Option<u32>
    ensures { HasShape (length cache.old.sets) cache.old.ways cache.new }
{
    let victim = cache.fill(line, alone, words_of(line))?;
    Some(victim.line)
}

/// Another core takes a line or reads it: its last word.
fn snoop(cache: &mut Cache, line: u32, own: bool) -> Option<u32>
    ensures { HasShape (length cache.old.sets) cache.old.ways cache.new }
{
    let words = cache.snoop(line, own)?;
    Some(words.w3)
}

/// Makes a call. The answer is the number of the line that fell out, the word that was read or written, or the last word of
/// the line that was snooped, or none.
pub fn answer(cache: &mut Cache, call: Call) -> Option<u32>
    ensures { HasShape (length cache.old.sets) cache.old.ways cache.new }
{
    match call {
        Call::FillShared(line) => fill(cache, line, false),
        Call::FillAlone(line) => fill(cache, line, true),
        Call::Read(line) => read_held(cache, line, 3),
        Call::ReadWord(line, word) => read_held(cache, line, word),
        Call::Write(line, value) => write_held(cache, line, 3, value),
        Call::WriteWord(line, word, value) => write_held(cache, line, word, value),
        Call::Share(line) => snoop(cache, line, false),
        Call::GiveUp(line) => snoop(cache, line, true),
    }
}

/// Makes calls.
fn answer_all(cache: &mut Cache, calls: &[Call])
    ensures { HasShape (length cache.old.sets) cache.old.ways cache.new }
{
    for call in calls {
        answer(cache, *call);
    }
}

/// Fills the cache with lines from one on, up to another, and says whether none fell out.
fn fill_all(cache: &mut Cache, from: u32, until: u32) -> bool {
    for line in from..until {
        if answer(cache, Call::FillAlone(line)).is_some() {
            return false;
        }
    }
    true
}

/// Copies a set, makes calls, and puts the set back.
fn put_back(cache: &mut Cache, set: u32, calls: &[Call]) -> bool {
    if set >= cache.sets() {
        return false;
    }
    let copy = cache.set_copy(set);
    answer_all(cache, calls);
    cache.put_set(set, &copy);
    true
}

/// The last word of a line, which stays where it is.
fn last_word(cache: &Cache, line: u32) -> Option<u32> {
    let found = cache.find(line)?;
    Some(cache.word(found, 3))
}

/// Uses a line, and answers the place where it was.
fn use_line(cache: &mut Cache, line: u32) -> Option<u32> {
    let found = cache.find(line)?;
    cache.use_found(found);
    Some(found.place)
}

/// Puts a value in place of the last word of a line that may be written, and answers the word that was there.
fn exchange(cache: &mut Cache, line: u32, value: u32) -> Option<u32> {
    let found = cache.find(line)?;
    if !found.held.may_write() {
        return None;
    }
    let old = cache.word(found, 3);
    cache.write_found(found, 3, value);
    Some(old)
}

/// Whether a set holds a line.
fn is_in(cache: &Cache, set: u32, line: u32) -> bool {
    let Some(found) = cache.find(line) else {
        return false;
    };
    found.set == set
}

/// How many of the lines that the cases bring, the first 576 and the last 64, a set holds.
fn count_in(cache: &Cache, set: u32) -> usize {
    (0u32..640)
        .filter(|n| is_in(cache, set, n.wrapping_sub(64)))
        .count()
}

/// Whether a line stands in a set at a place in a state.
fn stands(cache: &Cache, set: u32, place: usize, line: u32, held: Held) -> bool {
    let Some(found) = cache.find(line) else {
        return false;
    };
    found.set == set && found.place as usize == place && found.held == held
}

/// Whether a line is the most recent of its set.
fn is_first(cache: &Cache, line: u32) -> bool {
    let Some(found) = cache.find(line) else {
        return false;
    };
    found.place == 0
}

/// Whether a set holds these lines in these states, the most recently used first, and no other.
fn has(cache: &Cache, set: u32, lines: &[(u32, Held)]) -> bool {
    for (place, (line, held)) in lines.iter().enumerate() {
        if !stands(cache, set, place, *line, *held) {
            return false;
        }
    }
    count_in(cache, set) == lines.len()
}

/// Takes a step, and says whether what was to come of it did.
pub fn take(cache: &mut Cache, step: &Step) -> bool {
    match *step {
        Step::Gives(call, wanted, lines) => answer(cache, call) == wanted && has(cache, 0, lines),
        Step::Answers(call, wanted) => answer(cache, call) == wanted,
        Step::Fills(from, until) => fill_all(cache, from, until),
        Step::Drops(line, alone, victim) => cache.fill(line, alone, words_of(line)) == victim,
        Step::Takes(line, words) => cache.snoop(line, true) == words,
        Step::Has(set, lines) => has(cache, set, lines),
        Step::IsFirst(line) => is_first(cache, line),
        Step::Looks(line, held) => cache.lookup(line) == held,
        Step::Peeks(line, held) => cache.peek(line) == held,
        Step::Finds(line, found) => cache.find(line) == found,
        Step::FindsWord(line, word) => last_word(cache, line) == word,
        Step::Uses(line, place) => use_line(cache, line) == place,
        Step::Exchanges(line, value, word) => exchange(cache, line, value) == word,
        Step::HasSets(sets) => cache.sets() == sets,
        Step::IsInSet(line, set) => cache.set_of(line) == set,
        Step::PutsBack(set, calls) => put_back(cache, set, calls),
    }
}

/// The place of the first step of which something else came: none where there is none.
pub fn first_wrong(cache: &mut Cache, steps: &[Step]) -> Option<usize> {
    for (place, step) in steps.iter().enumerate() {
        if !take(cache, step) {
            return Some(place);
        }
    }
    None
}

/// The empty cache.
pub fn cache_of(rt: &impl Abort, alloc: Global, shape: Shape) -> Cache {
    let config = config_of(rt, shape);
    Cache::new(alloc, config.sets, config.ways).expect(rt, "memory for a cache")
}

/// Goes through cases.
pub fn check(rt: &impl Abort, alloc: Global, cases: &[Case]) {
    for case in cases {
        let mut cache = cache_of(rt, alloc, case.shape);
        assert_eq!(rt; first_wrong(&mut cache, case.steps), None, "{}", case.name);
    }
}
