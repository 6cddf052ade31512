//! A core alone, with posts made by hand, and cases that say what is done to it and what is so then. Memory is of 8192
//! bytes from 4096 on, so line 256 is at 8192. The words are of the RISC-V Unprivileged ISA (20191213), assembled by hand.
ghost use Rattle.std.specs.Prelude.{◌≡◌, IfOk};
ghost use Rattle.slack_base.specs.Images.{Fits};

use mesi_cache::{Held, HeldLine};
use slack_base::{
    Ask, AskList, ByteList, Config, CoreEnd, Counts, Id, Image, Post, PostKind, RawConfig, Segment,
    SegmentList, Words,
};
use std::alloc::Global;
use std::process::Abort;
use timed_core::{Code, TimedCore};

/// lui x8, 2
pub const LUI_X8: u32 = 0x0000_2437;
/// lw x5, 4(x8)
pub const LW_X5: u32 = 0x0044_2283;
/// lw x5, 16(x8)
pub const LW_NEXT_LINE: u32 = 0x0104_2283;
/// sw x8, 0(x8)
pub const SW_X8: u32 = 0x0084_2023;
/// sw x8, 4(x8)
pub const SW_SECOND: u32 = 0x0084_2223;
/// lr.w x5, (x8)
pub const LR_X5: u32 = 0x1004_22af;
/// sc.w x6, x8, (x8)
pub const SC_X6: u32 = 0x1884_232f;
/// amoadd.w x5, x8, (x8)
pub const AMOADD_X5: u32 = 0x0084_22af;
/// fence
pub const FENCE: u32 = 0x0ff0_000f;

/// The words of a line as a reply brings them.
pub const WORDS: Words = Words {
    w0: 11,
    w1: 22,
    w2: 33,
    w3: 44,
};

/// A reply that makes the line Exclusive.
pub const REPLY: PostKind = PostKind::Reply {
    exclusive: true,
    words: WORDS,
};

/// A reply that makes the line Shared.
pub const SHARED_REPLY: PostKind = PostKind::Reply {
    exclusive: false,
    words: WORDS,
};

/// The line as a shared reply brings it.
pub const SHARED: Option<HeldLine> = Some(HeldLine {
    held: Held::Shared,
    words: WORDS,
});

/// The line as an exclusive reply brings it.
pub const EXCLUSIVE: Option<HeldLine> = Some(HeldLine {
    held: Held::Exclusive,
    words: WORDS,
});

/// How many sets of how many lines a cache has.
pub type Shape = (u32, u32);

/// One set of one line.
pub const ONE_LINE: Shape = (1, 1);

/// Four sets of one line.
pub const FOUR_SETS: Shape = (4, 1);

/// A post to core 0: the cycle in which it is due, its line, and what it says.
pub type Coming = (u64, u32, PostKind);

/// One of the counts of a core.
#[derive(Clone, Copy)]
pub enum Count {
    Retired,
    Accesses,
    Misses,
    Retries,
    Waits,
    Snoops,
    WriteBacks,
}

/// What is to be so of a core, and of the asks that it sent so far.
#[derive(Clone, Copy)]
pub enum Fact {
    Number(u32),
    Pc(u32),
    /// A register, below 32, and its word.
    Register(u32, u32),
    Reserved(Option<u32>),
    /// A line, and what the cache holds of it.
    Holds(u32, Option<HeldLine>),
    /// A line, and its state in the cache.
    State(u32, Option<Held>),
    /// Whether the core is running.
    Runs(bool),
    /// The core is running, or how it ended.
    Ended(CoreEnd),
    /// All that is counted.
    AllCounts(Counts),
    /// One of the counts.
    Counted(Count, u64),
    /// All asks.
    Asked(&'static [Ask]),
    /// The last ask.
    AskedLast(Option<Ask>),
    /// How many asks there are.
    Asks(usize),
    /// A line, and the cycle from which on the core touched its set no more.
    Touched(u32, u64),
    /// A cycle, and for how many from it on the core is quiet.
    Quiet(u64, u64),
}

/// What is done to a core.
#[derive(Clone, Copy)]
pub enum Step {
    /// A post comes into the inbox.
    Put(Coming),
    /// The ticks of the cycles from one on, up to another.
    Ticks(u32, u32),
    Mark,
    Undo,
    Keep,
    /// The core is marked, goes on from a cycle up to another, and has then noted so many sets.
    Notes(u32, u32, u64),
    /// Nothing: all of this is so.
    See(&'static [Fact]),
}

/// A core, and what is done to it from before cycle 0 on.
pub struct Case {
    pub name: &'static str,
    pub shape: Shape,
    pub words: &'static [u32],
    pub posts: &'static [Coming],
    pub steps: &'static [Step],
}

/// The configuration with such caches.
pub fn config_of(rt: &impl Abort, shape: Shape) -> Config
    ensures { (result.cores ≡ 2) × (result.base ≡ 4096) × (result.memory ≡ 8192) }
{
    let (sets, ways) = shape;
    let numbers = RawConfig {
        cores: 2,
        base: 4096,
        memory: 8192,
        sets,
        ways,
        ..RawConfig::DEFAULT
    };
    Config::checked(numbers).expect(rt, "a configuration within its bounds")
}

/// The image of these words.
fn image_of(rt: &impl Abort, alloc: Global, words: &[u32]) -> Image
    ensures { Fits 4096 8192 result }
{
    let mut bytes = Vec::new(alloc);
    for word in words {
        bytes
            .extend_from_slice(&word.to_le_bytes())
            .expect(rt, "memory for a word");
    }
    assert!(rt; bytes.len() <= 4096);
    let mut segments = SegmentList::new(alloc);
    segments
        .push(Segment {
            address: 4096,
            bytes: ByteList::of(bytes),
            size: 4096,
        })
        .expect(rt, "memory for a segment");
    Image {
        entry: 4096,
        segments,
    }
}

/// The instruction memory of these words.
pub fn code_of(rt: &impl Abort, alloc: Global, words: &[u32]) -> Code {
    let image = image_of(rt, alloc, words);
    let config = config_of(rt, ONE_LINE);
    Code::of(alloc, &image, &config).expect(rt, "memory for instructions")
}

/// A post as a bus sends it for an ask of core 1.
fn post(coming: Coming) -> Post {
    let (due, line, kind) = coming;
    let id = Id {
        cycle: 0,
        core: 1,
        number: due,
    };
    Post {
        to: 0,
        due,
        id,
        line,
        kind,
    }
}

/// The core before cycle 0, with its posts.
pub fn core_of(rt: &impl Abort, alloc: Global, shape: Shape, posts: &[Coming]) -> TimedCore {
    let config = config_of(rt, shape);
    let mut core = TimedCore::new(alloc, 0, &config, 4096).expect(rt, "memory for a core");
    for coming in posts {
        core.put(post(*coming)).expect(rt, "memory for a post");
    }
    core
}

/// The ticks of the cycles from one on, up to another.
pub fn go_on(
    rt: &impl Abort,
    core: &mut TimedCore,
    code: &Code,
    asks: &mut AskList,
    from: u32,
    until: u32,
)
    ensures { core.new.saved ≡ core.old.saved }
{
    for cycle in from..until {
        core.tick(code, u64::from(cycle), asks)
            .expect(rt, "memory for a tick");
    }
}

/// Marks a core, and says how many sets it noted in the cycles from one on, up to another.
fn noted_in(
    rt: &impl Abort,
    core: &mut TimedCore,
    code: &Code,
    asks: &mut AskList,
    from: u32,
    until: u32,
) -> u64 {
    core.mark().expect(rt, "memory for a mark");
    go_on(rt, core, code, asks, from, until);
    core.noted()
}

/// The touch of the set of a line.
fn touch(core: &TimedCore, line: u32) -> u64 {
    core.touched(&post((0, line, PostKind::Retry)))
}

/// The state of a line in the cache.
fn state(core: &TimedCore, line: u32) -> Option<Held> {
    let held = core.held(line)?;
    Some(held.held)
}

/// The word of a register: none where it has no such number.
fn register(core: &TimedCore, n: u32) -> Option<u32> {
    if n >= 32 {
        return None;
    }
    Some(core.reg(n))
}

/// Whether the core runs, or has not ended, as it is to be.
fn runs(core: &TimedCore, runs: bool) -> bool {
    core.is_running() == runs && core.has_ended() != runs
}

/// One of the counts.
fn count_in(counts: &Counts, count: Count) -> u64 {
    match count {
        Count::Retired => counts.retired,
        Count::Accesses => counts.accesses,
        Count::Misses => counts.misses,
        Count::Retries => counts.retries,
        Count::Waits => counts.waits,
        Count::Snoops => counts.snoops,
        Count::WriteBacks => counts.writebacks,
    }
}

/// One of the counts of a core.
fn count_of(core: &TimedCore, count: Count) -> u64 {
    count_in(&core.counts(), count)
}

/// Whether the last ask is this one.
fn ends_with(asks: &[Ask], last: Option<Ask>) -> bool {
    asks.last().copied() == last
}

/// Whether a fact is one of a core.
fn is_so(core: &TimedCore, code: &Code, asks: &[Ask], fact: &Fact) -> bool {
    match *fact {
        Fact::Number(number) => core.number() == number,
        Fact::Pc(pc) => core.pc() == pc,
        Fact::Register(n, word) => register(core, n) == Some(word),
        Fact::Reserved(address) => core.reservation() == address,
        Fact::Holds(line, held) => core.held(line) == held,
        Fact::State(line, held) => state(core, line) == held,
        Fact::Runs(wanted) => runs(core, wanted),
        Fact::Ended(end) => core.end() == end,
        Fact::AllCounts(counts) => core.counts() == counts,
        Fact::Counted(count, number) => count_of(core, count) == number,
        Fact::Asked(all) => asks == all,
        Fact::AskedLast(last) => ends_with(asks, last),
        Fact::Asks(count) => asks.len() == count,
        Fact::Touched(line, cycle) => touch(core, line) == cycle,
        Fact::Quiet(from, count) => core.quiet(code, from) == count,
    }
}

/// Takes a step, and says whether what was to be so was.
fn take(
    rt: &impl Abort,
    core: &mut TimedCore,
    code: &Code,
    asks: &mut AskList,
    step: &Step,
) -> bool {
    match *step {
        Step::Put(coming) => core.put(post(coming)).is_ok(),
        Step::Ticks(from, until) => {
            go_on(rt, core, code, asks, from, until);
            true
        }
        Step::Mark => core.mark().is_ok(),
        Step::Undo => {
            core.undo();
            true
        }
        Step::Keep => {
            core.keep();
            true
        }
        Step::Notes(from, until, sets) => noted_in(rt, core, code, asks, from, until) == sets,
        Step::See(facts) => facts
            .iter()
            .all(|fact| is_so(core, code, asks.as_slice(), fact)),
    }
}

/// The place of the first step after which something isn't as it is to be: none where all is.
fn first_wrong(rt: &impl Abort, alloc: Global, case: &Case) -> Option<usize> {
    let code = code_of(rt, alloc, case.words);
    let mut core = core_of(rt, alloc, case.shape, case.posts);
    let mut asks = AskList::new(alloc);
    for (place, step) in case.steps.iter().enumerate() {
        if !take(rt, &mut core, &code, &mut asks, step) {
            return Some(place);
        }
    }
    None
}

/// Goes through cases.
pub fn check(rt: &impl Abort, alloc: Global, cases: &[Case]) {
    for case in cases {
        assert_eq!(rt; first_wrong(rt, alloc, case), None, "{}", case.name);
    }
}
