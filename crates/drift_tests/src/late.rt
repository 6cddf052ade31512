//! A core alone that is told of an invalidation when it is due, and one that is told late.
ghost use Rattle.std.specs.Prelude.{◌<◌, ◌≤◌};
ghost use Rattle.slack_base.specs.declared.bounds.TheConstants.{GENERATED_MEMORY, TOP};

use crate::machines::{GENERATED_LINE, are_same_cores};
use slack_base::{Ask, AskList, Config, Id, OutOfMemory, Post, PostKind, RawConfig, Words};
use std::alloc::Global;
use std::process::Abort;
use std::test::Fail;
use timed_core::{Code, TimedCore};
use workload_gen::program;

/// The cycle in which the invalidation is due.
const DUE: u32 = 60;

/// By how many cycles it may come late.
const DELAYS: [u32; 3] = [1, 4, 9];

/// A core that ran alone, and the asks that it sent.
#[derive(Drop)]
struct Alone {
    core: TimedCore,
    asks: AskList,
}

/// Cores with four sets of one line.
fn small_caches<R: Abort>(rt: &R) -> Config
    ensures { (0 < result.cores) × (GENERATED_MEMORY ≤ result.memory) }
{
    let numbers = RawConfig {
        sets: 4,
        ways: 1,
        ..RawConfig::DEFAULT
    };
    Config::checked(numbers).expect(rt, "a configuration within its bounds")
}

/// A line that was asked for comes ten cycles later, to be held alone.
fn answer(core: &mut TimedCore, ask: &Ask, cycle: u64) -> Result<(), OutOfMemory>
    requires { cycle ≤ TOP }
{
    if let Ask::Read { id, line } | Ask::ReadOwn { id, line } = *ask {
        let words = Words {
            w0: line,
            w1: 0,
            w2: 0,
            w3: 0,
        };
        core.put(Post {
            to: 0,
            due: cycle + 10,
            id,
            line,
            kind: PostKind::Reply {
                exclusive: true,
                words,
            },
        })?;
    }
    Ok(())
}

/// A tick after which what was asked for is on its way.
fn go_on(one: &mut Alone, alloc: Global, code: &Code, cycle: u32) -> Result<(), OutOfMemory> {
    let mut sent = AskList::new(alloc);
    one.core.tick(code, u64::from(cycle), &mut sent)?;
    for ask in sent.as_slice() {
        answer(&mut one.core, ask, u64::from(cycle))?;
        one.asks.push(*ask)?;
    }
    Ok(())
}

/// A core that takes a post before its tick at a cycle, up to an end; and the touch of the post's set as it took it.
fn told_at(
    alloc: Global,
    config: &Config,
    code: &Code,
    post: &Post,
    told: u32,
    end: u32,
) -> Result<(Alone, u64), OutOfMemory>
    requires { 0 < config.now.cores }
{
    let mut one = Alone {
        core: TimedCore::new(alloc, 0, config, config.base)?,
        asks: AskList::new(alloc),
    };
    let mut touched = 0;
    for cycle in 0..end {
        if cycle == told {
            touched = one.core.touched(post);
            one.core.put(*post)?;
        }
        go_on(&mut one, alloc, code, cycle)?;
    }
    Ok((one, touched))
}

/// The invalidation of a line.
fn invalidate(line: u32) -> Post {
    Post {
        to: 0,
        due: u64::from(DUE),
        id: Id {
            cycle: 9,
            core: 1,
            number: 0,
        },
        line,
        kind: PostKind::Invalidate,
    }
}

/// Whether two cores are the same, with the same touch of a post's set, and sent the same asks.
fn are_alike(a: &Alone, b: &Alone, post: &Post) -> bool {
    a.asks.as_slice() == b.asks.as_slice()
        && are_same_cores(&a.core, &b.core)
        && a.core.touched(post) == b.core.touched(post)
}

/// Whether the core left the set alone from the due on, so that the late invalidation is to pass; and whether after the next
/// tick it is as if it had come in time.
fn passes(
    alloc: Global,
    config: &Config,
    code: &Code,
    post: &Post,
    delay: u32,
) -> Result<(bool, bool), OutOfMemory>
    requires cores { 0 < config.now.cores }
    requires delay { delay ≤ 100 }
{
    let late = DUE + delay;
    let (told_late, touched) = told_at(alloc, config, code, post, late, late + 1)?;
    let (in_time, _) = told_at(alloc, config, code, post, DUE, late + 1)?;
    Ok((touched <= post.due, are_alike(&told_late, &in_time, post)))
}

/// What was seen of invalidations that came late.
#[derive(Clone, Copy)]
struct Lates {
    /// Where the set was left alone, it made no difference.
    hold: bool,
    /// A set was left alone.
    left_alone: bool,
    /// It made a difference.
    differ: bool,
}

/// What is seen of a line, late by each of the delays.
fn over_delays(alloc: Global, config: &Config, code: &Code, line: u32) -> Result<Lates, OutOfMemory>
    requires { 0 < config.now.cores }
{
    let post = invalidate(line);
    let mut seen = Lates {
        hold: true,
        left_alone: false,
        differ: false,
    };
    for delay in DELAYS {
        let (free, same) = passes(alloc, config, code, &post, delay)?;
        seen.hold &= same || !free;
        seen.left_alone |= free;
        seen.differ |= !same;
    }
    Ok(seen)
}

/// What is seen of a line in a generated program.
fn seen_of(alloc: Global, config: &Config, seed: u32, line: u32) -> Result<Lates, OutOfMemory>
    requires { (0 < config.now.cores) × (GENERATED_MEMORY ≤ config.now.memory) }
{
    let image = program(alloc, seed, config)?;
    let code = Code::of(alloc, &image, config)?;
    over_delays(alloc, config, &code, line)
}

/// Over generated programs, and lines of each set: where the set was left alone it makes no difference. Elsewhere it may,
/// and does somewhere.
#[test]
fn late_and_in_time(rt: HostRuntime) -> Result<(), Fail> {
    let config = small_caches(&rt);
    let (mut left_alone, mut differ) = (false, false);
    for seed in 1..=12 {
        for line in GENERATED_LINE..GENERATED_LINE + 8 {
            let seen = seen_of(rt.alloc(), &config, seed, line)?;
            assert!(rt; seen.hold, "program {seed}, line {line}");
            left_alone |= seen.left_alone;
            differ |= seen.differ;
        }
    }
    assert!(rt; left_alone && differ);
    Ok(())
}
