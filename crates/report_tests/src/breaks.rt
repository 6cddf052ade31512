//! Lines that break and lines that don't, worked by hand.
ghost use Rattle.std.specs.Prelude.{◌≡◌, ◌<◌};

use crate::machines::{TWO_CORES, image_of};
use coherence_law::{LineList, breaks, coherence_text};
use lockstep_model::{Machine, RvTarget, start};
use slack_base::{AskList, Config, Id, OutOfMemory, Post, PostKind, Row, Words};
use std::alloc::Global;
use std::test::Fail;
use timed_core::TimedCore;

const ZERO: Words = Words {
    w0: 0,
    w1: 0,
    w2: 0,
    w3: 0,
};

const FIRST_SET: Words = Words {
    w0: 1,
    w1: 0,
    w2: 0,
    w3: 0,
};

const LAST_SET: Words = Words {
    w0: 0,
    w1: 0,
    w2: 0,
    w3: 1,
};

/// A core, a line that it is given, whether it may write it, and the words.
type Given = (u32, u32, bool, Words);

/// Memory is all 0 here. Line 2 is shared by both cores, and line 7 is held by one alone: they are coherent. Line 3 is
/// held by both as if alone, line 4 by one as if alone beside a sharer. Lines 5 and 6 are not as in memory.
const GIVEN: [Given; 9] = [
    (0, 2, false, ZERO),
    (1, 2, false, ZERO),
    (0, 3, true, ZERO),
    (1, 3, true, ZERO),
    (0, 4, false, ZERO),
    (1, 4, true, ZERO),
    (1, 5, false, FIRST_SET),
    (0, 6, true, LAST_SET),
    (1, 7, true, ZERO),
];

/// The reply that gives a core its line.
fn reply(given: &Given) -> Post {
    let (to, line, exclusive, words) = *given;
    let id = Id {
        cycle: 0,
        core: to,
        number: 0,
    };
    Post {
        to,
        due: 0,
        id,
        line,
        kind: PostKind::Reply { exclusive, words },
    }
}

/// Hands a core the lines that it is given.
fn give(core: &mut TimedCore, number: u32) -> Result<(), OutOfMemory> {
    for given in &GIVEN {
        if given.0 == number {
            core.put(reply(given))?;
        }
    }
    Ok(())
}

/// A core of the machine with the lines that it is given.
fn core_of(alloc: Global, target: &RvTarget, number: u32) -> Result<TimedCore, OutOfMemory>
    requires { number < target.now.config.cores }
{
    let mut core = TimedCore::new(alloc, number, &target.config, 0)?;
    give(&mut core, number)?;
    core.tick(&target.code, 0, &mut AskList::new(alloc))?;
    Ok(core)
}

/// All cores of the machine.
fn cores_of(alloc: Global, target: &RvTarget) -> Result<Row<TimedCore>, OutOfMemory> {
    let mut cores = Row::new(alloc);
    for number in 0..target.config.cores {
        cores.push(core_of(alloc, target, number)?)?;
    }
    Ok(cores)
}

/// The lines that break where the cores of a machine of so little code were given lines by hand.
fn breaks_of_given(alloc: Global, config: Config) -> Result<LineList, OutOfMemory>
    requires { (config.base ≡ 0) × (config.memory ≡ 8192) }
{
    let image = image_of(alloc, &[0], 8192)?;
    let target = RvTarget::make(alloc, config, &image)?;
    let mut machine = start(alloc, &target, &image)?;
    machine.cores = cores_of(alloc, &target)?;
    breaks(alloc, &machine)
}

#[test]
fn lines_that_break(rt: HostRuntime) -> Result<(), Fail> {
    let alloc = rt.alloc();
    let config = Config::checked(TWO_CORES).expect(&rt, "two cores");
    let lines = breaks_of_given(alloc, config)?;
    assert_eq!(rt; lines.as_slice(), [3, 4, 5, 6].as_slice());
    assert_eq!(rt;
        coherence_text(alloc, &lines)?.as_slice(),
        b"coherence 4\nbroken line 3\nbroken line 4\nbroken line 5\nbroken line 6\n".as_slice()
    );
    assert_eq!(rt;
        coherence_text(alloc, &LineList::new(alloc))?.as_slice(),
        b"coherence 0\n".as_slice()
    );
    Ok(())
}
