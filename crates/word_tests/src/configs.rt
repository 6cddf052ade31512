//! That the bounds of a configuration are those that the documents name, and that memory serves.
use slack_base::{Arg, Config, ConfigFault, OutOfMemory, RawConfig, Row};
use std::alloc::Global;
use std::test::Fail;

/// Numbers, and the first bound that they break.
const REFUSED: [(RawConfig, ConfigFault); 4] = [
    (
        RawConfig {
            cores: 17,
            sets: 3,
            ..RawConfig::DEFAULT
        },
        ConfigFault::Cores { given: 17 },
    ),
    (
        RawConfig {
            sets: 3,
            ..RawConfig::DEFAULT
        },
        ConfigFault::Sets { given: 3 },
    ),
    (
        RawConfig {
            base: 4294963200,
            ..RawConfig::DEFAULT
        },
        ConfigFault::Memory { given: 1048576 },
    ),
    (
        RawConfig {
            memory_delay: 2,
            ..RawConfig::DEFAULT
        },
        ConfigFault::MemoryDelay { given: 2 },
    ),
];

/// The quantum and the lookahead of the defaults.
fn defaults() -> Option<(u32, u64)> {
    let config = Config::checked(RawConfig::DEFAULT).ok()?;
    Some((config.quantum, config.lookahead()))
}

#[test]
fn bounds_of_configurations(rt: HostRuntime) {
    assert_eq!(rt; defaults(), Some((2, 2)));
    for (raw, fault) in &REFUSED {
        assert!(rt; Config::checked(*raw).err() == Some(*fault), "{fault:?}");
    }
}

/// Whether a list keeps what is pushed.
fn keeps(alloc: Global) -> Result<bool, OutOfMemory> {
    let mut row = Row::new(alloc);
    row.push(7)?;
    row.push(9)?;
    Ok(row.as_slice() == [7, 9].as_slice())
}

#[test]
fn lists_and_words(rt: HostRuntime) -> Result<(), Fail> {
    assert!(rt; keeps(rt.alloc())?);
    let word = Arg::of(rt.alloc(), "run")?;
    assert!(rt; word.bytes() == b"run".as_slice());
    Ok(())
}
