//! Single cycles of a machine.
use crate::samples::STORE;
use image_load::read_image;
use lockstep_model::{RvTarget, start};
use slack_base::{Config, RawConfig};
use stat_report::report_text;
use std::test::Fail;
use target_law::{cycle, run_to};

/// After cycle 1: both cores have asked, and the second one is to be sent away.
const BOTH_HAVE_ASKED: &[u8] =
    b"cores 2\ncycles 2\ncore 0 running at 2 retired 1 accesses 0 misses 1 retries 0 waits 0 snoops 0 writebacks 0\ncore 1 running at 2 retired 1 accesses 0 misses 1 retries 0 waits 0 snoops 0 writebacks 0\nbus 0 asks 2 retries 1 free 5\nconsole 0\n\n";

/// After cycle 11: core 0 has stored, and core 1 has asked for the fifth time.
const THE_FIRST_HAS_STORED: &[u8] =
    b"cores 2\ncycles 12\ncore 0 running at 12 retired 2 accesses 1 misses 1 retries 0 waits 9 snoops 0 writebacks 0\ncore 1 running at 12 retired 1 accesses 0 misses 5 retries 4 waits 6 snoops 0 writebacks 0\nbus 0 asks 6 retries 5 free 13\nconsole 0\n\n";

const TWO_CORES: RawConfig = RawConfig {
    cores: 2,
    ..RawConfig::DEFAULT
};

#[test]
fn cycles_of_two_cores(rt: HostRuntime) -> Result<(), Fail> {
    let alloc = rt.alloc();
    let config = Config::checked(TWO_CORES).expect(&rt, "a configuration within its bounds");
    let image = read_image(alloc, STORE, &config).expect(&rt, "an image");
    let target = RvTarget::make(alloc, config, &image)?;
    let mut machine = start(alloc, &target, &image)?;
    run_to(alloc, &target, &mut machine, 1)?;
    cycle(alloc, &target, &mut machine)?;
    assert_eq!(rt; report_text(alloc, &machine)?.as_slice(), BOTH_HAVE_ASKED);
    assert!(rt; machine.clock == 2);
    run_to(alloc, &target, &mut machine, 11)?;
    cycle(alloc, &target, &mut machine)?;
    assert_eq!(rt;
        report_text(alloc, &machine)?.as_slice(),
        THE_FIRST_HAS_STORED
    );
    Ok(())
}
