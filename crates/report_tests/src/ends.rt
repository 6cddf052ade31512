//! How cores end, in the report and in JSON.
use crate::machines::image_of;
use lockstep_model::Machine;
use slack_base::{AskList, Config, OutOfMemory, RawConfig, Row};
use stat_report::{report_json, report_text};
use std::alloc::Global;
use std::test::Fail;
use timed_core::{Code, TimedCore};

/// Seven instructions that a core may come to at cycle 5 or 6, and eight ways there.
#[rattlefmt::skip]
const CODE: &[u8] = &[
    0xff, 0xff, 0xff, 0xff, // no instruction
    0x6f, 0xf0, 0xff, 0xff, // jal x0, -2: to 2
    0x73, 0, 0, 0, // ecall
    0x73, 0, 0x10, 0, // ebreak
    0x83, 0x22, 0x14, 0, // lw x5, 1(x8)
    0x83, 0x22, 4, 0, // lw x5, 0(x8)
    0x6f, 0, 0, 0, // jal x0, 0
    // From 28 on, five instructions to the word at 0.
    0x13, 0, 0, 0, // addi x0, x0, 0
    0x13, 0, 0, 0, // addi x0, x0, 0
    0x13, 0, 0, 0, // addi x0, x0, 0
    0x13, 0, 0, 0, // addi x0, x0, 0
    0x6f, 0xf0, 0x5f, 0xfd, // jal x0, -44: to 0
    // From 48 on, to 4096.
    0x13, 0, 0, 0, // addi x0, x0, 0
    0x13, 0, 0, 0, // addi x0, x0, 0
    0x13, 0, 0, 0, // addi x0, x0, 0
    0x13, 0, 0, 0, // addi x0, x0, 0
    0x6f, 0, 0x10, 0x7c, // jal x0, 4032: to 4096
    // From 68 on, to the jump at 4.
    0x13, 0, 0, 0, // addi x0, x0, 0
    0x13, 0, 0, 0, // addi x0, x0, 0
    0x13, 0, 0, 0, // addi x0, x0, 0
    0x13, 0, 0, 0, // addi x0, x0, 0
    0x6f, 0xf0, 0x1f, 0xfb, // jal x0, -80: to 4
    // From 88 on, to the load at 16, with 4096 in x8.
    0x37, 0x14, 0, 0, // lui x8, 1
    0x13, 0, 0, 0, // addi x0, x0, 0
    0x13, 0, 0, 0, // addi x0, x0, 0
    0x13, 0, 0, 0, // addi x0, x0, 0
    0x6f, 0xf0, 0x9f, 0xfa, // jal x0, -88: to 16
    // From 108 on, to the load at 20, with 1048576 in x8.
    0x37, 4, 0x10, 0, // lui x8, 256
    0x13, 0, 0, 0, // addi x0, x0, 0
    0x13, 0, 0, 0, // addi x0, x0, 0
    0x13, 0, 0, 0, // addi x0, x0, 0
    0x6f, 0xf0, 0x9f, 0xf9, // jal x0, -104: to 20
    // From 128 on, to the `ebreak` at 12.
    0x13, 0, 0, 0, // addi x0, x0, 0
    0x13, 0, 0, 0, // addi x0, x0, 0
    0x13, 0, 0, 0, // addi x0, x0, 0
    0x13, 0, 0, 0, // addi x0, x0, 0
    0x6f, 0xf0, 0xdf, 0xf7, // jal x0, -132: to 12
    // From 148 on, to the `ecall` at 8, with 64 in x17.
    0x93, 8, 0, 4, // addi x17, x0, 64
    0x13, 0, 0, 0, // addi x0, x0, 0
    0x13, 0, 0, 0, // addi x0, x0, 0
    0x13, 0, 0, 0, // addi x0, x0, 0
    0x6f, 0xf0, 0x5f, 0xf6, // jal x0, -156: to 8
    // From 168 on, six instructions to the `ecall` at 8, with 93 in x17 and all bits of x10 set.
    0x93, 8, 0xd0, 5, // addi x17, x0, 93
    0x13, 5, 0xf0, 0xff, // addi x10, x0, -1
    0x13, 0, 0, 0, // addi x0, x0, 0
    0x13, 0, 0, 0, // addi x0, x0, 0
    0x13, 0, 0, 0, // addi x0, x0, 0
    0x6f, 0xf0, 0xdf, 0xf4, // jal x0, -180: to 8
];

/// Nine cores, each with a page of memory, and one core alone, to which address 4096 lies outside memory.
const NINE_CORES: RawConfig = RawConfig {
    cores: 9,
    memory: 36864,
    ..RawConfig::DEFAULT
};

const ONE_CORE: RawConfig = RawConfig {
    memory: 4096,
    ..RawConfig::DEFAULT
};

/// A core, the address at which it begins, and the machine that it is of.
type Beginning = (u32, u32, RawConfig);

/// A pc outside memory, no instruction, a jump into the midst of one, a loop, an address that isn't aligned, one outside
/// memory, a break, an unknown call, and an exit with 4294967295.
const BEGINNINGS: [Beginning; 9] = [
    (0, 48, ONE_CORE),
    (1, 28, NINE_CORES),
    (2, 68, NINE_CORES),
    (3, 24, NINE_CORES),
    (4, 88, NINE_CORES),
    (5, 108, NINE_CORES),
    (6, 128, NINE_CORES),
    (7, 148, NINE_CORES),
    (8, 168, NINE_CORES),
];

/// The report at clock 9.
#[rattlefmt::skip]
const TEXT: &[u8] = b"\
    cores 9\ncycles 9\n\
    core 0 trap fetch 00001000 at 5 retired 5 accesses 0 misses 0 retries 0 waits 0 snoops 0 writebacks 0\n\
    core 1 trap illegal ffffffff at 5 retired 5 accesses 0 misses 0 retries 0 waits 0 snoops 0 writebacks 0\n\
    core 2 trap target 00000002 at 5 retired 5 accesses 0 misses 0 retries 0 waits 0 snoops 0 writebacks 0\n\
    core 3 running at 9 retired 9 accesses 0 misses 0 retries 0 waits 0 snoops 0 writebacks 0\n\
    core 4 trap misaligned 00001001 at 5 retired 5 accesses 0 misses 0 retries 0 waits 0 snoops 0 writebacks 0\n\
    core 5 trap outside 00100000 at 5 retired 5 accesses 0 misses 0 retries 0 waits 0 snoops 0 writebacks 0\n\
    core 6 trap break 0000000c at 5 retired 5 accesses 0 misses 0 retries 0 waits 0 snoops 0 writebacks 0\n\
    core 7 trap call 00000040 at 5 retired 5 accesses 0 misses 0 retries 0 waits 0 snoops 0 writebacks 0\n\
    core 8 exit 4294967295 at 6 retired 7 accesses 0 misses 0 retries 0 waits 0 snoops 0 writebacks 0\n\
    console 0\n\n";

#[rattlefmt::skip]
const OBJECT: &[u8] = b"\
    {\"buses\":[],\"console\":\"\",\"cores\":[\
    {\"accesses\":0,\"at\":5,\"end\":\"fetch\",\"misses\":0,\"retired\":5,\"retries\":0,\"snoops\":0,\"value\":4096,\"waits\":0,\"writebacks\":0},\
    {\"accesses\":0,\"at\":5,\"end\":\"illegal\",\"misses\":0,\"retired\":5,\"retries\":0,\"snoops\":0,\"value\":4294967295,\"waits\":0,\"writebacks\":0},\
    {\"accesses\":0,\"at\":5,\"end\":\"target\",\"misses\":0,\"retired\":5,\"retries\":0,\"snoops\":0,\"value\":2,\"waits\":0,\"writebacks\":0},\
    {\"accesses\":0,\"at\":9,\"end\":\"running\",\"misses\":0,\"retired\":9,\"retries\":0,\"snoops\":0,\"value\":0,\"waits\":0,\"writebacks\":0},\
    {\"accesses\":0,\"at\":5,\"end\":\"misaligned\",\"misses\":0,\"retired\":5,\"retries\":0,\"snoops\":0,\"value\":4097,\"waits\":0,\"writebacks\":0},\
    {\"accesses\":0,\"at\":5,\"end\":\"outside\",\"misses\":0,\"retired\":5,\"retries\":0,\"snoops\":0,\"value\":1048576,\"waits\":0,\"writebacks\":0},\
    {\"accesses\":0,\"at\":5,\"end\":\"break\",\"misses\":0,\"retired\":5,\"retries\":0,\"snoops\":0,\"value\":12,\"waits\":0,\"writebacks\":0},\
    {\"accesses\":0,\"at\":5,\"end\":\"call\",\"misses\":0,\"retired\":5,\"retries\":0,\"snoops\":0,\"value\":64,\"waits\":0,\"writebacks\":0},\
    {\"accesses\":0,\"at\":6,\"end\":\"exit\",\"misses\":0,\"retired\":7,\"retries\":0,\"snoops\":0,\"value\":4294967295,\"waits\":0,\"writebacks\":0}\
    ],\"cycles\":9}\n";

/// Ticks a core in its first nine cycles.
fn ticks(core: &mut TimedCore, code: &Code, out: &mut AskList) -> Result<(), OutOfMemory> {
    for cycle in 0..9 {
        core.tick(code, cycle, out)?;
    }
    Ok(())
}

/// The core of a beginning after its first nine cycles, where its machine is one.
fn core_of(alloc: Global, beginning: &Beginning) -> Result<Option<TimedCore>, OutOfMemory> {
    let (number, entry, numbers) = *beginning;
    let Ok(config) = Config::checked(numbers) else {
        return Ok(None);
    };
    if number >= config.cores || config.base != 0 || CODE.len() > config.memory as usize {
        return Ok(None);
    }
    let image = image_of(alloc, CODE, config.memory)?;
    let code = Code::of(alloc, &image, &config)?;
    let mut core = TimedCore::new(alloc, number, &config, entry)?;
    ticks(&mut core, &code, &mut AskList::new(alloc))?;
    Ok(Some(core))
}

/// The cores of all beginnings, and no channel.
fn machine_of_all(alloc: Global) -> Result<Machine, OutOfMemory> {
    let mut cores = Row::new(alloc);
    for beginning in &BEGINNINGS {
        if let Some(core) = core_of(alloc, beginning)? {
            cores.push(core)?;
        }
    }
    Ok(Machine {
        clock: 9,
        cores,
        chans: Row::new(alloc),
    })
}

#[test]
fn each_end(rt: HostRuntime) -> Result<(), Fail> {
    let machine = machine_of_all(rt.alloc())?;
    assert_eq!(rt; report_text(rt.alloc(), &machine)?.as_slice(), TEXT);
    assert_eq!(rt; report_json(rt.alloc(), &machine)?.as_slice(), OBJECT);
    Ok(())
}
