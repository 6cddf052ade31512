//! Machines that run a small program, and whether two of them are the same.
ghost use Rattle.std.specs.Prelude.{◌≡◌, ◌≤◌, ◌<◌, ◌^◌, length, IfOk};
ghost use Rattle.slack_base.specs.declared.bounds.TheConstants.{TOP};
ghost use Rattle.slack_base.specs.Images.{Fits};
ghost use Rattle.slack_base.specs.Numbers.{numbers_of};
ghost use Rattle.target_law.specs.Proper.{IsProper};
ghost use Rattle.timed_core.specs.Code.{code_of};
ghost use Rattle.lockstep_model.specs.Rules.{owns_of, rules_of};
ghost use Rattle.lockstep_model.specs.Views.{machine_of};

use bus_model::Channel;
use image_load::{flat_bytes, read_image};
use lockstep_model::{Machine, RvTarget, start};
use rv_asm::assemble;
use slack_base::{Config, GENERATED_MEMORY, Image, OutOfMemory, RawConfig};
use std::alloc::Global;
use std::process::Abort;
use std::test::Fail;
use target_law::run_to;
use timed_core::TimedCore;
use workload_gen::program;

/// What a machine runs.
pub enum Program {
    /// A flat file.
    File(&'static [u8]),
    /// An assembler text.
    Text(&'static [u8]),
    /// The generated program of a seed.
    Seed(u32),
}

/// `lui x8, 1`, `sw x10, 0(x8)` and an exit with 0: each core stores its number in line 256.
pub const STORES: Program = Program::File(
    b"SLK1\0\0\0\0\0\0\0\0\x14\0\0\0\x37\x14\0\0\x23\x20\xa4\0\x93\x08\xd0\x05\x13\x05\0\0\x73\0\0\0",
);

/// `lui x8, 1`, `lw x5, 0(x8)` and an exit with 0: each core loads a word of line 256.
pub const LOADS: Program = Program::File(
    b"SLK1\0\0\0\0\0\0\0\0\x14\0\0\0\x37\x14\0\0\x83\x22\x04\0\x93\x08\xd0\x05\x13\x05\0\0\x73\0\0\0",
);

/// The first of the lines that the programs store to and load from.
const LINE: u32 = 256;

/// The first of the sixteen lines that generated programs use.
pub const GENERATED_LINE: u32 = 4096;

/// The default numbers with so many cores.
pub fn cores(cores: u32) -> RawConfig {
    RawConfig {
        cores,
        ..RawConfig::DEFAULT
    }
}

/// An image, and the target that was made of it.
#[derive(Drop)]
pub struct Setup {
    pub image: Image,
    pub target: RvTarget,
}

/// The image of a program.
fn image_of<R: Abort + AllocGlobal>(rt: &R, config: &Config, runs: &Program) -> Result<Image, Fail>
    ensures { IfOk result (Fits config.now.base config.now.memory) }
{
    match *runs {
        Program::File(file) => Ok(read_image(rt.alloc(), file, config)?),
        Program::Text(text) => image_of_text(rt, config, text),
        Program::Seed(seed) => {
            if config.memory < GENERATED_MEMORY {
                panic!(rt; "no memory for a generated program");
            }
            Ok(program(rt.alloc(), seed, config)?)
        }
    }
}

/// The image of an assembler text.
fn image_of_text<R: Abort + AllocGlobal>(
    rt: &R,
    config: &Config,
    text: &[u8],
) -> Result<Image, Fail>
    ensures { IfOk result (Fits config.now.base config.now.memory) }
{
    assert!(rt; text.len() < 1000);
    let assembled = assemble(rt.alloc(), text, 0).expect(rt, "a text without a fault");
    let file = flat_bytes(rt.alloc(), &assembled)?;
    Ok(read_image(rt.alloc(), file.as_slice(), config)?)
}

/// What a machine of these numbers is made of.
pub fn setup_of<R: Abort + AllocGlobal>(
    rt: &R,
    numbers: RawConfig,
    runs: &Program,
) -> Result<Setup, Fail>
    ensures fits { IfOk result (λ setup. Fits setup.target.config.base setup.target.config.memory setup.image) }
    ensures code { IfOk result (λ setup. setup.target.code ≡ code_of setup.image (numbers_of setup.target.config)) }
{
    let config = Config::checked(numbers).expect(rt, "a configuration within its bounds");
    let image = image_of(rt, &config, runs)?;
    let target = RvTarget::make(rt.alloc(), config, &image)?;
    Ok(Setup { image, target })
}

/// The machine before the first cycle.
pub fn begun(alloc: Global, setup: &Setup) -> Result<Machine, OutOfMemory>
    requires fits { Fits setup.now.target.config.base setup.now.target.config.memory setup.now.image }
    requires code { setup.now.target.code ≡ code_of setup.now.image (numbers_of setup.now.target.config) }
    ensures proper { let t = setup.now.target in IfOk result (λ m. IsProper (rules_of (numbers_of t.config) t.code) (owns_of (numbers_of t.config)) (machine_of m)) }
    ensures clock { IfOk result (λ m. m.clock ≡ 0) }
{
    start(alloc, &setup.target, &setup.image)
}

/// The machine in lockstep at a clock.
pub fn lockstep(alloc: Global, setup: &Setup, clock: u64) -> Result<Machine, OutOfMemory>
    requires fits { Fits setup.now.target.config.base setup.now.target.config.memory setup.now.image }
    requires code { setup.now.target.code ≡ code_of setup.now.image (numbers_of setup.now.target.config) }
    requires top { clock ≤ TOP }
    ensures proper { let t = setup.now.target in IfOk result (λ m. IsProper (rules_of (numbers_of t.config) t.code) (owns_of (numbers_of t.config)) (machine_of m)) }
    ensures clock { IfOk result (λ m. m.clock ≡ clock) }
{
    let mut machine = begun(alloc, setup)?;
    run_to(alloc, &setup.target, &mut machine, clock)?;
    Ok(machine)
}

/// Whether a machine is the one in lockstep at a clock.
pub fn is_lockstep(
    alloc: Global,
    setup: &Setup,
    clock: u64,
    machine: &Machine,
) -> Result<bool, OutOfMemory>
    requires fits { Fits setup.now.target.config.base setup.now.target.config.memory setup.now.image }
    requires code { setup.now.target.code ≡ code_of setup.now.image (numbers_of setup.now.target.config) }
    requires top { clock ≤ TOP }
{
    let other = lockstep(alloc, setup, clock)?;
    Ok(are_same(machine, &other))
}

/// Whether two machines are the same: their clocks, cores and channels.
pub fn are_same(a: &Machine, b: &Machine) -> bool {
    a.clock == b.clock
        && are_all_same_cores(a.cores.as_slice(), b.cores.as_slice())
        && are_all_same_channels(a.chans.as_slice(), b.chans.as_slice())
}

/// Whether the cores of two machines are the same.
fn are_all_same_cores(a: &[TimedCore], b: &[TimedCore]) -> bool {
    a.len() == b.len()
        && a.iter()
            .zip(b)
            .all(|(one, other)| are_same_cores(one, other))
}

/// Whether the channels of two machines are the same.
fn are_all_same_channels(a: &[Channel], b: &[Channel]) -> bool {
    a.len() == b.len()
        && a.iter()
            .zip(b)
            .all(|(one, other)| are_same_channels(one, other))
}

/// Whether two cores are the same in all that is read of them.
pub fn are_same_cores(a: &TimedCore, b: &TimedCore) -> bool {
    a.number() == b.number()
        && a.pc() == b.pc()
        && a.reservation() == b.reservation()
        && a.end() == b.end()
        && a.counts() == b.counts()
        && (LINE..LINE + 3).all(|line| a.held(line) == b.held(line))
        && (GENERATED_LINE..GENERATED_LINE + 16).all(|line| a.held(line) == b.held(line))
        && (0..32).all(|n| a.reg(n) == b.reg(n))
}

/// Whether two channels are the same in all that is read of them.
pub fn are_same_channels(a: &Channel, b: &Channel) -> bool {
    a.free() == b.free()
        && a.asks() == b.asks()
        && a.retries() == b.retries()
        && (LINE..LINE + 3).all(|line| a.find_entry(line) == b.find_entry(line))
        && (GENERATED_LINE..GENERATED_LINE + 16).all(|line| a.find_entry(line)
            == b.find_entry(line))
        && a.console_bytes() == b.console_bytes()
}
