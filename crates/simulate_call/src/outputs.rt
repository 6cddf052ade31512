//! What a command makes of its input.
ghost use Rattle.std.specs.Prelude.{◌≡◌, ◌<◌, ◌≤◌, ◌^◌, ◌⊎◌, Ok, Some, None, length, true, IfOk, IfErr};
ghost use Rattle.slack_base.specs.declared.bounds.TheConstants.{GENERATED_MEMORY, MOST_CORES};
ghost use Rattle.slack_base.specs.Images.{Fits};
ghost use Rattle.slack_base.specs.Numbers.{numbers_of};
ghost use Rattle.image_load.specs.Writing.{IsPackable};
ghost use Rattle.rv_asm.specs.Programs.{IsAssembly, program_of};
ghost use Rattle.sim_words.specs.OrderValues.{order_value};
ghost use Rattle.stat_report.specs.Listing.{IsListing};
ghost use Rattle.lockstep_model.specs.Views.{cores_of, machine_of};
ghost use Rattle.simulate_call.specs.Answers.{IsRefusedBy, IsWhole, answer_at, answer_of, all_zero_of, is_zero_exit, running_of};
ghost use Rattle.simulate_call.specs.Inputs.{image_told, image_refusal, text_refusal, refusal_by};
ghost use Rattle.target_law.specs.Ticks.{drift_ticks_of, replay_ticks_of};
ghost use Rattle.simulate_call.specs.RunValues.{RunValue, no_run, run_value, run_of};
ghost use Rattle.simulate_call.specs.Outputs.{IsOutputBy, IsRunOutput, IsGenOutput, IsAsmOutput, IsListOutput, IsPackOutput};

use crate::answers::Answer;
use crate::runs::run_by;
use crate::texts::{text_of_gen, text_of_run};
use image_load::{ImageError, flat_bytes, packed_bytes, read_image};
use image_run::Ran;
use io_edge::Gate;
use lockstep_model::Machine;
use rv_asm::{AsmError, assemble};
use sim_words::{Command, Order};
use slack_base::{ByteList, Config, CoreEnd, Image, OutOfMemory};
use stat_report::listing;
use std::alloc::Global;
use std::thread::Threads;
use timed_core::TimedCore;
use workload_gen::program;

/// The text that a command writes, the run that it made if it made one, and what is answered once the text is written.
#[derive(Drop)]
pub struct Output {
    pub text: ByteList,
    pub run: Option<Ran>,
    pub answer: Answer,
}

impl From<OutOfMemory> for Answer {
    ghost use Rattle.simulate_call.specs.declared.answers.Answer.TheVariants as answers;

    ghost from_gives = { λ _ a. a ≡ answers.OutOfMemory };

    fn from(_error: OutOfMemory) -> Answer {
        Answer::OutOfMemory
    }
}

/// What the command of an order makes of its input, or the answer for an input that has a fault.
pub fn output_of<R: Threads + Sync, G: Gate + Sync>(
    rt: &R,
    alloc: Global,
    gate: &G,
    order: &Order,
    input: &[u8],
) -> Result<Output, Answer>
    requires short { length input.now < 2 ^ 32 }
    requires room { order.now.command ≡ Command.Gen → GENERATED_MEMORY ≤ order.now.config.memory }
    ensures output { IfOk result (λ out. IsOutputBy order.now.command (record { may = G.may_hold gate.now; must = G.must_hold gate.now }) (order_value order.now) input.now (run_value out.run) out.text) }
    ensures answer { IfOk result (λ out. out.answer ≡ answer_at (run_value out.run).end) }
    ensures whole { IfOk result (λ out. IsWhole out.answer) }
    ensures accepted { IfOk result (λ _. refusal_by order.now.command (numbers_of order.now.config) input.now ≡ None) }
    ensures refused { IfErr result (IsRefusedBy (refusal_by order.now.command (numbers_of order.now.config) input.now)) }
{
    match order.command {
        Command::Run => run_output(rt, alloc, gate, order, input),
        Command::Gen => Ok(gen_output(rt, alloc, gate, order)?),
        Command::Asm => asm_output(alloc, order, input),
        Command::List => list_output(alloc, order, input),
        Command::Pack => pack_output(alloc, order, input),
    }
}

/// `run`: the image that the input gives is run.
fn run_output<R: Threads + Sync, G: Gate + Sync>(
    rt: &R,
    alloc: Global,
    gate: &G,
    order: &Order,
    input: &[u8],
) -> Result<Output, Answer>
    ensures output { IfOk result (λ out. IsRunOutput (record { may = G.may_hold gate.now; must = G.must_hold gate.now }) (order_value order.now) input.now (run_value out.run) out.text) }
    ensures answer { IfOk result (λ out. out.answer ≡ answer_at (run_value out.run).end) }
    ensures whole { IfOk result (λ out. IsWhole out.answer) }
    ensures accepted { IfOk result (λ _. image_refusal (image_told (numbers_of order.now.config) input.now) ≡ None) }
    ensures refused { IfErr result (IsRefusedBy (image_refusal (image_told (numbers_of order.now.config) input.now))) }
{
    let image = image_in(alloc, &order.config, input)?;
    let ran = run_by(rt, alloc, gate, order, &image)?;
    let text = text_of_run(alloc, order, &ran)?;
    Ok(ended(text, ran))
}

/// `gen`: the program of the seed is run.
fn gen_output<R: Threads + Sync, G: Gate + Sync>(
    rt: &R,
    alloc: Global,
    gate: &G,
    order: &Order,
) -> Result<Output, OutOfMemory>
    requires room { GENERATED_MEMORY ≤ order.now.config.memory }
    ensures output { IfOk result (λ out. IsGenOutput (record { may = G.may_hold gate.now; must = G.must_hold gate.now }) (order_value order.now) (run_value out.run) out.text) }
    ensures answer { IfOk result (λ out. out.answer ≡ answer_at (run_value out.run).end) }
    ensures whole { IfOk result (λ out. IsWhole out.answer) }
{
    let image = program(alloc, order.seed, &order.config)?;
    let ran = run_by(rt, alloc, gate, order, &image)?;
    let text = text_of_gen(alloc, order, &ran)?;
    Ok(ended(text, ran))
}

/// `asm`: the flat file of the program that the input says.
fn asm_output(alloc: Global, order: &Order, input: &[u8]) -> Result<Output, Answer>
    requires { length input.now < 2 ^ 32 }
    ensures output { IfOk result (λ out. IsAsmOutput (order_value order.now) input.now (run_value out.run) out.text) }
    ensures answer { IfOk result (λ out. out.answer ≡ answer_at (run_value out.run).end) }
    ensures whole { IfOk result (λ out. IsWhole out.answer) }
    ensures accepted { IfOk result (λ _. text_refusal (program_of input.now) ≡ None) }
    ensures refused { IfErr result (IsRefusedBy (text_refusal (program_of input.now))) }
{
    let image = assembly_in(alloc, order.config.base, input)?;
    let text = flat_bytes(alloc, &image)?;
    Ok(written(text))
}

/// `list`: the listing of the image that the input gives.
fn list_output(alloc: Global, order: &Order, input: &[u8]) -> Result<Output, Answer>
    ensures output { IfOk result (λ out. IsListOutput (order_value order.now) input.now (run_value out.run) out.text) }
    ensures answer { IfOk result (λ out. out.answer ≡ answer_at (run_value out.run).end) }
    ensures whole { IfOk result (λ out. IsWhole out.answer) }
    ensures accepted { IfOk result (λ _. image_refusal (image_told (numbers_of order.now.config) input.now) ≡ None) }
    ensures refused { IfErr result (IsRefusedBy (image_refusal (image_told (numbers_of order.now.config) input.now))) }
{
    let image = image_in(alloc, &order.config, input)?;
    let text = listing_of(alloc, &order.config, &image)?;
    Ok(written(text))
}

/// `pack`: the SLK2 file of the image that the input gives.
fn pack_output(alloc: Global, order: &Order, input: &[u8]) -> Result<Output, Answer>
    ensures output { IfOk result (λ out. IsPackOutput (order_value order.now) input.now (run_value out.run) out.text) }
    ensures answer { IfOk result (λ out. out.answer ≡ answer_at (run_value out.run).end) }
    ensures whole { IfOk result (λ out. IsWhole out.answer) }
    ensures accepted { IfOk result (λ _. image_refusal (image_told (numbers_of order.now.config) input.now) ≡ None) }
    ensures refused { IfErr result (IsRefusedBy (image_refusal (image_told (numbers_of order.now.config) input.now))) }
{
    let image = image_in(alloc, &order.config, input)?;
    let text = packed_bytes(alloc, &image)?;
    Ok(written(text))
}

/// The image of a file.
fn image_in(alloc: Global, config: &Config, input: &[u8]) -> Result<Image, Answer>
    ensures image { IfOk result (λ image. image_told (numbers_of config.now) input.now ≡ Ok image) }
    ensures fits { IfOk result (λ image. Fits config.now.base config.now.memory image) }
    ensures packable { IfOk result (λ image. IsPackable image) }
    ensures refused { IfErr result (IsRefusedBy (image_refusal (image_told (numbers_of config.now) input.now))) }
{
    match read_image(alloc, input, config) {
        Ok(image) => Ok(image),
        Err(ImageError::Fault(fault)) => Err(Answer::BadImage(fault)),
        Err(ImageError::OutOfMemory) => Err(Answer::OutOfMemory),
    }
}

/// The image of an assembler text.
fn assembly_in(alloc: Global, base: u32, input: &[u8]) -> Result<Image, Answer>
    requires { length input.now < 2 ^ 32 }
    ensures image { IfOk result (IsAssembly input.now base) }
    ensures refused { IfErr result (IsRefusedBy (text_refusal (program_of input.now))) }
{
    match assemble(alloc, input, base) {
        Ok(image) => Ok(image),
        Err(AsmError::Fault(fault)) => Err(Answer::BadText(fault)),
        Err(AsmError::OutOfMemory) => Err(Answer::OutOfMemory),
    }
}

/// The listing of an image that fits its memory.
fn listing_of(alloc: Global, config: &Config, image: &Image) -> Result<ByteList, OutOfMemory>
    requires { Fits config.now.base config.now.memory image.now }
    ensures { IfOk result (IsListing image.now) }
{
    listing(alloc, image)
}

/// A run came to its end.
fn ended(text: ByteList, ran: Ran) -> Output
    requires { length ran.machine.cores ≤ MOST_CORES }
    ensures text { result.text ≡ text }
    ensures run { result.run ≡ Some ran }
    ensures answer { result.answer ≡ answer_of (machine_of ran.machine) }
    ensures whole { IsWhole result.answer }
{
    let answer = final_answer(&ran.machine);
    Output {
        text,
        run: Some(ran),
        answer,
    }
}

/// A text that belongs to no run.
fn written(text: ByteList) -> Output
    ensures text { result.text ≡ text }
    ensures run { result.run ≡ None }
    ensures answer { result.answer ≡ Answer.Done true }
    ensures whole { IsWhole result.answer }
{
    Output {
        text,
        run: None,
        answer: Answer::Done { all_zero: true },
    }
}

/// What is answered of a machine whose whole text is written.
fn final_answer(machine: &Machine) -> Answer
    requires { length machine.now.cores ≤ MOST_CORES }
    ensures value { result ≡ answer_of (machine_of machine.now) }
    ensures whole { IsWhole result }
{
    let cores = machine.cores.as_slice();
    let running = running(cores);
    if running == 0 {
        Answer::Done {
            all_zero: all_zero(cores),
        }
    } else {
        Answer::Limit {
            cycle: machine.clock,
            running,
        }
    }
}

/// How many cores are running.
fn running(cores: &[TimedCore]) -> u32
    requires { length cores.now ≤ MOST_CORES }
    ensures { result ≡ running_of (cores_of cores.now) }
{
    cores.iter().filter(|core| core.is_running()).count() as u32
}

/// Whether all cores exited with 0.
fn all_zero(cores: &[TimedCore]) -> bool
    ensures { result ≡ all_zero_of (cores_of cores.now) }
{
    cores.iter().all(|core| is_zero_exit(core.end()))
}

fn is_zero_exit(ended: CoreEnd) -> bool
    ensures { result ≡ is_zero_exit ended }
{
    matches!(ended, CoreEnd::Exit { code: 0, .. })
}
