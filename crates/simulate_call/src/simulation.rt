//! The top call.
ghost use Rattle.std.specs.Prelude.{◌≡◌, ◌+◌, ◌<◌, ◌≤◌, ◌^◌, ◌↔◌, ◌⊎◌, ℕ, List, [], Ok, Err, Some, None, length, IfOk, IfSome, IsErr, IsOkAnd};
ghost use Rattle.io_edge.specs.Counting.{Rose};
ghost use Rattle.slack_base.specs.declared.faults.WordFault.{WordFault};
ghost use Rattle.sim_words.specs.Reading.{words_of};
ghost use Rattle.simulate_call.specs.declared.answers.Answer.TheVariants as answers;
ghost use Rattle.simulate_call.specs.Answers.{HasOutput, IsWhole, answer_at, status_of};
ghost use Rattle.simulate_call.specs.Coherence.{IsExactRun, IsUnbroken};
ghost use Rattle.simulate_call.specs.Headline.{Delivers, IsSpeculation};
ghost use Rattle.simulate_call.specs.Inputs.{GivesTo, IsRefusal, RefusesAll, TookTooMany, most_bytes, refusal_of};
ghost use Rattle.simulate_call.specs.RunValues.{no_run, run_in, run_value};
ghost use Rattle.simulate_call.specs.Writing.{IsWritten, Wrote};

use crate::answers::{Answer, Finish};
use crate::inputs::read_input;
use crate::outputs::{Output, output_of};
use io_edge::{Gate, Sink, Source, write_all};
use sim_words::{Command, WordError, read_words};
use slack_base::Arg;
use std::alloc::Global;
use std::thread::Threads;

/// Carries out the command that the words give over the bytes of the source, and writes its text to the sink.
///
/// `run` runs an image and `gen` a generated program, in one of five modes; `asm` assembles a text, `list` lists an
/// image, and `pack` writes one as a packed file.
pub fn simulate<R: Threads + Sync, S: Source, W: Sink, G: Gate + Sync>(
    rt: &R,
    alloc: Global,
    words: &[Arg],
    source: &mut S,
    sink: &mut W,
    gate: &G,
) -> Finish
    // In speculative mode, whatever the order in which cores and manager step: the machine is that of cycle-by-cycle
    // simulation of the image to the checkpoint where that stops, and the text tells of it. Each interval has one note; one
    // that was rolled back has the drift, of the state at which the interval began, and what the monitors recorded of it.
    ensures headline { HasOutput result.answer → IsOkAnd (words_of words.now) (λ order. IsSpeculation order →
        Delivers (record { may = G.may_hold gate.now; must = G.must_hold gate.now }) order result.answer (run_in result) (S.left source.old) (S.left source.new) (W.written sink.old) (W.written sink.new)) }

    // In lockstep and speculative mode, and in pieces of at most the lookahead: no line of the machine at the end breaks, and
    // where the check is asked for, the text says so.
    ensures coherent { HasOutput result.answer → IsOkAnd (words_of words.now) (λ order. IsExactRun order → IsUnbroken order (run_in result)) }

    // Words with a fault are refused for it, and nothing else is refused so; then nothing is read or written.
    ensures bad_words { (fault : WordFault) → result.answer ≡ Answer.BadWords fault → words_of words.now ≡ Err fault }
    ensures refuses_words { (fault : WordFault) → words_of words.now ≡ Err fault → result.answer ≡ Answer.BadWords fault }
    ensures untouched { IsErr (words_of words.now) → (source.new ≡ source.old) × (sink.new ≡ sink.old) }

    // Reading: a failure of the source, more bytes than an input may have, and an input with a fault. `gen` reads nothing.
    ensures read_fault { result.answer ≡ Answer.ReadFault → Rose (S.faults source.old) (S.faults source.new) }
    ensures too_long { S.taken source.old < 2 ^ 63 → (result.answer ≡ Answer.TooLong (most_bytes + 1) ↔ TookTooMany (S.taken source.old) (S.taken source.new)) }
    ensures too_long_taken { (taken : ℕ) → result.answer ≡ Answer.TooLong taken → taken ≡ most_bytes + 1 }
    ensures no_more { S.taken source.old < 2 ^ 63 → S.taken source.new ≤ S.taken source.old + (most_bytes + 1) }
    ensures bad_input { IsRefusal result.answer → IsOkAnd (words_of words.now) (λ order. RefusesAll order (S.left source.old) (S.left source.new) result.answer) }
    ensures generated { IsOkAnd (words_of words.now) (λ order. order.command ≡ Command.Gen) → source.new ≡ source.old }

    // The text that was written, or a front of it, is what the command makes of all that the source told; and so are the
    // machine at the end, the notes and the counts of ticks that are handed back.
    ensures output { HasOutput result.answer → IsOkAnd (words_of words.now) (λ order.
        Wrote (record { may = G.may_hold gate.now; must = G.must_hold gate.now }) order result.answer (run_in result) (S.left source.old) (S.left source.new) (W.written sink.old) (W.written sink.new)) }
    ensures answer { HasOutput result.answer → (result.answer ≡ Answer.WriteFault) ⊎ (result.answer ≡ answer_at (run_in result).end) }
    ensures write_fault { result.answer ≡ Answer.WriteFault → Rose (W.faults sink.old) (W.faults sink.new) }
    ensures nothing_written { ¬ HasOutput result.answer → (sink.new ≡ sink.old) × (run_in result ≡ no_run) }

    // The status goes with the answer.
    ensures status { result.status ≡ status_of result.answer }

    // Where the source gives the whole input and the sink doesn't fail, the input alone decides, but for want of memory.
    ensures accepts { IfOk (words_of words.now) (λ order. (input : List ℕ)
        → GivesTo order.command (S.left source.old) (S.taken source.old) (S.faults source.old) (S.faults source.new) input
        → refusal_of order input ≡ None → ¬ Rose (W.faults sink.old) (W.faults sink.new)
        → IsWhole result.answer ⊎ (result.answer ≡ Answer.OutOfMemory)) }
    ensures refuses { IfOk (words_of words.now) (λ order. (input : List ℕ) (refusal : answers.the_data)
        → GivesTo order.command (S.left source.old) (S.taken source.old) (S.faults source.old) (S.faults source.new) input
        → refusal_of order input ≡ Some refusal → (result.answer ≡ refusal) ⊎ (result.answer ≡ Answer.OutOfMemory)) }
{
    let order = match read_words(alloc, words) {
        Ok(order) => order,
        Err(WordError::Fault(fault)) => return refused(alloc, Answer::BadWords(fault)),
        Err(WordError::OutOfMemory) => return refused(alloc, Answer::OutOfMemory),
    };
    let input = match read_input(alloc, order.command, source) {
        Ok(input) => input,
        Err(answer) => return refused(alloc, answer),
    };
    match output_of(rt, alloc, gate, &order, input.as_slice()) {
        Ok(output) => write_output(alloc, output, sink),
        Err(answer) => refused(alloc, answer),
    }
}

/// No text was written.
fn refused(alloc: Global, answer: Answer) -> Finish
    ensures answer { result.answer ≡ answer }
    ensures status { result.status ≡ status_of answer }
    ensures run { run_in result ≡ no_run }
{
    Finish::of(alloc, answer, None)
}

/// Writes the text of a command, which was made whole before.
fn write_output<W: Sink>(alloc: Global, output: Output, sink: &mut W) -> Finish
    requires { IsWhole output.answer }
    ensures written { IsWritten result.answer (W.written sink.old) (W.written sink.new) output.text }
    ensures answer { (result.answer ≡ Answer.WriteFault) ⊎ (result.answer ≡ output.answer) }
    ensures run { run_in result ≡ run_value output.run }
    ensures write_fault { result.answer ≡ Answer.WriteFault → Rose (W.faults sink.old) (W.faults sink.new) }
    ensures status { result.status ≡ status_of result.answer }
{
    let answer = match write_all(sink, output.text.as_slice()) {
        Ok(()) => output.answer,
        Err(_) => Answer::WriteFault,
    };
    Finish::of(alloc, answer, output.run)
}
