//! What a run answers.
ghost use Rattle.std.specs.Prelude.{◌≡◌};
ghost use Rattle.simulate_call.specs.Answers.{status_of};

use image_run::Ran;
use lockstep_model::Machine;
use slack_base::{AsmFault, ImageFault, NoteList, WordFault};
use std::alloc::Global;

/// How a call ended.
#[derive(Clone, Copy, Debug, PartialEq, Eq)]
pub enum Answer {
    /// The command words have a fault.
    BadWords(WordFault),
    /// The source failed.
    ReadFault,
    /// There are more bytes than an input may have: so many were taken.
    TooLong { taken: u64 },
    /// The image has a fault.
    BadImage(ImageFault),
    /// The assembler text has a fault.
    BadText(AsmFault),
    /// The sink failed.
    WriteFault,
    /// The limit was reached with so many cores running.
    Limit { cycle: u64, running: u32 },
    /// All cores have ended, all of them by an exit with 0 or not.
    Done { all_zero: bool },
    /// The host had no memory.
    OutOfMemory,
}

impl Answer {
    /// The exit status of the program.
    pub fn status(&self) -> u8
        ensures { result ≡ status_of self.now }
    {
        match self {
            Answer::Done { all_zero: true } => 0,
            Answer::Done { all_zero: false } => 1,
            Answer::BadWords(_) => 2,
            Answer::TooLong { .. } | Answer::BadImage(_) | Answer::BadText(_) => 3,
            Answer::Limit { .. } => 4,
            Answer::ReadFault => 5,
            Answer::WriteFault => 6,
            Answer::OutOfMemory => 7,
        }
    }
}

/// All that a call hands back.
#[derive(Drop)]
pub struct Finish {
    pub status: u8,
    pub answer: Answer,
    /// The machine at the end of the run, if there was one.
    pub end: Option<Machine>,
    pub notes: NoteList,
    pub drift_ticks: u64,
    pub replay_ticks: u64,
}

impl Finish {
    ghost use Rattle.std.specs.Prelude.{◌≡◌};
    ghost use Rattle.simulate_call.specs.Answers.{status_of};
    ghost use Rattle.simulate_call.specs.RunValues.{run_in, run_value};

    /// What a call hands back that answered so, with its run if there was one.
    pub fn of(alloc: Global, answer: Answer, run: Option<Ran>) -> Finish
        ensures answer { result.answer ≡ answer }
        ensures status { result.status ≡ status_of answer }
        ensures run { run_in result ≡ run_value run }
    {
        let status = answer.status();
        match run {
            Some(ran) => Finish {
                status,
                answer,
                end: Some(ran.machine),
                notes: ran.notes,
                drift_ticks: ran.drift_ticks,
                replay_ticks: ran.replay_ticks,
            },
            None => Finish {
                status,
                answer,
                end: None,
                notes: NoteList::new(alloc),
                drift_ticks: 0,
                replay_ticks: 0,
            },
        }
    }
}
