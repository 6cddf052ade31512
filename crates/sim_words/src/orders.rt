//! What the command words ask for.

use crate::commands::Command;
use crate::values::{Format, Mode};
use slack_base::{Config, StepList};

/// What the command words ask for. What the command doesn't take has its default.
#[derive(Debug, PartialEq, Eq, Drop)]
pub struct Order {
    /// What is to be done.
    pub command: Command,
    /// The machine and its run.
    pub config: Config,
    /// How the cores keep up with one another.
    pub mode: Mode,
    /// The form of the report.
    pub format: Format,
    /// Whether the notes of the run follow the report.
    pub notes: bool,
    /// Whether the lines that are not coherent follow the report.
    pub check: bool,
    /// The seed of the generated program.
    pub seed: u32,
    /// The steps of the mode `script`.
    pub steps: StepList,
}
