//! Tests of drifts of the RISC-V machine: each is gone through once more by plain code, and where nothing was seen, its end
//! is that of lockstep.
#![tactic(auto)]

#[cfg(test)]
mod drifts;
#[cfg(test)]
mod late;
#[cfg(test)]
mod machines;
#[cfg(test)]
mod marks;
#[cfg(test)]
mod quiet;
#[cfg(test)]
mod replays;
#[cfg(test)]
mod serial;
#[cfg(test)]
mod threads;
