//! The edge between the simulator and the world: where bytes come from, where they go, and what holds a core.
#![tactic(auto)]

pub mod gates;
pub mod memory_sinks;
pub mod memory_sources;
pub mod std_streams;
pub mod stop_gates;
pub mod streams;
pub mod whole;

pub use gates::{Gate, NeverHold};
pub use memory_sinks::MemorySink;
pub use memory_sources::MemorySource;
pub use std_streams::{StdSink, StdSource};
pub use stop_gates::{Stop, StopGate, StopList};
pub use streams::{CallList, Failed, Sink, Source};
pub use whole::{ReadAllError, read_all, write_all};
