//! Where bytes come from and where they go: sources, sinks, and the gate that jobs pass, which is told how
//! far the work has come.
//!
//! `Source` and `Sink` are traits with what is left or taken, where that is told, and a count of faults that
//! never falls; `Gate` is one too. There are sources and sinks in memory (that can fail, or cannot) and over
//! std's reader and writer.
//!
//! # What is promised
//!
//! - `read_full` and `put_all`: what was read and written, and that a fault comes from the source or the sink
//!   alone.
//! - `read_whole` gives the next bytes of a source, in whatever pieces it gives them: all that it has left, or
//!   as many as may be read. What is given and what is left then are together what was left before, and fewer
//!   than may be read come only at the end of the source. A failed read and running out of memory alone keep
//!   it from that.
#![tactic(auto)]

mod adapters;
mod gates;
mod inputs;
mod memory;
mod sinks;
mod sources;

pub use adapters::{StdSink, StdSource};
pub use gates::{Gate, OpenGate, Progress, SearchState};
pub use inputs::{InputFault, read_whole};
pub use memory::{MemorySink, MemorySource, SureSink, SureSource};
pub use sinks::{Sink, SinkFault, put_all};
pub use sources::{Source, SourceFault, read_full};
