//! What is told of a command's work while it goes on: `Watch` decides which of it, and `ErrorGate` writes it to
//! standard error.
//!
//! Nothing rests on it, and no clause speaks of it. Neither stops the work: `ErrorGate` never does, and `Watch`
//! where the gate behind it does not.
#![tactic(auto)]

mod watching;
mod writing;

pub use watching::{Watch, Watched};
pub use writing::ErrorGate;
