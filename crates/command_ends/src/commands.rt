//! Commands that read a whole text and answer it.
ghost use Rattle.std.specs.Prelude.{IfOk};
ghost use Rattle.command_ends.specs.Ends.{DueTexts, streams};
ghost use Rattle.command_ends.specs.Runs.{IsOfAnswer, Runs};

use crate::putting::{Answer, put, put_input_fault};
use crate::status::Status;
use crate::whole_texts::{WholeText, read_whole};
use byte_streams::{Sink, Source};
use std::alloc::{AllocError, Global};

/// A command that reads a whole text and answers it.
pub trait Command: WholeText {
    /// Which text is due with which status, where the input says this value.
    ghost told: { Self → Self.Value → DueTexts };

    /// The text that is due, and its status. It fails only where there is no memory left.
    fn answer(&self, alloc: Global, value: &Self::Value) -> Result<Answer, AllocError>
        requires { (Self.form self.now).right value.now }
        ensures told { IfOk result (λ answer.
            told self.now value.now answer.status answer.text.items) }
        ensures status { IfOk result (λ answer. IsOfAnswer answer.status) };
}

/// Reads the input to its end, and writes the answer of the command to it, or what is wrong with it.
pub fn run_command<S: Source, K: Sink, C: Command>(
    alloc: Global,
    command: &C,
    source: &mut S,
    sink: &mut K,
) -> Status
    ensures { Runs (C.form command.now) (C.told command.now)
        (streams (S.left source.old) (K.taken sink.old) (S.faults source.old) (K.faults sink.old))
        (streams (S.left source.new) (K.taken sink.new) (S.faults source.new)
        (K.faults sink.new)) result }
{
    match read_whole(alloc, command, source) {
        Ok(value) => match command.answer(alloc, &value) {
            Ok(answer) => put(sink, answer.text.as_slice(), answer.status),
            Err(_) => Status::Memory,
        },
        Err(fault) => put_input_fault(alloc, fault, sink),
    }
}
