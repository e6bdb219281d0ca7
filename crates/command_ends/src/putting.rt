//! Writing what is due.
ghost use Rattle.std.specs.Prelude.{◌≡◌, ℕ, List, ◌≤◌, IfOk};
ghost use Rattle.command_ends.specs.Ends.{IsRefusalLine, Puts, PutsFault, PutsLine, PutsOwn, refusal_text};
ghost use Rattle.command_ends.specs.InputFaults.{PutsInputFault};

use crate::codes::{number_of, number_of_own};
use crate::input_faults::{InputFault, OwnCode};
use crate::status::Status;
use byte_streams::{Sink, put_all};
use lift_text::{TextFault, put_line, put_words};
use std::alloc::{AllocError, Global};

/// A text that answers the input, and the status with which it is written.
#[derive(Drop)]
pub struct Answer {
    pub status: Status,
    pub text: Vec<u8>,
}

/// Writes the text and answers the status, or `Write` where the sink fails.
pub fn put<K: Sink>(sink: &mut K, text: &[u8], status: Status) -> Status
    ensures put { Puts text.now status result (K.taken sink.old) (K.taken sink.new) (K.faults sink.old)
        (K.faults sink.new) }
    ensures counted { K.faults sink.old ≤ K.faults sink.new }
{
    match put_all(sink, text) {
        Ok(()) => status,
        Err(_) => Status::Write,
    }
}

/// Writes that the input is longer than any that is read.
pub fn put_too_long<K: Sink>(sink: &mut K) -> Status
    ensures put { (text : List ℕ) × IsRefusalLine TextFault.TooLong text
        × Puts text Status.Input result (K.taken sink.old) (K.taken sink.new) (K.faults sink.old)
        (K.faults sink.new) }
    ensures counted { K.faults sink.old ≤ K.faults sink.new }
{
    put(sink, b"refused long\n", Status::Input)
}

/// What is written where a line of the input is refused with this code.
fn refusal_line(alloc: Global, line: u64, code: u8) -> Result<Vec<u8>, AllocError>
    ensures { IfOk result (λ text. text.items ≡ refusal_text line code) }
{
    let mut text = Vec::new(alloc);
    put_words(&mut text, b"refused line", &[line])?;
    put_line(&mut text, b" code", &[u64::from(code)])?;
    Ok(text)
}

/// Writes that a line of the input is refused with this code.
fn put_refusal<K: Sink>(alloc: Global, line: u64, code: u8, sink: &mut K) -> Status
    ensures { PutsLine (λ text. text ≡ refusal_text line code) result (K.taken sink.old)
        (K.taken sink.new) (K.faults sink.old) (K.faults sink.new) }
{
    match refusal_line(alloc, line, code) {
        Ok(text) => put(sink, text.as_slice(), Status::Input),
        Err(_) => Status::Memory,
    }
}

/// Writes what one command alone refuses at a line of the input. When out of memory, nothing is written.
pub fn put_own_fault<K: Sink>(alloc: Global, line: u64, code: OwnCode, sink: &mut K) -> Status
    ensures { PutsOwn line code result (K.taken sink.old) (K.taken sink.new) (K.faults sink.old)
        (K.faults sink.new) }
{
    put_refusal(alloc, line, number_of_own(code), sink)
}

/// Writes what is wrong with a text. After a failed read, and when out of memory, nothing is written.
pub fn put_fault<K: Sink>(alloc: Global, fault: TextFault, sink: &mut K) -> Status
    ensures { PutsFault fault result (K.taken sink.old) (K.taken sink.new) (K.faults sink.old)
        (K.faults sink.new) }
{
    match fault {
        TextFault::Bad { line, code } => put_refusal(alloc, line, number_of(code), sink),
        TextFault::TooLong => put_too_long(sink),
        TextFault::Read => Status::Read,
        TextFault::NoMemory => Status::Memory,
    }
}

/// Writes what is wrong with an input. After a failed read, and when out of memory, nothing is written.
pub(crate) fn put_input_fault<K: Sink>(alloc: Global, fault: InputFault, sink: &mut K) -> Status
    ensures { PutsInputFault fault result (K.taken sink.old) (K.taken sink.new) (K.faults sink.old)
        (K.faults sink.new) }
{
    match fault {
        InputFault::Text(fault) => put_fault(alloc, fault, sink),
        InputFault::Own { line, code } => put_own_fault(alloc, line, code, sink),
    }
}
