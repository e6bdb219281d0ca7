//! Byte sources.
ghost use Rattle.std.specs.Prelude.{◌≡◌, ℕ, ◌<◌, ◌≤◌, List, Option, length, take, IfOk, OnErr};
ghost use Rattle.std.specs.Io.KnownBytes.{prepend_known, IsAtEnd};
ghost use Rattle.byte_streams.specs.Streams.{Rose};

use std::error::Error;
use std::fmt;

/// A read failed.
#[derive(Clone, Copy, Debug, PartialEq, Eq)]
pub struct SourceFault;

impl fmt::Display for SourceFault {
    fn fmt<W: fmt::Write>(&self, f: &mut fmt::Formatter<W>) -> fmt::Result {
        write!(f, "the input could not be read")
    }
}

impl Error for SourceFault {}

/// What bytes are read from. `left` are the bytes that reads will still give, where the source tells
/// them, and `faults` counts the reads that failed. The count never falls.
pub trait Source {
    ghost left: { Self → Option (List ℕ) };

    ghost faults: { Self → ℕ };

    /// Reads the next bytes into the front of `into` and answers how many there were. 0 for an
    /// `into` that has room is the end of the input. An `Err` takes nothing, and comes only where the
    /// count of faults rose.
    fn read(&mut self, into: &mut [u8]) -> Result<usize, SourceFault>
        ensures bound { IfOk result (λ count. count ≤ length into.new) }
        ensures given { IfOk result
            (λ count. left self.old ≡ prepend_known (take count into.new) (left self.new)) }
        ensures end { IfOk result (λ count. count ≡ 0 → 0 < length into.new
            → IsAtEnd (left self.new)) }
        ensures kept { OnErr result (left self.new ≡ left self.old) }
        ensures counted { faults self.old ≤ faults self.new }
        ensures fault { OnErr result (Rose (faults self.old) (faults self.new)) };
}

/// Reads until `into` is full or the input ends, and answers how many bytes there were: fewer than
/// `into` has room for only at the end of the input. An `Err` may have taken some of what was left.
pub fn read_full<S: Source>(source: &mut S, into: &mut [u8]) -> Result<usize, SourceFault>
    ensures bound { IfOk result (λ count. count ≤ length into.new) }
    ensures given { IfOk result (λ count.
        S.left source.old ≡ prepend_known (take count into.new) (S.left source.new)) }
    ensures end { IfOk result (λ count. count < length into.new → IsAtEnd (S.left source.new)) }
    ensures front_taken { (bytes : List ℕ) × (length bytes ≤ length into.new)
        × (S.left source.old ≡ prepend_known bytes (S.left source.new)) }
    ensures counted { S.faults source.old ≤ S.faults source.new }
    ensures fault { OnErr result (Rose (S.faults source.old) (S.faults source.new)) }
{
    let mut filled = 0;
    while filled < into.len() {
        let count = source.read(&mut into[filled..])?;
        if count == 0 {
            break;
        }
        filled += count;
    }
    Ok(filled)
}
