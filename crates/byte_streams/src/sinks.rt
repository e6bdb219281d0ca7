//! Byte sinks.
ghost use Rattle.std.specs.Prelude.{◌≡◌, ℕ, ◌<◌, ◌≤◌, List, Option, length, take, IfOk, OnOk, OnErr};
ghost use Rattle.std.specs.Io.KnownBytes.{append_known};
ghost use Rattle.byte_streams.specs.Streams.{Rose};

use std::error::Error;
use std::fmt;

/// A write failed.
#[derive(Clone, Copy, Debug, PartialEq, Eq)]
pub struct SinkFault;

impl fmt::Display for SinkFault {
    fn fmt<W: fmt::Write>(&self, f: &mut fmt::Formatter<W>) -> fmt::Result {
        write!(f, "the output could not be written")
    }
}

impl Error for SinkFault {}

/// What bytes are written to. `taken` are the bytes that it has taken, where the sink tells them, and
/// `faults` counts the writes that failed. The count never falls.
pub trait Sink {
    ghost taken: { Self → Option (List ℕ) };

    ghost faults: { Self → ℕ };

    /// Takes bytes from the front of `piece` and answers how many. To take none of a piece that has
    /// some is a fault. An `Err` takes nothing, and comes only where the count of faults rose.
    fn write(&mut self, piece: &[u8]) -> Result<usize, SinkFault>
        ensures bound { IfOk result (λ count. count ≤ length piece.now) }
        ensures progress { IfOk result (λ count. 0 < length piece.now → 0 < count) }
        ensures gained { IfOk result
            (λ count. taken self.new ≡ append_known (taken self.old) (take count piece.now)) }
        ensures kept { OnErr result (taken self.new ≡ taken self.old) }
        ensures counted { faults self.old ≤ faults self.new }
        ensures fault { OnErr result (Rose (faults self.old) (faults self.new)) };
}

/// Writes all the bytes. After an `Err` the sink took a front part of them, and its count of faults
/// rose.
pub fn put_all<K: Sink>(sink: &mut K, bytes: &[u8]) -> Result<(), SinkFault>
    ensures ok { OnOk result (K.taken sink.new ≡ append_known (K.taken sink.old) bytes.now) }
    ensures front_taken { (count : ℕ) × (count ≤ length bytes.now)
        × (K.taken sink.new ≡ append_known (K.taken sink.old) (take count bytes.now)) }
    ensures counted { K.faults sink.old ≤ K.faults sink.new }
    ensures fault { OnErr result (Rose (K.faults sink.old) (K.faults sink.new)) }
{
    let mut done = 0;
    while done < bytes.len() {
        done += sink.write(&bytes[done..])?;
    }
    Ok(())
}
