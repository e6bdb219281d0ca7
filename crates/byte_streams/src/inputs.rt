//! Reading to the end.

ghost use Rattle.std.specs.Prelude.{◌≡◌, ◌+◌, ◌<◌, ◌≤◌, ◌-◌, [], length, IfOk, OnOk, IsErrOf, true, false};
ghost use Rattle.std.specs.Io.KnownBytes.{prepend_known, IsAtEnd};
ghost use Rattle.byte_streams.specs.Streams.{Rose};
ghost use Rattle.byte_streams.specs.Inputs.{HasGained};

use crate::sources::{Source, read_full};
use std::alloc::{AllocError, Global};

/// The most bytes that are asked of a source at once.
const LARGEST_READ: usize = 65_536;

/// Why an input could not be read.
#[derive(Clone, Copy)]
pub enum InputFault {
    /// The source failed.
    Read,
    /// Out of memory.
    NoMemory,
}

/// Reads as many bytes as `into` has room for, or what is left, and appends them. True where it got as many,
/// so that more may be left.
fn read_more<S: Source>(
    source: &mut S,
    into: &mut [u8],
    bytes: &mut Vec<u8>,
) -> Result<bool, InputFault>
    ensures gained { OnOk result (HasGained (length into.old) (S.left source.old) (S.left source.new)
        bytes.old.items bytes.new.items) }
    ensures room { length into.new ≡ length into.old }
    ensures more { result ≡ Ok true → length bytes.new.items ≡ length bytes.old.items + length into.old }
    ensures end { result ≡ Ok false → IsAtEnd (S.left source.new) }
    ensures read { IsErrOf result InputFault.Read → Rose (S.faults source.old) (S.faults source.new) }
    ensures counted { S.faults source.old ≤ S.faults source.new }
{
    let Ok(count) = read_full(source, into) else {
        return Err(InputFault::Read);
    };
    match bytes.extend_from_slice(&into[..count]) {
        Ok(()) => Ok(count == into.len()),
        Err(_) => Err(InputFault::NoMemory),
    }
}

/// Appends what is left of the source to the empty text, but at most `most` bytes. Pieces of it are read into
/// `piece`.
fn read_pieces<S: Source>(
    source: &mut S,
    piece: &mut [u8],
    most: usize,
    bytes: &mut Vec<u8>,
) -> Result<(), InputFault>
    requires room { 0 < length piece.old }
    requires none { bytes.old.items ≡ [] }
    ensures given { OnOk result (S.left source.old ≡ prepend_known bytes.new.items (S.left source.new)) }
    ensures short { OnOk result (length bytes.new.items ≤ most) }
    ensures whole { OnOk result (length bytes.new.items < most → IsAtEnd (S.left source.new)) }
    ensures read { IsErrOf result InputFault.Read → Rose (S.faults source.old) (S.faults source.new) }
    ensures counted { S.faults source.old ≤ S.faults source.new }
{
    'pieces: while bytes.len() < most {
        let room = piece.len().min(most - bytes.len());
        match read_more(source, &mut piece[..room], bytes) {
            Ok(true) => {}
            Ok(false) => return Ok(()),
            Err(fault) => return Err(fault),
        }
    }
    Ok(())
}

/// Room for a piece.
fn room_for_piece(alloc: Global) -> Result<Vec<u8>, AllocError>
    ensures { IfOk result (λ piece. 0 < length piece.items) }
{
    vec![in alloc; 0; LARGEST_READ]
}

/// Reads what is left of the source, but at most `most` bytes.
///
/// It gives fewer than that only where the source is at its end. `Read` comes only where a read of the source
/// failed; some of its bytes may have been taken then.
pub fn read_whole<S: Source>(
    alloc: Global,
    source: &mut S,
    most: usize,
) -> Result<Vec<u8>, InputFault>
    ensures given { IfOk result (λ bytes.
        S.left source.old ≡ prepend_known bytes.items (S.left source.new)) }
    ensures short { IfOk result (λ bytes. length bytes.items ≤ most) }
    ensures whole { IfOk result (λ bytes. length bytes.items < most → IsAtEnd (S.left source.new)) }
    ensures read { IsErrOf result InputFault.Read → Rose (S.faults source.old) (S.faults source.new) }
    ensures counted { S.faults source.old ≤ S.faults source.new }
{
    let mut bytes = Vec::new(alloc);
    let Ok(mut piece) = room_for_piece(alloc) else {
        return Err(InputFault::NoMemory);
    };
    match read_pieces(source, piece.as_mut_slice(), most, &mut bytes) {
        Ok(()) => Ok(bytes),
        Err(fault) => Err(fault),
    }
}
