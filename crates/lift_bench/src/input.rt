//! The input.

use byte_streams::{StdSource, read_full};

/// The longest text that is taken, in bytes.
const MOST_BYTES: usize = 1_048_576;

/// The input. None where it is too long, reading fails or memory runs out.
pub(crate) fn input(rt: &HostRuntime) -> Option<Vec<u8>> {
    let mut bytes = Vec::from_elem(rt.alloc(), 0, MOST_BYTES).ok()?;
    let mut source = StdSource::new(rt.reader());
    match read_full(&mut source, bytes.as_mut_slice()) {
        Ok(count) if count < MOST_BYTES => {
            bytes.truncate(count);
            Some(bytes)
        }
        _ => None,
    }
}
