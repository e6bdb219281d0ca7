//! Snapshots from their texts.

use byte_streams::MemorySource;
use call_state::Snapshot;
use case_text::read_case;
use lift_text::LineReader;
use std::alloc::Global;

/// How many bytes are read at once. An uneven number cuts words and lines.
const PIECE: usize = 7;

/// The snapshot of a text: its building, and then the snapshot itself. None where it is refused, or memory
/// runs out.
pub fn snapshot_in(alloc: Global, text: &[u8]) -> Option<Snapshot> {
    let bytes = Vec::from_slice(alloc, text).ok()?;
    let mut source = MemorySource::new(bytes, PIECE, Vec::new(alloc));
    let mut lines = LineReader::new(alloc, &mut source).ok()?;
    read_case(alloc, &mut lines).ok()
}

/// A case that was worked out by hand: three floors 4000 mm apart, a car for one person at the lowest floor
/// and one for two at the middle one, two calls from the lowest floor to the highest and two the other way. A
/// ms of waiting or of riding costs 1.
///
/// Its cheapest plan costs 61000: the first car takes a call up for 9500, and the second one takes the two
/// calls down for 14000 each and then the other call up for 23500.
pub const WORKED_CASE: &str = "building 1
speed 2000
accel 1000
weights 1 1
floors 0 4000 8000
car 1 1 1000 1000 500 500 all
car 2 2 1000 1000 500 500 all
end
snapshot 1
now 0
car 1 idle 0 0
car 2 idle 1 0
call 1 0 2 1 0 any
call 2 0 2 1 0 any
call 3 2 0 1 0 any
call 4 2 0 1 0 any
end
";
