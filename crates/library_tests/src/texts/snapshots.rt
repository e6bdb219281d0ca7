//! Snapshots: what is read of a text and written again, and what stays unread.

use crate::texts::makers::{OfLines, house, is_so_of, words_behind};
use byte_streams::MemorySource;
use call_state::{Building, Snapshot};
use lift_text::LineReader;
use snapshot_text::{read_opening, read_snapshot, write_snapshot};
use std::alloc::Global;

/// The text of the snapshot that is read is this one, and the line behind it has this many words.
#[derive(Clone, Copy)]
struct Written {
    is_opening: bool,
    due: &'static [u8],
    behind: u32,
}

/// What is read of the lines of a snapshot, or of an opening one.
fn read(
    alloc: Global,
    lines: &mut LineReader<MemorySource>,
    building: Building,
    is_opening: bool,
) -> Option<Snapshot> {
    if is_opening {
        read_opening(alloc, lines, building).ok()
    } else {
        read_snapshot(alloc, lines, building).ok()
    }
}

/// The same in the building of the tests.
fn read_in_house(
    alloc: Global,
    lines: &mut LineReader<MemorySource>,
    is_opening: bool,
) -> Option<Snapshot> {
    match house(alloc) {
        Some(building) => read(alloc, lines, building, is_opening),
        None => None,
    }
}

/// Whether this is the text of the snapshot.
fn has_text(alloc: Global, snapshot: &Snapshot, due: &[u8]) -> bool {
    let mut out = Vec::new(alloc);
    write_snapshot(snapshot, &mut out).is_ok() && out.as_slice() == due
}

impl Written {
    /// Whether a snapshot is read that has this text.
    fn is_read(&self, alloc: Global, lines: &mut LineReader<MemorySource>) -> bool {
        match read_in_house(alloc, lines, self.is_opening) {
            Some(snapshot) => has_text(alloc, &snapshot, self.due),
            None => false,
        }
    }
}

impl OfLines for Written {
    fn is_so(&self, alloc: Global, lines: &mut LineReader<MemorySource>) -> bool {
        self.is_read(alloc, lines) && words_behind(lines) == self.behind
    }
}

const LOOSE: &[u8] = b"# a\nsnapshot 01\n\nnow 5000\ncar 3 coming 2 7000\ncar 7 idle 1 5000 # b
aboard 3 21 0 2 5900\ncall 22 0 3 1 4999 any\ncall 23 2 0 02 5000 3\nend\nrows 9";

const WRITTEN: &[u8] = b"snapshot 1
now 5000
car 7 idle 1 5000
car 3 coming 2 7000
aboard 3 21 0 2 5900
call 22 0 3 1 4999 any
call 23 2 0 2 5000 3
end
";

const MOVING: &[u8] = b"snapshot 2\nnow 5000\ncar 7 moving 3 down 4700\ncar 3 idle 0 5001\nend";

const MOVING_WRITTEN: &[u8] =
    b"snapshot 2\nnow 5000\ncar 7 moving 3 down 4700\ncar 3 idle 0 5001\nend\n";

#[test]
fn snapshots_are_read_and_written(rt: HostRuntime) {
    let loose = Written {
        is_opening: false,
        due: WRITTEN,
        behind: 2,
    };
    let canonical = Written { behind: 0, ..loose };
    let moving = Written {
        is_opening: true,
        due: MOVING_WRITTEN,
        behind: 0,
    };
    assert!(rt; is_so_of(rt.alloc(), LOOSE, 1, &loose));
    assert!(rt; is_so_of(rt.alloc(), WRITTEN, 100, &canonical));
    assert!(rt; is_so_of(rt.alloc(), MOVING, 3, &moving));
}
