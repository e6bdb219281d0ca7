//! Certificates: what is read of a text and written again, and what comes twig by twig.

ghost use Rattle.std.specs.Prelude.{◌≤◌};

use crate::texts::makers::{OfLines, OfNoon, is_so_at_noon, is_so_of, is_so_over};
use byte_streams::MemorySource;
use call_state::Snapshot;
use cert_text::{TreeReader, read_cert, write_cert};
use lift_text::{LineReader, TextCode, TextFault};
use std::alloc::Global;

/// The text of the certificate that is read is this one, with a `+` where a line follows.
#[derive(Clone, Copy)]
struct Written<'a> {
    snapshot: &'a Snapshot,
    due: &'a [u8],
}

/// Appends the text of the certificate that is read. Says whether it could.
fn puts_tree(
    alloc: Global,
    lines: &mut LineReader<MemorySource>,
    snapshot: &Snapshot,
    out: &mut Vec<u8>,
) -> bool {
    match read_cert(alloc, lines, snapshot) {
        Ok(tree) => write_cert(snapshot, tree.as_slice(), out).is_ok(),
        Err(_) => false,
    }
}

impl OfLines for Written<'_> {
    fn is_so(&self, alloc: Global, lines: &mut LineReader<MemorySource>) -> bool {
        let mut out = Vec::new(alloc);
        puts_tree(alloc, lines, self.snapshot, &mut out)
            && (lines.next_line() != Ok(true) || out.push(b'+').is_ok())
            && out.as_slice() == self.due
    }
}

/// What a reader says where it hands out no twig.
#[derive(Clone, Copy, PartialEq, Eq, Drop)]
enum Last {
    Twig,
    End,
    Bad { line: u64, code: TextCode },
    Failed,
    Other,
}

fn next(
    reader: &mut TreeReader,
    lines: &mut LineReader<MemorySource>,
    snapshot: &Snapshot,
) -> Last {
    match reader.next(lines, snapshot) {
        Ok(Some(_)) => Last::Twig,
        Ok(None) => Last::End,
        Err(TextFault::Bad { line, code }) => Last::Bad { line, code },
        Err(TextFault::Read) => Last::Failed,
        Err(_) => Last::Other,
    }
}

/// This many twigs are handed out, and then this is said, and said again by the call after it.
#[derive(Clone, Copy)]
struct HandsOut<'a> {
    snapshot: &'a Snapshot,
    twigs: u64,
    last: Last,
}

impl HandsOut<'_> {
    fn is_by(&self, reader: &mut TreeReader, lines: &mut LineReader<MemorySource>) -> bool {
        for _ in 0..self.twigs {
            if next(reader, lines, self.snapshot) != Last::Twig {
                return false;
            }
        }
        next(reader, lines, self.snapshot) == self.last
            && next(reader, lines, self.snapshot) == self.last
    }
}

impl OfLines for HandsOut<'_> {
    fn is_so(&self, alloc: Global, lines: &mut LineReader<MemorySource>) -> bool {
        match TreeReader::begin(alloc, lines) {
            Ok(mut reader) => self.is_by(&mut reader, lines),
            Err(_) => false,
        }
    }
}

/// A source whose 28th read fails, in the third line of a certificate.
fn failing_source(alloc: Global) -> Option<MemorySource> {
    let bytes = Vec::from_slice(alloc, b"certificate 1\nsplit 22 7\nleaf\nleaf\nend\n").ok()?;
    let failing = Vec::from_slice(alloc, &[28]).ok()?;
    Some(MemorySource::new(bytes, 1, failing))
}

/// Whether this certificate hands out its split, and fails from then on.
fn fails_for_good(alloc: Global, snapshot: &Snapshot) -> bool {
    let (twigs, last) = (1, Last::Failed);
    let split = HandsOut {
        snapshot,
        twigs,
        last,
    };
    match failing_source(alloc) {
        Some(mut source) => is_so_over(alloc, &mut source, &split),
        None => false,
    }
}

const LOOSE: &[u8] = b"# a\ncertificate 01\n\nsplit 22 3 07 3\nleaf # b\nworth 3 -0 1\nprice 4 -0007
price 22 0012\nworth 7 -31 0002\nprice 4 5\nsplit 7\nleaf\nprice 7 1000000000000000000000000\nleaf\nend\nrows 9";

const WRITTEN: &[u8] = b"certificate 1
split 22 7 3
leaf
price 4 -7
price 22 12
price 4 5
worth 3 0 1
worth 7 -31 2
split 7
leaf
price 7 1000000000000000000000000
leaf
end
+";

const DEEP: &[u8] = b"certificate 1
split 22 7
split 7 3
leaf
worth 3 -1000000000000000000000000000 9999999999
leaf
split 4 7 3
leaf
worth 7 1000000000000000000000000000 1
leaf
end
";

const LONE: &[u8] = b"certificate 1\nleaf\nprice 22 -1000000000000000000000000\nend";

const LONE_WRITTEN: &[u8] = b"certificate 1\nleaf\nprice 22 -1000000000000000000000000\nend\n";

fn is_written(alloc: Global, snapshot: &Snapshot, text: &[u8], each: usize, due: &[u8]) -> bool
    requires { 1 ≤ each }
{
    is_so_of(alloc, text, each, &Written { snapshot, due })
}

fn are_written(alloc: Global, snapshot: &Snapshot) -> bool {
    is_written(alloc, snapshot, LOOSE, 1, WRITTEN)
        && is_written(alloc, snapshot, DEEP, 7, DEEP)
        && is_written(alloc, snapshot, LONE, 100, LONE_WRITTEN)
}

fn bad(line: u64, code: TextCode) -> Last {
    Last::Bad { line, code }
}

/// Whether each text gives as many twigs as its row says, and then this.
fn come_one_by_one(alloc: Global, snapshot: &Snapshot) -> bool {
    let deep: &[u8] = b"certificate 1\nsplit 22\nsplit 7 3\nleaf\nprice 4 1\nleaf\nleaf\nend";
    let table: [(&[u8], u64, Last); 6] = [
        (b"certificate 1\nleaf\nend\nleaf", 1, Last::End),
        (deep, 5, Last::End),
        (b"certificate 1\nend", 0, bad(2, TextCode::OutOfOrder)),
        (
            b"certificate 1\nsplit 22\nprice 4 1",
            1,
            bad(3, TextCode::OutOfOrder),
        ),
        (
            b"certificate 1\nsplit 22\nleaf\nprice 4 x",
            1,
            bad(4, TextCode::NoNumber),
        ),
        (
            b"certificate 1\nsplit 22\nleaf\nleaf\nleaf",
            2,
            bad(5, TextCode::OutOfOrder),
        ),
    ];
    for (bytes, twigs, last) in table {
        let asked = HandsOut {
            snapshot,
            twigs,
            last,
        };
        if !is_so_of(alloc, bytes, 1, &asked) {
            return false;
        }
    }
    true
}

/// Certificates are written, come twig by twig, and fail for good.
struct AreCertificates;

impl OfNoon for AreCertificates {
    fn is_so(&self, alloc: Global, snapshot: &Snapshot) -> bool {
        are_written(alloc, snapshot)
            && come_one_by_one(alloc, snapshot)
            && fails_for_good(alloc, snapshot)
    }
}

#[test]
fn certificates_are_written_and_come_twig_by_twig(rt: HostRuntime) {
    assert!(rt; is_so_at_noon(rt.alloc(), &AreCertificates));
}
