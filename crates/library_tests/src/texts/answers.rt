//! Answers: what is read of a text and written again.

ghost use Rattle.std.specs.Prelude.{◌≤◌};
ghost use Rattle.answer_text.specs.Answers.{IsWithin};

use crate::texts::makers::{OfLines, OfNoon, is_so_at_noon, is_so_of};
use answer_text::{read_answer, write_answer, write_body, write_stops};
use byte_streams::MemorySource;
use call_state::Snapshot;
use lift_text::LineReader;
use search_model::Stated;
use std::alloc::Global;

/// The text of the answer that is read is this one, with a `+` where a line follows.
#[derive(Clone, Copy)]
struct Written<'a> {
    snapshot: &'a Snapshot,
    due: &'a [u8],
}

/// Appends the text of the answer that is read. Says whether it could.
fn puts_answer(
    alloc: Global,
    lines: &mut LineReader<MemorySource>,
    snapshot: &Snapshot,
    out: &mut Vec<u8>,
) -> bool {
    match read_answer(alloc, lines, snapshot) {
        Ok(stated) => write_answer(snapshot, &stated, out).is_ok(),
        Err(_) => false,
    }
}

impl OfLines for Written<'_> {
    fn is_so(&self, alloc: Global, lines: &mut LineReader<MemorySource>) -> bool {
        let mut out = Vec::new(alloc);
        puts_answer(alloc, lines, self.snapshot, &mut out)
            && (lines.next_line() != Ok(true) || out.push(b'+').is_ok())
            && out.as_slice() == self.due
    }
}

/// This is the body of the answer that is read, with another cost and another bound, and then the stops of
/// each tour.
#[derive(Clone, Copy)]
struct HasParts<'a> {
    snapshot: &'a Snapshot,
    due: &'a [u8],
}

fn puts_parts(snapshot: &Snapshot, stated: &Stated, out: &mut Vec<u8>) -> bool
    requires { IsWithin snapshot.now stated.now }
{
    if write_body(snapshot, &stated.plan, 31, 17, out).is_err() {
        return false;
    }
    for tour in stated.plan.tours() {
        if write_stops(snapshot, tour, out).is_err() {
            return false;
        }
    }
    true
}

fn has_parts(alloc: Global, snapshot: &Snapshot, stated: &Stated, due: &[u8]) -> bool
    requires { IsWithin snapshot.now stated.now }
{
    let mut out = Vec::new(alloc);
    puts_parts(snapshot, stated, &mut out) && out.as_slice() == due
}

impl OfLines for HasParts<'_> {
    fn is_so(&self, alloc: Global, lines: &mut LineReader<MemorySource>) -> bool {
        match read_answer(alloc, lines, self.snapshot) {
            Ok(stated) => has_parts(alloc, self.snapshot, &stated, self.due),
            Err(_) => false,
        }
    }
}

const LOOSE: &[u8] =
    b"# a\nanswer 01\n\ncost 4730\nbound 0029\ntour 7 # b\nstop 2 4 022 4\nstop 3\ntour 3
stop 4294967295 7\nend\nrows 9";

const WRITTEN: &[u8] = b"answer 1
cost 4730
bound 29
tour 7
stop 2 22 4 4
stop 3
tour 3
stop 4294967295 7
end
+";

const GREATEST: &[u8] = b"answer 1\ncost 1000000000000000000\nbound 0\ntour 7\ntour 3\nend";

const GREATEST_WRITTEN: &[u8] =
    b"answer 1\ncost 1000000000000000000\nbound 0\ntour 7\ntour 3\nend\n";

const PARTS: &[u8] = b"cost 31
bound 17
tour 7
stop 2 22 4 4
stop 3
tour 3
stop 4294967295 7
stop 2 22 4 4
stop 3
stop 4294967295 7
";

fn is_written(alloc: Global, snapshot: &Snapshot, text: &[u8], each: usize, due: &[u8]) -> bool
    requires { 1 ≤ each }
{
    is_so_of(alloc, text, each, &Written { snapshot, due })
}

fn is_in_parts(alloc: Global, snapshot: &Snapshot, text: &[u8], due: &[u8]) -> bool {
    is_so_of(alloc, text, 4096, &HasParts { snapshot, due })
}

/// Answers are read and written.
struct AreAnswers;

impl OfNoon for AreAnswers {
    fn is_so(&self, alloc: Global, snapshot: &Snapshot) -> bool {
        is_written(alloc, snapshot, LOOSE, 1, WRITTEN)
            && is_written(alloc, snapshot, GREATEST, 100, GREATEST_WRITTEN)
            && is_in_parts(alloc, snapshot, LOOSE, PARTS)
    }
}

#[test]
fn answers_are_read_and_written(rt: HostRuntime) {
    assert!(rt; is_so_at_noon(rt.alloc(), &AreAnswers));
}
