//! The lines of a table of measured times.
ghost use Rattle.std.specs.Prelude.{◌≡◌, ◌≤◌, ◌<◌, None, Some, Ok, Err, length, IfErr, IfOk, IfSome, OnOk};
ghost use Rattle.std.specs.Prelude.{IsErrOf};
ghost use Rattle.byte_streams.specs.Streams.{Rose};
ghost use Rattle.lift_text.specs.LineReader.{text, line, words, failure};
ghost use Rattle.lift_text.specs.Shows.{AnswerShows};
ghost use Rattle.motion_table.specs.Tables.{AreFloors, columns, rests_at, row_judged, IsReadTable};
ghost use Rattle.motion_table.specs.Tables.{IsRefusedTable, RowRead};

use elevator_model::{LONGEST_WAY, MOST_FLOORS};
use lift_text::{LineReader, Source, TextCode, TextFault};
use std::alloc::Global;
use std::marker::Model;
use text_sections::{
    AfterLine, LineFault, Section, at_least, at_most, exactly, is_word, numbers, read_section,
};

/// The rows of a table, as far as they were read.
#[derive(Drop)]
struct TableRows {
    floors: Option<u32>,
    times: Vec<u64>,
}

impl Model for TableRows {
    ghost use Rattle.motion_table.specs.Tables.{TableState, AreFloors};

    ghost Value = { TableState };

    ghost view = { λ t. record { floors = t.floors; times = t.times.items } };

    ghost invariant = { λ t. AreFloors t.floors };
}

impl TableRows {
    ghost use Rattle.std.specs.Prelude.{◌≡◌};
    ghost use Rattle.motion_table.specs.Tables.{AreFloors, no_rows};

    /// No rows.
    fn new(alloc: Global, floors: Option<u32>) -> TableRows
        requires { AreFloors floors }
        ensures { result ≡ no_rows floors }
    {
        TableRows {
            floors,
            times: Vec::new(alloc),
        }
    }

    /// The times of the rows.
    fn into_times(self) -> Vec<u64>
        ensures { result.items ≡ self.times }
    {
        self.times
    }
}

impl Section for TableRows {
    ghost use Rattle.motion_table.specs.Tables.{after};

    ghost after = { after };

    fn take_line<S: Source>(&mut self, lines: &LineReader<S>) -> Result<AfterLine, LineFault> {
        if !is_word(lines, 0, b"times") {
            return Err(LineFault::from(TextCode::NoLineWord));
        }
        let floors = read_row(lines, self.floors, &mut self.times)?;
        self.floors = Some(floors);
        if self.times.len() == floors as usize * floors as usize {
            Ok(AfterLine::Whole)
        } else {
            Ok(AfterLine::More)
        }
    }
}

/// Reads the times of a line, whose first word is judged already, and appends them to those of the lines
/// before it. The answer is the number of floors, which the first line decides where it is not given.
///
/// The codes are `Missing` and `TooMany`, `NoNumber` and `OutOfRange` where a word is no number from 0 to
/// 20,000,000, and then `NoTime` where a time is not 0 from a floor to itself or is 0 between two floors.
pub fn read_row<S: Source>(
    lines: &LineReader<S>,
    floors: Option<u32>,
    times: &mut Vec<u64>,
) -> Result<u32, LineFault>
    requires { AreFloors floors }
    ensures read { RowRead (row_judged floors times.old.items (words lines.now)) times.old.items result
        times.new.items }
    ensures floors { IfOk result (λ n. AreFloors (Some n)) }
{
    let count = columns(floors, lines)?;
    let start = times.len();
    numbers(lines, 1, 0, LONGEST_WAY, times)?;
    if !rests_at(start / count as usize, &times[start..]) {
        return Err(LineFault::from(TextCode::NoTime));
    }
    Ok(count)
}

/// The number of floors, which the first line decides where it is not known.
fn columns<S: Source>(floors: Option<u32>, lines: &LineReader<S>) -> Result<u32, TextCode>
    requires { AreFloors floors }
    ensures value { result ≡ columns floors (words lines.now) }
    ensures bound { IfOk result (λ n. AreFloors (Some n)) }
{
    match floors {
        Some(floors) => {
            exactly(lines, floors + 1)?;
            Ok(floors)
        }
        None => {
            at_least(lines, 3)?;
            at_most(lines, MOST_FLOORS + 1)?;
            Ok(lines.words() - 1)
        }
    }
}

/// Whether the times of a line are 0 at this floor alone.
fn rests_at(floor: usize, times: &[u64]) -> bool
    ensures { result ≡ rests_at floor 0 times.now }
{
    for (k, time) in times.iter().enumerate() {
        if (*time == 0) != (k == floor) {
            return false;
        }
    }
    true
}

/// Reads the lines of a table, `times T0 T1 ..` with a time in ms for each floor, one line for each floor:
/// what follows the last stays unread. The first line decides the number of floors, 2 to 64, where it
/// is not given. The allocator comes first.
///
/// The first bad line decides, with one code: `NoLineWord` where its first word is not `times`, `Missing` and
/// `TooMany`, `NoNumber` and `OutOfRange` where a word is no number from 0 to 20,000,000, and then `NoTime`
/// where a time is not 0 from a floor to itself or is 0 between two floors. `CutShort` comes where the input
/// ends first. The end of the last line, or of the bad one, shows in the bytes that were taken. Whether a way
/// over a third floor is shorter is not judged here.
pub fn read_times<S: Source>(
    alloc: Global,
    lines: &mut LineReader<S>,
    floors: Option<u32>,
) -> Result<Vec<u64>, TextFault>
    requires { AreFloors floors }
    ensures same_source { lines.new.source.ghost_name ≡ lines.old.source.ghost_name }
    ensures table { failure lines.old ≡ None → IfOk result (λ times.
        IsReadTable (text S.left lines.old) floors times.items (text S.left lines.new)) }
    ensures refused { failure lines.old ≡ None → IfErr result (λ fault.
        IsRefusedTable (text S.left lines.old) floors fault (text S.left lines.new)) }
    ensures again { IfSome (failure lines.old) (λ fault. result ≡ Err fault) }
    ensures shows { failure lines.old ≡ None → AnswerShows (text S.left lines.old) result
        (line lines.new) (S.left lines.new.source.now) }
    ensures ok { OnOk result (failure lines.new ≡ None) }
    ensures fault { IfSome (failure lines.new) (λ fault. result ≡ Err fault) }
    ensures read { failure lines.old ≡ None → IsErrOf result TextFault.Read
        → Rose (S.faults lines.old.source.now) (S.faults lines.new.source.now) }
    ensures counted { S.faults lines.old.source.now ≤ S.faults lines.new.source.now }
{
    let mut rows = TableRows::new(alloc, floors);
    match read_section(lines, &mut rows) {
        Ok(()) => Ok(rows.into_times()),
        Err(fault) => Err(fault),
    }
}
