//! Reading a header of rows.
ghost use Rattle.std.specs.Prelude.{◌≡◌, ◌≤◌, ◌+◌, None, IfErr, OnOk, IsErrOf};
ghost use Rattle.byte_streams.specs.Streams.{Rose};
ghost use Rattle.lift_text.specs.LineReader.{text, line, failure};
ghost use Rattle.lift_text.specs.Shows.{FaultShows, WentOn};
ghost use Rattle.lift_text.specs.declared.faults.TextFault.TheVariants.{Bad};
ghost use Rattle.text_sections.specs.Unfinished.{LacksEnd};
ghost use Rattle.day_text.specs.Headers.{HeaderEndsBehind, IsHeaderRead, IsLineRead};

use crate::headers::{Header, is_header};
use lift_text::{LINE_COUNT_BOUND, LineReader, RawLine, Source, TEXT_LIMIT, TextCode, TextFault};
use std::alloc::Global;

/// The fault of the line with this number.
fn bad_line(line: u64, code: TextCode) -> TextFault
    ensures { result ≡ Bad line code }
{
    TextFault::Bad { line, code }
}

/// Reads one line: true is this header, false an empty line.
fn read_line<S: Source>(
    alloc: Global,
    lines: &mut LineReader<S>,
    header: Header,
) -> Result<bool, TextFault>
    requires { failure lines.old ≡ None }
    ensures same_source { lines.new.source.ghost_name ≡ lines.old.source.ghost_name }
    ensures line { IsLineRead header (text S.left lines.old) result (text S.left lines.new) }
    ensures number { OnOk result (line lines.new ≡ line lines.old + 1) }
    ensures bound { OnOk result (line lines.new ≤ TEXT_LIMIT) }
    ensures went { OnOk result (WentOn (text S.left lines.old) (text S.left lines.new)) }
    ensures shows { IfErr result (λ fault.
        FaultShows (text S.left lines.old) fault (S.left lines.new.source.now)) }
    ensures ok { OnOk result (failure lines.new ≡ None) }
    ensures lacks { IsErrOf result TextFault.Read
        → LacksEnd (text S.left lines.old) (line lines.old + 1) (S.left lines.new.source.now) }
    ensures read { IsErrOf result TextFault.Read
        → Rose (S.faults lines.old.source.now) (S.faults lines.new.source.now) }
    ensures counted { S.faults lines.old.source.now ≤ S.faults lines.new.source.now }
{
    let found = lines.raw_line()?;
    let line = lines.line();
    match found {
        RawLine::Line => {}
        RawLine::Long => return Err(bad_line(line, TextCode::NoHeader)),
        RawLine::End => return Err(bad_line(line + 1, TextCode::CutShort)),
    }
    if lines.raw().is_empty() {
        return Ok(false);
    }
    match is_header(alloc, lines.raw(), header) {
        Ok(true) => Ok(true),
        Ok(false) => Err(bad_line(line, TextCode::NoHeader)),
        Err(_) => Err(TextFault::NoMemory),
    }
}

/// Reads this header of rows: the first line that is not empty. What follows it stays unread.
///
/// The line is bad with `NoHeader` where it is not the header's names, as `is_header` has it, or is
/// over 4,096 bytes. `CutShort` comes where the input ends before it, at the line after the last. `TooLong`
/// comes where it does not end within the bytes that may be read, and `Read` only where a read of the source
/// failed, and then the header's line is not whole, with its LF, among the bytes that were taken. The end of
/// a line that is bad shows in them.
pub fn read_header<S: Source>(
    alloc: Global,
    lines: &mut LineReader<S>,
    header: Header,
) -> Result<(), TextFault>
    requires { failure lines.old ≡ None }
    ensures same_source { lines.new.source.ghost_name ≡ lines.old.source.ghost_name }
    ensures header { IsHeaderRead header (text S.left lines.old) result (text S.left lines.new) }
    ensures shows { IfErr result (λ fault.
        FaultShows (text S.left lines.old) fault (S.left lines.new.source.now)) }
    ensures ok { OnOk result (failure lines.new ≡ None) }
    ensures unfinished { IsErrOf result TextFault.Read
        → HeaderEndsBehind header (text S.left lines.old) (S.left lines.new.source.now) }
    ensures read { IsErrOf result TextFault.Read
        → Rose (S.faults lines.old.source.now) (S.faults lines.new.source.now) }
    ensures counted { S.faults lines.old.source.now ≤ S.faults lines.new.source.now }
{
    // For the proof: a line's number is at most 67,108,864.
    let _start = lines.line();
    'lines: for _ in 0..LINE_COUNT_BOUND {
        let is_found = read_line(alloc, lines, header)?;
        if is_found {
            return Ok(());
        }
    }
    Err(TextFault::TooLong)
}
