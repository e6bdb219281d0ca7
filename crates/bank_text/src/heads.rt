//! The lines between the sections of banks.

ghost use Rattle.std.specs.Prelude.{◌≡◌, ◌<◌, ◌≤◌, None, IfErr, OnOk, IsErrOf, IfOk, length, true, Ok};
ghost use Rattle.byte_streams.specs.Streams.{Rose};
ghost use Rattle.lift_text.specs.LineReader.{text, line, words, failure};
ghost use Rattle.lift_text.specs.Reading.{NextLine};
ghost use Rattle.lift_text.specs.Shows.{AnswerShows, WentOn};
ghost use Rattle.bank_text.specs.Heads.{IsNotNext, IsSaidNext, at_line as at_line_lem};
ghost use Rattle.bank_text.specs.Heads.{bank_said as bank_said_lem, rows_said as rows_said_lem};
ghost use Rattle.bank_text.specs.Heads.{first_said as first_said_lem, head_said as head_said_lem};
ghost use Rattle.bank_text.specs.Heads.{misplaced as misplaced_lem};

use lift_text::{LineReader, Source, TextCode, TextFault};
use text_sections::{exactly, is_word, number, short};

/// What begins with a line between sections.
#[derive(Clone, Copy)]
pub enum Head {
    /// A bank with this id: its building and its opening snapshot come next.
    Bank { id: u32 },
    /// The rows of all banks: their header comes next.
    Rows,
}

/// Whether the line is the first one of an input with banks.
fn first_said<S: Source>(lines: &LineReader<S>) -> Result<(), TextCode>
    requires { 0 < length (words lines.now) }
    ensures { result ≡ first_said_lem (words lines.now) }
{
    if !is_word(lines, 0, b"banks") {
        return Err(TextCode::NoLineWord);
    }
    exactly(lines, 2)?;
    number(lines, 1, 1, 1)?;
    Ok(())
}

/// The bank that begins with a line `bank ID`.
fn bank_said<S: Source>(lines: &LineReader<S>) -> Result<Head, TextCode>
    requires { 0 < length (words lines.now) }
    ensures { result ≡ bank_said_lem (words lines.now) }
{
    exactly(lines, 2)?;
    let id = short(lines, 1)?;
    Ok(Head::Bank { id })
}

/// The rows that begin with a line `rows`, where some bank came before.
fn rows_said<S: Source>(lines: &LineReader<S>, some: bool) -> Result<Head, TextCode>
    requires { 0 < length (words lines.now) }
    ensures { result ≡ rows_said_lem some (words lines.now) }
{
    if !some {
        return Err(TextCode::OutOfOrder);
    }
    exactly(lines, 1)?;
    Ok(Head::Rows)
}

/// What is wrong with a line that begins neither.
fn misplaced<S: Source>(lines: &LineReader<S>) -> TextCode
    requires { 0 < length (words lines.now) }
    ensures { result ≡ misplaced_lem (words lines.now) }
{
    if is_word(lines, 0, b"banks") {
        TextCode::OutOfOrder
    } else {
        TextCode::NoLineWord
    }
}

/// What begins with the line; `some` tells whether some bank came before.
fn head_said<S: Source>(lines: &LineReader<S>, some: bool) -> Result<Head, TextCode>
    requires { 0 < length (words lines.now) }
    ensures { result ≡ head_said_lem some (words lines.now) }
{
    if is_word(lines, 0, b"bank") {
        bank_said(lines)
    } else if is_word(lines, 0, b"rows") {
        rows_said(lines, some)
    } else {
        Err(misplaced(lines))
    }
}

/// What is judged of the line with this number.
fn at_line<X: Copy>(line: u64, judged: Result<X, TextCode>) -> Result<X, TextFault>
    ensures { result ≡ at_line_lem line judged }
{
    match judged {
        Ok(said) => Ok(said),
        Err(code) => Err(TextFault::Bad { line, code }),
    }
}

/// Reads the next line with a word, and gives its number.
fn next_words<S: Source>(lines: &mut LineReader<S>) -> Result<u64, TextFault>
    requires { failure lines.old ≡ None }
    ensures same_source { lines.new.source.ghost_name ≡ lines.old.source.ghost_name }
    ensures next { IfOk result (λ number. NextLine (text S.left lines.old) (Ok true) (words lines.new) number
        (text S.left lines.new)) }
    ensures none { IfErr result (IsNotNext (text S.left lines.old)) }
    ensures number { IfOk result (λ number. number ≡ line lines.new) }
    ensures some { OnOk result (0 < length (words lines.new)) }
    ensures went { OnOk result (WentOn (text S.left lines.old) (text S.left lines.new)) }
    ensures shows { AnswerShows (text S.left lines.old) result (line lines.new)
        (S.left lines.new.source.now) }
    ensures ok { OnOk result (failure lines.new ≡ None) }
    ensures read { IsErrOf result TextFault.Read
        → Rose (S.faults lines.old.source.now) (S.faults lines.new.source.now) }
    ensures counted { S.faults lines.old.source.now ≤ S.faults lines.new.source.now }
{
    match lines.next_line() {
        Ok(true) => Ok(lines.line()),
        Ok(false) => Err(TextFault::Bad {
            line: lines.line() + 1,
            code: TextCode::CutShort,
        }),
        Err(fault) => Err(fault),
    }
}

/// Reads the first line of an input with banks, `banks 1`.
///
/// Another word is `NoLineWord`, another number `OutOfRange`; `CutShort` comes where the input ends before
/// it, at the line after the last. `Read` comes only where a read of the source failed. The end of the line,
/// or of the bad one, shows in the bytes that were taken.
pub fn read_first<S: Source>(lines: &mut LineReader<S>) -> Result<(), TextFault>
    requires { failure lines.old ≡ None }
    ensures same_source { lines.new.source.ghost_name ≡ lines.old.source.ghost_name }
    ensures said { IsSaidNext first_said_lem (text S.left lines.old) result (text S.left lines.new) }
    ensures went { OnOk result (WentOn (text S.left lines.old) (text S.left lines.new)) }
    ensures shows { AnswerShows (text S.left lines.old) result (line lines.new)
        (S.left lines.new.source.now) }
    ensures ok { OnOk result (failure lines.new ≡ None) }
    ensures read { IsErrOf result TextFault.Read
        → Rose (S.faults lines.old.source.now) (S.faults lines.new.source.now) }
    ensures counted { S.faults lines.old.source.now ≤ S.faults lines.new.source.now }
{
    match next_words(lines) {
        Ok(line) => at_line(line, first_said(lines)),
        Err(fault) => Err(fault),
    }
}

/// Reads the line that begins the next bank or the rows; `some` tells whether some bank came before.
///
/// `banks` is `OutOfOrder`, and so is `rows` where no bank came before; another word is `NoLineWord`.
/// `CutShort` comes where the input ends before it, at the line after the last. `Read` comes only where a
/// read of the source failed. The end of the line, or of the bad one, shows in the bytes that were taken.
pub fn read_head<S: Source>(lines: &mut LineReader<S>, some: bool) -> Result<Head, TextFault>
    requires { failure lines.old ≡ None }
    ensures same_source { lines.new.source.ghost_name ≡ lines.old.source.ghost_name }
    ensures said { IsSaidNext (head_said_lem some) (text S.left lines.old) result
        (text S.left lines.new) }
    ensures went { OnOk result (WentOn (text S.left lines.old) (text S.left lines.new)) }
    ensures shows { AnswerShows (text S.left lines.old) result (line lines.new)
        (S.left lines.new.source.now) }
    ensures ok { OnOk result (failure lines.new ≡ None) }
    ensures read { IsErrOf result TextFault.Read
        → Rose (S.faults lines.old.source.now) (S.faults lines.new.source.now) }
    ensures counted { S.faults lines.old.source.now ≤ S.faults lines.new.source.now }
{
    match next_words(lines) {
        Ok(line) => at_line(line, head_said(lines, some)),
        Err(fault) => Err(fault),
    }
}
