//! Reading a section line by line.
ghost use Rattle.std.specs.Prelude.{◌≡◌, ◌<◌, ◌≤◌, None, Some, length, IfSome, OnOk, IsErrOf};
ghost use Rattle.byte_streams.specs.Streams.{Rose};
ghost use Rattle.lift_text.specs.LineReader.{text, line, words, failure};
ghost use Rattle.lift_text.specs.Shows.{AnswerShows};
ghost use Rattle.text_sections.specs.Sections.{Line, Step, Did, ReadAs, IsCutAtEnd};
ghost use Rattle.text_sections.specs.Canonical.{IsMade, ReadsWritten};
ghost use Rattle.text_sections.specs.Between.{StandsBehind};
ghost use Rattle.text_sections.specs.Unfinished.{EndsBehind};

use crate::faults::LineFault;
use lift_text::{LINE_COUNT_BOUND, LineReader, Source, TextCode, TextFault};

/// What a line that is taken does to its section.
#[derive(Clone, Copy)]
pub enum AfterLine {
    /// The section goes on.
    More,
    /// The section is whole: this was its last line.
    Whole,
}

/// A section of a text, as far as it was read. Contracts say what each line does to it by `after`.
pub trait Section {
    /// What a line of these words does to the section.
    ghost after: { Self → Line → Step Self };

    /// Takes the line that was read. After an `Err` nothing is known of the section.
    fn take_line<S: Source>(&mut self, lines: &LineReader<S>) -> Result<AfterLine, LineFault>
        requires { 0 < length (words lines.now) }
        ensures { Did (after self.old (words lines.now)) result self.new };
}

/// Reads the lines of a section up to its last one. What follows it stays unread: the text goes on right
/// after that line.
///
/// If a text begins with the written lines of a section, that section is read, whatever follows.
/// The first bad line decides, with its number and one code. `CutShort` comes where the input ends
/// before the section is whole, at the line after the last. The end of the last line, or of the bad one, shows
/// in the bytes that were taken. `Read` comes only where a read of the source failed, and then the section's
/// last line is not whole, with its LF, among the bytes that were taken, wherever it ends. After an `Err` nothing
/// is known of the section.
pub fn read_section<S: Source, T: Section>(
    lines: &mut LineReader<S>,
    section: &mut T,
) -> Result<(), TextFault>
    ensures same_source { lines.new.source.ghost_name ≡ lines.old.source.ghost_name }
    ensures outcome { failure lines.old ≡ None
        → ReadAs T.after (text S.left lines.old) section.old result section.new (text S.left lines.new) }
    ensures written { failure lines.old ≡ None
        → ReadsWritten T.after (text S.left lines.old) section.old result section.new
        (text S.left lines.new) }
    ensures again { IfSome (failure lines.old) (λ fault. result ≡ Err fault) }
    ensures made { OnOk result (IsMade T.after section.old section.new) }
    ensures behind { failure lines.old ≡ None
        → OnOk result (StandsBehind (text S.left lines.old) (text S.left lines.new)) }
    ensures shows { failure lines.old ≡ None → AnswerShows (text S.left lines.old) result
        (line lines.new) (S.left lines.new.source.now) }
    ensures ok { OnOk result (failure lines.new ≡ None) }
    ensures fault { IfSome (failure lines.new) (λ fault. result ≡ Err fault) }
    ensures cut { failure lines.old ≡ None
        → IsCutAtEnd result (failure lines.new) (words lines.new) (S.left lines.new.source.now) }
    ensures unfinished { failure lines.old ≡ None → IsErrOf result TextFault.Read
        → EndsBehind T.after (text S.left lines.old) section.old (S.left lines.new.source.now) }
    ensures read { failure lines.old ≡ None → IsErrOf result TextFault.Read
        → Rose (S.faults lines.old.source.now) (S.faults lines.new.source.now) }
    ensures counted { S.faults lines.old.source.now ≤ S.faults lines.new.source.now }
{
    read_lines(lines, section)
}

/// Reads lines until the section is whole.
fn read_lines<S: Source, T: Section>(
    lines: &mut LineReader<S>,
    section: &mut T,
) -> Result<(), TextFault>
    ensures same_source { lines.new.source.ghost_name ≡ lines.old.source.ghost_name }
    ensures outcome { failure lines.old ≡ None
        → ReadAs T.after (text S.left lines.old) section.old result section.new (text S.left lines.new) }
    ensures again { IfSome (failure lines.old) (λ fault. result ≡ Err fault) }
    ensures made { OnOk result (IsMade T.after section.old section.new) }
    ensures behind { failure lines.old ≡ None
        → OnOk result (StandsBehind (text S.left lines.old) (text S.left lines.new)) }
    ensures shows { failure lines.old ≡ None → AnswerShows (text S.left lines.old) result
        (line lines.new) (S.left lines.new.source.now) }
    ensures ok { OnOk result (failure lines.new ≡ None) }
    ensures fault { IfSome (failure lines.new) (λ fault. result ≡ Err fault) }
    ensures cut { failure lines.old ≡ None
        → IsCutAtEnd result (failure lines.new) (words lines.new) (S.left lines.new.source.now) }
    ensures unfinished { failure lines.old ≡ None → IsErrOf result TextFault.Read
        → EndsBehind T.after (text S.left lines.old) section.old (S.left lines.new.source.now) }
    ensures read { failure lines.old ≡ None → IsErrOf result TextFault.Read
        → Rose (S.faults lines.old.source.now) (S.faults lines.new.source.now) }
    ensures counted { S.faults lines.old.source.now ≤ S.faults lines.new.source.now }
{
    // For the proof: a line's number is at most 67,108,864.
    let _start = lines.line();
    'lines: for _ in 0..LINE_COUNT_BOUND {
        let found = lines.next_line()?;
        let line = lines.line();
        if !found {
            return Err(TextFault::Bad {
                line: line + 1,
                code: TextCode::CutShort,
            });
        }
        match section.take_line(lines) {
            Ok(AfterLine::More) => {}
            Ok(AfterLine::Whole) => return Ok(()),
            Err(LineFault::Bad(code)) => return Err(TextFault::Bad { line, code }),
            Err(LineFault::NoMemory) => return Err(TextFault::NoMemory),
        }
    }
    Err(TextFault::TooLong)
}
