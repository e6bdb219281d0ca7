//! Reading whole texts.
ghost use Rattle.std.specs.Prelude.{◌≡◌, IfErr, IfOk, None, OnOk, option_map};
ghost use Rattle.std.specs.Io.KnownBytes.{IsAtEnd};
ghost use Rattle.byte_streams.specs.Streams.{Rose};
ghost use Rattle.lift_text.specs.LineReader.{text, failure};
ghost use Rattle.lift_text.specs.Reading.{whole_text};
ghost use Rattle.command_ends.specs.InputFaults.{Shows};
ghost use Rattle.command_ends.specs.WholeTexts.{Form, IsReadAs, IsRefusedAs, Takes};

use crate::input_faults::InputFault;
use byte_streams::Source;
use lift_text::{LineReader, TextFault};
use std::alloc::Global;

/// What reads whole texts of one form.
pub trait WholeText {
    /// What such a text says.
    type Value: Drop;

    /// What each text says, and what is wrong with one that says nothing.
    ghost form: { Self → Form Self.Value };

    /// Reads the text to its end. The first fault decides, and the end of the line that is named shows in the
    /// bytes that were taken. A failed read is told only where a read of the source failed.
    fn read<S: Source>(
        &self,
        alloc: Global,
        lines: &mut LineReader<S>,
    ) -> Result<Self::Value, InputFault>
        requires { failure lines.old ≡ None }
        ensures same_source { lines.new.source.ghost_name ≡ lines.old.source.ghost_name }
        ensures right { IfOk result (form self.now).right }
        ensures says { IfOk result (IsReadAs (form self.now) (text S.left lines.old)) }
        ensures refused { IfErr result (IsRefusedAs (form self.now) (text S.left lines.old)) }
        ensures takes { Takes (form self.now) (text S.left lines.old) result }
        ensures ended { OnOk result (IsAtEnd (S.left lines.new.source.now)) }
        ensures shows { IfErr result (λ fault.
            Shows (text S.left lines.old) fault (S.left lines.new.source.now)) }
        ensures failed { IfErr result (λ fault. fault ≡ InputFault.Text TextFault.Read
            → Rose (S.faults lines.old.source.now) (S.faults lines.new.source.now)) };
}

/// Reads the whole of a source as a text of this form.
pub(crate) fn read_whole<S: Source, T: WholeText>(
    alloc: Global,
    reader: &T,
    source: &mut S,
) -> Result<T::Value, InputFault>
    ensures right { IfOk result (T.form reader.now).right }
    ensures says { IfOk result (IsReadAs (T.form reader.now)
        (option_map whole_text (S.left source.old))) }
    ensures refused { IfErr result (IsRefusedAs (T.form reader.now)
        (option_map whole_text (S.left source.old))) }
    ensures takes { Takes (T.form reader.now) (option_map whole_text (S.left source.old)) result }
    ensures ended { OnOk result (IsAtEnd (S.left source.new)) }
    ensures shows { IfErr result (λ fault.
        Shows (option_map whole_text (S.left source.old)) fault (S.left source.new)) }
    ensures failed { IfErr result (λ fault. fault ≡ InputFault.Text TextFault.Read
        → Rose (S.faults source.old) (S.faults source.new)) }
{
    let mut lines = match LineReader::new(alloc, source) {
        Ok(lines) => lines,
        Err(_) => return Err(InputFault::Text(TextFault::NoMemory)),
    };
    let read = reader.read(alloc, &mut lines);
    lines.into_source();
    read
}
