//! Draws the day or the plan of an input.
ghost use Rattle.std.specs.Prelude.{◌≡◌, ◌≤◌, IfErr, IfOk, None, OnOk, IsErrOf, length, map};
ghost use Rattle.std.specs.Prelude.{string_bytes};
ghost use Rattle.std.specs.Io.KnownBytes.{IsAtEnd};
ghost use Rattle.byte_streams.specs.Streams.{Rose};
ghost use Rattle.command_ends.specs.Ends.{streams};
ghost use Rattle.lift_text.specs.LineReader.{failure, text};
ghost use Rattle.lift_text.specs.Shows.{FaultShows};
ghost use Rattle.picture_reader.specs.Tellings.{IsAnsweredBy};
ghost use Rattle.draw_command.specs.Outcome.{AskForNone, DrawsByWords, RefusesWords, RunsDraw, telling_of};

use crate::words::{Request, Subject, read_words};
use byte_streams::{Sink, Source};
use command_ends::{Answer, Command, InputFault, Status, WholeText, put, run_command};
use lift_picture::{Scene, draw_scene};
use lift_text::{LineReader, TextFault};
use option_words::WordsFault;
use picture_reader::{read_day_scene, read_plan_scene};
use std::alloc::{AllocError, Global};

/// What is written where the words are not taken.
const USAGE: &[u8] = b"usage: lift_draw day|plan [--width N] [--height N]\n";

/// Reads what a text tells of this subject.
fn read_scene<S: Source>(
    alloc: Global,
    subject: Subject,
    lines: &mut LineReader<S>,
) -> Result<Scene, TextFault>
    requires { failure lines.old ≡ None }
    ensures same_source { lines.new.source.ghost_name ≡ lines.old.source.ghost_name }
    ensures scene { IsAnsweredBy (telling_of subject) (text S.left lines.old) result }
    ensures few { IfOk result (λ scene. length scene.cars.items ≤ 16) }
    ensures ended { OnOk result (IsAtEnd (S.left lines.new.source.now)) }
    ensures shows { IfErr result (λ fault.
        FaultShows (text S.left lines.old) fault (S.left lines.new.source.now)) }
    ensures read { IsErrOf result TextFault.Read
        → Rose (S.faults lines.old.source.now) (S.faults lines.new.source.now) }
{
    match subject {
        Subject::Day => read_day_scene(alloc, lines),
        Subject::Plan => read_plan_scene(alloc, lines),
    }
}

/// Draws what is asked for.
#[derive(Clone, Copy)]
struct Drawing {
    request: Request,
}

impl WholeText for Drawing {
    ghost use Rattle.draw_command.specs.Outcome.{scene_form};

    type Value = Scene;

    ghost form = { λ it. scene_form it.request.subject };

    fn read<S: Source>(
        &self,
        alloc: Global,
        lines: &mut LineReader<S>,
    ) -> Result<Scene, InputFault> {
        match read_scene(alloc, self.request.subject, lines) {
            Ok(scene) => Ok(scene),
            Err(fault) => Err(InputFault::Text(fault)),
        }
    }
}

impl Command for Drawing {
    ghost use Rattle.draw_command.specs.Outcome.{IsDrawn};

    ghost told = { λ it. IsDrawn it.request.size };

    fn answer(&self, alloc: Global, scene: &Scene) -> Result<Answer, AllocError> {
        let text = draw_scene(alloc, self.request.size, scene)?;
        Ok(Answer {
            status: Status::Done,
            text,
        })
    }
}

/// Reads what is asked for, and writes its picture; or what is wrong with the input.
fn draw<S: Source, K: Sink>(alloc: Global, request: Request, source: &mut S, sink: &mut K) -> Status
    ensures { RunsDraw request
        (streams (S.left source.old) (K.taken sink.old) (S.faults source.old) (K.faults sink.old))
        (streams (S.left source.new) (K.taken sink.new) (S.faults source.new)
        (K.faults sink.new)) result }
{
    let command = Drawing { request };
    run_command(alloc, &command, source, sink)
}

/// Runs the program: reads what the words of the command line ask for, the program's name first, and writes
/// its picture in the size that they ask for: of a day, by an opening, rows and their log, or of a plan, by a
/// case and an answer. Other words are refused with the usage line, and another input with its first bad line
/// and its code.
pub fn run<S: Source, K: Sink>(
    alloc: Global,
    words: &[String],
    source: &mut S,
    sink: &mut K,
) -> Status
    // What the words ask for is drawn, and whatever else is read is refused, unless the source or the sink fails
    // or memory runs out.
    ensures draws { DrawsByWords (map string_bytes words.now)
        (streams (S.left source.old) (K.taken sink.old) (S.faults source.old) (K.faults sink.old))
        (streams (S.left source.new) (K.taken sink.new) (S.faults source.new)
        (K.faults sink.new)) result }

    // Words that ask for no picture get the usage line, unless the sink fails or memory runs out.
    ensures refuses_words { AskForNone (map string_bytes words.now) → RefusesWords
        (streams (S.left source.old) (K.taken sink.old) (S.faults source.old) (K.faults sink.old))
        (streams (S.left source.new) (K.taken sink.new) (S.faults source.new)
        (K.faults sink.new)) result }

    // They leave the source as it was, whatever the status.
    ensures unread { AskForNone (map string_bytes words.now) → source.new ≡ source.old }
{
    match read_words(alloc, words) {
        Ok(request) => draw(alloc, request, source, sink),
        Err(WordsFault::NotTaken) => put(sink, USAGE, Status::Words),
        Err(WordsFault::NoMemory) => Status::Memory,
    }
}
