//! The lines of a log outside answers and certificates.

ghost use Rattle.std.specs.Prelude.{◌≡◌, ◌≤◌, ◌∷◌, [], None, OnOk};
ghost use Rattle.byte_streams.specs.Streams.{Rose};
ghost use Rattle.lift_text.specs.LineReader.{text, failure};
ghost use Rattle.day_text.specs.LogTexts.{event_words, refused_words};
ghost use Rattle.day_audit.specs.Words.{due_words};
ghost use Rattle.day_audit.specs.Audits.{accepted_lines, end_lines, event_lines, last_lines};
ghost use Rattle.day_audit.specs.Taking.{IsUnread, TakesEnd, TakesLines, said_at as said_at_lem};

use crate::findings::{Finding, finding_of};
use crate::words::{DueWord, says};
use day_text::code_of;
use lift_text::{LineReader, Source};
use search_model::{Event, RowFault};

/// What is found of a line, by whether it says what is due.
fn said_at(is_said: bool, line: u64) -> Result<(), Finding>
    ensures said { result ≡ said_at_lem is_said line }
    ensures unread { IsUnread result → ⊥ }
{
    if is_said {
        Ok(())
    } else {
        Err(Finding::Differs { line })
    }
}

/// Takes the next line with a word, which is to have these words.
fn take_line<S: Source>(lines: &mut LineReader<S>, due: &[DueWord]) -> Result<(), Finding>
    requires whole { failure lines.old ≡ None }
    ensures takes { TakesLines (due_words due.now ∷ []) (text S.left lines.old) result
        (text S.left lines.new) }
    ensures ok { OnOk result (failure lines.new ≡ None) }
    ensures read { IsUnread result
        → Rose (S.faults lines.old.source.now) (S.faults lines.new.source.now) }
    ensures counted { S.faults lines.old.source.now ≤ S.faults lines.new.source.now }
{
    match lines.next_line() {
        Ok(true) => said_at(says(lines, due), lines.line()),
        Ok(false) => Err(Finding::Differs {
            line: lines.line() + 1,
        }),
        Err(fault) => Err(finding_of(fault)),
    }
}

/// Takes the line of this event.
fn take_event<S: Source>(lines: &mut LineReader<S>, event: &Event) -> Result<(), Finding>
    requires whole { failure lines.old ≡ None }
    ensures takes { TakesLines (event_words event.now ∷ []) (text S.left lines.old) result
        (text S.left lines.new) }
    ensures ok { OnOk result (failure lines.new ≡ None) }
    ensures read { IsUnread result
        → Rose (S.faults lines.old.source.now) (S.faults lines.new.source.now) }
    ensures counted { S.faults lines.old.source.now ≤ S.faults lines.new.source.now }
{
    let (name, call, car, moment) = match *event {
        Event::Board { call, car, moment } => (DueWord::Board, call, car, moment),
        Event::Deliver { call, car, moment } => (DueWord::Deliver, call, car, moment),
    };
    let due = [
        name,
        DueWord::Number(u64::from(call)),
        DueWord::Number(u64::from(car)),
        DueWord::Number(moment),
    ];
    take_line(lines, &due)
}

/// Takes the lines of these events.
fn take_events<S: Source>(lines: &mut LineReader<S>, events: &[Event]) -> Result<(), Finding>
    requires whole { failure lines.old ≡ None }
    ensures takes { TakesLines (event_lines events.now) (text S.left lines.old) result
        (text S.left lines.new) }
    ensures ok { OnOk result (failure lines.new ≡ None) }
    ensures read { IsUnread result
        → Rose (S.faults lines.old.source.now) (S.faults lines.new.source.now) }
    ensures counted { S.faults lines.old.source.now ≤ S.faults lines.new.source.now }
{
    for event in events {
        match take_event(lines, event) {
            Ok(()) => {}
            Err(finding) => return Err(finding),
        }
    }
    Ok(())
}

/// Takes the first line of the accepted row with this number, and the lines of what happened until its time.
pub(crate) fn take_accepted_lines<S: Source>(
    lines: &mut LineReader<S>,
    number: u32,
    events: &[Event],
) -> Result<(), Finding>
    requires whole { failure lines.old ≡ None }
    ensures takes { TakesLines (accepted_lines number events.now) (text S.left lines.old) result
        (text S.left lines.new) }
    ensures ok { OnOk result (failure lines.new ≡ None) }
    ensures read { IsUnread result
        → Rose (S.faults lines.old.source.now) (S.faults lines.new.source.now) }
    ensures counted { S.faults lines.old.source.now ≤ S.faults lines.new.source.now }
{
    let due = [
        DueWord::Row,
        DueWord::Number(u64::from(number)),
        DueWord::Accepted,
    ];
    match take_line(lines, &due) {
        Ok(()) => take_events(lines, events),
        Err(finding) => Err(finding),
    }
}

/// Takes the line of the row with this number, which is refused for this fault; or finds what is there in its
/// place.
pub(crate) fn take_refused<S: Source>(
    lines: &mut LineReader<S>,
    number: u32,
    fault: RowFault,
) -> Result<(), Finding>
    requires whole { failure lines.old ≡ None }
    ensures takes { TakesLines (refused_words number fault ∷ []) (text S.left lines.old) result
        (text S.left lines.new) }
    ensures ok { OnOk result (failure lines.new ≡ None) }
    ensures read { IsUnread result
        → Rose (S.faults lines.old.source.now) (S.faults lines.new.source.now) }
    ensures counted { S.faults lines.old.source.now ≤ S.faults lines.new.source.now }
{
    let due = [
        DueWord::Row,
        DueWord::Number(u64::from(number)),
        DueWord::Refused,
        DueWord::Number(u64::from(code_of(fault))),
    ];
    take_line(lines, &due)
}

/// The numbers of rows and of delivered calls at the end of a log.
#[derive(Clone, Copy)]
pub(crate) struct Totals {
    pub accepted: u64,
    pub refused: u64,
    pub delivered: u64,
}

/// Takes the line of the totals, and that of the end.
fn take_last_lines<S: Source>(lines: &mut LineReader<S>, totals: Totals) -> Result<(), Finding>
    requires whole { failure lines.old ≡ None }
    ensures takes { TakesLines (last_lines totals.accepted totals.refused totals.delivered)
        (text S.left lines.old) result (text S.left lines.new) }
    ensures ok { OnOk result (failure lines.new ≡ None) }
    ensures read { IsUnread result
        → Rose (S.faults lines.old.source.now) (S.faults lines.new.source.now) }
    ensures counted { S.faults lines.old.source.now ≤ S.faults lines.new.source.now }
{
    let due = [
        DueWord::Total,
        DueWord::Number(totals.accepted),
        DueWord::Number(totals.refused),
        DueWord::Number(totals.delivered),
    ];
    match take_line(lines, &due) {
        Ok(()) => take_line(lines, &[DueWord::End]),
        Err(finding) => Err(finding),
    }
}

/// Takes the lines of the last events, of the totals and of the end.
fn take_end_lines<S: Source>(
    lines: &mut LineReader<S>,
    events: &[Event],
    totals: Totals,
) -> Result<(), Finding>
    requires whole { failure lines.old ≡ None }
    ensures takes { TakesLines (end_lines events.now totals.accepted totals.refused totals.delivered)
        (text S.left lines.old) result (text S.left lines.new) }
    ensures ok { OnOk result (failure lines.new ≡ None) }
    ensures read { IsUnread result
        → Rose (S.faults lines.old.source.now) (S.faults lines.new.source.now) }
    ensures counted { S.faults lines.old.source.now ≤ S.faults lines.new.source.now }
{
    match take_events(lines, events) {
        Ok(()) => take_last_lines(lines, totals),
        Err(finding) => Err(finding),
    }
}

/// Reads on to the end of the input, where no other line has a word.
fn take_nothing<S: Source>(lines: &mut LineReader<S>) -> Result<(), Finding>
    requires whole { failure lines.old ≡ None }
    ensures takes { TakesEnd [] (text S.left lines.old) result }
    ensures read { IsUnread result
        → Rose (S.faults lines.old.source.now) (S.faults lines.new.source.now) }
    ensures counted { S.faults lines.old.source.now ≤ S.faults lines.new.source.now }
{
    match lines.next_line() {
        Ok(false) => Ok(()),
        Ok(true) => Err(Finding::Differs { line: lines.line() }),
        Err(fault) => Err(finding_of(fault)),
    }
}

/// Takes the lines after the last row, the last events, the totals and the end, after which no line has a
/// word; or finds what is there in their place.
pub(crate) fn take_end<S: Source>(
    lines: &mut LineReader<S>,
    events: &[Event],
    totals: Totals,
) -> Result<(), Finding>
    requires whole { failure lines.old ≡ None }
    ensures takes { TakesEnd (end_lines events.now totals.accepted totals.refused totals.delivered)
        (text S.left lines.old) result }
    ensures read { IsUnread result
        → Rose (S.faults lines.old.source.now) (S.faults lines.new.source.now) }
    ensures counted { S.faults lines.old.source.now ≤ S.faults lines.new.source.now }
{
    match take_end_lines(lines, events, totals) {
        Ok(()) => take_nothing(lines),
        Err(finding) => Err(finding),
    }
}
