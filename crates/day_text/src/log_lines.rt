//! The lines of a day's log.

ghost use Rattle.std.specs.Prelude.{◌≡◌, ◌++◌, ◌∷◌, [], codes, decimal, drop, take, OnErr, OnOk};
ghost use Rattle.elevator_model.specs.Plans.{IsFeasiblePlan};
ghost use Rattle.search_model.specs.Days.{code_of_row};
ghost use Rattle.text_sections.specs.Canonical.{line_text};
ghost use Rattle.day_text.specs.LogTexts.{event_words, events_text, accepted_words, plan_text};
ghost use Rattle.day_text.specs.LogTexts.{refused_text, solved_words, total_text};

use answer_text::write_body;
use call_state::Snapshot;
use lift_text::{put_line, put_words};
use search_model::{Event, RowFault, Stated};
use std::alloc::AllocError;

/// The code that is printed for the fault of a row.
pub fn code_of(fault: RowFault) -> u8
    ensures { result ≡ code_of_row fault }
{
    match fault {
        RowFault::NoRow => 41,
        RowFault::BeforeNow => 42,
        RowFault::Full => 43,
        RowFault::NoCar => 44,
    }
}

fn put_event(out: &mut Vec<u8>, event: &Event) -> Result<(), AllocError>
    ensures { OnOk result (out.new.items ≡ out.old.items ++ line_text (event_words event.now)) }
{
    match *event {
        Event::Board { call, car, moment } => {
            put_line(out, b"board", &[u64::from(call), u64::from(car), moment])
        }
        Event::Deliver { call, car, moment } => {
            put_line(out, b"deliver", &[u64::from(call), u64::from(car), moment])
        }
    }
}

fn put_events(out: &mut Vec<u8>, events: &[Event]) -> Result<(), AllocError>
    ensures { OnOk result (out.new.items ≡ out.old.items ++ events_text events.now) }
{
    for event in events {
        put_event(out, event)?;
    }
    Ok(())
}

fn put_accepted_line(out: &mut Vec<u8>, number: u32) -> Result<(), AllocError>
    ensures { OnOk result (out.new.items ≡ out.old.items ++ line_text (accepted_words number)) }
{
    put_words(out, b"row", &[u64::from(number)])?;
    out.extend_from_slice(b" accepted\n")
}

/// Appends the lines of a row that was accepted, up to its plan: that it was, and what happened until its
/// time. It fails only where there is no memory left: then the log is as before.
pub fn add_accepted(number: u32, events: &[Event], out: &mut Vec<u8>) -> Result<(), AllocError>
    ensures lines { OnOk result (out.new.items ≡ out.old.items
        ++ (line_text (accepted_words number) ++ events_text events.now)) }
    ensures as_before { OnErr result (out.new.items ≡ out.old.items) }
{
    let mut text = Vec::new(*out.allocator());
    put_accepted_line(&mut text, number)?;
    put_events(&mut text, events)?;
    out.extend_from_slice(text.as_slice())
}

/// Appends the plan of such a row with its cost and its bound, unless a proof stands in their place, behind
/// this many bytes. It fails only where there is no memory left: then the log is as before.
pub fn add_plan(
    snapshot: &Snapshot,
    stated: &Stated,
    place: usize,
    out: &mut Vec<u8>,
) -> Result<(), AllocError>
    requires { IsFeasiblePlan snapshot.now stated.now.plan }
    ensures lines { OnOk result (out.new.items ≡ take place out.old.items
        ++ plan_text snapshot.now stated.now (drop place out.old.items)) }
    ensures as_before { OnErr result (out.new.items ≡ out.old.items) }
{
    let written = out.len();
    if place < written {
        return Ok(());
    }
    write_body(snapshot, &stated.plan, stated.cost, stated.bound, out)
}

/// Writes the line of a row that was refused. After an `Err` a beginning of it may be written.
pub fn put_refused(out: &mut Vec<u8>, number: u32, fault: RowFault) -> Result<(), AllocError>
    ensures { OnOk result (out.new.items ≡ out.old.items ++ refused_text number fault) }
{
    put_words(out, b"row", &[u64::from(number)])?;
    put_line(out, b" refused", &[u64::from(code_of(fault))])
}

/// Writes the comment line: whether each bound was reached, or how many were not.
fn put_solved(out: &mut Vec<u8>, unsolved: u32) -> Result<(), AllocError>
    ensures { OnOk result (out.new.items ≡ out.old.items ++ line_text (solved_words unsolved)) }
{
    if unsolved == 0 {
        out.extend_from_slice(b"# solved\n")
    } else {
        put_line(out, b"# stopped", &[u64::from(unsolved)])
    }
}

/// Writes the lines after the last event. After an `Err` a beginning of them may be written.
fn put_total(
    out: &mut Vec<u8>,
    accepted: u64,
    refused: u64,
    delivered: u64,
    unsolved: u32,
) -> Result<(), AllocError>
    ensures { OnOk result (out.new.items ≡ out.old.items
        ++ total_text accepted refused delivered unsolved) }
{
    put_line(out, b"total", &[accepted, refused, delivered])?;
    out.extend_from_slice(b"end\n")?;
    put_solved(out, unsolved)
}

/// Writes the lines after the last row: the last events, and the totals. After an `Err` a beginning of them
/// may be written.
pub fn put_end(
    out: &mut Vec<u8>,
    events: &[Event],
    accepted: u64,
    refused: u64,
    delivered: u64,
    unsolved: u32,
) -> Result<(), AllocError>
    ensures { OnOk result (out.new.items ≡ out.old.items
        ++ (events_text events.now ++ total_text accepted refused delivered unsolved)) }
{
    put_events(out, events)?;
    put_total(out, accepted, refused, delivered, unsolved)
}
