//! A log row by row.

ghost use Rattle.std.specs.Prelude.{◌≡◌, ◌≤◌, ◌<◌, ◌+◌, ◌∷◌, ◌^◌, [], None, Some, All, IfOk, OnOk};
ghost use Rattle.std.specs.Prelude.{IsTrue, length, map};
ghost use Rattle.std.specs.Prelude.{nat_lt, if◌then◌else◌};
ghost use Rattle.byte_streams.specs.Streams.{Rose};
ghost use Rattle.elevator_model.specs.Plans.{IsFeasiblePlan};
ghost use Rattle.elevator_model.specs.Snapshot.{IsAccepted};
ghost use Rattle.search_model.specs.Advancing.{last_events};
ghost use Rattle.search_model.specs.Days.{Day, is_row, opening_day};
ghost use Rattle.day_state.specs.Openings.{IsOpeningSnapshot};
ghost use Rattle.lift_text.specs.LineReader.{text, failure};
ghost use Rattle.day_text.specs.Records.{row_as_said};
ghost use Rattle.day_text.specs.LogTexts.{refused_words};
ghost use Rattle.day_audit.specs.Taking.{IsUnread, TakesLines};
ghost use Rattle.log_rows.specs.Rows.{IsGood, said_of};
ghost use Rattle.day_audit.specs.Progress.{AreRowsTaken, IsDayOf, IsLogAudited, IsNextAccepted};
ghost use Rattle.day_audit.specs.Progress.{IsRowTaken};
ghost use Rattle.day_audit.specs.Progress.{after_accepted, after_refused, next_number};

use crate::findings::Finding;
use crate::lines::{Totals, take_end, take_refused};
use crate::rows::take_accepted;
use byte_streams::Gate;
use call_state::Snapshot;
use cert_checker::JudgingCrew;
use day_laws::world_of_row;
use day_state::World;
use day_text::GoodRow;
use lift_text::{LineReader, Source, TextFault};
use search_model::{Event, RowFault, Stated};
use std::alloc::{AllocError, Global};
use std::mem;
use work_fan::Runtime;

/// What a log tells of which every line is right.
#[derive(Clone, Copy)]
pub struct Audited {
    /// How many rows are accepted.
    pub accepted: u32,
    /// How many of them have a bound below their cost.
    pub unsolved: u32,
}

/// How far an audit is in a log: the world to which the printed plans lead, and what was counted.
#[derive(Drop)]
pub(crate) struct LogProgress {
    world: World,
    accepted: u32,
    refused: u32,
    unsolved: u32,
}

impl LogProgress {
    /// Before the first row of a day that opens so. It fails only where there is no memory left.
    fn opening(alloc: Global, opening: Snapshot) -> Result<LogProgress, AllocError>
        requires { IsOpeningSnapshot opening }
        ensures { IfOk result (λ progress. IsDayOf progress (opening_day opening)) }
    {
        let world = World::opening(alloc, opening)?;
        // For the proof: a reader of the snapshot tells that it keeps the rules.
        let _moment = world.snapshot().now();
        Ok(LogProgress {
            world,
            accepted: 0,
            refused: 0,
            unsolved: 0,
        })
    }

    /// The number of the next row, from 1.
    fn number(&self) -> u32
        requires { next_number self.now < 2 ^ 32 }
        ensures { result ≡ next_number self.now }
    {
        self.refused + self.accepted + 1
    }

    /// Goes on with this plan in this world, which has taken the call of the next row. The world before is
    /// left in its place.
    fn accept(&mut self, world: &mut World, printed: Stated)
        requires number { next_number self.old < 2 ^ 32 }
        requires few { self.old.unsolved ≤ self.old.accepted }
        requires feasible { IsFeasiblePlan world.old.snapshot printed.plan }
        ensures { self.new ≡ after_accepted self.old world.old.snapshot printed }
    {
        self.unsolved += unsolved_by(&printed);
        self.accepted += 1;
        world.set_plan(printed.plan);
        mem::swap(&mut self.world, world);
    }
}

/// How many more rows are unsolved, where this is printed of one.
fn unsolved_by(printed: &Stated) -> u32
    ensures { result ≡ (if nat_lt printed.now.bound printed.now.cost then 1 else 0) }
{
    if printed.bound < printed.cost { 1 } else { 0 }
}

/// Takes the line of the next row, which is refused for this fault.
fn refuse_next<S: Source>(
    lines: &mut LineReader<S>,
    progress: &mut LogProgress,
    fault: RowFault,
) -> Result<(), Finding>
    requires whole { failure lines.old ≡ None }
    requires number { next_number progress.old < 2 ^ 32 }
    ensures takes { TakesLines (refused_words (next_number progress.old) fault ∷ []) (text S.left lines.old)
        result (text S.left lines.new) }
    ensures progress { OnOk result (progress.new ≡ after_refused progress.old) }
    ensures ok { OnOk result (failure lines.new ≡ None) }
    ensures read { IsUnread result
        → Rose (S.faults lines.old.source.now) (S.faults lines.new.source.now) }
    ensures counted { S.faults lines.old.source.now ≤ S.faults lines.new.source.now }
{
    match take_refused(lines, progress.number(), fault) {
        Ok(()) => {
            progress.refused += 1;
            Ok(())
        }
        Err(finding) => Err(finding),
    }
}

/// Takes the lines of the next row, which is accepted: this world has taken its call, and this is what
/// happened until its time.
fn accept_next<S: Source, C: JudgingCrew, G: Gate>(
    runtime: &Runtime<C, G>,
    lines: &mut LineReader<S>,
    progress: &mut LogProgress,
    world: &mut World,
    events: &[Event],
) -> Result<(), Finding>
    requires whole { failure lines.old ≡ None }
    requires number { next_number progress.old < 2 ^ 32 }
    requires few { progress.old.unsolved ≤ progress.old.accepted }
    ensures takes { IsNextAccepted progress.old world.old.snapshot events.now (text S.left lines.old) result
        progress.new (text S.left lines.new) }
    ensures accepted { IsAccepted world.old.snapshot }
    ensures ok { OnOk result (failure lines.new ≡ None) }
    ensures read { IsUnread result
        → Rose (S.faults lines.old.source.now) (S.faults lines.new.source.now) }
    ensures counted { S.faults lines.old.source.now ≤ S.faults lines.new.source.now }
{
    let number = progress.number();
    match take_accepted(runtime, lines, number, events, world.snapshot()) {
        Ok(printed) => {
            progress.accept(world, printed);
            Ok(())
        }
        Err(finding) => Err(finding),
    }
}

/// Takes the lines of the next row, whose numbers lie in their ranges.
fn take_good_row<S: Source, C: JudgingCrew, G: Gate>(
    runtime: &Runtime<C, G>,
    lines: &mut LineReader<S>,
    progress: &mut LogProgress,
    row: &GoodRow,
) -> Result<(), Finding>
    requires whole { failure lines.old ≡ None }
    requires number { next_number progress.old < 2 ^ 32 }
    requires good { IsTrue (is_row progress.old.world.snapshot.building (row_as_said row.now)) }
    requires day { (day : Day) × IsDayOf progress.old day }
    ensures taken { (day : Day) → IsDayOf progress.old day → IsRowTaken day (Some (row_as_said row.now))
        (text S.left lines.old) result progress.new (text S.left lines.new) }
    ensures ok { OnOk result (failure lines.new ≡ None) }
    ensures read { IsUnread result
        → Rose (S.faults lines.old.source.now) (S.faults lines.new.source.now) }
    ensures counted { S.faults lines.old.source.now ≤ S.faults lines.new.source.now }
{
    let mut events = Vec::new(runtime.alloc);
    let number = progress.number();
    match world_of_row(runtime.alloc, &progress.world, number, row, &mut events) {
        Ok(Ok(mut world)) => {
            let events = events.as_slice();
            accept_next(runtime, lines, progress, &mut world, events)
        }
        Ok(Err(fault)) => refuse_next(lines, progress, fault),
        Err(_) => Err(Finding::Text {
            fault: TextFault::NoMemory,
        }),
    }
}

/// Takes the lines of the next row; none is one that says no numbers in their ranges.
fn take_row<S: Source, C: JudgingCrew, G: Gate>(
    runtime: &Runtime<C, G>,
    lines: &mut LineReader<S>,
    progress: &mut LogProgress,
    row: &Option<GoodRow>,
) -> Result<(), Finding>
    requires whole { failure lines.old ≡ None }
    requires number { next_number progress.old < 2 ^ 32 }
    requires good { IsGood progress.old.world.snapshot.building row.now }
    requires day { (day : Day) × IsDayOf progress.old day }
    ensures taken { (day : Day) → IsDayOf progress.old day → IsRowTaken day (said_of row.now)
        (text S.left lines.old) result progress.new (text S.left lines.new) }
    ensures ok { OnOk result (failure lines.new ≡ None) }
    ensures read { IsUnread result
        → Rose (S.faults lines.old.source.now) (S.faults lines.new.source.now) }
    ensures counted { S.faults lines.old.source.now ≤ S.faults lines.new.source.now }
{
    match row {
        Some(row) => take_good_row(runtime, lines, progress, row),
        None => refuse_next(lines, progress, RowFault::NoRow),
    }
}

/// Takes the lines of the rows, one after another.
fn take_rows<S: Source, C: JudgingCrew, G: Gate>(
    runtime: &Runtime<C, G>,
    lines: &mut LineReader<S>,
    progress: &mut LogProgress,
    rows: &[Option<GoodRow>],
) -> Result<(), Finding>
    requires whole { failure lines.old ≡ None }
    requires few { next_number progress.old + length rows.now ≤ 2 ^ 32 }
    requires good { All (IsGood progress.old.world.snapshot.building) rows.now }
    requires day { (day : Day) × IsDayOf progress.old day }
    ensures taken { (day : Day) → IsDayOf progress.old day → AreRowsTaken day (map said_of rows.now)
        (text S.left lines.old) result progress.new (text S.left lines.new) }
    ensures ok { OnOk result (failure lines.new ≡ None) }
    ensures read { IsUnread result
        → Rose (S.faults lines.old.source.now) (S.faults lines.new.source.now) }
    ensures counted { S.faults lines.old.source.now ≤ S.faults lines.new.source.now }
{
    for row in rows {
        match take_row(runtime, lines, progress, row) {
            Ok(()) => {}
            Err(finding) => return Err(finding),
        }
    }
    Ok(())
}

/// Takes the lines after the last row, where these are the events of the rest of the plan.
fn take_last_lines<S: Source>(
    lines: &mut LineReader<S>,
    progress: &LogProgress,
    events: &[Event],
) -> Result<Audited, Finding>
    requires whole { failure lines.old ≡ None }
    requires day { (day : Day) × IsDayOf progress.now day }
    requires events { events.now ≡ last_events progress.now.world }
    ensures taken { (day : Day) → IsDayOf progress.now day → IsLogAudited day []
        (text S.left lines.old) result }
    ensures read { IsUnread result
        → Rose (S.faults lines.old.source.now) (S.faults lines.new.source.now) }
    ensures counted { S.faults lines.old.source.now ≤ S.faults lines.new.source.now }
{
    // Each accepted call is delivered by now.
    let totals = Totals {
        accepted: u64::from(progress.accepted),
        refused: u64::from(progress.refused),
        delivered: u64::from(progress.accepted),
    };
    match take_end(lines, events, totals) {
        Ok(()) => Ok(Audited {
            accepted: progress.accepted,
            unsolved: progress.unsolved,
        }),
        Err(finding) => Err(finding),
    }
}

/// Takes the lines after the last row.
fn take_last<S: Source>(
    alloc: Global,
    lines: &mut LineReader<S>,
    progress: &LogProgress,
) -> Result<Audited, Finding>
    requires whole { failure lines.old ≡ None }
    requires day { (day : Day) × IsDayOf progress.now day }
    ensures taken { (day : Day) → IsDayOf progress.now day → IsLogAudited day []
        (text S.left lines.old) result }
    ensures read { IsUnread result
        → Rose (S.faults lines.old.source.now) (S.faults lines.new.source.now) }
    ensures counted { S.faults lines.old.source.now ≤ S.faults lines.new.source.now }
{
    let mut events = Vec::new(alloc);
    match progress.world.run_out(alloc, &mut events) {
        Ok(()) => take_last_lines(lines, progress, events.as_slice()),
        Err(_) => Err(Finding::Text {
            fault: TextFault::NoMemory,
        }),
    }
}

/// Audits the lines of the rows and those after them.
fn audit_from<S: Source, C: JudgingCrew, G: Gate>(
    runtime: &Runtime<C, G>,
    lines: &mut LineReader<S>,
    progress: &mut LogProgress,
    rows: &[Option<GoodRow>],
) -> Result<Audited, Finding>
    requires whole { failure lines.old ≡ None }
    requires few { next_number progress.old + length rows.now ≤ 2 ^ 32 }
    requires good { All (IsGood progress.old.world.snapshot.building) rows.now }
    requires day { (day : Day) × IsDayOf progress.old day }
    ensures audited { (day : Day) → IsDayOf progress.old day → IsLogAudited day (map said_of rows.now)
        (text S.left lines.old) result }
    ensures read { IsUnread result
        → Rose (S.faults lines.old.source.now) (S.faults lines.new.source.now) }
    ensures counted { S.faults lines.old.source.now ≤ S.faults lines.new.source.now }
{
    match take_rows(runtime, lines, progress, rows) {
        Ok(()) => take_last(runtime.alloc, lines, progress),
        Err(finding) => Err(finding),
    }
}

/// Audits the log of the day that opens with this snapshot, over these rows: all lines behind its first. The
/// rows are at most 2^32 - 1; those that say no numbers in their ranges are none.
pub fn audit_log<S: Source, C: JudgingCrew, G: Gate>(
    runtime: &Runtime<C, G>,
    lines: &mut LineReader<S>,
    opening: Snapshot,
    rows: &[Option<GoodRow>],
) -> Result<Audited, Finding>
    requires whole { failure lines.old ≡ None }
    requires opening { IsOpeningSnapshot opening }
    requires good { All (IsGood opening.building) rows.now }
    requires few { length rows.now + 1 ≤ 2 ^ 32 }
    ensures audited { IsLogAudited (opening_day opening) (map said_of rows.now) (text S.left lines.old)
        result }
    ensures read { IsUnread result
        → Rose (S.faults lines.old.source.now) (S.faults lines.new.source.now) }
    ensures counted { S.faults lines.old.source.now ≤ S.faults lines.new.source.now }
{
    match LogProgress::opening(runtime.alloc, opening) {
        Ok(mut progress) => audit_from(runtime, lines, &mut progress, rows),
        Err(_) => Err(Finding::Text {
            fault: TextFault::NoMemory,
        }),
    }
}
