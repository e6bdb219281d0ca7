//! A log behind its first line, as far as it was read.
ghost use Rattle.std.specs.Prelude.{◌≡◌, ◌<◌, ◌≤◌, ◌++◌, ◌∷◌, [], IfOk, OnOk, length};
ghost use Rattle.elevator_model.specs.Snapshot.{car_count};
ghost use Rattle.lift_text.specs.LineReader.{words};
ghost use Rattle.text_sections.specs.Sections.{Did};
ghost use Rattle.picture_reader.specs.LogDrafts.{is_plan_word as is_plan_word_lem};
ghost use Rattle.picture_reader.specs.LogDrafts.{is_proof_word as is_proof_word_lem};
ghost use Rattle.picture_reader.specs.LogDrafts.{log_word as log_word_lem};

use crate::log_kinds::{LogWord, Part, Said};
use crate::log_legs::{
    Serving, Told, last_of_car, last_wait, refusal_of, ride_leg, row_at, wait_leg,
};
use call_state::Snapshot;
use day_text::GoodRow;
use elevator_model::{LATEST_MOMENT, most_cars};
use lift_picture::{Axis, Leg, Refusal, Scene};
use lift_text::{LineReader, Source, TextCode};
use snapshot_text::car_named;
use std::alloc::{AllocError, Global};
use std::marker::Model;
use text_sections::{AfterLine, LineFault, Section, at_least, exactly, is_word, number, short};

/// What was read of a log.
#[derive(Drop)]
pub(crate) struct LogDraft<'a> {
    opening: &'a Snapshot,
    rows: &'a [Option<GoodRow>],
    part: Part,
    /// How many rows were told of.
    told: u64,
    legs: Vec<Leg>,
    refusals: Vec<Refusal>,
}

impl<'a> Model for LogDraft<'a> {
    ghost use Rattle.picture_reader.specs.LogDrafts.{Draft};

    ghost Value = { Draft };

    ghost view = { λ d. record {
      opening = d.opening.now;
      rows = d.rows.now;
      part = d.part;
      told = d.told;
      legs = d.legs.items;
      refusals = d.refusals.items;
    } };
}

/// Appends a leg.
fn push_leg(legs: &mut Vec<Leg>, leg: Leg) -> Result<(), AllocError>
    ensures { OnOk result (legs.new.items ≡ legs.old.items ++ leg ∷ []) }
{
    legs.push(leg)?;
    Ok(())
}

/// Appends a refused row.
fn push_refusal(refusals: &mut Vec<Refusal>, refusal: Refusal) -> Result<(), AllocError>
    ensures { OnOk result (refusals.new.items ≡ refusals.old.items ++ refusal ∷ []) }
{
    refusals.push(refusal)?;
    Ok(())
}

fn is_plan_word<S: Source>(lines: &LineReader<S>) -> bool
    requires { 0 < length (words lines.now) }
    ensures { result ≡ is_plan_word_lem (words lines.now) }
{
    is_word(lines, 0, b"cost")
        || is_word(lines, 0, b"bound")
        || is_word(lines, 0, b"tour")
        || is_word(lines, 0, b"stop")
}

fn is_proof_word<S: Source>(lines: &LineReader<S>) -> bool
    requires { 0 < length (words lines.now) }
    ensures { result ≡ is_proof_word_lem (words lines.now) }
{
    is_word(lines, 0, b"answer") || is_word(lines, 0, b"certificate")
}

/// What the first word of a line among those of rows is.
fn log_word<S: Source>(lines: &LineReader<S>) -> Result<LogWord, TextCode>
    requires { 0 < length (words lines.now) }
    ensures { result ≡ log_word_lem (words lines.now) }
{
    if is_word(lines, 0, b"row") {
        return Ok(LogWord::Row);
    }
    if is_word(lines, 0, b"board") {
        return Ok(LogWord::Board);
    }
    if is_word(lines, 0, b"deliver") {
        return Ok(LogWord::Deliver);
    }
    if is_plan_word(lines) {
        return Ok(LogWord::Plan);
    }
    if is_proof_word(lines) {
        return Ok(LogWord::Proof);
    }
    if is_word(lines, 0, b"total") {
        return Ok(LogWord::Total);
    }
    if is_word(lines, 0, b"end") {
        return Ok(LogWord::End);
    }
    Err(TextCode::NoLineWord)
}

impl<'a> LogDraft<'a> {
    ghost use Rattle.picture_reader.specs.LogDrafts.{answer_said, blank, board_said, deliver_said};
    ghost use Rattle.picture_reader.specs.LogDrafts.{event_said};
    ghost use Rattle.picture_reader.specs.LogDrafts.{row_said, said_by, said_in, serving, total_said};
    ghost use Rattle.picture_reader.specs.LogDrafts.{with_said};
    ghost use Rattle.picture_reader.specs.LogLegs.{row_at as row_at_lem, row_known};
    ghost use Rattle.picture_reader.specs.LogLegs.{last_wait as last_wait_lem};
    ghost use Rattle.picture_reader.specs.LogLegs.{wait_known};
    ghost use Rattle.picture_reader.specs.DayScenes.{day_shown};
    ghost use Rattle.picture_reader.specs.Tellings.{IsSceneOf};

    /// A log of which only the first line was read: of a day that opens so, over these rows.
    pub(crate) fn new(
        alloc: Global,
        opening: &'a Snapshot,
        rows: &'a [Option<GoodRow>],
    ) -> LogDraft<'a>
        ensures { result ≡ blank opening.now rows.now }
    {
        LogDraft {
            opening,
            rows,
            part: Part::Log,
            told: 0,
            legs: Vec::new(alloc),
            refusals: Vec::new(alloc),
        }
    }

    /// What is drawn of the day.
    pub(crate) fn into_scene(self, alloc: Global) -> Result<Scene, AllocError>
        ensures scene { IfOk result (IsSceneOf (day_shown self.entry)) }
        ensures few { IfOk result (λ scene. length scene.cars.items ≤ 16) }
    {
        let opening = self.opening;
        let building = opening.building();
        // For the proof: a building has at most 16 cars.
        let _most = most_cars(building.version());
        let cars = building.cars().iter().map(|car| car.id).collect(alloc)?;
        Ok(Scene {
            axis: Axis::Minutes,
            floors: building.heights().len() as u32,
            start: opening.now(),
            cars,
            legs: self.legs,
            refusals: self.refusals,
        })
    }

    /// The row of this number.
    fn row_known(&self, number: u64) -> Result<GoodRow, TextCode>
        ensures { result ≡ row_known (row_at_lem self.now.rows number) }
    {
        match row_at(self.rows, number) {
            Some(row) => Ok(row),
            None => Err(TextCode::UnknownId),
        }
    }

    /// The last wait of this call.
    fn wait_known(&self, call: u64) -> Result<Leg, TextCode>
        ensures { result ≡ wait_known (last_wait_lem self.now.legs call) }
    {
        match last_wait(&self.legs, call) {
            Some(wait) => Ok(wait),
            None => Err(TextCode::OutOfOrder),
        }
    }

    /// What a line says of this row, which is the next one.
    fn answer_said<S: Source>(&self, row: u64, lines: &LineReader<S>) -> Result<Said, TextCode>
        requires { 2 < length (words lines.now) }
        ensures { result ≡ answer_said self.now row (words lines.now) }
    {
        if is_word(lines, 2, b"accepted") {
            exactly(lines, 3)?;
            return Ok(Said::Accepted(row));
        }
        if is_word(lines, 2, b"refused") {
            exactly(lines, 4)?;
            number(lines, 3, 41, 44)?;
            let refusal = refusal_of(self.opening.now(), row_at(self.rows, row));
            return Ok(Said::Refused(row, refusal));
        }
        Err(TextCode::NoLineWord)
    }

    fn row_said<S: Source>(&self, lines: &LineReader<S>) -> Result<Said, TextCode>
        ensures { result ≡ row_said self.now (words lines.now) }
    {
        at_least(lines, 3)?;
        let row = number(lines, 1, 1, self.rows.len() as u64)?;
        if row - 1 != self.told {
            return Err(TextCode::OutOfOrder);
        }
        self.answer_said(row, lines)
    }

    /// What the line of an event tells.
    fn event_said<S: Source>(&self, lines: &LineReader<S>) -> Result<Told, TextCode>
        ensures value { result ≡ event_said self.now (words lines.now) }
        ensures car { IfOk result (λ told. told.car < car_count self.now.opening) }
    {
        exactly(lines, 4)?;
        let call = number(lines, 1, 1, self.rows.len() as u64)?;
        let id = short(lines, 2)?;
        let car = car_named(self.opening.building(), id)?;
        let moment = number(lines, 3, 0, LATEST_MOMENT)?;
        Ok(Told { call, car, moment })
    }

    /// How the car serves this event, at this floor.
    fn serving(&self, told: Told, floor: u32) -> Serving
        requires { told.car < car_count self.now.opening }
        ensures { result ≡ serving self.now told floor }
    {
        let opening = self.opening.spec(told.car).opening;
        let before = last_of_car(&self.legs, told.car);
        let travel = self.opening.building().travel();
        Serving::of(travel, opening, before, told.moment, floor)
    }

    fn board_said<S: Source>(&self, lines: &LineReader<S>) -> Result<Said, TextCode>
        ensures { result ≡ board_said self.now (words lines.now) }
    {
        let told = self.event_said(lines)?;
        let row = self.row_known(told.call)?;
        let boarding = self.opening.spec(told.car).boarding;
        let serving = self.serving(told, row.origin);
        Ok(Said::Happened(wait_leg(boarding, serving, &row, told)))
    }

    fn deliver_said<S: Source>(&self, lines: &LineReader<S>) -> Result<Said, TextCode>
        ensures { result ≡ deliver_said self.now (words lines.now) }
    {
        let told = self.event_said(lines)?;
        let row = self.row_known(told.call)?;
        let wait = self.wait_known(told.call)?;
        let alighting = self.opening.spec(told.car).alighting;
        let serving = self.serving(told, row.destination);
        Ok(Said::Happened(ride_leg(alighting, serving, &row, wait.until, told)))
    }

    fn total_said<S: Source>(&self, lines: &LineReader<S>) -> Result<Said, TextCode>
        ensures { result ≡ total_said self.now (words lines.now) }
    {
        if self.told != self.rows.len() as u64 {
            return Err(TextCode::OutOfOrder);
        }
        exactly(lines, 4)?;
        Ok(Said::Turned(Part::Totals))
    }

    /// What a line with this first word says among those of rows.
    fn said_by<S: Source>(&self, word: LogWord, lines: &LineReader<S>) -> Result<Said, TextCode>
        ensures { result ≡ said_by word self.now (words lines.now) }
    {
        match word {
            LogWord::Row => self.row_said(lines),
            LogWord::Board => self.board_said(lines),
            LogWord::Deliver => self.deliver_said(lines),
            LogWord::Plan => Ok(Said::Passed),
            LogWord::Proof => Ok(Said::Turned(Part::Proof)),
            LogWord::Total => self.total_said(lines),
            LogWord::End => Err(TextCode::OutOfOrder),
        }
    }

    /// What a line among those of rows says.
    fn said_in_log<S: Source>(&self, lines: &LineReader<S>) -> Result<Said, TextCode>
        requires { 0 < length (words lines.now) }
        ensures { result ≡ said_in Part.Log self.now (words lines.now) }
    {
        let word = log_word(lines)?;
        self.said_by(word, lines)
    }

    /// What a line says.
    fn said<S: Source>(&self, lines: &LineReader<S>) -> Result<Said, TextCode>
        requires { 0 < length (words lines.now) }
        ensures { result ≡ said_in self.now.part self.now (words lines.now) }
    {
        match self.part {
            Part::Log => self.said_in_log(lines),
            Part::Proof => {
                if is_word(lines, 0, b"end") {
                    Ok(Said::Turned(Part::Log))
                } else {
                    Ok(Said::Passed)
                }
            }
            Part::Totals => {
                if !is_word(lines, 0, b"end") {
                    return Err(TextCode::OutOfOrder);
                }
                exactly(lines, 1)?;
                Ok(Said::Ended)
            }
        }
    }

    /// Keeps what a line says.
    fn keep(&mut self, said: Said) -> Result<AfterLine, LineFault>
        ensures { Did (with_said self.old said) result self.new }
    {
        match said {
            Said::Passed => {}
            Said::Turned(part) => self.part = part,
            Said::Accepted(row) => self.told = row,
            Said::Refused(row, refusal) => {
                push_refusal(&mut self.refusals, refusal)?;
                self.told = row;
            }
            Said::Happened(leg) => push_leg(&mut self.legs, leg)?,
            Said::Ended => return Ok(AfterLine::Whole),
        }
        Ok(AfterLine::More)
    }
}

impl<'a> Section for LogDraft<'a> {
    ghost use Rattle.picture_reader.specs.LogDrafts.{after};

    ghost after = { after };

    fn take_line<S: Source>(&mut self, lines: &LineReader<S>) -> Result<AfterLine, LineFault> {
        let said = self.said(lines)?;
        self.keep(said)
    }
}
