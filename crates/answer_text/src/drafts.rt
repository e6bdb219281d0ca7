//! An answer section, as far as it was read.
ghost use Rattle.std.specs.Prelude.{◌≡◌, ◌<◌, length, Ok, OnOk};
ghost use Rattle.lift_text.specs.LineReader.{words};
ghost use Rattle.text_sections.specs.Sections.{Did};
ghost use Rattle.text_sections.specs.Judging.{in_order, Gives};
ghost use Rattle.answer_text.specs.Drafts.{add_stop};

use crate::kinds::{Due, LineWord};
use crate::said::{amount_said, head_said, stop_said, tour_said};
use call_state::Snapshot;
use elevator_model::{Plan, Stop, Tour};
use lift_text::{LineReader, Source, TextCode};
use search_model::Stated;
use std::alloc::{AllocFailed, Global};
use std::marker::Model;
use text_sections::{AfterLine, LineFault, Section, exactly, is_word};

/// Adds a stop to the last tour.
fn push_stop(tours: &mut Vec<Tour>, stop: Stop) -> Result<(), AllocFailed<Stop>>
    ensures { OnOk result (tours.new.items ≡ add_stop tours.old.items stop) }
{
    match tours.last_mut() {
        Some(tour) => tour.push(stop),
        None => Ok(()),
    }
}

/// What was read of an answer section.
#[derive(Drop)]
pub(crate) struct Draft<'a> {
    snapshot: &'a Snapshot,
    due: Due,
    cost: u64,
    bound: u64,
    /// The tours of the first cars: stops are added to the last of them.
    tours: Vec<Tour>,
}

impl<'a> Model for Draft<'a> {
    ghost use Rattle.answer_text.specs.Drafts.{Draft as Record};

    ghost Value = { Record };

    ghost view = { λ d. record {
      snapshot = d.snapshot.now;
      due = d.due;
      cost = d.cost;
      bound = d.bound;
      tours = d.tours.items;
    } };
}

impl<'a> Draft<'a> {
    ghost use Rattle.answer_text.specs.Drafts.{blank, stated_read, has_tour, has_all_tours, head_in, cost_in};
    ghost use Rattle.answer_text.specs.Drafts.{bound_in, tour_in, stop_in, end_in, after_word, line_word};
    ghost use Rattle.answer_text.specs.Drafts.{any_word};
    ghost use Rattle.answer_text.specs.declared.kinds.LineWord.TheVariants.{Answer, Cost, Bound};
    ghost use Rattle.answer_text.specs.declared.kinds.LineWord.TheVariants.{Tour as TourWord};
    ghost use Rattle.answer_text.specs.declared.kinds.LineWord.TheVariants.{Stop as StopWord, End};

    /// A section of which no line was read.
    pub(crate) fn new(alloc: Global, snapshot: &'a Snapshot) -> Draft<'a>
        ensures { result ≡ blank snapshot.now }
    {
        Draft {
            snapshot,
            due: Due::Head,
            cost: 0,
            bound: 0,
            tours: Vec::new(alloc),
        }
    }

    /// The answer that was read.
    pub(crate) fn into_stated(self) -> Stated
        ensures { result ≡ stated_read self.entry }
    {
        Stated {
            plan: Plan::from_vec(self.tours),
            cost: self.cost,
            bound: self.bound,
        }
    }

    /// Stops may come.
    fn with_tour(&self) -> Result<(), TextCode>
        ensures { result ≡ in_order (has_tour self.now) }
    {
        if self.tours.is_empty() {
            return Err(TextCode::OutOfOrder);
        }
        Ok(())
    }

    /// Whether each car has its tour.
    fn has_all_tours(&self) -> bool
        ensures { result ≡ has_all_tours self.now }
    {
        matches!(self.due, Due::Tours) && self.tours.len() == self.snapshot.building().cars().len()
    }

    /// The version that the line says here.
    fn head_in<S: Source>(&self, lines: &LineReader<S>) -> Result<u64, TextCode>
        ensures { result ≡ head_in self.now (words lines.now) }
    {
        if !matches!(self.due, Due::Head) {
            return Err(TextCode::OutOfOrder);
        }
        head_said(lines)
    }

    /// The cost that the line says here, in cost units.
    fn cost_in<S: Source>(&self, lines: &LineReader<S>) -> Result<u64, TextCode>
        ensures { result ≡ cost_in self.now (words lines.now) }
    {
        if !matches!(self.due, Due::Cost) {
            return Err(TextCode::OutOfOrder);
        }
        amount_said(lines)
    }

    /// The bound that the line says here, in cost units.
    fn bound_in<S: Source>(&self, lines: &LineReader<S>) -> Result<u64, TextCode>
        ensures { result ≡ bound_in self.now (words lines.now) }
    {
        if !matches!(self.due, Due::Bound) {
            return Err(TextCode::OutOfOrder);
        }
        amount_said(lines)
    }

    /// The index of the car that the line says here, which is the next one due.
    fn tour_in<S: Source>(&self, lines: &LineReader<S>) -> Result<u32, TextCode>
        ensures { result ≡ tour_in self.now (words lines.now) }
    {
        if !matches!(self.due, Due::Tours) {
            return Err(TextCode::OutOfOrder);
        }
        let car = tour_said(self.snapshot, lines)?;
        if car as usize != self.tours.len() {
            return Err(TextCode::OutOfOrder);
        }
        Ok(car)
    }

    /// The stop that the line says here.
    fn stop_in<S: Source>(&self, lines: &LineReader<S>) -> Result<Stop, LineFault>
        ensures { Gives (stop_in self.now (words lines.now)) result }
    {
        self.with_tour()?;
        stop_said(*self.tours.allocator(), self.snapshot, lines)
    }

    /// Whether the section may end here.
    fn end_in<S: Source>(&self, lines: &LineReader<S>) -> Result<AfterLine, TextCode>
        ensures { result ≡ end_in self.now (words lines.now) }
    {
        if !self.has_all_tours() {
            return Err(TextCode::OutOfOrder);
        }
        exactly(lines, 1)?;
        Ok(AfterLine::Whole)
    }

    fn take_head<S: Source>(&mut self, lines: &LineReader<S>) -> Result<AfterLine, LineFault>
        ensures { Did (after_word Answer self.old (words lines.now)) result self.new }
    {
        let _version = self.head_in(lines)?;
        self.due = Due::Cost;
        Ok(AfterLine::More)
    }

    fn take_cost<S: Source>(&mut self, lines: &LineReader<S>) -> Result<AfterLine, LineFault>
        ensures { Did (after_word Cost self.old (words lines.now)) result self.new }
    {
        self.cost = self.cost_in(lines)?;
        self.due = Due::Bound;
        Ok(AfterLine::More)
    }

    fn take_bound<S: Source>(&mut self, lines: &LineReader<S>) -> Result<AfterLine, LineFault>
        ensures { Did (after_word Bound self.old (words lines.now)) result self.new }
    {
        self.bound = self.bound_in(lines)?;
        self.due = Due::Tours;
        Ok(AfterLine::More)
    }

    fn take_tour<S: Source>(&mut self, lines: &LineReader<S>) -> Result<AfterLine, LineFault>
        ensures { Did (after_word TourWord self.old (words lines.now)) result self.new }
    {
        let _car = self.tour_in(lines)?;
        let tour = Tour::new(*self.tours.allocator());
        self.tours.push(tour)?;
        Ok(AfterLine::More)
    }

    fn take_stop<S: Source>(&mut self, lines: &LineReader<S>) -> Result<AfterLine, LineFault>
        ensures { Did (after_word StopWord self.old (words lines.now)) result self.new }
    {
        let stop = self.stop_in(lines)?;
        push_stop(&mut self.tours, stop)?;
        Ok(AfterLine::More)
    }

    fn take_end<S: Source>(&mut self, lines: &LineReader<S>) -> Result<AfterLine, LineFault>
        ensures { Did (after_word End self.old (words lines.now)) result self.new }
    {
        Ok(self.end_in(lines)?)
    }

    /// What the first word of a line is, where any line word may stand.
    fn any_word<S: Source>(lines: &LineReader<S>) -> Result<LineWord, TextCode>
        requires { 0 < length (words lines.now) }
        ensures { result ≡ any_word (words lines.now) }
    {
        if is_word(lines, 0, b"answer") {
            return Ok(LineWord::Answer);
        }
        if is_word(lines, 0, b"cost") {
            return Ok(LineWord::Cost);
        }
        if is_word(lines, 0, b"bound") {
            return Ok(LineWord::Bound);
        }
        if is_word(lines, 0, b"tour") {
            return Ok(LineWord::Tour);
        }
        if is_word(lines, 0, b"stop") {
            return Ok(LineWord::Stop);
        }
        if is_word(lines, 0, b"end") {
            return Ok(LineWord::End);
        }
        Err(TextCode::NoLineWord)
    }

    /// What the first word of a line is, which must be `answer` where the first line is due.
    fn line_word<S: Source>(&self, lines: &LineReader<S>) -> Result<LineWord, TextCode>
        requires { 0 < length (words lines.now) }
        ensures { result ≡ line_word self.now.due (words lines.now) }
    {
        match self.due {
            Due::Head => {
                if is_word(lines, 0, b"answer") {
                    Ok(LineWord::Answer)
                } else {
                    Err(TextCode::NoLineWord)
                }
            }
            Due::Cost | Due::Bound | Due::Tours => Draft::any_word(lines),
        }
    }
}

impl<'a> Section for Draft<'a> {
    ghost use Rattle.answer_text.specs.Drafts.{after};

    ghost after = { after };

    fn take_line<S: Source>(&mut self, lines: &LineReader<S>) -> Result<AfterLine, LineFault> {
        match self.line_word(lines)? {
            LineWord::Answer => self.take_head(lines),
            LineWord::Cost => self.take_cost(lines),
            LineWord::Bound => self.take_bound(lines),
            LineWord::Tour => self.take_tour(lines),
            LineWord::Stop => self.take_stop(lines),
            LineWord::End => self.take_end(lines),
        }
    }
}
