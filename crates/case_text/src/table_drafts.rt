//! A table as far as its lines were read.
ghost use Rattle.std.specs.Prelude.{◌≡◌};

use crate::table_order::Due;
use crate::tables::Table;
use lift_text::{LineReader, Source};
use motion_table::read_row;
use std::alloc::Global;
use std::marker::Model;
use text_sections::{AfterLine, LineFault, Section, exactly, is_word, number};

/// What was read of a table.
#[derive(Drop)]
pub(crate) struct TableDraft {
    due: Due,
    /// The times of the lines so far, in ms.
    times: Vec<u64>,
}

impl Model for TableDraft {
    ghost use Rattle.case_text.specs.TableDrafts.{Draft, HasFloors};

    ghost Value = { Draft };

    ghost view = { λ d. record { due = d.due; times = d.times.items } };

    ghost invariant = { λ d. HasFloors d.due };
}

impl TableDraft {
    ghost use Rattle.std.specs.Prelude.{◌≡◌};
    ghost use Rattle.lift_text.specs.LineReader.{words};
    ghost use Rattle.motion_table.specs.Tables.{AreFloors};
    ghost use Rattle.text_sections.specs.Sections.{Did, step_of};
    ghost use Rattle.case_text.specs.declared.table_order.Due.TheVariants.{Head, Times};
    ghost use Rattle.case_text.specs.TableDrafts.{no_draft, square_read, taken, IsWhole};

    /// Nothing was read yet.
    pub(crate) fn new(alloc: Global) -> TableDraft
        ensures { result ≡ no_draft }
    {
        TableDraft {
            due: Due::Head,
            times: Vec::new(alloc),
        }
    }

    /// The table that was read whole.
    pub(crate) fn finish(self) -> Table
        requires { IsWhole self }
        ensures { result ≡ square_read self }
    {
        match self.due {
            Due::End { floors } => Table::of_times(floors, self.times),
            Due::Head | Due::Times { .. } => unreachable!(),
        }
    }

    fn take_head<S: Source>(&mut self, lines: &LineReader<S>) -> Result<AfterLine, LineFault>
        ensures { Did (step_of (taken Head self.old (words lines.now))) result self.new }
    {
        exactly(lines, 2)?;
        number(lines, 1, 1, 1)?;
        self.due = Due::Times { floors: None };
        Ok(AfterLine::More)
    }

    fn take_times<S: Source>(
        &mut self,
        floors: Option<u32>,
        lines: &LineReader<S>,
    ) -> Result<AfterLine, LineFault>
        requires { AreFloors floors }
        ensures { Did (step_of (taken (Times floors) self.old (words lines.now))) result self.new }
    {
        let floors = read_row(lines, floors, &mut self.times)?;
        self.due = Due::after_rows(floors, self.times.len());
        Ok(AfterLine::More)
    }
}

impl Section for TableDraft {
    ghost use Rattle.case_text.specs.TableDrafts.{after};

    ghost after = { after };

    fn take_line<S: Source>(&mut self, lines: &LineReader<S>) -> Result<AfterLine, LineFault> {
        if !is_word(lines, 0, self.due.name()) {
            return Err(LineFault::from(self.due.misplaced(lines)));
        }
        match self.due {
            Due::Head => self.take_head(lines),
            Due::Times { floors } => self.take_times(floors, lines),
            Due::End { .. } => {
                exactly(lines, 1)?;
                Ok(AfterLine::Whole)
            }
        }
    }
}
