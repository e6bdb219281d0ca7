//! Tables that were read.
ghost use Rattle.std.specs.Prelude.{◌≡◌};

use motion_table::{Triple, judge_table};
use std::marker::Model;

/// A table of measured travel times.
///
/// It has 2 to 64 floors. Each time is in ms: 0 from a floor to itself, and 1 to 20,000,000 between two.
#[derive(Drop)]
pub struct Table {
    floors: u32,
    /// Row after row: the times from floor 0 to each floor come first.
    times: Vec<u64>,
}

impl Model for Table {
    ghost use Rattle.call_state.specs.Squares.{square_of};
    ghost use Rattle.elevator_model.specs.Travel.{Square};
    ghost use Rattle.motion_table.specs.Triples.{IsTable};

    ghost Value = { Square };

    ghost view = { λ t. square_of t.floors t.times.items };

    ghost invariant = { λ t. IsTable (square_of t.floors t.times.items) };
}

impl Table {
    ghost use Rattle.std.specs.Prelude.{◌≡◌, IfErr, OnOk};
    ghost use Rattle.call_state.specs.Squares.{square_of};
    ghost use Rattle.elevator_model.specs.Travel.{IsTravelSquare};
    ghost use Rattle.motion_table.specs.Triples.{IsFirstTriple, IsTable};

    /// The table with these times, row after row.
    pub(crate) fn of_times(floors: u32, times: Vec<u64>) -> Table
        requires { IsTable (square_of floors times.items) }
        ensures { result ≡ square_of floors times.items }
    {
        Table { floors, times }
    }

    /// How many floors there are.
    pub fn floors(&self) -> u32
        ensures value { result ≡ self.now.floors }
        ensures table { IsTable self.now }
    {
        self.floors
    }

    /// Whether no way over a third floor is shorter; else the first three floors for which one is, in the
    /// order of the first, then the second, then the third.
    pub fn judge(&self) -> Result<(), Triple>
        ensures travel { OnOk result (IsTravelSquare self.now) }
        ensures triple { IfErr result (IsFirstTriple self.now) }
        ensures table { IsTable self.now }
    {
        judge_table(self.floors, &self.times)
    }
}
