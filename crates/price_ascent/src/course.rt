//! A subgradient ascent.

ghost use Rattle.std.specs.Prelude.{◌≡◌, ◌≤◌, length};

use crate::paces::Pace;
use crate::readings::{Reading, Tours};
use elevator_model::MOST_CALLS;
use price_scale::Price;

/// Which way the prices move, and how far.
#[derive(Clone, Copy)]
struct AscentCourse {
    pace: Pace,
    /// The greatest sum so far, and the one that is to be reached.
    sum: i128,
    target: i128,
    /// For each call, in parts of one: the average of what it lacked.
    direction: [i64; MOST_CALLS],
    /// The share of the gap that a move is to close, in parts of one.
    rate: i64,
}

impl AscentCourse {
    fn new(pace: Pace, first: &Reading, target: i128) -> Self {
        let mut direction = [0; MOST_CALLS];
        for (part, lack) in direction.iter_mut().zip(first.lacks.as_slice()) {
            *part = lack.saturating_mul(pace.one);
        }
        AscentCourse {
            pace,
            sum: first.sum,
            target,
            direction,
            rate: pace.one,
        }
    }

    /// Whether the sum has reached the target, as nearly as is asked.
    fn has_arrived(&self) -> bool {
        self.target <= self.sum.saturating_add(self.pace.tolerance)
    }

    /// Moves on from the best prices.
    fn step(&self, best: &[Price], next: &mut [Price])
        ensures { length next.new ≡ length next.old }
    {
        let gap = self.target.saturating_sub(self.sum);
        self.pace.step(best, &self.direction, gap, self.rate, next);
    }

    /// Notes a reading, and says whether its sum is the greatest so far.
    fn note(&mut self, reading: &Reading) -> bool {
        let pace = self.pace;
        for (part, lack) in self.direction.iter_mut().zip(reading.lacks.as_slice()) {
            *part = pace.average(*part, lack.saturating_mul(pace.one));
        }
        let has_gained = self.sum < reading.sum;
        if has_gained {
            self.sum = reading.sum;
        }
        self.rate = pace.rate_after(self.rate, has_gained);
        has_gained
    }
}

/// Moves the prices to ones at which the tours say more, and answers what they say there. `next` is room for
/// as many prices. The sum that is hoped for is the target.
pub fn raise<T: Tours>(
    tours: &T,
    pace: Pace,
    target: i128,
    best: &mut [Price],
    next: &mut [Price],
) -> i128
    requires calls { length best.old ≤ MOST_CALLS }
    requires room { length next.old ≡ length best.old }
    ensures best { length best.new ≡ length best.old }
    ensures room { length next.new ≡ length next.old }
{
    let mut course = AscentCourse::new(pace, &tours.read(best), target);
    for _ in 0..pace.moves {
        if course.has_arrived() {
            break;
        }
        course.step(best, next);
        if course.note(&tours.read(next)) {
            best.copy_from_slice(next);
        }
    }
    course.sum
}
