//! A line of jobs and its seats, over one atomic word.
ghost use Rattle.std.specs.Prelude.{◌≡◌, ℕ, ◌+◌, ◌-◌, ◌<◌, ◌≤◌, [], ◌∷◌, ◌++◌, length, All, Any, IfOk};
ghost use Rattle.std.specs.Prelude.{SomeIff};
ghost use Rattle.work_fan.specs.Line.{times, EachOnce, EachBelow};

use atomic_table::{Join, Play, Seat, Split, Table, TableRule};
use std::alloc::{AllocError, Global};
use std::collections::LinkedList;
use std::marker::{Brand, Model, PhantomData};

/// The most workers of a line.
pub const MOST_WORKERS: u32 = 16;

/// What the holder of a seat knows: the numbers that it drew, in order, and for how many workers it stands.
/// No value of it is made.
pub struct Share {
    pub drawn: LinkedList<u64>,
    pub allowance: u32,
}

/// How many jobs a line has, and for how many workers.
#[derive(Clone, Copy)]
pub struct LineSizes {
    pub count: u32,
    pub workers: u32,
}

pub struct DrawnOnce;

impl TableRule<(), Share, LineSizes> for DrawnOnce {
    ghost use Rattle.std.specs.Prelude.{[]};
    ghost use Rattle.work_fan.specs.Rule.{share, IsKept};

    ghost holds = { IsKept };

    ghost first = { λ limits. share [] limits.workers };
}

struct Drawing;

impl Play<(), Share> for Drawing {
    ghost use Rattle.work_fan.specs.Rule.{Draws};

    ghost then = { Draws };
}

struct Looking;

impl Play<(), Share> for Looking {
    ghost use Rattle.work_fan.specs.Rule.{Looks};

    ghost then = { Looks };
}

// How much of an allowance a split moves. Each call of `split_by` picks it.
trait Part {
    ghost part: { ℕ };
}

impl Part for Brand {
    ghost part = { 0 };
}

struct Cutting<P: Part>(PhantomData<P>);

impl<P: Part> Split<Share> for Cutting<P> {
    ghost use Rattle.std.specs.Prelude.{[], ◌-◌};
    ghost use Rattle.work_fan.specs.Rule.{share};

    ghost left = { λ s. share s.drawn (s.allowance - P.part) };

    ghost right = { λ _. share [] P.part };
}

struct Merging;

impl Join<Share> for Merging {
    ghost use Rattle.std.specs.Prelude.{[], ◌+◌, ◌++◌};
    ghost use Rattle.work_fan.specs.Rule.{share};

    ghost both = { λ s t. share (s.drawn ++ t.drawn) (s.allowance + t.allowance) };

    ghost spent = { share [] 0 };
}

/// A line of jobs, numbered from 0, from which workers draw. Threads may share it.
///
/// Contracts see which line it is, the count of its jobs and the number of its workers.
#[derive(Drop)]
pub struct JobLine {
    table: Table<(), Share, LineSizes, DrawnOnce, Global>,
    count: u32,
}

impl Model for JobLine {
    ghost use Rattle.std.specs.Prelude.{◌≡◌};
    ghost use Rattle.work_fan.specs.Line.{LineView, line_code};

    ghost Value = { LineView };

    ghost coded = { line_code };

    ghost view = { λ l. record {
      name = l.table.shared.table_id;
      count = l.table.shared.key.count;
      workers = l.table.shared.key.workers;
    } };

    ghost invariant = { λ l.
        (l.count ≡ l.table.shared.key.count)
        × (l.table.shared.table_id.words ≡ 1)
        × (l.table.shared.table_id.slots ≡ 0) };
}

/// The right to draw from one line. It has no bytes, and may move to a thread.
///
/// Contracts see the line that it is of, the list of the numbers that it drew, and its allowance,
/// which is the number of workers that it stands for.
#[derive(Drop)]
pub struct JobSeat {
    seat: Seat<(), Share>,
}

impl Model for JobSeat {
    ghost use Rattle.std.specs.Prelude.{◌≡◌, []};
    ghost use Rattle.work_fan.specs.Line.{SeatView, seat_code};

    ghost Value = { SeatView };

    ghost coded = { seat_code };

    ghost view = { λ s. record {
      line = s.seat.table_id;
      drawn = s.seat.me.0.drawn;
      allowance = s.seat.me.0.allowance;
    } };

    ghost invariant = { λ s. s.seat.me.1 ≡ [] };
}

impl JobLine {
    /// A line of `count` jobs for 1 to 16 workers, and the seat that stands for all of them.
    pub fn begin(alloc: Global, count: u32, workers: u32) -> Result<(JobLine, JobSeat), AllocError>
        requires { (1 ≤ workers) × (workers ≤ MOST_WORKERS) }
        ensures line { IfOk result (λ r. (r.0.count ≡ count) × (r.0.workers ≡ workers)) }
        ensures seat { IfOk result (λ r.
            (r.1.line ≡ r.0.name) × (r.1.drawn ≡ []) × (r.1.allowance ≡ workers)) }
    {
        let (table, seat) = Table::of_words(alloc, &[0], &LineSizes { count, workers })?;
        Ok((JobLine { table, count }, JobSeat { seat }))
    }

    /// Draws the next number, in one atomic step: the job that this worker does next, or None exactly
    /// where no job is left.
    ///
    /// The number is greater than each that the seat drew before.
    pub fn draw(&self, seat: &mut JobSeat) -> Option<u32>
        requires line { seat.old.line ≡ self.now.name }
        requires goes_on { All (λ n. n < self.now.count) seat.old.drawn }
        requires allowance { 0 < seat.old.allowance }
        ensures number { (n : ℕ)
            × (seat.new.drawn ≡ seat.old.drawn ++ n ∷ [])
            × SomeIff result (n < self.now.count) n
            × All (λ k. k < n) seat.old.drawn }
        ensures once { EachOnce seat.new.drawn }
        ensures kept { (seat.new.line ≡ seat.old.line) × (seat.new.allowance ≡ seat.old.allowance) }
    {
        let number = self.table.shared.fetch_add::<Drawing>(&mut seat.seat, 0, 1);
        if number < u64::from(self.count) {
            Some(number as u32)
        } else {
            None
        }
    }

    /// Moves `part` of the seat's allowance to a new seat, which has drawn nothing.
    pub fn split(&self, seat: &mut JobSeat, part: u32) -> JobSeat
        requires line { seat.old.line ≡ self.now.name }
        requires empty { seat.old.drawn ≡ [] }
        requires part { part ≤ seat.old.allowance }
        ensures kept { (seat.new.line ≡ seat.old.line)
            × (seat.new.drawn ≡ [])
            × (seat.new.allowance + part ≡ seat.old.allowance) }
        ensures made { (result.line ≡ seat.old.line)
            × (result.drawn ≡ [])
            × (result.allowance ≡ part) }
    {
        self.split_by::<Brand>(seat, part)
    }

    fn split_by<P: Part>(&self, seat: &mut JobSeat, part: u32) -> JobSeat
        requires line { seat.old.line ≡ self.now.name }
        requires empty { seat.old.drawn ≡ [] }
        requires part { part ≤ seat.old.allowance }
        requires picked { part ≡ P.part }
        ensures kept { (seat.new.line ≡ seat.old.line)
            × (seat.new.drawn ≡ [])
            × (seat.new.allowance + part ≡ seat.old.allowance) }
        ensures made { (result.line ≡ seat.old.line)
            × (result.drawn ≡ [])
            × (result.allowance ≡ part) }
    {
        let _ = part;
        let new = self.table.shared.split_seat::<Cutting<P>>(&mut seat.seat);
        JobSeat { seat: new }
    }

    /// The seat takes in another of the same line: what that one drew follows what it drew itself, and the
    /// allowances are added. The two have drawn no number both.
    pub fn join(&self, seat: &mut JobSeat, other: JobSeat)
        requires seat { seat.old.line ≡ self.now.name }
        requires other { other.line ≡ self.now.name }
        ensures drawn { seat.new.drawn ≡ seat.old.drawn ++ other.drawn }
        ensures allowance { seat.new.allowance ≡ seat.old.allowance + other.allowance }
        ensures line { seat.new.line ≡ seat.old.line }
        ensures once { EachOnce seat.new.drawn }
    {
        let JobSeat { seat: other } = other;
        self.table
            .shared
            .join_seat::<Merging>(&mut seat.seat, other);
        // The look tells that the joined list has no number twice.
        self.table.shared.load::<Looking>(&mut seat.seat, 0);
    }

    /// Ends the line, and answers how many numbers were drawn. The seat that stands for all workers has
    /// drawn each number below the answer once, and no other. So where one of its draws answered None,
    /// it has drawn each job once.
    pub fn close(self, seat: JobSeat) -> u64
        requires line { seat.line ≡ self.name }
        requires whole { seat.allowance ≡ self.workers }
        ensures numbers { EachBelow result seat.drawn }
        ensures draws { result ≡ length seat.drawn }
        ensures complete { Any (λ n. self.count ≤ n) seat.drawn
            → (k : ℕ) → k < self.count → times k seat.drawn ≡ 1 }
    {
        let JobLine { table, count: _ } = self;
        let JobSeat { seat } = seat;
        let closed = table.close_with(seat);
        let draws = closed.word(0);
        closed.free();
        draws
    }
}
