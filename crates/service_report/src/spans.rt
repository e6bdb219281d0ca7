//! The times of served calls, and their report.
ghost use Rattle.std.specs.Prelude.{◌≡◌, ◌<◌, ◌^◌, IfOk, map, sum};
ghost use Rattle.search_model.specs.Reports.{column_of, report_of};
ghost use Rattle.service_report.specs.Spans.{time_of};

use crate::columns::column_of;
use search_model::{Report, ReportColumn, Served};
use std::alloc::{AllocError, Global};

/// A part of the time of a served call.
#[derive(Clone, Copy)]
pub(crate) enum Span {
    /// From coming to boarding.
    Wait,
    /// From boarding to delivery.
    Ride,
    /// From coming to delivery.
    Total,
}

impl Span {
    /// This time of a call, in ms. A moment before the one that it follows counts as that one.
    fn of(self, call: &Served) -> u64
        ensures { result ≡ time_of self call.now }
    {
        let wait = call.boarded.saturating_sub(call.released);
        let ride = call.delivered.saturating_sub(call.boarded);
        match self {
            Span::Wait => wait,
            Span::Ride => ride,
            Span::Total => wait + ride,
        }
    }

    /// This time of each call, in ms and in the order of the calls.
    fn of_each(self, alloc: Global, served: &[Served]) -> Result<Vec<u64>, AllocError>
        ensures { IfOk result (λ times. times.items ≡ map (time_of self) served.now) }
    {
        served.iter().map(|call| self.of(call)).collect(alloc)
    }

    /// The column of this time.
    fn column(self, alloc: Global, served: &[Served]) -> Result<ReportColumn, AllocError>
        requires { sum (map (time_of self) served.now) < 2 ^ 64 }
        ensures { IfOk result (λ column. column ≡ column_of (map (time_of self) served.now)) }
    {
        Ok(column_of(self.of_each(alloc, served)?))
    }
}

/// The report of served calls, each of which counts once, in time n log n for n calls. The sum of their total
/// times has to have at most 64 bits. The only error is that memory runs out, of which it takes that of one
/// number a call.
pub fn report_of(alloc: Global, served: &[Served]) -> Result<Report, AllocError>
    requires { (report_of served.now).total.sum < 2 ^ 64 }
    ensures { IfOk result (λ report. report ≡ report_of served.now) }
{
    let wait = Span::Wait.column(alloc, served)?;
    let ride = Span::Ride.column(alloc, served)?;
    let total = Span::Total.column(alloc, served)?;
    Ok(Report { wait, ride, total })
}
