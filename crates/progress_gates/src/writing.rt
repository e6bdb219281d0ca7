//! What standard error shows of the work's progress.

use byte_streams::{Gate, Progress, SearchState};
use std::io;
use std::sync::atomic::{AtomicU64, Ordering};

/// A gate that writes what it is told to standard error. A line that cannot be written there is lost, and
/// nothing else.
#[derive(Drop)]
pub struct ErrorGate<'a, E: Eprint> {
    standard_error: &'a E,
    /// How many partial tours all pricings visited so far.
    visits: AtomicU64,
}

impl<'a, E: Eprint> ErrorGate<'a, E> {
    /// For the work of one command.
    pub fn new(standard_error: &'a E) -> ErrorGate<'a, E> {
        ErrorGate {
            standard_error,
            visits: AtomicU64::new(0),
        }
    }

    /// A line as `rounds 34 visits 67155 open 5 cost 2599500 bound 2590001 gap 0.36`: the gap in percent of the cost,
    /// rounded down.
    fn write_search(&self, state: SearchState) -> io::Result<()> {
        let SearchState {
            rounds,
            open_nodes,
            cost,
            bound,
        } = state;
        let gap = hundredths_of_percent(cost.saturating_sub(bound), cost);
        let (percent, rest) = (gap / 100, gap % 100);
        let visits = self.visits.load(Ordering::Relaxed);
        eprintln!(self.standard_error;
            "rounds {rounds} visits {visits} open {open_nodes} cost {cost} bound {bound} gap {percent}.{rest:02}"
        )
    }
}

/// How many hundredths of a percent a part is of the whole, rounded down.
fn hundredths_of_percent(part: u64, whole: u64) -> u128 {
    u128::from(part) * 10_000 / u128::from(whole.max(1))
}

impl<E: Eprint> Gate for ErrorGate<'_, E> {
    ghost never_stops = { λ _. Unit {0} };

    fn enter(&self, _job: u32) {}

    fn tell(&self, progress: Progress) {
        let _written = match progress {
            Progress::Begins(state) | Progress::Goes(state) | Progress::Ends(state) => {
                self.write_search(state)
            }
            Progress::Priced(visits) => {
                self.visits.fetch_add(visits, Ordering::Relaxed);
                Ok(())
            }
            Progress::Rows(rows) => eprintln!(self.standard_error; "rows {rows}"),
        };
    }

    fn may_go_on(&self) -> bool {
        true
    }
}
