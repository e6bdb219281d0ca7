//! What is told of a command's work while it goes on. Nothing rests on it.

use byte_streams::{Gate, Progress, SearchState};
use std::sync::atomic::{AtomicU32, AtomicU64, Ordering};

/// A day is told of each time so many rows more were done.
const ROWS_AT_ONCE: u32 = 100;

/// A search is told of where its bound has risen by the gap divided by this since it was told of last.
const PARTS_OF_GAP: u64 = 1000;

/// The work whose progress is told.
#[derive(Clone, Copy)]
pub enum Watched {
    /// Nothing is told.
    Nothing,
    /// A search.
    Search,
    /// The rows of a day.
    Rows,
}

impl Watched {
    /// The work, where its progress is wanted.
    pub fn only_if(self, is_wanted: bool) -> Watched {
        if is_wanted { self } else { Watched::Nothing }
    }
}

/// A gate before another one, which takes each job, and what is to be told of the work that is watched: of a
/// search its start, its end, each cheaper plan and a bound that has risen; of a day each hundredth row.
#[derive(Drop)]
pub struct Watch<'a, G: Gate> {
    gate: &'a G,
    watched: Watched,
    /// What was told last of a search: the cost and the bound.
    cost: AtomicU64,
    bound: AtomicU64,
    /// What was told last of a day.
    rows: AtomicU32,
}

impl<'a, G: Gate> Watch<'a, G> {
    /// Before this gate, for the work of one command.
    pub fn new(gate: &'a G, watched: Watched) -> Watch<'a, G> {
        Watch {
            gate,
            watched,
            cost: AtomicU64::new(0),
            bound: AtomicU64::new(0),
            rows: AtomicU32::new(0),
        }
    }

    /// Whether the search has come on since it was told of last.
    fn has_come_on(&self, state: SearchState) -> bool {
        let cost = self.cost.load(Ordering::Relaxed);
        let bound = self.bound.load(Ordering::Relaxed);
        let rise = state.bound.saturating_sub(bound);
        let gap = cost.saturating_sub(bound);
        state.cost < cost || (rise > 0 && rise.saturating_mul(PARTS_OF_GAP) >= gap)
    }

    fn tell_search(&self, progress: Progress, state: SearchState) {
        self.cost.store(state.cost, Ordering::Relaxed);
        self.bound.store(state.bound, Ordering::Relaxed);
        self.gate.tell(progress);
    }

    fn watch_search(&self, progress: Progress) {
        match progress {
            Progress::Begins(state) | Progress::Ends(state) => self.tell_search(progress, state),
            Progress::Goes(state) => {
                if self.has_come_on(state) {
                    self.tell_search(progress, state);
                }
            }
            Progress::Priced(_) => self.gate.tell(progress),
            Progress::Rows(_) => {}
        }
    }

    fn watch_rows(&self, progress: Progress) {
        if let Progress::Rows(rows) = progress {
            let told = self.rows.load(Ordering::Relaxed);
            if rows.saturating_sub(told) >= ROWS_AT_ONCE {
                self.rows.store(rows, Ordering::Relaxed);
                self.gate.tell(progress);
            }
        }
    }
}

impl<G: Gate> Gate for Watch<'_, G> {
    ghost never_stops = { λ it. G.never_stops it.gate.now };

    fn enter(&self, job: u32) {
        self.gate.enter(job);
    }

    fn tell(&self, progress: Progress) {
        match self.watched {
            Watched::Nothing => {}
            Watched::Search => self.watch_search(progress),
            Watched::Rows => self.watch_rows(progress),
        }
    }

    fn may_go_on(&self) -> bool {
        self.gate.may_go_on()
    }
}
