//! TourDraft tours as stops, each with the calls that board there.

use call_sets::CallSet;
use elevator_model::{Boards, Stop, Tour};
use std::alloc::{AllocError, Global};

/// A stop of a draft tour, and what is known of the car there. Moments are in ms.
#[derive(Clone, Copy)]
pub(crate) struct DraftStop {
    pub(crate) floor: u32,
    /// The calls that board here.
    pub(crate) boards: CallSet,
    /// The moments at which the doors are open and at which the car leaves.
    pub(crate) opened: u64,
    pub(crate) leaves: u64,
    /// The persons carried when the car arrives and when it leaves.
    pub(crate) arriving: u64,
    pub(crate) load: u64,
    /// The calls that boarded at earlier stops, and what a ms more of waiting would cost them.
    pub(crate) before: CallSet,
    pub(crate) rate_before: u64,
}

impl DraftStop {
    /// A stop of which nothing is known yet.
    pub(crate) fn new(floor: u32, boards: CallSet) -> Self {
        Self {
            floor,
            boards,
            opened: 0,
            leaves: 0,
            arriving: 0,
            load: 0,
            before: CallSet::empty(),
            rate_before: 0,
        }
    }

    /// Whether nobody boards or gets off.
    pub(crate) fn is_bare(&self) -> bool {
        self.boards.is_empty() && self.load == self.arriving
    }
}

/// The stops of a tour.
pub(crate) fn stops_of(alloc: Global, tour: &Tour) -> Result<Vec<DraftStop>, AllocError> {
    let mut stops = Vec::new(alloc);
    for stop in tour.stops() {
        let boards = CallSet::of_list(stop.boards.as_slice());
        stops.push(DraftStop::new(stop.floor, boards))?;
    }
    Ok(stops)
}

/// The tour that makes these stops.
pub(crate) fn tour_of(alloc: Global, drafted: &[DraftStop]) -> Result<Tour, AllocError> {
    let mut stops = Vec::new(alloc);
    for stop in drafted {
        stops.push(Stop {
            floor: stop.floor,
            boards: boards_of(alloc, stop.boards)?,
        })?;
    }
    Ok(Tour::from_vec(stops))
}

/// The calls of a set, rising.
fn boards_of(alloc: Global, calls: CallSet) -> Result<Boards, AllocError> {
    let mut boards = Boards::new(alloc);
    for call in calls.iter() {
        boards.push(call)?;
    }
    Ok(boards)
}
