//! What is drawn of a day, or of a plan.

/// What an event ends.
#[derive(Clone, Copy)]
pub enum LegKind {
    /// From when the call came to its boarding.
    Wait,
    /// From there to its delivery.
    Ride,
    /// A car's way to a stop, whoever gets off or on there.
    Visit,
}

/// What an event ends: a call's boarding its wait, its delivery its ride, and a stop of a plan a visit.
#[derive(Clone, Copy)]
pub struct Leg {
    pub kind: LegKind,
    /// The number of the call: that of its row, or its place in the snapshot.
    pub call: u64,
    /// The car of the event.
    pub car: u32,
    /// Where it began.
    pub from: u32,
    /// When it began, in ms.
    pub since: u64,
    /// Where the event happened.
    pub to: u32,
    /// The moment of the event, in ms.
    pub until: u64,
    /// When the car left for it, in ms, from where its event before was.
    pub left: u64,
    /// From when on the persons of the event get off or on, in ms: at a stop one event comes after another.
    pub begun: u64,
    /// When they have done so, in ms.
    pub done: u64,
}

/// A row that was refused.
#[derive(Clone, Copy)]
pub struct Refusal {
    /// The row's time, in ms.
    pub moment: u64,
    /// Its origin.
    pub floor: u32,
}

/// What is told to the right of a picture: minutes, or the stops of each tour, which are a minute apart.
#[derive(Clone, Copy)]
pub enum Axis {
    Minutes,
    Stops,
}

/// What is drawn of a day, or of a plan.
#[derive(Drop)]
pub struct Scene {
    pub axis: Axis,
    /// How many floors the building has.
    pub floors: u32,
    /// When it begins, in ms.
    pub start: u64,
    /// The ids of the cars, in the building's order.
    pub cars: Vec<u32>,
    /// In the order of the events.
    pub legs: Vec<Leg>,
    /// In the order of the rows.
    pub refusals: Vec<Refusal>,
}
