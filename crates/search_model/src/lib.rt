//! The plain values of the search, of certificates and of days, and in `specs/` the definitions that the
//! contracts of the other crates cite: the order of partial tours, nodes and splits, values and worths, what
//! a certificate proves, completion bounds and kept lists, verdicts, what a search answers, the run of a day,
//! its report, and generated cases.
//!
//! Costs are in cost units; prices, values and worths are in thousandths of a cost unit. Moments and times
//! are in ms. Cars and calls are named by their index, but for events and served calls, which name them by
//! their ids.
//!
//! The definitions speak of all tours and all plans: there is no pool, round, thread or running sum in them.
//! `specs/Worked*.antt` computes worked cases: kept lists, verdicts, turns at the root, days event by event,
//! reports, draws.
//!
//! # What is promised
//!
//! Laws over these definitions, proved in `proofs/`:
//!
//! - `split-keeps`: a split loses no plan. `plan_in_one_leaf`: each feasible plan is in exactly one leaf's
//!   node of a certificate that proves. `proves-bound`: no feasible plan costs less than a bound that a
//!   certificate proves.
//! - `worth_in_first`, `kept_in_first` and their like (`SplitLemmas`, `KeptLemmas`, `BoundLemmas`): in both
//!   nodes of a split a worth stays one, completion bounds stay right, and no kept list is longer, so claims
//!   stay enough.
//! - `tested_lists-few`: a car has fewer partial tours than the sufficient limit.
//!
//! Of the laws that depend on how cars move, `ExtendingLaw` is proved in `tour_extension`, `LowerLaw` and
//! `GrowthLaw` in `pricing_bound`, `KeptLaw` in `kept_tours`, `VerdictLaw` in `cert_checker` and `AdvanceLaw`
//! in `day_state`.
#![tactic(auto)]

mod draws;
mod interruptions;
mod items;
mod limits;

use call_sets::CarSet;
pub use draws::Draws;
use elevator_model::{BadPlan, Plan, Tour};
pub use interruptions::Interruption;
pub use items::Items;
pub use limits::Limits;
use price_scale::Price;

/// The price of a call, in a leaf of a certificate.
#[derive(Clone, Copy)]
pub struct PriceOf {
    pub call: u32,
    pub price: Price,
}

/// The greatest claim, and the greatest sum of the claims of a certificate, in partial tours.
pub const MOST_CLAIM: u64 = 10_000_000_000;

/// The worth of a car in a leaf of a certificate, and how many partial tours a checker has to visit for
/// it at most.
#[derive(Clone, Copy)]
pub struct WorthOf {
    pub car: u32,
    pub worth: i128,
    pub claim: u64,
}

/// A leaf of a certificate: prices of calls and worths of cars, in any order.
#[derive(Drop)]
pub struct Leaf {
    pub prices: Items<PriceOf>,
    pub worths: Items<WorthOf>,
}

/// A node of a certificate's tree. The nodes are in preorder: after a split come the nodes of its first
/// part and then those of its second part.
#[derive(Drop)]
pub enum Twig {
    /// The first part gives the call to the cars of `part`, the second one to the rest of its cars.
    Split { call: u32, part: CarSet },
    /// A leaf.
    Leaf(Leaf),
}

/// An answer: a plan, its cost, and a bound that no feasible plan's cost is below, as someone states them.
#[derive(Drop)]
pub struct Stated {
    pub plan: Plan,
    pub cost: u64,
    pub bound: u64,
}

/// Why a checker says no.
#[derive(Drop)]
pub enum Reason {
    /// The plan is not feasible.
    Plan(BadPlan),
    /// The plan costs something else.
    Cost {
        stated: u64,
        actual: u64,
    },
    /// The part of this split is empty, whole, or not in the call's set.
    Split {
        node: u32,
    },
    /// The prices and worths of this leaf sum to less than is needed.
    Sum {
        node: u32,
        need: i128,
        got: i128,
    },
    /// A tour of the car has a value below the worth that this leaf states.
    Under {
        node: u32,
        car: u32,
        worth: i128,
        value: i128,
        tour: Tour,
    },
    /// The visits for this car passed the claim.
    Claim {
        node: u32,
        car: u32,
        claim: u64,
    },
    /// This leaf lacks or repeats a price or a worth.
    Lists {
        node: u32,
    },
}

/// What a checker says.
#[derive(Drop)]
pub enum Verdict {
    Yes,
    No(Reason),
}

/// What a pricing of a car answers.
#[derive(Clone, Copy)]
pub struct Priced {
    /// No feasible tour of the node has a smaller value.
    pub worth: i128,
    /// How many partial tours were tried.
    pub visits: u64,
    /// Whether the limit of partial tours was reached.
    pub spent: bool,
}

/// A car's pricing in a turn, and the tour that it gave.
#[derive(Drop)]
pub struct TurnOf {
    pub priced: Priced,
    pub tour: Option<Tour>,
}

/// One pricing of every car at the root: the prices by the calls' indexes, and the pricings by the cars'.
#[derive(Drop)]
pub struct Turn {
    pub prices: Items<Price>,
    pub cars: Items<TurnOf>,
}

/// Why a search ended.
#[derive(Clone, Copy)]
pub enum StopReason {
    /// The cost equals the bound.
    Solved,
    /// This many rounds were done, which is the limit.
    Rounds { done: u64 },
    /// The car has at least this many partial tours, which is the limit, where nothing is left to split.
    Moves { car: u32, count: u64 },
    /// It was told to stop.
    Told,
}

/// A moment at which a call boarded or was delivered, by the ids of the call and the car.
#[derive(Clone, Copy)]
pub enum Event {
    Board { call: u32, car: u32, moment: u64 },
    Deliver { call: u32, car: u32, moment: u64 },
}

/// Why a row of a day is refused.
#[derive(Clone, Copy)]
pub enum RowFault {
    /// It is no row: its form, a number or a floor is bad.
    NoRow,
    /// Its time is before the present moment.
    BeforeNow,
    /// As many calls are open as may be.
    Full,
    /// No car can take the call.
    NoCar,
}

/// A call of a day: its id and the moments at which it came, boarded and was delivered.
#[derive(Clone, Copy)]
pub struct Served {
    pub call: u32,
    pub released: u64,
    pub boarded: u64,
    pub delivered: u64,
}

/// A column of a report, in ms: number, sum and greatest of the items, those of three ranks, and the mean
/// as a fraction in lowest terms.
#[derive(Clone, Copy)]
pub struct ReportColumn {
    pub count: u64,
    pub sum: u64,
    pub greatest: u64,
    pub p50: u64,
    pub p90: u64,
    pub p99: u64,
    pub mean_over: u64,
    pub mean_under: u64,
}

/// The report of a day.
#[derive(Clone, Copy)]
pub struct Report {
    /// From coming to boarding.
    pub wait: ReportColumn,
    /// From boarding to delivery.
    pub ride: ReportColumn,
    /// From coming to delivery.
    pub total: ReportColumn,
}
