//! What pools are like.

use search_model::Draws;

/// What the columns cost.
#[derive(Clone, Copy)]
pub(crate) enum Costs {
    /// Anything below some 10^7 thousandths.
    Any,
    /// So much for each call, and something besides.
    ByCall,
    /// One of three costs.
    Equal,
}

/// Where the centres are.
#[derive(Clone, Copy)]
pub(crate) enum Centre {
    Zero,
    /// About what a call costs.
    Near,
    /// Far above it.
    Far,
    /// Below 0.
    Negative,
    /// Some of them below 0.
    Mixed,
}

/// Which columns are tried first.
#[derive(Clone, Copy)]
pub(crate) enum Firsts {
    None,
    /// Each with a chance of one in three.
    Some,
    All,
}

/// What is drawn of a pool before its columns.
#[derive(Clone, Copy)]
pub(crate) struct Shape {
    pub(crate) calls: u32,
    pub(crate) cars: u32,
    /// How many columns are drawn.
    pub(crate) columns: u32,
    /// The most calls that are drawn for a column: it may be one twice.
    pub(crate) most_taken: u32,
    pub(crate) reach: u64,
    pub(crate) costs: Costs,
    pub(crate) centre: Centre,
    pub(crate) firsts: Firsts,
    /// Columns take no call from this one on.
    pub(crate) takable: u32,
    /// Cars from this one on have no column.
    pub(crate) usable: u32,
    /// Whether there are columns that together take each call once with each car.
    pub(crate) has_plan: bool,
    /// Whether the columns are put to the tours seen first.
    pub(crate) is_seen: bool,
}

/// How many columns are drawn: none, few or many.
fn drawn_count(draws: &mut Draws) -> u32 {
    match draws.pick(8) {
        0 => draws.pick(4),
        1 => draws.pick(20),
        2 | 3 => draws.pick(80),
        _ => 60 + draws.pick(136),
    }
}

/// From 1 to 10^9: one in two is of any size, the others let prices reach what columns cost.
fn drawn_reach(draws: &mut Draws) -> u64 {
    if draws.pick(2) == 0 {
        return 10_000_000 + u64::from(draws.pick(990_000_001));
    }
    let mut most: u32 = 1;
    for _ in 0..draws.pick(10) {
        most = most.saturating_mul(10);
    }
    if draws.pick(4) == 0 {
        u64::from(most)
    } else {
        1 + u64::from(draws.pick(most.max(1)))
    }
}

fn drawn_costs(draws: &mut Draws) -> Costs {
    match draws.pick(4) {
        0 => Costs::Any,
        1 => Costs::Equal,
        _ => Costs::ByCall,
    }
}

fn drawn_place(draws: &mut Draws) -> Centre {
    match draws.pick(8) {
        0 => Centre::Zero,
        1 => Centre::Far,
        2 => Centre::Negative,
        3 => Centre::Mixed,
        _ => Centre::Near,
    }
}

fn drawn_firsts(draws: &mut Draws) -> Firsts {
    match draws.pick(4) {
        0 => Firsts::Some,
        1 => Firsts::All,
        _ => Firsts::None,
    }
}

/// The whole number, but with a chance of one in eight a lesser one.
fn all_or_some(draws: &mut Draws, all: u32) -> u32 {
    if draws.pick(8) == 0 {
        draws.pick(all.max(1))
    } else {
        all
    }
}

impl Shape {
    pub(crate) fn drawn(draws: &mut Draws) -> Self {
        let calls = 1 + draws.pick(16);
        let cars = 1 + draws.pick(5);
        Shape {
            calls,
            cars,
            columns: drawn_count(draws),
            most_taken: 1 + draws.pick(6),
            reach: drawn_reach(draws),
            costs: drawn_costs(draws),
            centre: drawn_place(draws),
            firsts: drawn_firsts(draws),
            takable: all_or_some(draws, calls),
            usable: all_or_some(draws, cars),
            has_plan: draws.pick(2) == 0,
            is_seen: draws.pick(3) == 0,
        }
    }
}
