//! What a node remembers of its pricings.

ghost use Rattle.std.specs.Prelude.{◌≡◌, ◌<◌, ◌≤◌, true, IfOk, IfSome, MatchOption, length};
ghost use Rattle.search_model.specs.Nodes.{is_part, set_of};
ghost use Rattle.search_tree.specs.Branches.{AreSingle};

use crate::ascent::PACE;
use crate::boards::calls_in;
use crate::columns::NodeTours;
use crate::fixed::ONE;
use crate::moves::take_back;
use crate::outlooks::Outlook;
use crate::shares::Shares;
use assign_branch::Node;
use elevator_model::{MOST_CALLS, MOST_CARS};
use partition_relaxation::SeenTours;
use price_ascent::{Lacks, percent_of, raise};
use price_scale::{Price, SCALE};
use restricted_master::Pool;
use search_model::TurnOf;
use search_tree::{MOST_PRICINGS, Sheet, SplitAt, first_choice};
use std::alloc::{AllocError, Global};

/// How many pricings are judged together.
const JUDGED: u32 = 4;

/// After how many pricings at the ascent's prices the relaxation may be asked.
const EARLY: u32 = 3;

/// Up to this many calls the ascent's prices are as good, and it takes less time.
const FEW_CALLS: usize = 12;

/// How often the way to the model's prices is halved at most.
const MOST_BACK: u32 = 3;

/// The least rate, and the least one of a new node.
const LEAST_RATE: i64 = ONE / 64;

const LEAST_NEW_RATE: i64 = ONE / 8;

/// A call counts as divided by a relaxation where each side has more than this share, in 2^20ths.
const LEAST_SIDE: i64 = ONE / 1024;

/// How many cars there may be.
const CARS: usize = MOST_CARS as usize;

/// What a node of a search remembers of its pricings and of those of the nodes above it: from it come the
/// prices of the next pricing, how long each car's may take, when the node is split, and where.
#[derive(Drop)]
pub struct Steps {
    /// For each call, in 2^20ths: the average of 1 less the number of tours that took it, of which the newest
    /// pricing makes a sixth.
    violation: Vec<i64>,
    shares: Shares,
    /// The share of the gap that a step is to close, in 2^20ths.
    rate: i64,
    /// How often the way to the model's prices is halved.
    back: u32,
    /// By how much each of the last pricings raised the leaf's sum, the newest first, in thousandths of a
    /// cost unit.
    gains: [i128; 4],
    /// How many pricings the node had.
    pricings: u32,
    /// Whether some car's last pricing reached the limit of partial tours.
    was_spent: bool,
    /// How many partial tours each car's last pricing tried, in the node or in one above it.
    tried: [u64; CARS],
    /// What the relaxation said after the last pricing.
    outlook: Outlook,
}

/// A cost, in cost units, as thousandths of a cost unit.
fn scaled(cost: u64) -> i128 {
    SCALE.saturating_mul(i128::from(cost))
}

impl Steps {
    /// Of a root that was not priced yet. It fails only where there is no memory left.
    pub fn new(alloc: Global, calls: usize, cars: usize) -> Result<Self, AllocError> {
        Ok(Steps {
            violation: vec![in alloc; 0; calls]?,
            shares: Shares::new(alloc, calls, cars)?,
            rate: ONE,
            back: 0,
            gains: [0; 4],
            pricings: 0,
            was_spent: false,
            tried: [0; CARS],
            outlook: Outlook::new(alloc, calls, cars)?,
        })
    }

    /// Of a part of this node, which was not priced yet. It fails only where there is no memory left.
    pub fn child(&self, alloc: Global) -> Result<Self, AllocError> {
        Ok(Steps {
            violation: self.violation.as_slice().to_vec(alloc)?,
            shares: self.shares.copy(alloc)?,
            rate: self.rate.max(LEAST_NEW_RATE),
            back: 0,
            gains: [0; 4],
            pricings: 0,
            was_spent: false,
            tried: self.tried,
            outlook: self.outlook.part(alloc)?,
        })
    }

    /// Takes in a pricing of all cars, which raised the leaf's sum by this much, in thousandths of a cost
    /// unit. It is spent where some car's pricing reached the limit of partial tours: its tours then tell
    /// nothing.
    pub fn note(&mut self, cars: &[TurnOf], gain: i128, spent: bool) {
        if !spent {
            self.note_tours(cars);
        }
        self.note_gain(gain, spent);
        self.outlook.note_gain(gain);
        self.note_tried(cars);
    }

    /// Whether the relaxation is asked, where the leaf's sum is below the cost of the best known plan by this much,
    /// in thousandths of a cost unit: with more than a few calls, once the last three pricings together closed less
    /// than a fifth of the gap; and from then on, also in the node's parts.
    fn asks_relaxation(&self, gap: i128) -> bool {
        let [first, second, third, _] = self.gains;
        let gained = first.saturating_add(second).saturating_add(third);
        let is_slow = gained.saturating_mul(5) < gap.saturating_add(gained);
        FEW_CALLS < self.violation.len()
            && (self.outlook.is_used() || EARLY <= self.pricings && is_slow)
    }

    /// What the relaxation over the tours seen says of the node after a pricing, where its leaf is this one and the
    /// best known plan costs this many cost units; nothing, where it is not asked. It fails only where there is no
    /// memory left.
    pub fn outlook(
        &self,
        alloc: Global,
        leaf: &Sheet,
        target_cost: u64,
        node: &Node,
        seen: &SeenTours,
    ) -> Result<Outlook, AllocError> {
        let gap = scaled(target_cost).saturating_sub(leaf.sum());
        if !self.asks_relaxation(gap) {
            return self.outlook.part(alloc);
        }
        self.outlook.next(alloc, leaf, gap, node, seen)
    }

    /// Takes in what the relaxation says.
    pub fn take(&mut self, outlook: Outlook) {
        self.outlook = outlook;
    }

    /// Takes in how many partial tours each car's pricing tried.
    fn note_tried(&mut self, cars: &[TurnOf]) {
        for (tried, turn) in self.tried.iter_mut().zip(cars) {
            *tried = turn.priced.visits;
        }
    }

    /// How many partial tours the car's last pricing tried, in the node or in one above it: 0 before the
    /// first.
    pub fn tried(&self, car: usize) -> u64 {
        self.tried.get(car).copied().unwrap_or(0)
    }

    /// Takes in which car took which call.
    fn note_tours(&mut self, cars: &[TurnOf]) {
        let mut lacks = Lacks::new(self.violation.len());
        for (car, turn) in cars.iter().enumerate() {
            let calls = calls_in(&turn.tour);
            lacks.note(calls);
            self.shares.note(car, calls);
        }
        for (part, lack) in self.violation.iter_mut().zip(lacks.as_slice()) {
            let newest = lack.saturating_mul(ONE);
            *part = part.saturating_add(newest.saturating_sub(*part) / 6);
        }
    }

    /// Takes in what a pricing gained.
    fn note_gain(&mut self, gain: i128, spent: bool) {
        let has_gained = 0 < gain;
        let percent = match (spent, has_gained) {
            (true, _) => 50,
            (false, true) => 117,
            (false, false) => 83,
        };
        self.rate = percent_of(percent, self.rate).min(2 * ONE).max(LEAST_RATE);
        self.back = if has_gained {
            self.back.saturating_sub(1)
        } else {
            self.back.saturating_add(1).min(MOST_BACK)
        };
        let [first, second, third, _] = self.gains;
        self.gains = [gain, first, second, third];
        self.was_spent = spent;
        self.pricings = self.pricings.saturating_add(1);
    }

    /// The prices at which the node is priced next, where its leaf is this one and the best known plan costs
    /// this many cost units. It fails only where there is no memory left.
    ///
    /// They are those of the relaxation, where it says anything. Else they lie on the way to prices at which the pool's tours in the node say more than the leaf does. Where
    /// the leaf's own are the best that are found, they are a step from there by what the calls lacked on
    /// average.
    pub fn next_prices(
        &self,
        alloc: Global,
        leaf: &Sheet,
        target_cost: u64,
        node: &Node,
        pool: &Pool,
    ) -> Result<Vec<Price>, AllocError>
        ensures { IfOk result (λ prices. length prices.items ≡ length leaf.now.prices) }
    {
        let target = scaled(target_cost);
        let from = leaf.prices();
        let told = self.outlook.prices.as_slice();
        if told.len() == from.len() && told != from {
            return told.to_vec(alloc);
        }
        let mut prices = from.to_vec(alloc)?;
        let mut room = from.to_vec(alloc)?;
        let sum = raise(
            &NodeTours { pool, node },
            PACE,
            target,
            prices.as_mut_slice(),
            room.as_mut_slice(),
        );
        if leaf.sum() < sum && prices.as_slice() != from {
            take_back(prices.as_mut_slice(), from, self.back);
        } else {
            let gap = target.saturating_sub(leaf.sum());
            PACE.step(
                from,
                self.violation.as_slice(),
                gap,
                self.rate,
                prices.as_mut_slice(),
            );
        }
        Ok(prices)
    }

    /// Whether the node is to be split, where its leaf's sum is below the cost of the best known plan by this
    /// much, in thousandths of a cost unit: the relaxation promises less than a tenth of the gap, or the last
    /// pricing closed less and reached the limit of partial tours; where the relaxation says nothing, the last four
    /// pricings together closed less; or it had as many as a node may have.
    pub fn is_due(&self, gap: i128) -> bool {
        if self.outlook.is_told() {
            return MOST_PRICINGS <= self.pricings
                || self.outlook.is_slow(gap)
                || self.is_stuck(gap);
        }
        let mut gained: i128 = 0;
        for gain in &self.gains {
            gained = gained.saturating_add(*gain);
        }
        let is_slow = gained.saturating_mul(10) < gap.saturating_add(gained);
        MOST_PRICINGS <= self.pricings || JUDGED <= self.pricings && is_slow
    }

    /// Whether the last pricing reached the limit of partial tours and closed less than a tenth of the gap: so may
    /// the next ones at this node, whatever the relaxation promises.
    fn is_stuck(&self, gap: i128) -> bool {
        let [last, ..] = self.gains;
        1 < self.pricings && self.was_spent && last.saturating_mul(10) < gap
    }

    /// At which call the node is split, of this many, and how: such that the tours of the relaxation are divided as
    /// evenly as may be, or, where they are not divided, those of the pricings. None exactly where each call has
    /// one car.
    pub fn choice(&self, node: &Node, calls: usize) -> Option<SplitAt>
        requires { calls ≤ MOST_CALLS }
        ensures call { MatchOption result (AreSingle calls node.now) (λ at. at.call < calls) }
        ensures part { IfSome result (λ at. is_part (set_of node.now at.call) at.part ≡ true) }
    {
        if let Some(at) = self.outlook.shares.most_even(node, calls, LEAST_SIDE) {
            return Some(at);
        }
        match self.shares.most_even(node, calls, -1) {
            Some(at) => Some(at),
            None => first_choice(node, calls),
        }
    }
}
