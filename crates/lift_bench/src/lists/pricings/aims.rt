//! What is asked of a pricing, and what the listed tours answer.

ghost use Rattle.std.specs.Prelude.{◌≡◌, length};
ghost use Rattle.elevator_model.specs.Snapshot.{call_count};

use crate::lists::pricings::tours::Listed;
use assign_branch::Node;
use call_sets::CallSet;
use call_state::Snapshot;
use case_kit::{boards_of, lawful_cost};
use elevator_model::Tour;
use partial_tours::Prefix;
use price_scale::Price;
use pricing_bound::bound;

/// A car in a node, with prices.
#[derive(Clone, Copy)]
pub(crate) struct Aim<'a> {
    pub(crate) snapshot: &'a Snapshot,
    pub(crate) node: &'a Node,
    pub(crate) car: u32,
    /// One for each call.
    pub(crate) prices: &'a [Price],
    /// All tours of the car, those outside the node too.
    pub(crate) tours: &'a [Listed],
}

impl Aim<'_> {
    /// The calls that the car may board.
    pub(crate) fn allowed(&self) -> CallSet {
        self.node.allowed(self.car)
    }

    /// Whether a tour in which these calls board is in the node.
    pub(crate) fn admits(&self, boards: CallSet) -> bool {
        let required = self.node.required(self.car);
        boards.minus(self.allowed()).is_empty() && required.minus(boards).is_empty()
    }

    /// What a tour of this cost is worth in which these calls board, in thousandths of a cost unit.
    fn value(&self, cost: u64, boards: CallSet) -> i128 {
        let mut value = 1000 * i128::from(cost);
        for call in boards.iter() {
            if let Some(price) = self.prices.get(call as usize) {
                value = value.wrapping_sub(price.value());
            }
        }
        value
    }

    /// The value of a tour. None where it breaks a rule or is not in the node.
    pub(crate) fn value_within(&self, tour: &Tour) -> Option<i128> {
        let boards = boards_of(tour);
        match lawful_cost(self.snapshot, self.car, tour) {
            Some(cost) if self.admits(boards) => Some(self.value(cost, boards)),
            _ => None,
        }
    }

    /// The least value of a tour in the node. None where there is no tour.
    pub(crate) fn least(&self) -> Option<i128> {
        let mut least: Option<i128> = None;
        for tour in self.tours {
            if self.admits(tour.boards) {
                let value = self.value(tour.cost, tour.boards);
                least = Some(match least {
                    Some(least) => least.min(value),
                    None => value,
                });
            }
        }
        least
    }

    /// The bound of a partial tour.
    pub(crate) fn bound(&self, prefix: &Prefix) -> i128
        requires same { self.now.snapshot.now ≡ prefix.now.snapshot }
        requires prices { length self.now.prices.now ≡ call_count self.now.snapshot.now }
    {
        let required = self.node.required(self.car);
        bound(self.snapshot, prefix, self.prices, self.allowed(), required)
    }

    /// Whether some tour in the node begins with the partial tour.
    pub(crate) fn has_begun_with(&self, prefix: &Prefix) -> bool {
        for tour in self.tours {
            if self.admits(tour.boards) && tour.moves.starts_with(prefix.moves()) {
                return true;
            }
        }
        false
    }
}
