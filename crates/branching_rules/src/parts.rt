//! Where a node is split: at the call whose cars are the most evenly divided.

ghost use Rattle.std.specs.Prelude.{◌≡◌, ◌<◌, ◌≤◌, true, IfSome};
ghost use Rattle.search_model.specs.Nodes.{is_part as is_part_lem, set_of};

use crate::shares::Shares;
use assign_branch::{CarSet, Node, is_part};
use elevator_model::{MOST_CALLS, MOST_CARS};
use search_tree::SplitAt;

/// Some of a set's cars.
#[derive(Clone, Copy)]
struct Part {
    cars: CarSet,
    /// The lesser of the shares that these cars and the other ones have together.
    evenness: i64,
}

impl Shares {
    /// The cars of the set by falling share in the call, as many as have at most half of all shares together:
    /// the first one in any case, and never the last one.
    fn part(&self, call: usize, set: CarSet) -> Part {
        let total = self.sum(call, set);
        let mut cars = CarSet::empty();
        let mut rest = set;
        for _ in 0..MOST_CARS {
            let Some(car) = self.greatest(call, rest) else {
                break;
            };
            let more = cars.with(car);
            rest = rest.without(car);
            if rest.is_empty() || !cars.is_empty() && total / 2 < self.sum(call, more) {
                break;
            }
            cars = more;
        }
        let sum = self.sum(call, cars);
        Part {
            cars,
            evenness: sum.min(total.saturating_sub(sum)),
        }
    }

    /// The call whose cars' shares are divided the most evenly, the first of equal ones, and how it is divided,
    /// where the lesser side has more than this share, in 2^20ths.
    pub(crate) fn most_even(&self, node: &Node, calls: usize, least: i64) -> Option<SplitAt>
        requires { calls ≤ MOST_CALLS }
        ensures { IfSome result
            (λ at. (at.call < calls) × (is_part_lem (set_of node.now at.call) at.part ≡ true)) }
    {
        let mut best = None;
        let mut most = least;
        for call in 0..calls as u32 {
            let set = node.set(call);
            let part = self.part(call as usize, set);
            if most < part.evenness && is_part(set, part.cars) {
                most = part.evenness;
                best = Some(SplitAt {
                    call,
                    part: part.cars,
                });
            }
        }
        best
    }
}
