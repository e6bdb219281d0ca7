//! Worths of a size that a checker adds up.

ghost use Rattle.std.specs.Prelude.{◌≡◌, true, All};
ghost use Rattle.assign_branch.specs.Pricings.{IsWorthSize};
ghost use Rattle.kept_tours.specs.Leaves.{HasWorthSize};
ghost use Rattle.cert_checker.specs.Judging.{HasWorthSizes};

use price_scale::MOST_WORTH;
use search_model::{Twig, WorthOf};

/// Whether the worth is of absolute value at most 10^27.
fn is_sized(worth: i128) -> bool
    ensures { result ≡ true → IsWorthSize worth }
{
    -MOST_WORTH <= worth && worth <= MOST_WORTH
}

/// Whether each worth is of absolute value at most 10^27.
fn are_sized(worths: &[WorthOf]) -> bool
    ensures { result ≡ true → All HasWorthSize worths.now }
{
    for entry in worths {
        if !is_sized(entry.worth) {
            return false;
        }
    }
    true
}

/// Whether each worth of the twig's leaf is of absolute value at most 10^27.
fn has_sized_worths(twig: &Twig) -> bool
    ensures { result ≡ true → HasWorthSizes twig.now }
{
    match twig {
        Twig::Split { call: _, part: _ } => true,
        Twig::Leaf(leaf) => are_sized(leaf.worths.as_slice()),
    }
}

/// Whether each worth of the twigs is of absolute value at most 10^27, as a checker needs them.
pub(crate) fn have_sized_worths(twigs: &[Twig]) -> bool
    ensures { result ≡ true → All HasWorthSizes twigs.now }
{
    for twig in twigs {
        if !has_sized_worths(twig) {
            return false;
        }
    }
    true
}
