//! How the visits to a kept list have gone.

ghost use Rattle.std.specs.Prelude.{◌≡◌, if◌then◌else◌, int_lt};
ghost use Rattle.kept_tours.specs.declared.visits.Visits.TheVariants.{Going, Under};

/// How the visits to the partial tours of a kept list have gone.
#[derive(Clone, Copy)]
pub(crate) enum Visits {
    /// None of them ends a tour of a value below the worth, and this many more may be visited.
    Going(u64),
    /// One more was due than the limit allows, and was not looked at.
    Passed,
    /// The last one ends a tour of this value, which is below the worth, in thousandths of a cost unit.
    Under(i128),
}

impl Visits {
    /// After a visit to a partial tour that ends a tour of this value, where this many more may be visited.
    pub(crate) fn of_tour(value: i128, worth: i128, left: u64) -> Self
        ensures { result ≡ (if int_lt value worth then Under value else Going left) }
    {
        if value < worth {
            Self::Under(value)
        } else {
            Self::Going(left)
        }
    }
}
