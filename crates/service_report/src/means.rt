//! Means as fractions.
ghost use Rattle.std.specs.Prelude.{◌≡◌, ◌<◌};
ghost use Rattle.search_model.specs.Reports.{common_up_to, mean_over, mean_under};

/// A mean as a fraction in lowest terms.
#[derive(Clone, Copy)]
pub(crate) struct Mean {
    pub over: u64,
    pub under: u64,
}

impl Mean {
    /// The mean of this many numbers with this sum; of no number the sum over 1.
    pub(crate) fn of(sum: u64, count: u64) -> Self
        ensures over { result.over ≡ mean_over sum count }
        ensures under { result.under ≡ mean_under sum count }
    {
        let parts = count.max(1);
        let common = common_divisor(sum, parts);
        Mean {
            over: sum / common,
            under: parts / common,
        }
    }
}

/// The greatest common divisor, by Euclid's algorithm.
fn common_divisor(a: u64, b: u64) -> u64
    requires { 0 < b }
    ensures greatest { result ≡ common_up_to b a b }
    ensures some { 0 < result }
{
    let mut larger = a;
    let mut smaller = b;
    while smaller != 0 {
        let rest = larger % smaller;
        larger = smaller;
        smaller = rest;
    }
    larger
}
