//! Fixed-point numbers, in 2^40ths, and dual values, in 2^20ths of a thousandth of a cost unit.

/// One.
pub(crate) const ONE: i64 = 1_099_511_627_776;

/// One, as wide as a product.
pub(crate) const WIDE_ONE: i128 = 1_099_511_627_776;

/// How many parts a thousandth of a cost unit has in a dual value.
pub(crate) const DUAL_PARTS: i128 = 1_048_576;

/// The greatest cost that the relaxation takes, in thousandths of a cost unit.
pub(crate) const MOST_COST: i64 = 1_000_000_000_000_000;

/// What is taken of a tour or a call counts above this, in 2^40ths: less may come of rounding.
pub(crate) const LEAST_SHARE: i64 = 1_048_576;

/// The product of two fixed-point numbers.
pub(crate) fn product(one: i64, other: i64) -> i128 {
    i128::from(one) * i128::from(other) / WIDE_ONE
}

/// The quotient of two fixed-point numbers: None where it does not fit, or the divisor is 0.
pub(crate) fn quotient(one: i64, other: i64) -> Option<i64> {
    let quotient = (i128::from(one) * WIDE_ONE).checked_div(i128::from(other))?;
    i64::try_from(quotient).ok()
}
