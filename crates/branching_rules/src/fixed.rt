//! Fixed-point numbers, in 2^20ths.

/// One.
pub(crate) const ONE: i64 = 1_048_576;
