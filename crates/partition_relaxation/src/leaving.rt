//! Which row an entry leaves the basis from.

use crate::rows::Row;

/// The least rate by which a row is divided, in 2^40ths: below it rounding would tell too much.
const LEAST_RATE: i64 = 67_108_864;

/// A row whose entry may leave.
#[derive(Clone, Copy)]
struct Leaving {
    place: usize,
    share: i64,
    rate: i64,
}

impl Leaving {
    /// Whether the share of this one is used up earlier; of equal ones the greater rate comes first.
    fn comes_before(&self, other: &Leaving) -> bool {
        let this_way = i128::from(self.share) * i128::from(other.rate);
        let other_way = i128::from(other.share) * i128::from(self.rate);
        this_way < other_way || this_way == other_way && other.rate < self.rate
    }
}

/// The row whose share is used up first where an entry rises, whose rates these are.
pub(crate) fn leaving_row(rows: &[Row], rates: &[i64]) -> Option<usize> {
    let mut first: Option<Leaving> = None;
    for (place, (row, rate)) in rows.iter().zip(rates).enumerate() {
        if *rate < LEAST_RATE {
            continue;
        }
        let leaving = Leaving {
            place,
            share: row.share(),
            rate: *rate,
        };
        if first.map_or(true, |first| leaving.comes_before(&first)) {
            first = Some(leaving);
        }
    }
    Some(first?.place)
}
