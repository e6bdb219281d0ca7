//! Pools of drawn columns.

use crate::relaxations::columns::{drawn_columns, planned_columns};
use crate::relaxations::shapes::{Centre, Firsts, Shape};
use partition_relaxation::{Column, SeenTours};
use price_scale::Price;
use search_model::Draws;
use std::alloc::{AllocError, Global};

/// What is relaxed.
#[derive(Drop)]
pub(crate) struct ColumnPool {
    pub(crate) cars: u32,
    pub(crate) reach: u64,
    /// Of each call.
    pub(crate) centres: Vec<Price>,
    /// What was put to the tours seen, of which the columns are what they kept; else nothing.
    pub(crate) offers: Vec<Column>,
    /// The columns that are tried first.
    pub(crate) first: Vec<Column>,
    pub(crate) columns: Vec<Column>,
}

/// A price of this many thousandths.
fn price(thousandths: u32) -> Price {
    Price::nearest(i128::from(thousandths))
}

/// The price that is as far below 0.
fn below_zero(price: Price) -> Price {
    Price::nearest(-price.value())
}

/// A drawn centre. The prices near the costs are about what a call of a column costs.
fn drawn_centre(shape: &Shape, draws: &mut Draws) -> Price {
    match shape.centre {
        Centre::Zero => price(0),
        Centre::Near => price(draws.pick(4_000_001)),
        Centre::Far => price(100_000_000 + draws.pick(900_000_000)),
        Centre::Negative => below_zero(price(draws.pick(20_000_001))),
        Centre::Mixed => {
            let drawn = price(draws.pick(10_000_001));
            if draws.pick(3) == 0 {
                below_zero(drawn)
            } else {
                drawn
            }
        }
    }
}

/// The centres of all calls.
fn drawn_centres(
    alloc: Global,
    shape: &Shape,
    draws: &mut Draws,
) -> Result<Vec<Price>, AllocError> {
    let mut centres = Vec::new(alloc);
    for _ in 0..shape.calls {
        centres.push(drawn_centre(shape, draws))?;
    }
    Ok(centres)
}

/// What the tours seen keep of these columns.
fn kept(alloc: Global, offers: &[Column]) -> Result<Vec<Column>, AllocError> {
    let mut seen = SeenTours::new(alloc);
    for column in offers {
        seen.put(*column)?;
    }
    let mut columns = Vec::new(alloc);
    for column in seen.as_slice() {
        columns.push(*column)?;
    }
    Ok(columns)
}

/// The columns that are tried first: some of all.
fn chosen_first(
    alloc: Global,
    firsts: Firsts,
    columns: &[Column],
    draws: &mut Draws,
) -> Result<Vec<Column>, AllocError> {
    let below = match firsts {
        Firsts::None => return Ok(Vec::new(alloc)),
        Firsts::Some => 3,
        Firsts::All => 1,
    };
    let mut first = Vec::new(alloc);
    for column in columns {
        if draws.pick(below) == 0 {
            first.push(*column)?;
        }
    }
    Ok(first)
}

/// The pool of a number.
pub(crate) fn drawn_pool(alloc: Global, number: u64) -> Result<ColumnPool, AllocError> {
    let mut draws = Draws::from_number(number);
    let shape = Shape::drawn(&mut draws);
    let centres = drawn_centres(alloc, &shape, &mut draws)?;
    let mut columns = drawn_columns(alloc, &shape, &mut draws)?;
    if shape.has_plan {
        planned_columns(&shape, &mut draws, &mut columns)?;
    }
    let mut offers = Vec::new(alloc);
    if shape.is_seen {
        let kept = kept(alloc, &columns)?;
        offers = columns;
        columns = kept;
    }
    Ok(ColumnPool {
        cars: shape.cars,
        reach: shape.reach,
        centres,
        offers,
        first: chosen_first(alloc, shape.firsts, &columns, &mut draws)?,
        columns,
    })
}
