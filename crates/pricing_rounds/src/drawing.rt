//! In which order the pricings of a round are drawn, and where their answers belong.

ghost use Rattle.std.specs.Prelude.{◌≡◌, ℕ, IfOk, Some, length, slice_get, slice_index};
ghost use Rattle.std.specs.List.{Contains, range_with_len, zip};
ghost use Rattle.pricing_rounds.specs.Rounds.{AreFallingBy, IsOrderOf, done_from};

use search_model::TurnOf;
use std::alloc::{AllocError, Global};
use work_fan::{Done, in_order};

/// The size of a pricing; 0 where none is told.
fn size_at(sizes: &[u64], pricing: u32) -> u64
    ensures { result ≡ slice_index sizes.now pricing }
{
    sizes.get(pricing as usize).copied().unwrap_or(0)
}

/// The numbers below the count, in order. It fails only where there is no memory left.
fn numbers_below(alloc: Global, count: u32) -> Result<Vec<u32>, AllocError>
    ensures { IfOk result (λ numbers. numbers.items ≡ range_with_len 0 count) }
{
    (0..count).collect(alloc)
}

/// The pricings by falling size, equal ones by their number: a long one that begins last has the other
/// workers wait for it. It fails only where there is no memory left.
pub(crate) fn drawing_order(
    alloc: Global,
    sizes: &[u64],
    count: u32,
) -> Result<Vec<u32>, AllocError>
    ensures order { IfOk result (λ order. IsOrderOf count order.items) }
    ensures falling { IfOk result (λ order. AreFallingBy sizes.now order.items) }
{
    let mut order = numbers_below(alloc, count)?;
    order.sort_by_key(|&pricing| u64::MAX - size_at(sizes, pricing))?;
    Ok(order)
}

/// Each answer with its pricing. It fails only where there is no memory left.
fn done_of(
    alloc: Global,
    order: &[u32],
    drawn: Vec<TurnOf>,
) -> Result<Vec<Done<TurnOf>>, AllocError>
    ensures { IfOk result (λ done. done.items ≡ done_from (zip order.now drawn.items)) }
{
    order
        .iter()
        .zip(drawn)
        .map(|(&job, answer)| Done { job, answer })
        .collect(alloc)
}

/// The answers in the order of their pricings, of which the `n`-th drawn was `order[n]`. It fails only where
/// there is no memory left.
pub(crate) fn in_places(
    alloc: Global,
    count: u32,
    order: &[u32],
    drawn: Vec<TurnOf>,
) -> Result<Vec<TurnOf>, AllocError>
    requires order { IsOrderOf count order.now }
    requires count { length drawn.items ≡ count }
    ensures count { IfOk result (λ answers. length answers.items ≡ count) }
    ensures from { IfOk result (λ answers. (k : ℕ) (a : TurnOf) → slice_get answers.items k ≡ Some a
        → Contains (zip order.now drawn.items) (k, a)) }
{
    let done = done_of(alloc, order, drawn)?;
    in_order(alloc, count, done)
}
