//! Whether a round was told to stop.

ghost use Rattle.std.specs.Prelude.{◌≡◌, ◌<◌, ℕ, All, IfOk, IsOkUnless, IsSome, None, Some, length};
ghost use Rattle.std.specs.Prelude.{false, slice_get, slice_index_or, true};
ghost use Rattle.std.specs.List.{filter_map};
ghost use Rattle.search_model.specs.declared.TurnOf.{TurnOf as TurnValue};
ghost use Rattle.search_model.specs.declared.interruptions.Interruption.TheVariants.{OutOfMemory};

use search_model::{Interruption, TurnOf};
use std::alloc::{AllocError, Global};

/// Whether none of the pricings was told to stop.
fn are_done(answers: &[Option<TurnOf>]) -> bool
    ensures done { result ≡ true → (k : ℕ) → k < length answers.now
        → IsSome (slice_index_or answers.now k None) }
    ensures told { result ≡ false → All IsSome answers.now → ⊥ }
{
    for place in 0..answers.len() {
        if answers[place].is_none() {
            return false;
        }
    }
    true
}

/// What the pricings answered that there are, in order.
fn taken_out(alloc: Global, answers: Vec<Option<TurnOf>>) -> Result<Vec<TurnOf>, AllocError>
    ensures { IfOk result (λ turns. turns.items ≡ filter_map (λ answer. answer) answers.items) }
{
    answers
        .into_iter()
        .filter_map(|answer| answer)
        .collect(alloc)
}

/// What the pricings answered, where none of them was told to stop.
pub(crate) fn all_done(
    alloc: Global,
    answers: Vec<Option<TurnOf>>,
) -> Result<Vec<TurnOf>, Interruption>
    ensures count { IfOk result (λ turns. length turns.items ≡ length answers.items) }
    ensures from { IfOk result (λ turns. (k : ℕ) (a : TurnValue) → slice_get turns.items k ≡ Some a
        → slice_get answers.items k ≡ Some (Some a)) }
    ensures goes_on { All IsSome answers.items → IsOkUnless result OutOfMemory }
{
    if !are_done(&answers) {
        return Err(Interruption::Told);
    }
    let turns = taken_out(alloc, answers)?;
    Ok(turns)
}
