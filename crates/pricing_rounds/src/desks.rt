//! Desks for workers.

ghost use Rattle.std.specs.Prelude.{◌≡◌, ◌≤◌, All, IfOk, length};

use assign_branch::Pricer;
use std::alloc::{AllocError, Global};

/// As many desks of the pricer as there are workers. It fails only where there is no memory left.
pub fn desks_for<P: Pricer>(
    alloc: Global,
    pricer: &P,
    workers: u32,
) -> Result<Vec<P::Desk>, AllocError>
    ensures count { IfOk result (λ desks. length desks.items ≡ workers) }
    ensures own { IfOk result (λ desks. All (P.owns pricer.now) desks.items) }
{
    let mut desks = Vec::new(alloc);
    for _worker in 0..workers {
        desks.push(pricer.desk(alloc)?)?;
    }
    Ok(desks)
}
