//! The first way over a third floor that is shorter.
ghost use Rattle.std.specs.Prelude.{◌≡◌, ◌≤◌, ◌<◌, ◌↔◌, IsTrue, IfErr, OnOk, MatchOption};
ghost use Rattle.elevator_model.specs.Travel.{IsTravelSquare, time_between};
ghost use Rattle.call_state.specs.Squares.{square_of, IsDirect, IsLegDirect, IsRowDirect, AreRowsDirect};
ghost use Rattle.motion_table.specs.Triples.{IsFirstThird, IsFirstFrom, IsFirstTriple, IsTable};

use call_state::{are_rows_direct, time_at};

/// Three floors: the way from `f` to `h` over `g` is shorter than the time from `f` to `h`.
#[derive(Clone, Copy)]
pub struct Triple {
    pub f: u32,
    pub g: u32,
    pub h: u32,
}

/// Whether no way over a third floor is shorter, in a square of times in ms, row after row: the times
/// from floor 0 to each floor come first.
///
/// It is refused exactly where three floors break that, with the first three in the order of the first
/// floor, then the second, then the third. A time that the square lacks counts as 0. It takes no memory.
pub fn judge_table(floors: u32, times: &[u64]) -> Result<(), Triple>
    ensures direct { OnOk result (AreRowsDirect (square_of floors times.now)) }
    ensures triple { IfErr result (IsFirstTriple (square_of floors times.now)) }
    ensures travel { OnOk result (IsTable (square_of floors times.now)
        → IsTravelSquare (square_of floors times.now)) }
{
    if is_direct_square(floors, times) {
        return Ok(());
    }
    for f in 0..floors {
        if let Some(triple) = first_from(floors, times, f) {
            return Err(triple);
        }
    }
    Ok(())
}

/// Whether the square has a time between all floors and no way over a third floor is shorter. Most squares
/// that are read are like that, and to tell this of a whole square is faster than to look for the first
/// floors that are not.
fn is_direct_square(floors: u32, times: &[u64]) -> bool
    ensures { IsTrue result → AreRowsDirect (square_of floors times.now) }
{
    times.len() == floors as usize * floors as usize && are_rows_direct(floors, times)
}

/// The first such floors from `f` on.
fn first_from(floors: u32, times: &[u64], f: u32) -> Option<Triple>
    ensures { MatchOption result (IsRowDirect (square_of floors times.now) f)
        (IsFirstFrom (square_of floors times.now) f) }
{
    for g in 0..floors {
        if let Some(h) = first_third(floors, times, f, g) {
            return Some(Triple { f, g, h });
        }
    }
    None
}

/// The first floor to which the way from `f` over `g` is shorter.
fn first_third(floors: u32, times: &[u64], f: u32, g: u32) -> Option<u32>
    ensures { MatchOption result (IsLegDirect (square_of floors times.now) f g)
        (IsFirstThird (square_of floors times.now) f g) }
{
    for h in 0..floors {
        if !is_direct(floors, times, f, g, h) {
            return Some(h);
        }
    }
    None
}

/// Whether the way from `f` to `h` is no longer than that over `g`.
fn is_direct(floors: u32, times: &[u64], f: u32, g: u32, h: u32) -> bool
    ensures { IsTrue result ↔ IsDirect (square_of floors times.now) f g h }
{
    let rest = time_at(floors, times, f, h).saturating_sub(time_at(floors, times, f, g));
    rest <= time_at(floors, times, g, h)
}
