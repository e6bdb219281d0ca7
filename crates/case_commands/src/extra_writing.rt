//! Writing what one more call costs.
ghost use Rattle.std.specs.Prelude.{◌≡◌, ◌++◌, ◌∷◌, IfOk, OnOk};
ghost use Rattle.std.specs.Fmt.{signed_decimal};
ghost use Rattle.elevator_model.specs.Snapshot.{car_count};
ghost use Rattle.case_commands.specs.WhatIfOutcome.{car_line, car_lines, extra_words, nearest_line};
ghost use Rattle.case_commands.specs.WhatIfOutcome.{what_if_text as what_if_text_lem};

use call_state::Snapshot;
use lift_text::{put_line, put_number, put_words};
use snapshot_text::id_of_car;
use std::alloc::{AllocError, Global};
use what_if::{Extra, ExtraCosts, Regret, extra_at};

/// Appends this and then a number.
fn put_with_number(out: &mut Vec<u8>, front: &[u8], number: i128) -> Result<(), AllocError>
    ensures { OnOk result (out.new.items ≡ out.old.items ++ front.now ++ signed_decimal number) }
{
    out.extend_from_slice(front)?;
    put_number(out, number)
}

/// Appends two numbers after this, with a space between them.
fn put_ends(out: &mut Vec<u8>, front: &[u8], low: i128, high: i128) -> Result<(), AllocError>
    ensures { OnOk result (out.new.items
        ≡ out.old.items ++ front.now ++ signed_decimal low ++ (32 ∷ signed_decimal high)) }
{
    put_with_number(out, front, low)?;
    put_with_number(out, b" ", high)
}

/// Appends what is said of the extra cost with a car.
fn put_extra(out: &mut Vec<u8>, extra: Extra) -> Result<(), AllocError>
    ensures { OnOk result (out.new.items ≡ out.old.items ++ extra_words extra) }
{
    match extra {
        Extra::None => out.extend_from_slice(b" none"),
        Extra::Exact(extra) => put_with_number(out, b" exact ", extra),
        Extra::Between { low, high } => put_ends(out, b" between ", low, high),
    }
}

/// Appends the line of a car.
fn put_car(out: &mut Vec<u8>, snapshot: &Snapshot, car: u32, extra: Extra) -> Result<(), AllocError>
    ensures { OnOk result (out.new.items ≡ out.old.items ++ car_line snapshot.now car extra) }
{
    put_words(out, b"car", &[id_of_car(snapshot, car)])?;
    put_extra(out, extra)?;
    out.push(b'\n')?;
    Ok(())
}

/// Appends a line for each car, in the order of the building.
fn put_cars(out: &mut Vec<u8>, snapshot: &Snapshot, extras: &[Extra]) -> Result<(), AllocError>
    ensures { OnOk result (out.new.items
        ≡ out.old.items ++ car_lines snapshot.now extras.now (car_count snapshot.now)) }
{
    for car in 0..snapshot.building().cars().len() as u32 {
        put_car(out, snapshot, car, extra_at(extras, car as usize))?;
    }
    Ok(())
}

/// Appends the line of the nearest car.
fn put_nearest(out: &mut Vec<u8>, snapshot: &Snapshot, regret: Regret) -> Result<(), AllocError>
    ensures { OnOk result (out.new.items ≡ out.old.items ++ nearest_line snapshot.now regret) }
{
    put_words(out, b"nearest", &[id_of_car(snapshot, regret.car)])?;
    put_ends(out, b" regret ", regret.low, regret.high)?;
    out.push(b'\n')?;
    Ok(())
}

/// The text of what one more call costs: a line for each car, `car ID none`, `car ID exact EXTRA` or `car ID
/// between LOW HIGH`, and then `nearest ID regret LOW HIGH` and `end`. It fails only where there is no memory
/// left.
pub(crate) fn what_if_text(
    alloc: Global,
    snapshot: &Snapshot,
    costs: &ExtraCosts,
) -> Result<Vec<u8>, AllocError>
    ensures { IfOk result (λ text. text.items
        ≡ what_if_text_lem snapshot.now costs.now.extras.items costs.now.nearest) }
{
    let mut text = Vec::new(alloc);
    put_cars(&mut text, snapshot, costs.extras.as_slice())?;
    put_nearest(&mut text, snapshot, costs.nearest)?;
    put_line(&mut text, b"end", &[])?;
    Ok(text)
}
