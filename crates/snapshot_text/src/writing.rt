//! Writing snapshots.
ghost use Rattle.std.specs.Prelude.{◌≡◌, ◌++◌, ◌∷◌, [], ◌<◌, codes, decimal, length, map, OnErr, OnOk};
ghost use Rattle.std.specs.Prelude.{IfSome};
ghost use Rattle.std.specs.List.{flat_map, range_with_len};
ghost use Rattle.text_sections.specs.Canonical.{line_text};
ghost use Rattle.snapshot_text.specs.Texts.{head_words, moment_words, direction, state_words, car_words};
ghost use Rattle.snapshot_text.specs.Texts.{group_words, pin_word, call_front, call_words, end_words};
ghost use Rattle.snapshot_text.specs.Texts.{snapshot_text};

use call_state::{Aboard, Building, Call, CarState, Snapshot};
use lift_text::put_word;
use std::alloc::AllocError;

/// Appends a space and a number.
#[tactic(auto, unfolding(lift_text::specs::Text::word))]
fn put_number(out: &mut Vec<u8>, number: u64) -> Result<(), AllocError>
    ensures { OnOk result (out.new.items ≡ out.old.items ++ 32 ∷ decimal number) }
{
    put_word(out, number)
}

/// Appends a space and a word.
fn put_text(out: &mut Vec<u8>, text: &[u8]) -> Result<(), AllocError>
    ensures { OnOk result (out.new.items ≡ out.old.items ++ 32 ∷ text.now) }
{
    out.push(b' ')?;
    out.extend_from_slice(text)
}

fn put_end_of_line(out: &mut Vec<u8>) -> Result<(), AllocError>
    ensures { OnOk result (out.new.items ≡ out.old.items ++ 10 ∷ []) }
{
    out.push(b'\n')?;
    Ok(())
}

/// Writes the first two lines.
fn put_head(out: &mut Vec<u8>, snapshot: &Snapshot) -> Result<(), AllocError>
    ensures { OnOk result (out.new.items ≡ out.old.items
        ++ (line_text (head_words snapshot.now.version) ++ line_text (moment_words snapshot.entry.now.moment))) }
{
    out.extend_from_slice(b"snapshot")?;
    put_number(out, u64::from(snapshot.version()))?;
    put_end_of_line(out)?;
    out.extend_from_slice(b"now")?;
    put_number(out, snapshot.now())?;
    put_end_of_line(out)
}

/// Writes the line of a car with this id that stands or comes to a floor.
fn put_standing(
    out: &mut Vec<u8>,
    id: u32,
    form: &[u8],
    floor: u32,
    moment: u64,
) -> Result<(), AllocError>
    ensures { OnOk result (out.new.items ≡ out.old.items
        ++ line_text (codes "car" ∷ decimal id ∷ form.now ∷ decimal floor ∷ decimal moment ∷ [])) }
{
    out.extend_from_slice(b"car")?;
    put_number(out, u64::from(id))?;
    put_text(out, form)?;
    put_number(out, u64::from(floor))?;
    put_number(out, moment)?;
    put_end_of_line(out)
}

/// Writes the line of a moving car with this id.
fn put_moving(out: &mut Vec<u8>, id: u32, from: u32, up: bool, left: u64) -> Result<(), AllocError>
    ensures { OnOk result (out.new.items ≡ out.old.items ++ line_text (state_words id (CarState.Moving from up left))) }
{
    out.extend_from_slice(b"car")?;
    put_number(out, u64::from(id))?;
    put_text(out, b"moving")?;
    put_number(out, u64::from(from))?;
    put_direction(out, up)?;
    put_number(out, left)?;
    put_end_of_line(out)
}

fn put_direction(out: &mut Vec<u8>, up: bool) -> Result<(), AllocError>
    ensures { OnOk result (out.new.items ≡ out.old.items ++ 32 ∷ direction up) }
{
    if up {
        put_text(out, b"up")
    } else {
        put_text(out, b"down")
    }
}

/// Writes the line of a car with this id.
fn put_state(out: &mut Vec<u8>, id: u32, state: CarState) -> Result<(), AllocError>
    ensures { OnOk result (out.new.items ≡ out.old.items ++ line_text (state_words id state)) }
{
    match state {
        CarState::Idle { floor, free } => put_standing(out, id, b"idle", floor, free),
        CarState::Coming { floor, arrives } => put_standing(out, id, b"coming", floor, arrives),
        CarState::Moving { from, up, left } => put_moving(out, id, from, up, left),
    }
}

/// Writes the line of each car, in the building's order.
fn put_cars(out: &mut Vec<u8>, snapshot: &Snapshot) -> Result<(), AllocError>
    ensures { OnOk result (out.new.items ≡ out.old.items
        ++ flat_map (λ c. line_text (car_words snapshot.now c))
        (range_with_len 0 (length snapshot.now.building.cars))) }
{
    let cars = snapshot.building().cars();
    for c in 0..cars.len() as u32 {
        put_state(out, snapshot.spec(c).id, snapshot.car(c))?;
    }
    Ok(())
}

fn put_group(out: &mut Vec<u8>, building: &Building, group: &Aboard) -> Result<(), AllocError>
    requires { group.now.car < length building.now.cars }
    ensures { OnOk result (out.new.items ≡ out.old.items ++ line_text (group_words building.now group.now)) }
{
    let car = building.cars()[group.car as usize].id;
    out.extend_from_slice(b"aboard")?;
    put_number(out, u64::from(car))?;
    put_number(out, u64::from(group.id))?;
    put_number(out, u64::from(group.destination))?;
    put_number(out, u64::from(group.persons))?;
    put_number(out, group.boarded)?;
    put_end_of_line(out)
}

fn put_groups(out: &mut Vec<u8>, snapshot: &Snapshot) -> Result<(), AllocError>
    ensures { OnOk result (out.new.items ≡ out.old.items
        ++ flat_map (λ x. line_text (group_words snapshot.now.building x)) snapshot.now.aboard) }
{
    for group in snapshot.aboard() {
        put_group(out, snapshot.building(), group)?;
    }
    Ok(())
}

/// Writes the car that a call is pinned to.
fn put_pin(out: &mut Vec<u8>, building: &Building, pin: Option<u32>) -> Result<(), AllocError>
    requires { IfSome pin (λ c. c < length building.now.cars) }
    ensures { OnOk result (out.new.items ≡ out.old.items ++ 32 ∷ pin_word building.now pin) }
{
    match pin {
        None => put_text(out, b"any"),
        Some(c) => put_number(out, u64::from(building.cars()[c as usize].id)),
    }
}

/// Writes the line of a call up to its last word.
fn put_call_front(out: &mut Vec<u8>, call: &Call) -> Result<(), AllocError>
    ensures { OnOk result (out.new.items ≡ out.old.items ++ call_front call.now) }
{
    out.extend_from_slice(b"call")?;
    put_number(out, u64::from(call.id))?;
    put_number(out, u64::from(call.origin))?;
    put_number(out, u64::from(call.destination))?;
    put_number(out, u64::from(call.persons))?;
    put_number(out, call.released)
}

fn put_call(out: &mut Vec<u8>, building: &Building, call: &Call) -> Result<(), AllocError>
    requires { IfSome call.now.pin (λ c. c < length building.now.cars) }
    ensures { OnOk result (out.new.items ≡ out.old.items ++ line_text (call_words building.now call.now)) }
{
    put_call_front(out, call)?;
    put_pin(out, building, call.pin)?;
    put_end_of_line(out)?;
    Ok(())
}

fn put_calls(out: &mut Vec<u8>, snapshot: &Snapshot) -> Result<(), AllocError>
    ensures { OnOk result (out.new.items ≡ out.old.items
        ++ flat_map (λ x. line_text (call_words snapshot.now.building x)) snapshot.now.calls) }
{
    for call in snapshot.calls() {
        put_call(out, snapshot.building(), call)?;
    }
    Ok(())
}

fn put_snapshot(out: &mut Vec<u8>, snapshot: &Snapshot) -> Result<(), AllocError>
    ensures { OnOk result (out.new.items ≡ out.old.items ++ snapshot_text snapshot.now) }
{
    put_head(out, snapshot)?;
    put_cars(out, snapshot)?;
    put_groups(out, snapshot)?;
    put_calls(out, snapshot)?;
    out.extend_from_slice(b"end\n")?;
    Ok(())
}

/// Appends the canonical text of a snapshot: its section, with the `car` lines in the building's order, one
/// space between words, an LF at each line's end, and no leading zeros.
///
/// The only error is that memory runs out, which leaves `out` as it was: the text is made apart first.
pub fn write_snapshot(snapshot: &Snapshot, out: &mut Vec<u8>) -> Result<(), AllocError>
    ensures text { OnOk result (out.new.items ≡ out.old.items ++ snapshot_text snapshot.now) }
    ensures memory { OnErr result (out.new.items ≡ out.old.items) }
{
    let mut text = Vec::new(*out.allocator());
    put_snapshot(&mut text, snapshot)?;
    out.extend_from_slice(&text)
}
