//! Writes the canonical text of a building.
ghost use Rattle.std.specs.Prelude.{◌≡◌, ◌++◌, ◌<◌, ◌≤◌, [], ◌∷◌, length, map, OnOk, OnErr};
ghost use Rattle.std.specs.List.{flat_map, range_with_len};
ghost use Rattle.elevator_model.specs.Building.{floor_count};
ghost use Rattle.lift_text.specs.Text.{word};
ghost use Rattle.text_sections.specs.Canonical.{line_text, lines_text};
ghost use Rattle.building_text.specs.Written.{named, patience_lines, row_line, times_lines, floors_in};
ghost use Rattle.building_text.specs.Written.{served_words, car_line, building_text};

use call_sets::FloorSet;
use call_state::{Building, CarSpec, Travel};
use lift_text::{put_line, put_word, put_words};
use std::alloc::{AllocError, Global};

/// Writes a line of a name and numbers.
fn put_named(out: &mut Vec<u8>, name: &[u8], numbers: &[u64]) -> Result<(), AllocError>
    ensures { OnOk result
        (out.new.items ≡ out.old.items ++ line_text (named name.now numbers.now)) }
{
    put_line(out, name, numbers)
}

/// Writes a patience, which version 1 has not.
fn put_patience(out: &mut Vec<u8>, building: &Building) -> Result<(), AllocError>
    ensures { OnOk result
        (out.new.items ≡ out.old.items ++ lines_text (patience_lines building.now)) }
{
    if building.version() == 1 {
        return Ok(());
    }
    let numbers = [building.patience(), building.patience_weight()];
    put_named(out, b"patience", &numbers)
}

/// Writes the times from a floor.
fn put_row(out: &mut Vec<u8>, travel: &Travel, floor: u32) -> Result<(), AllocError>
    requires { floor < travel.now.floors }
    ensures { OnOk result
        (out.new.items ≡ out.old.items ++ line_text (row_line travel.now.floors travel.now floor)) }
{
    out.extend_from_slice(b"times")?;
    for to in 0..travel.floors() {
        put_word(out, travel.time(floor, to))?;
    }
    out.push(b'\n')?;
    Ok(())
}

/// Writes the times, one line for each floor.
fn put_rows(out: &mut Vec<u8>, travel: &Travel) -> Result<(), AllocError>
    ensures { OnOk result (out.new.items ≡ out.old.items
        ++ lines_text (map (row_line travel.now.floors travel.now) (range_with_len 0 travel.now.floors))) }
{
    for floor in 0..travel.floors() {
        put_row(out, travel, floor)?;
    }
    Ok(())
}

/// Writes the times that version 3 states.
fn put_times(out: &mut Vec<u8>, building: &Building) -> Result<(), AllocError>
    ensures { OnOk result
        (out.new.items ≡ out.old.items ++ lines_text (times_lines building.now)) }
{
    if building.version() != 3 {
        return Ok(());
    }
    put_rows(out, building.travel())
}

/// Writes the floors of a set, rising.
fn put_floors(out: &mut Vec<u8>, floors: usize, set: FloorSet) -> Result<(), AllocError>
    requires { floors ≤ 64 }
    ensures { OnOk result (out.new.items ≡ out.old.items ++ flat_map word (floors_in floors set)) }
{
    for floor in 0..floors {
        if set.contains(floor as u32) {
            put_word(out, floor as u64)?;
        }
    }
    Ok(())
}

/// Writes the served floors of a building with this many floors.
fn put_served(out: &mut Vec<u8>, floors: usize, set: FloorSet) -> Result<(), AllocError>
    requires low { 1 ≤ floors }
    requires high { floors ≤ 64 }
    ensures { OnOk result (out.new.items
        ≡ out.old.items ++ flat_map (λ later. 32 ∷ later) (served_words floors set)) }
{
    if set.bits() == FloorSet::lowest(floors as u32).bits() {
        return out.extend_from_slice(b" all");
    }
    put_floors(out, floors, set)
}

fn put_car(out: &mut Vec<u8>, floors: usize, car: &CarSpec) -> Result<(), AllocError>
    requires low { 1 ≤ floors }
    requires high { floors ≤ 64 }
    ensures { OnOk result (out.new.items ≡ out.old.items ++ line_text (car_line floors car.now)) }
{
    let numbers = [
        u64::from(car.id),
        u64::from(car.capacity),
        car.opening,
        car.closing,
        car.boarding,
        car.alighting,
    ];
    put_words(out, b"car", &numbers)?;
    put_served(out, floors, car.serves)?;
    out.push(b'\n')?;
    Ok(())
}

fn put_cars(out: &mut Vec<u8>, floors: usize, cars: &[CarSpec]) -> Result<(), AllocError>
    requires low { 1 ≤ floors }
    requires high { floors ≤ 64 }
    ensures { OnOk result
        (out.new.items ≡ out.old.items ++ lines_text (map (car_line floors) cars.now)) }
{
    for car in cars {
        put_car(out, floors, car)?;
    }
    Ok(())
}

fn put_building(out: &mut Vec<u8>, building: &Building) -> Result<(), AllocError>
    ensures { OnOk result (out.new.items ≡ out.old.items ++ building_text building.now) }
{
    let weights = [building.wait_weight(), building.travel_weight()];
    put_named(out, b"building", &[u64::from(building.version())])?;
    put_named(out, b"speed", &[building.speed()])?;
    put_named(out, b"accel", &[building.accel()])?;
    put_named(out, b"weights", &weights)?;
    put_patience(out, building)?;
    put_named(out, b"floors", building.heights())?;
    put_times(out, building)?;
    put_cars(out, building.heights().len(), building.cars())?;
    put_named(out, b"end", &[])
}

/// Appends the canonical text of a building. The allocator comes first. It fails only where there is no
/// memory left, and then `out` is as before.
pub fn write_building(
    alloc: Global,
    building: &Building,
    out: &mut Vec<u8>,
) -> Result<(), AllocError>
    ensures ok { OnOk result (out.new.items ≡ out.old.items ++ building_text building.now) }
    ensures err { OnErr result (out.new.items ≡ out.old.items) }
{
    let mut text = Vec::new(alloc);
    put_building(&mut text, building)?;
    out.extend_from_slice(&text)
}
