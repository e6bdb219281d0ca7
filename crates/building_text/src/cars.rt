//! The line of a car.
ghost use Rattle.std.specs.Prelude.{◌≡◌, ◌≤◌, length, OnOk};
ghost use Rattle.lift_text.specs.LineReader.{words};
ghost use Rattle.text_sections.specs.Judging.{Gives};
ghost use Rattle.building_text.specs.Words.{has_car_words, car_numbers, set_of, served_of, judged_car};
ghost use Rattle.building_text.specs.Words.{car_of_line};

use call_sets::FloorSet;
use call_state::{are_rising, has_car, spec_fault};
use elevator_model::{CarSpec, Fault};
use lift_text::{LineReader, Source, TextCode};
use std::alloc::Global;
use text_sections::{LineFault, at_least, at_most, is_word, number, numbers};

/// The greatest id, and the greatest floor that is read as one.
const GREATEST: u64 = 4_294_967_295;

/// The longest of a car's four times, in ms.
const LONGEST: u64 = 60_000;

/// The greatest capacity of a car, in persons.
const MOST_CAPACITY: u64 = 64;

/// Whether there is a word `all` and none after it, or there are two served floors at least.
fn has_words<S: Source>(lines: &LineReader<S>) -> Result<(), TextCode>
    ensures value { result ≡ has_car_words (words lines.now) }
    ensures count { OnOk result (8 ≤ length (words lines.now)) }
{
    at_least(lines, 8)?;
    if is_word(lines, 7, b"all") {
        at_most(lines, 8)
    } else {
        at_least(lines, 9)
    }
}

/// The numbers of a car, with no floor served.
fn car_numbers<S: Source>(lines: &LineReader<S>) -> Result<CarSpec, TextCode>
    requires { 8 ≤ length (words lines.now) }
    ensures { result ≡ car_numbers (words lines.now) }
{
    Ok(CarSpec {
        id: number(lines, 1, 0, GREATEST)? as u32,
        capacity: number(lines, 2, 1, MOST_CAPACITY)? as u32,
        opening: number(lines, 3, 0, LONGEST)?,
        closing: number(lines, 4, 0, LONGEST)?,
        boarding: number(lines, 5, 0, LONGEST)?,
        alighting: number(lines, 6, 0, LONGEST)?,
        serves: FloorSet::empty(),
    })
}

/// The set of these floors, which rise, and `None` where one is from 64 on.
fn set_of(floors: &[u64]) -> Option<FloorSet>
    ensures { result ≡ set_of 0 floors.now }
{
    let mut set = 0u64;
    for floor in floors {
        if *floor >= 64 {
            return None;
        }
        let Some(larger) = set.checked_add(1 << *floor) else {
            return None;
        };
        set = larger;
    }
    Some(FloorSet::from_bits(set))
}

/// The served floors in a building with this many floors, and `None` where one of them is in no building.
fn served<S: Source>(
    alloc: Global,
    floors: u32,
    lines: &LineReader<S>,
) -> Result<Option<FloorSet>, LineFault>
    requires floors { floors ≤ 64 }
    requires count { 8 ≤ length (words lines.now) }
    ensures { Gives (served_of floors (words lines.now)) result }
{
    if is_word(lines, 7, b"all") {
        return Ok(Some(FloorSet::lowest(floors)));
    }
    let mut served = Vec::new(alloc);
    numbers(lines, 7, 0, GREATEST, &mut served)?;
    if !are_rising(&served) {
        return Err(LineFault::Bad(TextCode::Item(Fault::NotRising)));
    }
    Ok(set_of(&served))
}

/// The car that serves these floors, or the code of its first fault.
fn judged(
    floors: u32,
    most: u32,
    before: &[CarSpec],
    car: CarSpec,
    serves: Option<FloorSet>,
) -> Result<CarSpec, LineFault>
    requires { floors ≤ 64 }
    ensures { Gives (judged_car floors most before.now car serves) result }
{
    let Some(serves) = serves else {
        let fault = if has_car(before, car.id) {
            Fault::IdUsedBefore
        } else {
            Fault::NoSuchFloor
        };
        return Err(LineFault::Bad(TextCode::Item(fault)));
    };
    let car = CarSpec { serves, ..car };
    match spec_fault(floors, most, before, &car) {
        Some(fault) => Err(LineFault::Bad(TextCode::Item(fault))),
        None => Ok(car),
    }
}

/// The car of a line, after those of the lines before it: in a building with this many floors, which may have
/// at most this many cars.
pub(crate) fn car_of_line<S: Source>(
    alloc: Global,
    floors: u32,
    most: u32,
    before: &[CarSpec],
    lines: &LineReader<S>,
) -> Result<CarSpec, LineFault>
    requires { floors ≤ 64 }
    ensures { Gives (car_of_line floors most before.now (words lines.now)) result }
{
    has_words(lines)?;
    let car = car_numbers(lines)?;
    let serves = served(alloc, floors, lines)?;
    judged(floors, most, before, car, serves)
}
