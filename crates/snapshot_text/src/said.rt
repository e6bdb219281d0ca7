//! What the words of each line say.
ghost use Rattle.std.specs.Prelude.{◌≡◌, ◌<◌, IfOk, IfSome, Some, Ok, length};
ghost use Rattle.lift_text.specs.LineReader.{words};
ghost use Rattle.snapshot_text.specs.Words.{version_said, moment_said, has_direction, form_of, idle_said};
ghost use Rattle.snapshot_text.specs.Words.{coming_said, moving_said, state_said, car_named, car_said};
ghost use Rattle.snapshot_text.specs.Words.{group_of_words, group_said, pin_said, pin_named, call_of_words};
ghost use Rattle.snapshot_text.specs.Words.{call_said};

use crate::kinds::Form;
use call_state::{Aboard, Building, Call, CarState};
use elevator_model::LATEST_SNAPSHOT;
use lift_text::{LineReader, Source, TextCode};
use text_sections::{exactly, is_word, number, short};

/// The latest moment of a state and of a boarding, in ms.
const LATEST_STATE: u64 = 2_000_000_000;

/// The version of a `snapshot` line.
pub(crate) fn version_said<S: Source>(lines: &LineReader<S>) -> Result<u8, TextCode>
    ensures { result ≡ version_said (words lines.now) }
{
    exactly(lines, 2)?;
    let version = number(lines, 1, 1, 2)?;
    Ok(version as u8)
}

/// The moment of a `now` line, in ms.
pub(crate) fn moment_said<S: Source>(lines: &LineReader<S>) -> Result<u64, TextCode>
    ensures { result ≡ moment_said (words lines.now) }
{
    exactly(lines, 2)?;
    number(lines, 1, 0, LATEST_SNAPSHOT)
}

/// Whether the fifth word is a direction, where it is there.
fn has_direction<S: Source>(lines: &LineReader<S>) -> bool
    ensures { result ≡ has_direction (words lines.now) }
{
    lines.words() < 5 || is_word(lines, 4, b"up") || is_word(lines, 4, b"down")
}

/// How a `car` line says where its car is.
pub(crate) fn form_of<S: Source>(version: u8, lines: &LineReader<S>) -> Result<Form, TextCode>
    ensures { result ≡ form_of version (words lines.now) }
{
    if lines.words() < 3 {
        return Ok(Form::Unsaid);
    }
    if is_word(lines, 2, b"idle") {
        return Ok(Form::SaidIdle);
    }
    if is_word(lines, 2, b"coming") {
        return Ok(Form::SaidComing);
    }
    if version == 2 && is_word(lines, 2, b"moving") && has_direction(lines) {
        return Ok(Form::SaidMoving);
    }
    Err(TextCode::NoLineWord)
}

/// The id and the state of an idle car.
fn idle_said<S: Source>(lines: &LineReader<S>) -> Result<(u32, CarState), TextCode>
    ensures { result ≡ idle_said (words lines.now) }
{
    exactly(lines, 5)?;
    let id = short(lines, 1)?;
    let floor = short(lines, 3)?;
    let free = number(lines, 4, 0, LATEST_STATE)?;
    Ok((id, CarState::Idle { floor, free }))
}

/// The id and the state of a car on its way.
fn coming_said<S: Source>(lines: &LineReader<S>) -> Result<(u32, CarState), TextCode>
    ensures { result ≡ coming_said (words lines.now) }
{
    exactly(lines, 5)?;
    let id = short(lines, 1)?;
    let floor = short(lines, 3)?;
    let arrives = number(lines, 4, 0, LATEST_STATE)?;
    Ok((id, CarState::Coming { floor, arrives }))
}

/// The id and the state of a car that may still choose where it stops first.
fn moving_said<S: Source>(lines: &LineReader<S>) -> Result<(u32, CarState), TextCode>
    ensures { result ≡ moving_said (words lines.now) }
{
    exactly(lines, 6)?;
    let id = short(lines, 1)?;
    let from = short(lines, 3)?;
    let left = number(lines, 5, 0, LATEST_SNAPSHOT)?;
    let up = is_word(lines, 4, b"up");
    Ok((id, CarState::Moving { from, up, left }))
}

/// The id and the state of a car.
fn state_said<S: Source>(form: Form, lines: &LineReader<S>) -> Result<(u32, CarState), TextCode>
    ensures { result ≡ state_said form (words lines.now) }
{
    match form {
        Form::Unsaid => Err(TextCode::Missing),
        Form::SaidIdle => idle_said(lines),
        Form::SaidComing => coming_said(lines),
        Form::SaidMoving => moving_said(lines),
    }
}

/// The index of the car with this id.
pub fn car_named(building: &Building, id: u32) -> Result<u32, TextCode>
    ensures value { result ≡ car_named building.now id }
    ensures car { IfOk result (λ c. c < length building.now.cars) }
{
    match building.car_of(id) {
        Some(car) => Ok(car),
        None => Err(TextCode::UnknownId),
    }
}

/// The index and the state of a car.
pub(crate) fn car_said<S: Source>(
    building: &Building,
    form: Form,
    lines: &LineReader<S>,
) -> Result<(u32, CarState), TextCode>
    ensures value { result ≡ car_said building.now form (words lines.now) }
    ensures car { IfOk result (λ said. said.0 < length building.now.cars) }
{
    let (id, state) = state_said(form, lines)?;
    let car = car_named(building, id)?;
    Ok((car, state))
}

/// What an `aboard` line says of a group, which names its car by its id.
#[derive(Clone, Copy)]
pub(crate) struct GroupWords {
    pub(crate) car_id: u32,
    pub(crate) id: u32,
    pub(crate) destination: u32,
    pub(crate) persons: u32,
    /// In ms.
    pub(crate) boarded: u64,
}

/// What a line says of a group.
fn group_of_words<S: Source>(lines: &LineReader<S>) -> Result<GroupWords, TextCode>
    ensures { result ≡ group_of_words (words lines.now) }
{
    exactly(lines, 6)?;
    Ok(GroupWords {
        car_id: short(lines, 1)?,
        id: short(lines, 2)?,
        destination: short(lines, 3)?,
        persons: short(lines, 4)?,
        boarded: number(lines, 5, 0, LATEST_STATE)?,
    })
}

/// The group of an `aboard` line.
pub(crate) fn group_said<S: Source>(
    building: &Building,
    lines: &LineReader<S>,
) -> Result<Aboard, TextCode>
    ensures value { result ≡ group_said building.now (words lines.now) }
    ensures car { IfOk result (λ group. group.car < length building.now.cars) }
{
    let said = group_of_words(lines)?;
    let car = car_named(building, said.car_id)?;
    Ok(Aboard {
        id: said.id,
        car,
        destination: said.destination,
        persons: said.persons,
        boarded: said.boarded,
    })
}

/// The id of the car that a call is pinned to.
fn pin_said<S: Source>(lines: &LineReader<S>) -> Result<Option<u32>, TextCode>
    requires { 6 < length (words lines.now) }
    ensures { result ≡ pin_said (words lines.now) }
{
    if is_word(lines, 6, b"any") {
        return Ok(None);
    }
    let id = short(lines, 6)?;
    Ok(Some(id))
}

/// The index of that car.
fn pin_named(building: &Building, pin: Option<u32>) -> Result<Option<u32>, TextCode>
    ensures value { result ≡ pin_named building.now pin }
    ensures car { IfOk result (λ pin. IfSome pin (λ c. c < length building.now.cars)) }
{
    match pin {
        None => Ok(None),
        Some(id) => {
            let car = car_named(building, id)?;
            Ok(Some(car))
        }
    }
}

/// What a `call` line says of a call, which names the car that it is pinned to by its id.
#[derive(Clone, Copy)]
pub(crate) struct CallWords {
    pub(crate) id: u32,
    pub(crate) origin: u32,
    pub(crate) destination: u32,
    pub(crate) persons: u32,
    /// In ms.
    pub(crate) released: u64,
    pub(crate) pin_id: Option<u32>,
}

/// What a line says of a call.
fn call_of_words<S: Source>(lines: &LineReader<S>) -> Result<CallWords, TextCode>
    ensures { result ≡ call_of_words (words lines.now) }
{
    exactly(lines, 7)?;
    Ok(CallWords {
        id: short(lines, 1)?,
        origin: short(lines, 2)?,
        destination: short(lines, 3)?,
        persons: short(lines, 4)?,
        released: number(lines, 5, 0, LATEST_SNAPSHOT)?,
        pin_id: pin_said(lines)?,
    })
}

/// The call of a `call` line.
pub(crate) fn call_said<S: Source>(
    building: &Building,
    lines: &LineReader<S>,
) -> Result<Call, TextCode>
    ensures value { result ≡ call_said building.now (words lines.now) }
    ensures car { IfOk result (λ call. IfSome call.pin (λ c. c < length building.now.cars)) }
{
    let said = call_of_words(lines)?;
    let pin = pin_named(building, said.pin_id)?;
    Ok(Call {
        id: said.id,
        origin: said.origin,
        destination: said.destination,
        persons: said.persons,
        released: said.released,
        pin,
    })
}
