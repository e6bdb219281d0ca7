//! What the words of each line say.
ghost use Rattle.std.specs.Prelude.{◌≡◌, ◌≤◌, All};
ghost use Rattle.lift_text.specs.LineReader.{words};
ghost use Rattle.text_sections.specs.Judging.{Gives};
ghost use Rattle.answer_text.specs.Words.{head_said, amount_said, tour_said, call_named, calls_named};
ghost use Rattle.answer_text.specs.Words.{stop_said};

use call_state::Snapshot;
use elevator_model::{Boards, MOST_COST, Stop};
use lift_text::{LineReader, Source, TextCode};
use snapshot_text::car_named;
use std::alloc::Global;
use text_sections::{LineFault, at_least, exactly, number, numbers, short};

/// The version of an `answer` line.
pub(crate) fn head_said<S: Source>(lines: &LineReader<S>) -> Result<u64, TextCode>
    ensures { result ≡ head_said (words lines.now) }
{
    exactly(lines, 2)?;
    number(lines, 1, 1, 1)
}

/// The cost or the bound of a line, in cost units.
pub(crate) fn amount_said<S: Source>(lines: &LineReader<S>) -> Result<u64, TextCode>
    ensures { result ≡ amount_said (words lines.now) }
{
    exactly(lines, 2)?;
    number(lines, 1, 0, MOST_COST)
}

/// The index of the car of a `tour` line.
pub(crate) fn tour_said<S: Source>(
    snapshot: &Snapshot,
    lines: &LineReader<S>,
) -> Result<u32, TextCode>
    ensures { result ≡ tour_said snapshot.now (words lines.now) }
{
    exactly(lines, 2)?;
    let id = short(lines, 1)?;
    car_named(snapshot.building(), id)
}

/// The index of the call with this id.
pub fn call_named(snapshot: &Snapshot, id: u32) -> Result<u32, TextCode>
    ensures { result ≡ call_named snapshot.now id }
{
    match snapshot.call_of(id) {
        Some(call) => Ok(call),
        None => Err(TextCode::UnknownId),
    }
}

/// The indexes of the calls with these ids.
fn calls_named(alloc: Global, snapshot: &Snapshot, ids: &[u64]) -> Result<Boards, LineFault>
    requires { All (λ id. id ≤ 4294967295) ids.now }
    ensures { Gives (calls_named snapshot.now ids.now) result }
{
    let mut boards = Boards::new(alloc);
    for id in ids {
        let call = call_named(snapshot, *id as u32)?;
        boards.push(call)?;
    }
    Ok(boards)
}

/// The stop of a `stop` line.
pub(crate) fn stop_said<S: Source>(
    alloc: Global,
    snapshot: &Snapshot,
    lines: &LineReader<S>,
) -> Result<Stop, LineFault>
    ensures { Gives (stop_said snapshot.now (words lines.now)) result }
{
    at_least(lines, 2)?;
    let floor = short(lines, 1)?;
    let mut ids = Vec::new(alloc);
    numbers(lines, 2, 0, u64::from(u32::MAX), &mut ids)?;
    let boards = calls_named(alloc, snapshot, &ids)?;
    Ok(Stop { floor, boards })
}
