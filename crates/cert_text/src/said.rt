//! What the words of each line say.
ghost use Rattle.std.specs.Prelude.{◌≡◌, ◌<◌, ◌≤◌, All, length};
ghost use Rattle.lift_text.specs.LineReader.{words};
ghost use Rattle.text_sections.specs.Judging.{Gives};
ghost use Rattle.cert_text.specs.Words.{head_said, price_of_word, part_named, split_said, price_said};
ghost use Rattle.cert_text.specs.Words.{worth_said};

use crate::kinds::Entry;
use answer_text::call_named;
use call_sets::CarSet;
use call_state::{Building, Snapshot};
use lift_text::{LineReader, Source, TextCode};
use price_scale::{MOST_PRICE, MOST_WORTH, Price};
use search_model::{MOST_CLAIM, PriceOf, WorthOf};
use snapshot_text::car_named;
use std::alloc::Global;
use text_sections::{LineFault, at_least, exactly, number, numbers, short, signed};

/// The version of a `certificate` line.
pub(crate) fn head_said<S: Source>(lines: &LineReader<S>) -> Result<u64, TextCode>
    ensures { result ≡ head_said (words lines.now) }
{
    exactly(lines, 2)?;
    number(lines, 1, 1, 1)
}

/// The set of the cars with these ids.
fn part_named(building: &Building, ids: &[u64]) -> Result<CarSet, TextCode>
    requires { All (λ id. id ≤ 4294967295) ids.now }
    ensures { result ≡ part_named building.now ids.now }
{
    // For the proof: there are at most 16 cars.
    let _cars = building.cars();
    let mut part = CarSet::empty();
    for id in ids {
        let car = match car_named(building, *id as u32) {
            Ok(car) => car,
            Err(code) => return Err(code),
        };
        part = part.with(car);
    }
    Ok(part)
}

/// The split of a `split` line.
pub(crate) fn split_said<S: Source>(
    alloc: Global,
    snapshot: &Snapshot,
    lines: &LineReader<S>,
) -> Result<Entry, LineFault>
    ensures { Gives (split_said snapshot.now (words lines.now)) result }
{
    at_least(lines, 2)?;
    let id = short(lines, 1)?;
    let mut ids = Vec::new(alloc);
    numbers(lines, 2, 0, u64::from(u32::MAX), &mut ids)?;
    let call = call_named(snapshot, id)?;
    let part = part_named(snapshot.building(), &ids)?;
    Ok(Entry::Split { call, part })
}

/// Word `k` as a price.
fn price_of_word<S: Source>(lines: &LineReader<S>, k: u32) -> Result<Price, TextCode>
    requires { k < length (words lines.now) }
    ensures { result ≡ price_of_word (words lines.now) k }
{
    let value = signed(lines, k, -MOST_PRICE, MOST_PRICE)?;
    Price::new(value).ok_or(TextCode::OutOfRange)
}

/// The price of a `price` line.
pub(crate) fn price_said<S: Source>(
    snapshot: &Snapshot,
    lines: &LineReader<S>,
) -> Result<PriceOf, TextCode>
    ensures { result ≡ price_said snapshot.now (words lines.now) }
{
    exactly(lines, 3)?;
    let id = short(lines, 1)?;
    let price = price_of_word(lines, 2)?;
    let call = call_named(snapshot, id)?;
    Ok(PriceOf { call, price })
}

/// The worth of a `worth` line.
pub(crate) fn worth_said<S: Source>(
    snapshot: &Snapshot,
    lines: &LineReader<S>,
) -> Result<WorthOf, TextCode>
    ensures { result ≡ worth_said snapshot.now (words lines.now) }
{
    exactly(lines, 4)?;
    let id = short(lines, 1)?;
    let worth = signed(lines, 2, -MOST_WORTH, MOST_WORTH)?;
    let claim = number(lines, 3, 1, MOST_CLAIM)?;
    let car = car_named(snapshot.building(), id)?;
    Ok(WorthOf { car, worth, claim })
}
