//! What the words of the command line ask for.

use crate::first_plans::Cases;
use crate::pricings::Pricing;
use crate::relaxations::Numbers;
use first_plan::DEFAULT_ROUNDS;

/// A measurement.
#[derive(Clone, Copy)]
pub(crate) enum Asked {
    Kinds { count: u32 },
    Costs { cases: Cases },
    Lists,
    Relaxations { numbers: Numbers },
    OfInput { asked: OfInput },
}

/// A measurement of the text that is the input.
#[derive(Clone, Copy)]
pub(crate) enum OfInput {
    Pricing { pricing: Pricing },
    Walk { tours: u32 },
    Read { rounds: u32, cases: u32 },
    All,
}

/// The number that the word at this place writes, and 0 where there is no such word. None where it writes
/// none.
fn number(words: &[String], place: usize) -> Option<u32> {
    match words.get(place) {
        Some(word) => word.as_str().parse::<u32>().ok(),
        None => Some(0),
    }
}

/// The numbers after the first word, of which there are at most five.
fn numbers(words: &[String]) -> Option<[u32; 5]> {
    Some([
        number(words, 2)?,
        number(words, 3)?,
        number(words, 4)?,
        number(words, 5)?,
        number(words, 6)?,
    ])
}

/// The measurement of the input of this name with these numbers, and None where it has another number of them.
fn of_input(name: &str, words: usize, numbers: [u32; 5]) -> Option<OfInput> {
    let [first, second, third, ..] = numbers;
    match (name, words) {
        ("pricing", 5) => Some(OfInput::Pricing {
            pricing: Pricing {
                factor: first,
                limit: second,
                rounds: third,
            },
        }),
        ("walk", 3) => Some(OfInput::Walk { tours: first }),
        ("read", 4) => Some(OfInput::Read {
            rounds: first,
            cases: second,
        }),
        ("all", 2) => Some(OfInput::All),
        _ => None,
    }
}

/// The measurement of this name with these numbers, and None where it has another number of them.
fn named(name: &str, words: usize, numbers: [u32; 5]) -> Option<Asked> {
    let [first, second, third, count, rounds] = numbers;
    match (name, words) {
        ("first_plan", 3) => Some(Asked::Kinds { count: first }),
        ("first_plan", 6 | 7) => Some(Asked::Costs {
            cases: Cases {
                floors: first,
                cars: second,
                calls: third,
                count,
                rounds: if words == 7 { rounds } else { DEFAULT_ROUNDS },
            },
        }),
        ("lists", 2) => Some(Asked::Lists),
        ("relaxations", _) => Some(Asked::Relaxations {
            numbers: Numbers::asked(words, first, second)?,
        }),
        _ => Some(Asked::OfInput {
            asked: of_input(name, words, numbers)?,
        }),
    }
}

/// The measurement that the words after the program's name ask for, and None for other words.
pub(crate) fn asked_in(words: &[String]) -> Option<Asked> {
    named(words.get(1)?.as_str(), words.len(), numbers(words)?)
}
