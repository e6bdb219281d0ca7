//! Tours and plans as short texts. There is none where the text is none of these, or memory runs out.

use elevator_model::{Boards, Plan, Stop, Tour};
use std::alloc::Global;

/// The calls of a word of digits, one digit for each.
fn boards_in(alloc: Global, digits: &str) -> Option<Boards> {
    let mut boards = Boards::new(alloc);
    for digit in digits.bytes() {
        let call = digit.checked_sub(b'0')?;
        boards.push(call as u32).ok()?;
    }
    Some(boards)
}

/// The stop `2`, where no call boards, or `2:01`, where the calls 0 and 1 board.
fn stop_in(alloc: Global, word: &str) -> Option<Stop> {
    let (floor, digits) = word.split_once(":").unwrap_or((word, ""));
    Some(Stop {
        floor: floor.parse::<u32>().ok()?,
        boards: boards_in(alloc, digits)?,
    })
}

/// A tour, like `2:01 0`: stops apart by blanks.
pub fn tour_in(alloc: Global, text: &str) -> Option<Tour> {
    let mut tour = Tour::new(alloc);
    for word in text.split_whitespace() {
        tour.push(stop_in(alloc, word)?).ok()?;
    }
    Some(tour)
}

/// A plan, like `2:01 0 / 1:2 3`: tours apart by strokes, at most one for each of four cars.
pub fn plan_in(alloc: Global, text: &str) -> Option<Plan> {
    let mut plan = Plan::new(alloc);
    let mut rest = text;
    for _stroke in 0..3 {
        let Some((head, tail)) = rest.split_once("/") else {
            break;
        };
        plan.push(tour_in(alloc, head)?).ok()?;
        rest = tail;
    }
    plan.push(tour_in(alloc, rest)?).ok()?;
    Some(plan)
}
