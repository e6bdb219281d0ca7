//! Writing answers.
ghost use Rattle.std.specs.Prelude.{◌≡◌, ◌++◌, ◌<◌, ◌==◌, ◌∷◌, [], codes, decimal, filter, length, map};
ghost use Rattle.std.specs.Prelude.{OnErr, OnOk};
ghost use Rattle.std.specs.List.{flat_map, range_with_len};
ghost use Rattle.elevator_model.specs.Snapshot.{car_count, call_of};
ghost use Rattle.lift_text.specs.Text.{word};
ghost use Rattle.text_sections.specs.Canonical.{line_text, lines_text};
ghost use Rattle.answer_text.specs.Plans.{AreCalls, BoardsCalls, FitsSnapshot, by_index};
ghost use Rattle.answer_text.specs.Texts.{stop_words, tour_lines, stops_text, body_text, answer_text};

use call_sets::CallSet;
use call_state::Snapshot;
use elevator_model::{Plan, Stop, Tour};
use lift_text::{put_line, put_word, put_words};
use search_model::Stated;
use std::alloc::AllocError;

/// Writes the id of a call as often as the call stands among the boards.
fn put_board(out: &mut Vec<u8>, boards: &[u32], call: u32, id: u32) -> Result<(), AllocError>
    ensures { OnOk result (out.new.items
        ≡ out.old.items ++ flat_map (λ x. word id) (filter (λ x. x == call) boards.now)) }
{
    for board in boards {
        if *board == call {
            put_word(out, u64::from(id))?;
        }
    }
    Ok(())
}

/// Writes the ids of the calls that board, by rising index of the calls.
fn put_boards(out: &mut Vec<u8>, snapshot: &Snapshot, boards: &[u32]) -> Result<(), AllocError>
    requires { AreCalls snapshot.now boards.now }
    ensures { OnOk result (out.new.items
        ≡ out.old.items ++ flat_map (λ j. word (call_of snapshot.now j).id) (by_index snapshot.now boards.now)) }
{
    let calls = snapshot.calls();
    for j in CallSet::of_list(boards).iter() {
        put_board(out, boards, j, calls[j as usize].id)?;
    }
    Ok(())
}

fn put_stop(out: &mut Vec<u8>, snapshot: &Snapshot, stop: &Stop) -> Result<(), AllocError>
    requires { AreCalls snapshot.now stop.now.boards }
    ensures { OnOk result (out.new.items ≡ out.old.items ++ line_text (stop_words snapshot.now stop.now)) }
{
    put_words(out, b"stop", &[u64::from(stop.floor)])?;
    put_boards(out, snapshot, stop.boards.as_slice())?;
    out.push(b'\n')?;
    Ok(())
}

fn put_stops(out: &mut Vec<u8>, snapshot: &Snapshot, stops: &[Stop]) -> Result<(), AllocError>
    requires { BoardsCalls snapshot.now stops.now }
    ensures { OnOk result (out.new.items ≡ out.old.items ++ stops_text snapshot.now stops.now) }
{
    for stop in stops {
        put_stop(out, snapshot, stop)?;
    }
    Ok(())
}

/// Writes the tour of each car.
fn put_tours(out: &mut Vec<u8>, snapshot: &Snapshot, plan: &Plan) -> Result<(), AllocError>
    requires { FitsSnapshot snapshot.now plan.now }
    ensures { OnOk result (out.new.items ≡ out.old.items
        ++ flat_map (λ c. lines_text (tour_lines snapshot.now plan.now c))
        (range_with_len 0 (car_count snapshot.now))) }
{
    let tours = plan.tours();
    for c in 0..tours.len() {
        let id = snapshot.building().cars()[c].id;
        put_line(out, b"tour", &[u64::from(id)])?;
        put_stops(out, snapshot, tours[c].stops())?;
    }
    Ok(())
}

fn put_body(
    out: &mut Vec<u8>,
    snapshot: &Snapshot,
    plan: &Plan,
    cost: u64,
    bound: u64,
) -> Result<(), AllocError>
    requires { FitsSnapshot snapshot.now plan.now }
    ensures { OnOk result (out.new.items ≡ out.old.items ++ body_text snapshot.now plan.now cost bound) }
{
    put_line(out, b"cost", &[cost])?;
    put_line(out, b"bound", &[bound])?;
    put_tours(out, snapshot, plan)
}

fn put_answer(out: &mut Vec<u8>, snapshot: &Snapshot, stated: &Stated) -> Result<(), AllocError>
    requires { FitsSnapshot snapshot.now stated.now.plan }
    ensures { OnOk result (out.new.items ≡ out.old.items ++ answer_text snapshot.now stated.now) }
{
    put_line(out, b"answer", &[1])?;
    put_body(out, snapshot, &stated.plan, stated.cost, stated.bound)?;
    put_line(out, b"end", &[])
}

/// Appends the canonical text of an answer: `answer 1`, `cost U`, `bound L`, for each car in the building's
/// order `tour CAR` and a line `stop FLOOR CALL ..` for each stop, and `end`. The calls of a stop come by
/// rising index, and a call that stands there twice is written twice.
///
/// The only error is that memory runs out, which leaves `out` as it was: the text is made apart first.
pub fn write_answer(
    snapshot: &Snapshot,
    stated: &Stated,
    out: &mut Vec<u8>,
) -> Result<(), AllocError>
    requires { FitsSnapshot snapshot.now stated.now.plan }
    ensures text { OnOk result (out.new.items ≡ out.old.items ++ answer_text snapshot.now stated.now) }
    ensures memory { OnErr result (out.new.items ≡ out.old.items) }
{
    let mut text = Vec::new(*out.allocator());
    put_answer(&mut text, snapshot, stated)?;
    out.extend_from_slice(&text)
}

/// Appends the lines of an answer between its first line and its `end`. The cost and the bound are in cost
/// units.
///
/// The only error is that memory runs out, which leaves `out` as it was.
pub fn write_body(
    snapshot: &Snapshot,
    plan: &Plan,
    cost: u64,
    bound: u64,
    out: &mut Vec<u8>,
) -> Result<(), AllocError>
    requires { FitsSnapshot snapshot.now plan.now }
    ensures text { OnOk result (out.new.items ≡ out.old.items ++ body_text snapshot.now plan.now cost bound) }
    ensures memory { OnErr result (out.new.items ≡ out.old.items) }
{
    let mut text = Vec::new(*out.allocator());
    put_body(&mut text, snapshot, plan, cost, bound)?;
    out.extend_from_slice(&text)
}

/// Appends the `stop` lines of one tour.
///
/// The only error is that memory runs out, which leaves `out` as it was.
pub fn write_stops(snapshot: &Snapshot, tour: &Tour, out: &mut Vec<u8>) -> Result<(), AllocError>
    requires { BoardsCalls snapshot.now tour.now }
    ensures text { OnOk result (out.new.items ≡ out.old.items ++ stops_text snapshot.now tour.now) }
    ensures memory { OnErr result (out.new.items ≡ out.old.items) }
{
    let mut text = Vec::new(*out.allocator());
    put_stops(&mut text, snapshot, tour.stops())?;
    out.extend_from_slice(&text)
}
