//! Writing what turns at the root tell.
ghost use Rattle.std.specs.Prelude.{◌≡◌, ◌++◌, ◌∷◌, [], All, IfOk, OnOk, codes, length};
ghost use Rattle.std.specs.List.{flat_map};
ghost use Rattle.elevator_model.specs.Snapshot.{call_count, car_count};
ghost use Rattle.answer_text.specs.Plans.{BoardsCalls};
ghost use Rattle.search_tree.specs.Sheets.{IsSized};
ghost use Rattle.case_commands.specs.RootTexts.{halves_text, price_line, price_lines, reason_line};
ghost use Rattle.case_commands.specs.RootTexts.{root_text as root_text_lem, share_text, sheet_text};
ghost use Rattle.case_commands.specs.RootTexts.{signed_line, worth_line, worth_lines};

use answer_text::write_stops;
use call_state::Snapshot;
use elevator_model::{MOST_CALLS, MOST_CARS};
use half_plans::Share;
use lift_text::{put_line, put_number, put_words};
use price_scale::Price;
use root_prices::{RootAnswer, RootReason};
use snapshot_text::{id_of_call, id_of_car};
use std::alloc::{AllocError, Global};

/// Appends a line of a name, numbers and one that may be negative.
fn put_signed(out: &mut Vec<u8>, name: &[u8], numbers: &[u64], last: i128) -> Result<(), AllocError>
    ensures { OnOk result (out.new.items ≡ out.old.items ++ signed_line name.now numbers.now last) }
{
    put_words(out, name, numbers)?;
    out.push(b' ')?;
    put_number(out, last)?;
    out.push(b'\n')?;
    Ok(())
}

/// Appends the line of a call.
fn put_price(
    out: &mut Vec<u8>,
    snapshot: &Snapshot,
    call: u32,
    price: Price,
) -> Result<(), AllocError>
    ensures { OnOk result (out.new.items ≡ out.old.items ++ price_line snapshot.now call price) }
{
    let id = id_of_call(snapshot, call);
    put_signed(out, b"price", &[id], price.value())?;
    Ok(())
}

/// Appends a line for each call, in their order.
fn put_prices(out: &mut Vec<u8>, snapshot: &Snapshot, prices: &[Price]) -> Result<(), AllocError>
    requires { length prices.now ≡ call_count snapshot.now }
    ensures { OnOk result (out.new.items
        ≡ out.old.items ++ price_lines snapshot.now prices.now (call_count snapshot.now)) }
{
    prove!(snapshot.calls().len() <= MOST_CALLS);
    for call in 0..prices.len() {
        let price = prices[call];
        put_price(out, snapshot, call as u32, price)?;
    }
    Ok(())
}

/// Appends the line of a car.
fn put_worth(
    out: &mut Vec<u8>,
    snapshot: &Snapshot,
    car: u32,
    worth: i128,
) -> Result<(), AllocError>
    ensures { OnOk result (out.new.items ≡ out.old.items ++ worth_line snapshot.now car worth) }
{
    let id = id_of_car(snapshot, car);
    put_signed(out, b"worth", &[id], worth)?;
    Ok(())
}

/// Appends a line for each car, in their order.
fn put_worths(out: &mut Vec<u8>, snapshot: &Snapshot, worths: &[i128]) -> Result<(), AllocError>
    requires { length worths.now ≡ car_count snapshot.now }
    ensures { OnOk result (out.new.items
        ≡ out.old.items ++ worth_lines snapshot.now worths.now (car_count snapshot.now)) }
{
    prove!(snapshot.building().cars().len() <= MOST_CARS as usize);
    for car in 0..worths.len() {
        let worth = worths[car];
        put_worth(out, snapshot, car as u32, worth)?;
    }
    Ok(())
}

/// Appends the bound, the prices and the worths.
fn put_sheet(out: &mut Vec<u8>, snapshot: &Snapshot, answer: &RootAnswer) -> Result<(), AllocError>
    requires calls { length answer.now.sheet.prices ≡ call_count snapshot.now }
    requires cars { length answer.now.sheet.worths ≡ car_count snapshot.now }
    ensures { OnOk result (out.new.items ≡ out.old.items ++ sheet_text snapshot.now answer.now) }
{
    put_line(out, b"root", &[1])?;
    put_signed(out, b"bound", &[], answer.bound)?;
    let prices = answer.sheet.prices();
    put_prices(out, snapshot, prices)?;
    let worths = answer.sheet.worths();
    put_worths(out, snapshot, worths)?;
    Ok(())
}

/// Appends a share: its car, its weight, and the stops of its tour.
fn put_share(out: &mut Vec<u8>, snapshot: &Snapshot, share: &Share) -> Result<(), AllocError>
    requires { BoardsCalls snapshot.now share.now.tour }
    ensures { OnOk result (out.new.items ≡ out.old.items ++ share_text snapshot.now share.now) }
{
    let id = id_of_car(snapshot, share.car);
    put_line(out, b"share", &[id, share.weight])?;
    write_stops(snapshot, &share.tour, out)?;
    Ok(())
}

/// Appends the plan in halves.
fn put_halves(out: &mut Vec<u8>, snapshot: &Snapshot, answer: &RootAnswer) -> Result<(), AllocError>
    requires { All (λ share. BoardsCalls snapshot.now share.tour) answer.now.shares }
    ensures { OnOk result (out.new.items ≡ out.old.items ++ halves_text snapshot.now answer.now) }
{
    put_line(out, b"mixture", &[answer.cost, 2])?;
    let shares = answer.shares.as_slice();
    put_shares(out, snapshot, shares)?;
    put_line(out, b"end", &[])?;
    Ok(())
}

/// Appends the shares, in their order.
fn put_shares(out: &mut Vec<u8>, snapshot: &Snapshot, shares: &[Share]) -> Result<(), AllocError>
    requires { All (λ share. BoardsCalls snapshot.now share.tour) shares.now }
    ensures { OnOk result (out.new.items ≡ out.old.items ++ flat_map (share_text snapshot.now) shares.now) }
{
    for share in shares {
        put_share(out, snapshot, share)?;
    }
    Ok(())
}

/// Appends the comment line that says whether the two meet, or what is left open.
fn put_reason(out: &mut Vec<u8>, snapshot: &Snapshot, why: RootReason) -> Result<(), AllocError>
    ensures { OnOk result (out.new.items ≡ out.old.items ++ reason_line snapshot.now why) }
{
    match why {
        RootReason::Best => out.extend_from_slice(b"# best\n"),
        RootReason::Gap => out.extend_from_slice(b"# gap\n"),
        RootReason::Moves { car, count } => {
            put_line(out, b"# open moves", &[id_of_car(snapshot, car), count])
        }
        RootReason::Pairs { count } => put_line(out, b"# open pairs", &[count]),
    }
}

/// The text of what turns at the root tell: `root 1`, `bound L`, `price CALL P` for each call, `worth CAR R`
/// for each car, `mixture N 2`, for each share `share CAR WEIGHT` and its stops, `end`, and a comment line,
/// `# best`, `# gap`, `# open moves CAR N` or `# open pairs N`. It fails only where there is no memory left.
pub(crate) fn root_text(
    alloc: Global,
    snapshot: &Snapshot,
    answer: &RootAnswer,
) -> Result<Vec<u8>, AllocError>
    requires calls { length answer.now.sheet.prices ≡ call_count snapshot.now }
    requires cars { length answer.now.sheet.worths ≡ car_count snapshot.now }
    requires shares { All (λ share. BoardsCalls snapshot.now share.tour) answer.now.shares }
    ensures { IfOk result (λ text. text.items ≡ root_text_lem snapshot.now answer.now) }
{
    let mut text = Vec::new(alloc);
    put_sheet(&mut text, snapshot, answer)?;
    put_halves(&mut text, snapshot, answer)?;
    put_reason(&mut text, snapshot, answer.why)?;
    Ok(text)
}
