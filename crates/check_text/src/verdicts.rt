//! Writing verdicts.
ghost use Rattle.std.specs.Prelude.{◌≡◌, ◌++◌, ◌∷◌, [], OnErr, OnOk, codes, true, false};
ghost use Rattle.std.specs.Fmt.{signed_decimal};
ghost use Rattle.lift_text.specs.Text.{line};
ghost use Rattle.answer_text.specs.Plans.{BoardsCalls};
ghost use Rattle.answer_text.specs.Texts.{stops_text};
ghost use Rattle.check_text.specs.VerdictTexts.{IsToldOf, TellsOwnTour, bad_place, is_unserved, no_line};
ghost use Rattle.check_text.specs.VerdictTexts.{reason_text, signed_no_line, verdict_text};

use crate::checked::Checked;
use answer_text::write_stops;
use call_state::Snapshot;
use elevator_model::{BadPlan, Rule};
use lift_text::{put_line, put_number, put_words};
use search_model::{Reason, Verdict};
use snapshot_text::{id_of_call, id_of_car};
use std::alloc::AllocError;

/// Whether a call is in no tour.
fn says_unserved(rule: Rule) -> bool
    ensures { result ≡ is_unserved rule }
{
    matches!(rule, Rule::Unserved)
}

fn put_bad_place(out: &mut Vec<u8>, snapshot: &Snapshot, bad: &BadPlan) -> Result<(), AllocError>
    ensures { OnOk result (out.new.items
        ≡ out.old.items ++ no_line (bad_place snapshot.now bad.now (is_unserved bad.now.rule))) }
{
    let rule = u64::from(bad.rule.number());
    if says_unserved(bad.rule) {
        put_line(out, b"no", &[31, 0, id_of_call(snapshot, bad.stop), rule])
    } else {
        let car = id_of_car(snapshot, bad.car);
        put_line(out, b"no", &[31, car, u64::from(bad.stop), rule])
    }
}

/// Writes a space and a number.
fn put_signed(out: &mut Vec<u8>, value: i128) -> Result<(), AllocError>
    ensures { OnOk result (out.new.items ≡ out.old.items ++ 32 ∷ signed_decimal value) }
{
    out.push(b' ')?;
    put_number(out, value)
}

/// Writes a line `no` of numbers, of which the last two may be negative.
fn put_signed_line(
    out: &mut Vec<u8>,
    numbers: &[u64],
    first: i128,
    second: i128,
) -> Result<(), AllocError>
    ensures { OnOk result (out.new.items ≡ out.old.items ++ signed_no_line numbers.now first second) }
{
    put_words(out, b"no", numbers)?;
    put_signed(out, first)?;
    put_signed(out, second)?;
    out.push(b'\n')?;
    Ok(())
}

/// Appends the lines of a reason, as `write_verdict` does. After an `Err` a beginning of them may be written.
pub fn put_reason(out: &mut Vec<u8>, snapshot: &Snapshot, reason: &Reason) -> Result<(), AllocError>
    requires { TellsOwnTour snapshot.now reason.now }
    ensures { OnOk result (out.new.items ≡ out.old.items ++ reason_text snapshot.now reason.now) }
{
    match reason {
        Reason::Plan(bad) => put_bad_place(out, snapshot, bad),
        Reason::Cost { stated, actual } => put_line(out, b"no", &[32, *stated, *actual]),
        Reason::Split { node } => put_line(out, b"no", &[33, u64::from(*node)]),
        Reason::Sum { node, need, got } => {
            put_signed_line(out, &[34, u64::from(*node)], *need, *got)
        }
        Reason::Under {
            node,
            car,
            worth,
            value,
            tour,
        } => {
            let id = id_of_car(snapshot, *car);
            put_signed_line(out, &[35, u64::from(*node), id], *worth, *value)?;
            write_stops(snapshot, tour, out)
        }
        Reason::Claim { node, car, claim } => {
            let id = id_of_car(snapshot, *car);
            put_line(out, b"no", &[36, u64::from(*node), id, *claim])
        }
        Reason::Lists { node } => put_line(out, b"no", &[37, u64::from(*node)]),
    }
}

fn put_verdict(out: &mut Vec<u8>, checked: &Checked) -> Result<(), AllocError>
    requires { IsToldOf checked.now.snapshot checked.now.verdict }
    ensures { OnOk result (out.new.items ≡ out.old.items
        ++ verdict_text checked.now.snapshot checked.now.cost checked.now.bound checked.now.verdict) }
{
    match &checked.verdict {
        Verdict::Yes => put_line(out, b"yes", &[checked.cost, checked.bound]),
        Verdict::No(reason) => put_reason(out, &checked.snapshot, reason),
    }
}

/// Appends the text of a verdict: `yes COST BOUND`, or `no` with the number of the reason and what it tells.
///
/// - `no 31 CAR STOP RULE`: the plan breaks a rule, the stop counted from 1; `no 31 0 CALL 12`: a call is in
///   no tour.
/// - `no 32 STATED ACTUAL`: the plan has another cost, in cost units.
/// - `no 33 NODE`: the part of a split divides nothing.
/// - `no 34 NODE NEED GOT`: the prices and worths of a leaf sum to too little, in thousandths of a cost unit.
/// - `no 35 NODE CAR WORTH VALUE` and the `stop` lines of a tour: its value is below the worth, both in
///   thousandths of a cost unit.
/// - `no 36 NODE CAR CLAIM`: the kept list of a car is longer than the claim.
/// - `no 37 NODE`: a leaf lacks or repeats a price or a worth.
///
/// Nodes are counted from 1 in preorder. The only error is that memory runs out, which leaves `out` as it
/// was: the text is made apart first.
pub fn write_verdict(checked: &Checked, out: &mut Vec<u8>) -> Result<(), AllocError>
    requires { IsToldOf checked.now.snapshot checked.now.verdict }
    ensures text { OnOk result (out.new.items ≡ out.old.items
        ++ verdict_text checked.now.snapshot checked.now.cost checked.now.bound checked.now.verdict) }
    ensures memory { OnErr result (out.new.items ≡ out.old.items) }
{
    let mut text = Vec::new(*out.allocator());
    put_verdict(&mut text, checked)?;
    out.extend_from_slice(&text)
}
