//! `lift_bench` takes a measurement, which the first word names:
//!
//!     first_plan N                    first plans of N drawn snapshots of each kind beside cheapest ones
//!     first_plan FLOORS CARS CALLS N [ROUNDS]
//!                                     what the first plans of N generated cases cost, after at most ROUNDS rounds
//!                                     of moving calls
//!     pricing FACTOR LIMIT ROUNDS     prices the cars of the snapshot that it reads
//!     walk TOURS                      walks this many partial tours of that snapshot's first car
//!     read ROUNDS CASES               reads and writes the building, snapshot and answer that it reads
//!     lists                           compares pricings, and what is chosen from pools, with lists of everything
//!     relaxations [COUNT [FIRST]]     relaxes drawn pools of columns, which `tests/relaxations` judges
//!     all                             takes each of these once, with small numbers
//!
//! Times go to standard error alone. Where a check of `lists` fails, the status is 1.
#![tactic(auto)]

mod asked;
mod first_plans;
mod input;
mod kinds;
mod lists;
mod pricings;
mod relaxations;
mod rounds;
mod walks;

use asked::{Asked, OfInput, asked_in};
use call_state::Snapshot;
use case_kit::snapshot_in;
use case_maker::make;
use first_plans::{print_costs, print_kinds};
use input::input;
use lists::compare_lists;
use pricings::{Pricing, print_pricing};
use relaxations::print_relaxations;
use rounds::print_rounds;
use std::process::ExitCode;
use std::{env, io};
use walks::print_walk;

/// The words of the command line, and none where they are not text.
fn words_given(rt: &HostRuntime) -> io::Result<Vec<String>> {
    match env::args(rt) {
        Ok(args) => Ok(args.collect::<Vec<String>>(rt.alloc())?),
        Err(error) if error.kind() == io::ErrorKind::OutOfMemory => Err(error),
        Err(_) => Ok(Vec::new(rt.alloc())),
    }
}

/// Prices the cars of a snapshot.
fn price(rt: &HostRuntime, snapshot: Snapshot, pricing: Pricing) -> io::Result<bool> {
    let printed = print_pricing(rt, &snapshot, pricing);
    drop(snapshot);
    printed
}

/// Walks partial tours of a snapshot.
fn walk(rt: &HostRuntime, snapshot: Snapshot, tours: u32) -> io::Result<bool> {
    let printed = print_walk(rt, &snapshot, tours);
    drop(snapshot);
    printed
}

/// Each measurement once: of drawn snapshots, of generated ones, and of the text that is the input; and the
/// comparisons. False where the text is not what it is taken of, or a check failed.
fn print_all(rt: &HostRuntime, text: &[u8]) -> io::Result<bool> {
    print_kinds(rt, 31)?;
    let pricing = Pricing {
        factor: 2,
        limit: 2000,
        rounds: 1,
    };
    price(rt, make(rt.alloc(), 1, 10, 2, 8)?, pricing)?;
    walk(rt, make(rt.alloc(), 1, 8, 1, 8)?, 2000)?;
    Ok(print_rounds(rt, text, 3, 2)? && compare_lists(rt)?)
}

/// Prices the cars of the snapshot whose text this is. False where there is none, or memory is wanting.
fn price_text(rt: &HostRuntime, text: &[u8], pricing: Pricing) -> io::Result<bool> {
    match snapshot_in(rt.alloc(), text) {
        Some(snapshot) => price(rt, snapshot, pricing),
        None => Ok(false),
    }
}

/// Walks partial tours of the snapshot whose text this is. False where there is none, or memory is wanting.
fn walk_text(rt: &HostRuntime, text: &[u8], tours: u32) -> io::Result<bool> {
    match snapshot_in(rt.alloc(), text) {
        Some(snapshot) => walk(rt, snapshot, tours),
        None => Ok(false),
    }
}

/// Takes a measurement of a text. False where the text is not what it is taken of.
fn measure_text(rt: &HostRuntime, asked: OfInput, text: &[u8]) -> io::Result<bool> {
    match asked {
        OfInput::Pricing { pricing } => price_text(rt, text, pricing),
        OfInput::Walk { tours } => walk_text(rt, text, tours),
        OfInput::Read { rounds, cases } => print_rounds(rt, text, rounds, cases),
        OfInput::All => print_all(rt, text),
    }
}

/// Takes a measurement of the input. False where the input is not what it is taken of.
fn measure_input(rt: &HostRuntime, asked: OfInput) -> io::Result<bool> {
    match input(rt) {
        Some(text) => measure_text(rt, asked, &text),
        None => Ok(false),
    }
}

/// Takes the measurement. False where the input is not what it is taken of, or a check failed.
fn measure(rt: &HostRuntime, asked: Asked) -> io::Result<bool> {
    match asked {
        Asked::Kinds { count } => print_kinds(rt, count),
        Asked::Costs { cases } => print_costs(rt, cases),
        Asked::Lists => compare_lists(rt),
        Asked::Relaxations { numbers } => print_relaxations(rt, numbers),
        Asked::OfInput { asked } => measure_input(rt, asked),
    }
}

fn main(rt: HostRuntime) -> io::Result<ExitCode> {
    let words = words_given(&rt)?;
    let Some(asked) = asked_in(&words) else {
        eprintln!(rt;
            "usage: lift_bench first_plan/pricing/walk/read/lists/relaxations/all [numbers]"
        )?;
        return Ok(ExitCode::from(2));
    };
    if measure(&rt, asked)? {
        return Ok(ExitCode::SUCCESS);
    }
    eprintln!(rt; "the input is not what is measured, or a check failed")?;
    Ok(ExitCode::from(1))
}
