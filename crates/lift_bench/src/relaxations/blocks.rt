//! A pool and what its relaxation says, as lines of words and numbers.

use crate::relaxations::pools::ColumnPool;
use partition_relaxation::{Column, Relaxation, relax};
use price_scale::Price;
use std::io;

/// Prints a line of this word and these prices.
fn print_prices(rt: &HostRuntime, word: &str, prices: &[Price]) -> io::Result<()> {
    print!(rt; "{word}")?;
    for price in prices {
        print!(rt; " {}", price.value())?;
    }
    println!(rt; "")
}

/// Prints a column to the end of the line: its cost, its car and its calls.
fn print_column(rt: &HostRuntime, column: &Column) -> io::Result<()> {
    print!(rt; " {} {}", column.cost, column.car)?;
    for call in column.calls.iter() {
        print!(rt; " {call}")?;
    }
    println!(rt; "")
}

/// Prints a line for each column.
fn print_columns(rt: &HostRuntime, word: &str, columns: &[Column]) -> io::Result<()> {
    for column in columns {
        print!(rt; "{word}")?;
        print_column(rt, column)?;
    }
    Ok(())
}

/// Prints what a relaxation says.
fn print_answer(rt: &HostRuntime, answer: &Relaxation) -> io::Result<()> {
    println!(rt;
        "value {} held {} least {}",
        answer.value, answer.is_held, answer.is_least
    )?;
    print_prices(rt, "prices", &answer.prices)?;
    for share in &answer.shares {
        print!(rt; "share {}", share.share)?;
        print_column(rt, &share.column)?;
    }
    Ok(())
}

/// What the relaxation of a pool says. None where a number is too large.
pub(crate) fn relaxed(rt: &HostRuntime, pool: &ColumnPool) -> io::Result<Option<Relaxation>> {
    Ok(relax(
        rt.alloc(),
        pool.cars as usize,
        &pool.centres,
        pool.reach,
        &pool.first,
        &pool.columns,
    )?)
}

/// Prints a pool and what its relaxation says.
pub(crate) fn print_block(rt: &HostRuntime, pool: &ColumnPool) -> io::Result<()> {
    println!(rt; "cars {} reach {}", pool.cars, pool.reach)?;
    print_prices(rt, "centres", &pool.centres)?;
    print_columns(rt, "offer", &pool.offers)?;
    print_columns(rt, "first", &pool.first)?;
    print_columns(rt, "column", &pool.columns)?;
    match relaxed(rt, pool)? {
        Some(answer) => print_answer(rt, &answer)?,
        None => println!(rt; "none")?,
    }
    println!(rt; "end")
}
