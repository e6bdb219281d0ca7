//! Banks of cars, each with rows of its own.

use call_state::Snapshot;

/// A row of a bank.
#[derive(Drop)]
pub enum BankRow {
    /// The line of its fields, without an end: it says a row as a line of a day does.
    Fields(Vec<u8>),
    /// It says none.
    Other,
}

/// A bank of cars: how its day opens, and the rows that are its own.
#[derive(Drop)]
pub struct Bank {
    pub id: u32,
    pub opening: Snapshot,
    pub rows: Vec<BankRow>,
}
