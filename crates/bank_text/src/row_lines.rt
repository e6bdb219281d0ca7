//! The rows of all banks, read line by line.

ghost use Rattle.std.specs.Prelude.{◌≡◌, ◌≤◌, ◌<◌, ◌+◌, ◌&&◌, ℕ, [], ◌∷◌, None, Some, IfErr, IfNone, IfOk};
ghost use Rattle.std.specs.Prelude.{IfSome, IsErrOf, OnOk, length, nat_lt, not, slice_get};
ghost use Rattle.std.specs.List.{list_any};
ghost use Rattle.std.specs.Io.KnownBytes.{IsAtEnd};
ghost use Rattle.byte_streams.specs.Streams.{Rose};
ghost use Rattle.lift_text.specs.LineReader.{text, line, failure};
ghost use Rattle.lift_text.specs.Shows.{FaultShows, WentOn};
ghost use Rattle.case_text.specs.CaseTexts.{Tells};
ghost use Rattle.bank_text.specs.BankRows.{is_said_in, row_said, said_by, said_of_short};
ghost use Rattle.bank_text.specs.Banks.{AreDistinct, AreRowsAdded, AreRowsRead, IsRowsFault, NextTaken};
ghost use Rattle.bank_text.specs.Banks.{all_with, ids_of, next_of, rows_counted};
ghost use Rattle.bank_text.specs.Banks.{view_of, views_of, with_rows};

use crate::bank_rows::{NamedRow, read_named_row};
use crate::banks::{Bank, BankRow};
use lift_text::{LINE_COUNT_BOUND, LineReader, RawLine, Source, TEXT_LIMIT, TextFault};
use std::alloc::{AllocError, Global};

/// What stood next in the text.
#[derive(Clone, Copy)]
pub(crate) enum NextRow {
    /// A line, which is for no bank or for one.
    Line { is_stray: bool },
    /// The end.
    End,
}

/// Adds a row behind the others of the bank.
fn add_row(bank: &mut Bank, row: BankRow) -> Result<(), AllocError>
    ensures { OnOk result (view_of bank.new ≡ with_rows (view_of bank.old) (row_said row ∷ [])) }
{
    bank.rows.push(row)?;
    Ok(())
}

/// Where the bank with this id is, if there is one.
pub(crate) fn place_of(banks: &[Bank], id: u32) -> Option<usize>
    ensures found { IfSome result (λ place. slice_get (ids_of banks.now) place ≡ Some id) }
    ensures within { IfSome result (λ place. place < length banks.now) }
    ensures none { IfNone result ((k : ℕ) → slice_get (ids_of banks.now) k ≡ Some id → ⊥) }
{
    for place in 0..banks.len() {
        if banks[place].id == id {
            return Some(place);
        }
    }
    None
}

/// Adds a row to the bank that it names, and tells whether there is one.
fn add_named(banks: &mut [Bank], named: NamedRow) -> Result<bool, AllocError>
    requires { AreDistinct (ids_of banks.old) }
    ensures rows { OnOk result (views_of banks.new
        ≡ all_with (Some (said_by named) ∷ []) (views_of banks.old)) }
    ensures found { IfOk result (λ found.
        found ≡ list_any (is_said_in (Some (said_by named))) (ids_of banks.old)) }
{
    let NamedRow { id, row } = named;
    match place_of(banks, id) {
        Some(place) => {
            add_row(&mut banks[place], row)?;
            Ok(true)
        }
        None => Ok(false),
    }
}

/// Brings what a line of at most 4,096 bytes says to the bank that it names, and tells whether it is a stray:
/// some byte stands in it, and it names none of the banks.
fn take_line(alloc: Global, banks: &mut [Bank], line: &[u8]) -> Result<bool, AllocError>
    requires { AreDistinct (ids_of banks.old) }
    ensures rows { OnOk result (views_of banks.new
        ≡ all_with (said_of_short line.now ∷ []) (views_of banks.old)) }
    ensures stray { IfOk result (λ stray. stray ≡ (nat_lt 0 (length line.now)
        && not (list_any (is_said_in (said_of_short line.now)) (ids_of banks.old)))) }
{
    match read_named_row(alloc, line)? {
        Some(named) => {
            let found = add_named(banks, named)?;
            Ok(!found)
        }
        None => Ok(!line.is_empty()),
    }
}

/// A line was brought to its bank, or memory ran out for it.
fn next_of(taken: Result<bool, AllocError>) -> Result<NextRow, TextFault>
    ensures { result ≡ next_of taken }
{
    match taken {
        Ok(is_stray) => Ok(NextRow::Line { is_stray }),
        Err(_) => Err(TextFault::NoMemory),
    }
}

/// Reads the next line, and brings what it says to the bank that it names. An over-long line is a stray.
fn take_next<S: Source>(
    alloc: Global,
    lines: &mut LineReader<S>,
    banks: &mut [Bank],
) -> Result<NextRow, TextFault>
    requires unfailed { failure lines.old ≡ None }
    requires distinct { AreDistinct (ids_of banks.old) }
    ensures same_source { lines.new.source.ghost_name ≡ lines.old.source.ghost_name }
    ensures taken { NextTaken (text S.left lines.old) banks.old result banks.new (text S.left lines.new) }
    ensures went { OnOk result (WentOn (text S.left lines.old) (text S.left lines.new)) }
    ensures number { OnOk result (line lines.new ≡ line lines.old + rows_counted result) }
    ensures ended { result ≡ Ok NextRow.End → IsAtEnd (S.left lines.new.source.now) }
    ensures shows { IfErr result (λ fault.
        FaultShows (text S.left lines.old) fault (S.left lines.new.source.now)) }
    ensures ok { OnOk result (failure lines.new ≡ None) }
    ensures read { IsErrOf result TextFault.Read
        → Rose (S.faults lines.old.source.now) (S.faults lines.new.source.now) }
    ensures counted { S.faults lines.old.source.now ≤ S.faults lines.new.source.now }
{
    match lines.raw_line() {
        Ok(RawLine::Line) => next_of(take_line(alloc, banks, lines.raw())),
        Ok(RawLine::Long) => Ok(NextRow::Line { is_stray: true }),
        Ok(RawLine::End) => Ok(NextRow::End),
        Err(fault) => Err(fault),
    }
}

/// Reads the rows of all banks to the end of the text, and gives the number of strays. Each row goes to the
/// bank that its first field names, behind the others there.
pub(crate) fn read_rows<S: Source>(
    alloc: Global,
    lines: &mut LineReader<S>,
    banks: &mut [Bank],
) -> Result<u64, TextFault>
    requires unfailed { failure lines.old ≡ None }
    requires distinct { AreDistinct (ids_of banks.old) }
    ensures same_source { lines.new.source.ghost_name ≡ lines.old.source.ghost_name }
    ensures rows { IfOk result (λ strays. IfSome (text S.left lines.old) (λ before.
        AreRowsRead before banks.old banks.new strays)) }
    ensures refused { IfErr result (λ fault. IfSome (text S.left lines.old) (λ before.
        Tells fault (IsRowsFault before fault))) }
    ensures added { OnOk result (AreRowsAdded banks.old banks.new TEXT_LIMIT) }
    ensures ended { OnOk result (IsAtEnd (S.left lines.new.source.now)) }
    ensures shows { IfErr result (λ fault.
        FaultShows (text S.left lines.old) fault (S.left lines.new.source.now)) }
    ensures read { IsErrOf result TextFault.Read
        → Rose (S.faults lines.old.source.now) (S.faults lines.new.source.now) }
    ensures counted { S.faults lines.old.source.now ≤ S.faults lines.new.source.now }
{
    let mut strays = 0;
    'lines: for _ in 0..LINE_COUNT_BOUND {
        match take_next(alloc, lines, banks) {
            Ok(NextRow::Line { is_stray }) => strays += u64::from(is_stray),
            Ok(NextRow::End) => return Ok(strays),
            Err(fault) => return Err(fault),
        }
    }
    // For the proof: a line's number is at most 67,108,864, so this is never reached.
    let _last = lines.line();
    Err(TextFault::TooLong)
}
