//! Reading the whole input of several banks.

ghost use Rattle.std.specs.Prelude.{◌≡◌, ◌≤◌, ◌<◌, ◌++◌, None, [], ◌∷◌, All, IfErr, IfOk, IsErrOf, OnOk, length};
ghost use Rattle.std.specs.Prelude.{vec_capacity, vec_len};
ghost use Rattle.std.specs.Io.KnownBytes.{IsAtEnd};
ghost use Rattle.byte_streams.specs.Streams.{Rose};
ghost use Rattle.lift_text.specs.LineReader.{text, line, failure};
ghost use Rattle.lift_text.specs.Shows.{FaultShows, WentOn};
ghost use Rattle.bank_text.specs.Banks.{AreDistinct, AreRowsAdded, ids_of, views_of};
ghost use Rattle.bank_text.specs.BankTexts.{AreBanksRead, AreBanksRefused, AreHeadsRead, AreHeadsRefused};
ghost use Rattle.bank_text.specs.BankTexts.{BankFaultShows, IsBankPut, IsNextRead};
ghost use Rattle.bank_text.specs.BankTexts.{IsOpeningRead, IsOpeningRefused, IsReadyBank, IsReadyOpening};
ghost use Rattle.bank_text.specs.BankTexts.{AreRowsBehind, AreRowsRefused, IsRefusal, opened};
ghost use Rattle.bank_text.specs.Taken.{TakesBank, TakesBanks, TakesHeads, TakesInputs, TakesNext};
ghost use Rattle.bank_text.specs.Taken.{TakesOpenings, TakesRows};

use crate::banks::Bank;
use crate::faults::BankFault;
use crate::heads::{Head, read_first, read_head};
use crate::row_lines::{place_of, read_rows};
use building_text::read_building;
use call_state::Snapshot;
use day_text::{Header, read_header};
use lift_text::{LineReader, Source, TEXT_LIMIT, TextFault};
use snapshot_text::read_opening;
use std::alloc::Global;

/// The most banks of an input.
pub const MOST_BANKS: usize = 16;

/// Several banks with their rows, as an input says them.
#[derive(Drop)]
pub struct BankInput {
    /// The banks, in their order.
    pub banks: Vec<Bank>,
    /// How many lines behind the header are for no bank.
    pub strays: u64,
}

/// Reads a building and an opening snapshot of it.
fn read_bank_opening<S: Source>(
    alloc: Global,
    lines: &mut LineReader<S>,
) -> Result<Snapshot, TextFault>
    requires { failure lines.old ≡ None }
    ensures same_source { lines.new.source.ghost_name ≡ lines.old.source.ghost_name }
    ensures opening { IfOk result (λ s. IsOpeningRead (text S.left lines.old) s (text S.left lines.new)) }
    ensures refused { IfErr result (IsOpeningRefused (text S.left lines.old)) }
    ensures ready { IfOk result IsReadyOpening }
    ensures takes { TakesOpenings (text S.left lines.old) result (text S.left lines.new) }
    ensures went { OnOk result (WentOn (text S.left lines.old) (text S.left lines.new)) }
    ensures shows { IfErr result (λ fault.
        FaultShows (text S.left lines.old) fault (S.left lines.new.source.now)) }
    ensures ok { OnOk result (failure lines.new ≡ None) }
    ensures read { IsErrOf result TextFault.Read
        → Rose (S.faults lines.old.source.now) (S.faults lines.new.source.now) }
    ensures counted { S.faults lines.old.source.now ≤ S.faults lines.new.source.now }
{
    match read_building(alloc, lines) {
        Ok(building) => read_opening(alloc, lines, building),
        Err(fault) => Err(fault),
    }
}

/// Why a bank with this id, which this line begins, may not come behind these, if it may not.
fn refusal(banks: &[Bank], id: u32, line: u64) -> Option<BankFault>
    ensures { IsRefusal (ids_of banks.now) id line result }
{
    if place_of(banks, id).is_some() {
        return Some(BankFault::UsedId { line });
    }
    if banks.len() >= MOST_BANKS {
        return Some(BankFault::TooMany { line });
    }
    None
}

/// Puts a bank without rows behind the others.
fn put_bank(alloc: Global, banks: &mut Vec<Bank>, id: u32, opening: Snapshot)
    requires { vec_len banks.old < vec_capacity banks.old }
    ensures { views_of banks.new.items
        ≡ views_of banks.old.items ++ opened (record { id = id; opening = opening }) ∷ [] }
{
    let rows = Vec::new(alloc);
    banks.push_reserved(Bank { id, opening, rows });
}

/// Reads a bank behind its line, and puts it behind the others.
fn read_bank<S: Source>(
    alloc: Global,
    lines: &mut LineReader<S>,
    banks: &mut Vec<Bank>,
    id: u32,
) -> Result<(), TextFault>
    requires { failure lines.old ≡ None }
    ensures same_source { lines.new.source.ghost_name ≡ lines.old.source.ghost_name }
    ensures put { OnOk result (IsBankPut (text S.left lines.old) id banks.old.items banks.new.items
        (text S.left lines.new)) }
    ensures refused { IfErr result (IsOpeningRefused (text S.left lines.old)) }
    ensures takes { TakesBank (text S.left lines.old) id banks.old.items result banks.new.items
        (text S.left lines.new) }
    ensures went { OnOk result (WentOn (text S.left lines.old) (text S.left lines.new)) }
    ensures shows { IfErr result (λ fault.
        FaultShows (text S.left lines.old) fault (S.left lines.new.source.now)) }
    ensures ok { OnOk result (failure lines.new ≡ None) }
    ensures read { IsErrOf result TextFault.Read
        → Rose (S.faults lines.old.source.now) (S.faults lines.new.source.now) }
    ensures counted { S.faults lines.old.source.now ≤ S.faults lines.new.source.now }
{
    if banks.reserve(1).is_err() {
        return Err(TextFault::NoMemory);
    }
    match read_bank_opening(alloc, lines) {
        Ok(opening) => {
            put_bank(alloc, banks, id, opening);
            Ok(())
        }
        Err(fault) => Err(fault),
    }
}

/// Reads the next bank, and puts it behind the others; false is the line `rows`.
fn read_next<S: Source>(
    alloc: Global,
    lines: &mut LineReader<S>,
    banks: &mut Vec<Bank>,
) -> Result<bool, BankFault>
    requires { failure lines.old ≡ None }
    ensures same_source { lines.new.source.ghost_name ≡ lines.old.source.ghost_name }
    ensures next { IsNextRead (text S.left lines.old) banks.old.items result banks.new.items
        (text S.left lines.new) }
    ensures takes { TakesNext (text S.left lines.old) banks.old.items result banks.new.items
        (text S.left lines.new) }
    ensures went { OnOk result (WentOn (text S.left lines.old) (text S.left lines.new)) }
    ensures shows { IfErr result (λ fault.
        BankFaultShows (text S.left lines.old) fault (S.left lines.new.source.now)) }
    ensures ok { OnOk result (failure lines.new ≡ None) }
    ensures read { IsErrOf result (BankFault.Text TextFault.Read)
        → Rose (S.faults lines.old.source.now) (S.faults lines.new.source.now) }
    ensures counted { S.faults lines.old.source.now ≤ S.faults lines.new.source.now }
{
    let others = banks.as_slice();
    let id = match read_head(lines, !others.is_empty()) {
        Ok(Head::Bank { id }) => id,
        Ok(Head::Rows) => return Ok(false),
        Err(fault) => return Err(BankFault::Text(fault)),
    };
    if let Some(fault) = refusal(others, id, lines.line()) {
        return Err(fault);
    }
    match read_bank(alloc, lines, banks, id) {
        Ok(()) => Ok(true),
        Err(fault) => Err(BankFault::Text(fault)),
    }
}

/// Reads all banks, up to the line `rows`.
fn read_heads<S: Source>(
    alloc: Global,
    lines: &mut LineReader<S>,
    banks: &mut Vec<Bank>,
) -> Result<(), BankFault>
    requires unfailed { failure lines.old ≡ None }
    requires empty { banks.old.items ≡ [] }
    ensures same_source { lines.new.source.ghost_name ≡ lines.old.source.ghost_name }
    ensures heads { OnOk result (AreHeadsRead (text S.left lines.old) banks.new.items
        (text S.left lines.new)) }
    ensures distinct { OnOk result (AreDistinct (ids_of banks.new.items)) }
    ensures few { OnOk result (length banks.new.items ≤ MOST_BANKS) }
    ensures refused { IfErr result (AreHeadsRefused (text S.left lines.old)) }
    ensures takes { TakesHeads (text S.left lines.old) result banks.new.items (text S.left lines.new) }
    ensures went { OnOk result (WentOn (text S.left lines.old) (text S.left lines.new)) }
    ensures shows { IfErr result (λ fault.
        BankFaultShows (text S.left lines.old) fault (S.left lines.new.source.now)) }
    ensures ok { OnOk result (failure lines.new ≡ None) }
    ensures read { IsErrOf result (BankFault.Text TextFault.Read)
        → Rose (S.faults lines.old.source.now) (S.faults lines.new.source.now) }
    ensures counted { S.faults lines.old.source.now ≤ S.faults lines.new.source.now }
{
    'banks: for _ in 0..MOST_BANKS + 1 {
        match read_next(alloc, lines, banks) {
            Ok(true) => {}
            Ok(false) => return Ok(()),
            Err(fault) => return Err(fault),
        }
    }
    // For the proof: a seventeenth bank is refused, so this is never reached.
    Err(BankFault::Text(TextFault::TooLong))
}

/// Reads the header of the rows of all banks, and then the rows.
fn read_all_rows<S: Source>(
    alloc: Global,
    lines: &mut LineReader<S>,
    banks: &mut [Bank],
) -> Result<u64, TextFault>
    requires unfailed { failure lines.old ≡ None }
    requires distinct { AreDistinct (ids_of banks.old) }
    ensures same_source { lines.new.source.ghost_name ≡ lines.old.source.ghost_name }
    ensures rows { IfOk result (AreRowsBehind (text S.left lines.old) banks.old banks.new) }
    ensures refused { IfErr result (AreRowsRefused (text S.left lines.old)) }
    ensures added { OnOk result (AreRowsAdded banks.old banks.new TEXT_LIMIT) }
    ensures takes { TakesRows (text S.left lines.old) banks.old result banks.new }
    ensures ended { OnOk result (IsAtEnd (S.left lines.new.source.now)) }
    ensures shows { IfErr result (λ fault.
        FaultShows (text S.left lines.old) fault (S.left lines.new.source.now)) }
    ensures read { IsErrOf result TextFault.Read
        → Rose (S.faults lines.old.source.now) (S.faults lines.new.source.now) }
    ensures counted { S.faults lines.old.source.now ≤ S.faults lines.new.source.now }
{
    match read_header(alloc, lines, Header::BankRows) {
        Ok(()) => read_rows(alloc, lines, banks),
        Err(fault) => Err(fault),
    }
}

/// The same, of banks in a vector.
fn read_rows_into<S: Source>(
    alloc: Global,
    lines: &mut LineReader<S>,
    banks: &mut Vec<Bank>,
) -> Result<u64, TextFault>
    requires unfailed { failure lines.old ≡ None }
    requires distinct { AreDistinct (ids_of banks.old.items) }
    ensures same_source { lines.new.source.ghost_name ≡ lines.old.source.ghost_name }
    ensures rows { IfOk result (AreRowsBehind (text S.left lines.old) banks.old.items banks.new.items) }
    ensures refused { IfErr result (AreRowsRefused (text S.left lines.old)) }
    ensures added { OnOk result (AreRowsAdded banks.old.items banks.new.items TEXT_LIMIT) }
    ensures takes { TakesRows (text S.left lines.old) banks.old.items result banks.new.items }
    ensures ended { OnOk result (IsAtEnd (S.left lines.new.source.now)) }
    ensures shows { IfErr result (λ fault.
        FaultShows (text S.left lines.old) fault (S.left lines.new.source.now)) }
    ensures read { IsErrOf result TextFault.Read
        → Rose (S.faults lines.old.source.now) (S.faults lines.new.source.now) }
    ensures counted { S.faults lines.old.source.now ≤ S.faults lines.new.source.now }
{
    read_all_rows(alloc, lines, banks.as_mut_slice())
}

/// Reads the whole input into the empty list of banks, and gives the number of strays.
fn read_into<S: Source>(
    alloc: Global,
    lines: &mut LineReader<S>,
    banks: &mut Vec<Bank>,
) -> Result<u64, BankFault>
    requires unfailed { failure lines.old ≡ None }
    requires empty { banks.old.items ≡ [] }
    ensures same_source { lines.new.source.ghost_name ≡ lines.old.source.ghost_name }
    ensures banks { IfOk result (AreBanksRead (text S.left lines.old) banks.new.items) }
    ensures refused { IfErr result (AreBanksRefused (text S.left lines.old)) }
    ensures ready { OnOk result (All IsReadyBank banks.new.items) }
    ensures few { OnOk result (length banks.new.items ≤ MOST_BANKS) }
    ensures takes { TakesBanks (text S.left lines.old) result banks.new.items }
    ensures ended { OnOk result (IsAtEnd (S.left lines.new.source.now)) }
    ensures shows { IfErr result (λ fault.
        BankFaultShows (text S.left lines.old) fault (S.left lines.new.source.now)) }
    ensures read { IsErrOf result (BankFault.Text TextFault.Read)
        → Rose (S.faults lines.old.source.now) (S.faults lines.new.source.now) }
    ensures counted { S.faults lines.old.source.now ≤ S.faults lines.new.source.now }
{
    match read_first(lines) {
        Ok(()) => {}
        Err(fault) => return Err(BankFault::Text(fault)),
    }
    match read_heads(alloc, lines, banks) {
        Ok(()) => {}
        Err(fault) => return Err(fault),
    }
    match read_rows_into(alloc, lines, banks) {
        Ok(strays) => Ok(strays),
        Err(fault) => Err(BankFault::Text(fault)),
    }
}

/// Reads several banks and the rows of all, to the end of the text. The allocator comes first.
///
/// The input is `banks 1`; for each bank a line `bank ID`, its building and its opening snapshot; `rows`; the
/// header with the names bank, time, origin, destination and persons; and rows. A row goes to the bank that
/// its first field names, behind the others there, with the other fields; a line that has some byte and names
/// no bank, or has over 4,096 bytes, is a stray.
///
/// The first fault decides: a bad line, with its number and one code; `UsedId` with the number of a line
/// `bank ID` that has an earlier bank's id, and then `TooMany` with that of a seventeenth. The end of the
/// line that is named shows in the bytes that were taken. `Read` comes only where a read of the source
/// failed.
pub fn read_banks<S: Source>(
    alloc: Global,
    lines: &mut LineReader<S>,
) -> Result<BankInput, BankFault>
    requires { failure lines.old ≡ None }
    ensures same_source { lines.new.source.ghost_name ≡ lines.old.source.ghost_name }
    ensures banks { IfOk result (λ input.
        AreBanksRead (text S.left lines.old) input.banks.items input.strays) }
    ensures refused { IfErr result (AreBanksRefused (text S.left lines.old)) }
    ensures ready { IfOk result (λ input. All IsReadyBank input.banks.items) }
    ensures few { IfOk result (λ input. length input.banks.items ≤ MOST_BANKS) }
    ensures takes { TakesInputs (text S.left lines.old) result }
    ensures ended { OnOk result (IsAtEnd (S.left lines.new.source.now)) }
    ensures shows { IfErr result (λ fault.
        BankFaultShows (text S.left lines.old) fault (S.left lines.new.source.now)) }
    ensures read { IsErrOf result (BankFault.Text TextFault.Read)
        → Rose (S.faults lines.old.source.now) (S.faults lines.new.source.now) }
    ensures counted { S.faults lines.old.source.now ≤ S.faults lines.new.source.now }
{
    let mut banks = Vec::new(alloc);
    match read_into(alloc, lines, &mut banks) {
        Ok(strays) => Ok(BankInput { banks, strays }),
        Err(fault) => Err(fault),
    }
}
