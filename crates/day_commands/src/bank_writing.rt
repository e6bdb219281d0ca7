//! Writing the logs of banks.
ghost use Rattle.std.specs.Prelude.{◌≡◌, ◌++◌, IfOk, OnOk, length};
ghost use Rattle.day_commands.specs.BanksOutcome.{bank_part, bank_parts, ids_of, texts_of};
ghost use Rattle.day_commands.specs.BanksOutcome.{banks_text as banks_text_lem};

use bank_days::{Bank, BankLog};
use lift_text::put_line;
use std::alloc::{AllocError, Global};

/// Appends the line of a bank, and its log.
fn put_bank(out: &mut Vec<u8>, bank: &Bank, log: &BankLog) -> Result<(), AllocError>
    ensures { OnOk result (out.new.items ≡ out.old.items ++ bank_part bank.now.id log.now.text.items) }
{
    put_line(out, b"bank", &[u64::from(bank.id)])?;
    out.extend_from_slice(log.text.as_slice())
}

/// Appends each bank's line and log, in the order of the banks.
fn put_banks(out: &mut Vec<u8>, banks: &[Bank], logs: &[BankLog]) -> Result<(), AllocError>
    requires { length logs.now ≡ length banks.now }
    ensures { OnOk result (out.new.items
        ≡ out.old.items ++ bank_parts (ids_of banks.now) (texts_of logs.now)) }
{
    for place in 0..banks.len() {
        put_bank(out, &banks[place], &logs[place])?;
    }
    Ok(())
}

/// The text of the days of banks: for each `bank ID` and its log, and then `strays K` and `end`. It fails only
/// where there is no memory left.
pub(crate) fn banks_text(
    alloc: Global,
    banks: &[Bank],
    logs: &[BankLog],
    strays: u64,
) -> Result<Vec<u8>, AllocError>
    requires { length logs.now ≡ length banks.now }
    ensures { IfOk result (λ text. text.items
        ≡ banks_text_lem (ids_of banks.now) (texts_of logs.now) strays) }
{
    let mut text = Vec::new(alloc);
    put_banks(&mut text, banks, logs)?;
    put_line(&mut text, b"strays", &[strays])?;
    put_line(&mut text, b"end", &[])?;
    Ok(text)
}
