//! Writes a report.
ghost use Rattle.std.specs.Prelude.{◌≡◌, ◌++◌, ◌∷◌, [], List, ℕ, Some, IfOk, OnOk, OnErr, decimal, codes};
ghost use Rattle.service_report.specs.ReportTexts.{line_of, number_line, mean_text, report_text};
ghost use Rattle.service_report.specs.Writers.{HasWritten, IsPlain};

use csv::{Writer, WriterBuilder};
use lift_text::put_number;
use search_model::{Report, ReportColumn};
use std::alloc::{AllocError, Global};

/// Appends the text of a report: a line of the columns' names, and then one of each measure. The only
/// error is that memory runs out, which leaves `out` as it was.
pub fn write_report(alloc: Global, report: &Report, out: &mut Vec<u8>) -> Result<(), AllocError>
    ensures ok { OnOk result (out.new.items ≡ out.old.items ++ report_text report.now) }
    ensures err { OnErr result (out.new.items ≡ out.old.items) }
{
    let text = text_of(alloc, report)?;
    out.extend_from_slice(text.as_slice())
}

/// The text of a report.
fn text_of(alloc: Global, report: &Report) -> Result<Vec<u8>, AllocError>
    ensures { IfOk result (λ text. text.items ≡ report_text report.now) }
{
    let mut writer = WriterBuilder::new().from_writer(Vec::new(alloc));
    put_report(alloc, &mut writer, report)?;
    match writer.into_inner() {
        Ok(text) => Ok(text),
        Err(_) => Err(AllocError),
    }
}

fn put_report(
    alloc: Global,
    writer: &mut Writer<Vec<u8>>,
    report: &Report,
) -> Result<(), AllocError>
    ensures { OnOk result (HasWritten (λ v. Some v.items) writer.old []
        → HasWritten (λ v. Some v.items) writer.new (report_text report.now)) }
{
    let Report { wait, ride, total } = *report;
    put_line(writer, b"measure", b"wait", b"ride", b"total")?;
    put_numbers(alloc, writer, b"count", wait.count, ride.count, total.count)?;
    put_numbers(alloc, writer, b"sum", wait.sum, ride.sum, total.sum)?;
    put_numbers(
        alloc,
        writer,
        b"greatest",
        wait.greatest,
        ride.greatest,
        total.greatest,
    )?;
    put_numbers(alloc, writer, b"p50", wait.p50, ride.p50, total.p50)?;
    put_numbers(alloc, writer, b"p90", wait.p90, ride.p90, total.p90)?;
    put_numbers(alloc, writer, b"p99", wait.p99, ride.p99, total.p99)?;
    put_means(alloc, writer, &wait, &ride, &total)?;
    Ok(())
}

/// Writes a line of numbers.
fn put_numbers(
    alloc: Global,
    writer: &mut Writer<Vec<u8>>,
    measure: &[u8],
    wait: u64,
    ride: u64,
    total: u64,
) -> Result<(), AllocError>
    requires { IsPlain measure.now }
    ensures { OnOk result ((text : List ℕ) → HasWritten (λ v. Some v.items) writer.old text
        → HasWritten (λ v. Some v.items) writer.new
        (text ++ number_line measure.now wait ride total)) }
{
    let wait_text = number_text(alloc, wait)?;
    let ride_text = number_text(alloc, ride)?;
    let total_text = number_text(alloc, total)?;
    put_line(
        writer,
        measure,
        wait_text.as_slice(),
        ride_text.as_slice(),
        total_text.as_slice(),
    )
}

/// Writes the line of the means.
fn put_means(
    alloc: Global,
    writer: &mut Writer<Vec<u8>>,
    wait: &ReportColumn,
    ride: &ReportColumn,
    total: &ReportColumn,
) -> Result<(), AllocError>
    ensures { OnOk result ((text : List ℕ) → HasWritten (λ v. Some v.items) writer.old text
        → HasWritten (λ v. Some v.items) writer.new (text ++ line_of (codes "mean")
        (mean_text wait.now) (mean_text ride.now) (mean_text total.now))) }
{
    let wait_text = fraction_text(alloc, wait.mean_over, wait.mean_under)?;
    let ride_text = fraction_text(alloc, ride.mean_over, ride.mean_under)?;
    let total_text = fraction_text(alloc, total.mean_over, total.mean_under)?;
    put_line(
        writer,
        b"mean",
        wait_text.as_slice(),
        ride_text.as_slice(),
        total_text.as_slice(),
    )
}

/// Writes a line of fields that stand as they are.
fn put_line(
    writer: &mut Writer<Vec<u8>>,
    measure: &[u8],
    wait: &[u8],
    ride: &[u8],
    total: &[u8],
) -> Result<(), AllocError>
    requires measure_plain { IsPlain measure.now }
    requires wait_plain { IsPlain wait.now }
    requires ride_plain { IsPlain ride.now }
    requires total_plain { IsPlain total.now }
    ensures { OnOk result ((text : List ℕ) → HasWritten (λ v. Some v.items) writer.old text
        → HasWritten (λ v. Some v.items) writer.new
        (text ++ line_of measure.now wait.now ride.now total.now)) }
{
    // The lines are of one length, so only memory can run out.
    writer
        .write_fields(&[measure, wait, ride, total])
        .map_err(|_| AllocError)?;
    Ok(())
}

/// A number in decimal digits.
fn number_text(alloc: Global, number: u64) -> Result<Vec<u8>, AllocError>
    ensures { IfOk result (λ text. text.items ≡ decimal number) }
{
    let mut text = Vec::new(alloc);
    put_number(&mut text, i128::from(number))?;
    Ok(text)
}

/// Two numbers with a slash between them.
fn fraction_text(alloc: Global, over: u64, under: u64) -> Result<Vec<u8>, AllocError>
    ensures { IfOk result (λ text. text.items ≡ decimal over ++ 47 ∷ decimal under) }
{
    let mut text = number_text(alloc, over)?;
    text.push(b'/')?;
    put_number(&mut text, i128::from(under))?;
    Ok(text)
}
