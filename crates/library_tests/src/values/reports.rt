//! The figures of a day, and their text.

ghost use Rattle.std.specs.Prelude.{◌≤◌, ◌<◌, ◌^◌, IfOk, length};
ghost use Rattle.search_model.specs.Reports.{report_of};
ghost use Rattle.service_report.specs.WorkedTexts.{AreReportTexts};

use search_model::{Report, ReportColumn, Served};
use service_report::{report_of, write_report};
use std::alloc::{AllocError, Global};

fn texts_of_the_definition()
    ensures { AreReportTexts }
{}

#[test]
fn the_definition_gives_the_worked_texts() {
    texts_of_the_definition();
}

/// When a call came, boarded and was delivered, in ms.
type Moments = (u16, u16, u16);

/// Calls with these moments.
fn calls(alloc: Global, moments: &[Moments]) -> Result<Vec<Served>, AllocError>
    requires { length moments.now ≤ 100 }
    ensures { IfOk result (λ served. (report_of served.items).total.sum < 2 ^ 64) }
{
    let mut served = Vec::new(alloc);
    for (released, boarded, delivered) in moments {
        served.push(Served {
            call: 7,
            released: u64::from(*released),
            boarded: u64::from(*boarded),
            delivered: u64::from(*delivered),
        })?;
    }
    Ok(served)
}

/// The text of the report of these calls, behind a `#`.
fn text_of(alloc: Global, moments: &[Moments]) -> Result<Vec<u8>, AllocError>
    requires { length moments.now ≤ 100 }
{
    let served = calls(alloc, moments)?;
    let report = report_of(alloc, served.as_slice())?;
    let mut text = Vec::from_slice(alloc, b"#")?;
    write_report(alloc, &report, &mut text)?;
    Ok(text)
}

/// Whether the report of these calls has this text.
fn has_text(alloc: Global, moments: &[Moments], due: &str) -> bool {
    if moments.len() > 100 {
        return false;
    }
    match text_of(alloc, moments) {
        Ok(text) => text.as_slice() == due.as_bytes(),
        Err(_) => false,
    }
}

const TEN: [Moments; 10] = [
    (0, 31, 43),
    (13, 17, 88),
    (20, 35, 68),
    (37, 46, 106),
    (40, 66, 110),
    (55, 60, 155),
    (60, 95, 103),
    (71, 79, 106),
    (80, 177, 233),
    (92, 94, 113),
];

const ELEVEN: [Moments; 11] = [
    (0, 31, 43),
    (13, 17, 88),
    (100, 150, 151),
    (20, 35, 68),
    (37, 46, 106),
    (40, 66, 110),
    (55, 60, 155),
    (60, 95, 103),
    (71, 79, 106),
    (80, 177, 233),
    (92, 94, 113),
];

/// The calls of a day, and the text of its report.
const TEXTS_OF_DAYS: [(&[Moments], &str); 7] = [
    (
        &[(0, 1000, 7500), (6500, 10000, 19000), (9500, 12500, 25500)],
        "#measure,wait,ride,total\ncount,3,3,3\nsum,7500,28500,36000\ngreatest,3500,13000,16000\n\
         p50,3000,9000,12500\np90,3500,13000,16000\np99,3500,13000,16000\nmean,2500/1,9500/1,12000/1\n",
    ),
    (
        &[],
        "#measure,wait,ride,total\ncount,0,0,0\nsum,0,0,0\ngreatest,0,0,0\n\
         p50,0,0,0\np90,0,0,0\np99,0,0,0\nmean,0/1,0/1,0/1\n",
    ),
    (
        &[(7, 12, 30)],
        "#measure,wait,ride,total\ncount,1,1,1\nsum,5,18,23\ngreatest,5,18,23\n\
         p50,5,18,23\np90,5,18,23\np99,5,18,23\nmean,5/1,18/1,23/1\n",
    ),
    (
        &TEN,
        "#measure,wait,ride,total\ncount,10,10,10\nsum,232,425,657\ngreatest,97,95,153\n\
         p50,9,33,48\np90,35,71,100\np99,97,95,153\nmean,116/5,85/2,657/10\n",
    ),
    (
        &ELEVEN,
        "#measure,wait,ride,total\ncount,11,11,11\nsum,282,426,708\ngreatest,97,95,153\n\
         p50,15,33,51\np90,50,71,100\np99,97,95,153\nmean,282/11,426/11,708/11\n",
    ),
    (
        &[(5, 11, 26), (3, 9, 24), (5, 11, 26), (40, 46, 61)],
        "#measure,wait,ride,total\ncount,4,4,4\nsum,24,60,84\ngreatest,6,15,21\n\
         p50,6,15,21\np90,6,15,21\np99,6,15,21\nmean,6/1,15/1,21/1\n",
    ),
    (
        &[(1, 4, 14), (9, 13, 33), (2, 3, 33), (8, 14, 59)],
        "#measure,wait,ride,total\ncount,4,4,4\nsum,14,105,119\ngreatest,6,45,51\n\
         p50,3,20,24\np90,6,45,51\np99,6,45,51\nmean,7/2,105/4,119/4\n",
    ),
];

#[test]
fn texts_of_days(rt: HostRuntime) {
    for (moments, due) in TEXTS_OF_DAYS {
        assert!(rt; has_text(rt.alloc(), moments, due), "{due}");
    }
}

/// The numbers of a column, in their order.
fn numbers_of(column: &ReportColumn) -> [u64; 8] {
    let [count, sum, greatest] = [column.count, column.sum, column.greatest];
    let [p50, p90, p99] = [column.p50, column.p90, column.p99];
    [
        count,
        sum,
        greatest,
        p50,
        p90,
        p99,
        column.mean_over,
        column.mean_under,
    ]
}

const WAIT: [u64; 8] = [
    2,
    9223372036854775808,
    4611686018427387905,
    4611686018427387903,
    4611686018427387905,
    4611686018427387905,
    4611686018427387904,
    1,
];

const RIDE: [u64; 8] = [
    2,
    9223372036854775797,
    4611686018427387900,
    4611686018427387897,
    4611686018427387900,
    4611686018427387900,
    9223372036854775797,
    2,
];

const TOTAL: [u64; 8] = [
    2,
    18446744073709551605,
    9223372036854775805,
    9223372036854775800,
    9223372036854775805,
    9223372036854775805,
    18446744073709551605,
    2,
];

/// Whether the columns of the report have these numbers.
fn has_columns(report: &Report, columns: [[u64; 8]; 3]) -> bool {
    let [wait, ride, total] = columns;
    numbers_of(&report.wait) == wait
        && numbers_of(&report.ride) == ride
        && numbers_of(&report.total) == total
}

/// Whether two calls whose moments are about as great as they may be have these columns.
fn are_exact(alloc: Global) -> bool {
    let served = [
        Served {
            call: u32::MAX,
            released: 1,
            boarded: 4611686018427387906,
            delivered: 9223372036854775806,
        },
        Served {
            call: 1,
            released: 0,
            boarded: 4611686018427387903,
            delivered: 9223372036854775800,
        },
    ];
    match report_of(alloc, &served) {
        Ok(report) => has_columns(&report, [WAIT, RIDE, TOTAL]),
        Err(_) => false,
    }
}

#[test]
fn great_numbers_stay_exact(rt: HostRuntime) {
    assert!(rt; are_exact(rt.alloc()));
}
