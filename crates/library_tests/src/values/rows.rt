//! Lines that no source gives: an empty one, and one with the end of a line in it. They are no header and no
//! row. The header of several banks' rows, and lines that come near it.

use call_state::Snapshot;
use case_kit::{WORKED_CASE, is_so_of, snapshot_in};
use day_text::{Header, is_header, read_row};
use std::alloc::Global;

/// Whether the line is neither header.
fn is_no_header(alloc: Global, line: &[u8]) -> bool {
    is_header(alloc, line, Header::Rows) == Ok(false)
        && is_header(alloc, line, Header::BankRows) == Ok(false)
}

#[test]
fn no_headers(rt: HostRuntime) {
    assert!(rt; is_no_header(rt.alloc(), b""));
    assert!(rt; is_no_header(rt.alloc(), b"time,origin,destination\n,persons"));
    assert!(rt; is_no_header(rt.alloc(), b"time,bank,origin,destination,persons"));
    assert!(rt; is_no_header(rt.alloc(), b"bank,time,origin,destination,persons,"));
}

/// Whether the line is the header of several banks' rows, and not that of one building's.
fn is_of_banks(alloc: Global, line: &[u8]) -> bool {
    is_header(alloc, line, Header::BankRows) == Ok(true)
        && is_header(alloc, line, Header::Rows) == Ok(false)
}

/// Whether the line is the header of one building's rows, and not that of several banks'.
fn is_of_one_building(alloc: Global, line: &[u8]) -> bool {
    is_header(alloc, line, Header::Rows) == Ok(true)
        && is_header(alloc, line, Header::BankRows) == Ok(false)
}

#[test]
fn headers(rt: HostRuntime) {
    assert!(rt; is_of_banks(rt.alloc(), b"bank,time,origin,destination,persons"));
    assert!(rt; is_of_banks(rt.alloc(), b" bank ,time,\" origin\",destination,persons "));
    assert!(rt; is_of_one_building(rt.alloc(), b"time,origin,destination,persons"));
}

/// Whether the line is no row of the snapshot's building.
fn is_no_row(alloc: Global, snapshot: &Snapshot, line: &[u8]) -> bool {
    matches!(read_row(alloc, snapshot.building(), line), Ok(None))
}

/// Whether it is no row of a building of three floors.
fn is_no_row_of_three(alloc: Global, line: &[u8]) -> bool {
    is_so_of(
        snapshot_in(alloc, WORKED_CASE.as_bytes()),
        &|snapshot: &Snapshot| -> bool { is_no_row(alloc, snapshot, line) },
    )
}

#[test]
fn no_rows(rt: HostRuntime) {
    assert!(rt; is_no_row_of_three(rt.alloc(), b""));
    assert!(rt; is_no_row_of_three(rt.alloc(), b"9,2\n,1,3"));
}
