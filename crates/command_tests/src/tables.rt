//! Tables of inputs that are refused: each row has the line and the code that are due, and what is put into a
//! text.

use crate::pieces::{Text, section};
use crate::runs::{Bench, Streams};
use crate::steps::said;
use memchr::memchr_iter;
use std::marker::Sync;
use std::thread::Threads;

/// Where a row's lines are put: in place of those of the text from the row's line on, or after the text; or
/// nothing is put, and the text ends before that line.
#[derive(Clone, Copy)]
enum Way {
    Within,
    After,
    Front,
}

/// The words of a table, the pieces of the text that its rows change, and where most of them do.
#[derive(Clone, Copy)]
struct Table<'a> {
    name: &'a str,
    words: &'a str,
    text: &'a [&'a str],
    way: Way,
}

/// A row: the line at which its input is refused, counted from 1, the code, the lines that are put into the
/// text, and where.
#[derive(Clone, Copy)]
struct Row<'a> {
    line: usize,
    code: &'a str,
    put: &'a str,
    way: Way,
}

impl<'a> Row<'a> {
    /// The row `LINE CODE TEXT`, or `LINE CODE` where nothing is put into the text. None for another line.
    fn of_line(line: &'a str, way: Way) -> Option<Row<'a>> {
        let (line, rest) = line.split_once(" ")?;
        let (code, put) = rest.split_once(" ").unwrap_or((rest, ""));
        let line = line.parse().ok()?;
        Some(Row {
            line,
            code,
            put,
            way,
        })
    }
}

impl Text {
    /// Takes away what stands after this line, counted from 1, and the line's end.
    fn cut_after(&mut self, line: usize) {
        if let Some(end) = memchr_iter(b'\n', &self.bytes).nth(line.saturating_sub(1)) {
            self.bytes.truncate(end);
        }
    }

    /// Takes the text of a table as a row changes it.
    fn set_changed(&mut self, text: &[&str], row: &Row<'_>) {
        self.clear();
        self.is_whole = !text.is_empty();
        if let Way::After = row.way {
            self.put_text(text);
            self.put_escaped(row.put);
            return;
        }
        let before = row.line.saturating_sub(1);
        self.put_text(text.get(..before).unwrap_or(text));
        if let Way::Within = row.way {
            self.put_escaped(row.put);
            self.put(b"\n");
            let after = before.saturating_add(row.put.split("\\n").count());
            self.put_text(text.get(after..).unwrap_or(&[]));
        }
    }

    /// Takes the line of a refusal.
    fn set_refusal(&mut self, row: &Row<'_>) {
        self.clear();
        self.put(b"refused line ");
        self.put(itoa::Buffer::new().format(row.line).as_bytes());
        self.put(b" code ");
        self.put(row.code.as_bytes());
        self.put(b"\n");
    }
}

impl<R: Threads + Sync> Bench<'_, R> {
    /// Whether the input is refused as is due, in reads of up to `reads` bytes.
    fn is_refused(&mut self, table: &Table<'_>, reads: usize) -> bool {
        self.ends(table.words, Streams::of_reads(reads), 5, usize::MAX)
    }

    /// Runs over the input of a row as it stands, in pieces of one byte, and where the line that is refused
    /// is the last one and has no end. Tells an input that is not refused at this line with this code.
    fn run_row(&mut self, table: &Table<'_>, row: &Row<'_>) {
        self.report.count();
        self.due.set_refusal(row);
        self.input.set_changed(table.text, row);
        let is_refused = self.is_refused(table, 4096) && self.is_refused(table, 1);
        self.input.cut_after(row.line);
        if !is_refused || !self.is_refused(table, 4096) {
            self.report.differs(table.name, table.words, &self.ran);
        }
    }

    /// Runs over each front of the text's lines, which ends too early and is refused with this code.
    fn run_fronts(&mut self, table: &Table<'_>, code: &str) {
        self.input.clear();
        self.input.put_text(table.text);
        for line in 1..=memchr_iter(b'\n', &self.input.bytes).count() {
            let row = Row {
                line,
                code,
                put: "",
                way: Way::Front,
            };
            self.run_row(table, &row);
        }
    }

    /// Runs the row, or the fronts, that a line says, if it says any.
    fn run_row_of(&mut self, table: &Table<'_>, line: &str) {
        match line.strip_prefix("fronts ") {
            Some(code) => self.run_fronts(table, code),
            None => {
                if let Some(row) = Row::of_line(line, table.way) {
                    self.run_row(table, &row);
                }
            }
        }
    }

    /// Runs the rows of a table. Each is counted as a case, and other lines are passed over.
    fn run_rows(&mut self, table: &Table<'_>, lines: &[&str]) {
        for line in lines {
            self.run_row_of(table, line);
        }
    }

    /// Runs a table.
    pub(crate) fn run_table<'a>(
        &mut self,
        file: &'a [&'a str],
        name: &'a str,
        lines: &'a [&'a str],
    ) {
        let (way, text) = match said(lines, "within ") {
            Some(text) => (Way::Within, text),
            None => (Way::After, said(lines, "after ").unwrap_or("")),
        };
        let table = Table {
            name,
            words: said(lines, "words ").unwrap_or(""),
            text: section(file, "text ", text),
            way,
        };
        self.run_rows(&table, lines);
    }
}
