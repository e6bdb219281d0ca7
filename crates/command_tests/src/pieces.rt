//! The pieces of an input, or of what is due, as bytes.
//!
//! `|TEXT` is a line. `~TEXT` has no end of a line but where it writes one: `\n`, `\r`, `\t`, `\\` and `\xHH`
//! are bytes. `*N TEXT` is N lines, and `^N TEXT` the same without ends, where `{}` stands for the number,
//! from 0. `+NAME` is a text.

use bstr::ByteVec;
use std::alloc::Global;

/// A text that is put together from pieces.
#[derive(Drop)]
pub(crate) struct Text {
    alloc: Global,
    pub bytes: Vec<u8>,
    /// Whether all that was put into it is in it: false after what is no piece, and out of memory.
    pub is_whole: bool,
}

impl Text {
    pub(crate) fn new(alloc: Global) -> Text {
        Text {
            alloc,
            bytes: Vec::new(alloc),
            is_whole: true,
        }
    }

    /// Begins anew.
    pub(crate) fn clear(&mut self) {
        self.bytes.clear();
        self.is_whole = true;
    }

    /// Appends these bytes.
    pub(crate) fn put(&mut self, bytes: &[u8]) {
        self.is_whole &= self.bytes.extend_from_slice(bytes).is_ok();
    }

    /// Appends a text with escapes.
    pub(crate) fn put_escaped(&mut self, text: &str) {
        match Vec::unescape_bytes(self.alloc, text) {
            Ok(bytes) => self.put(&bytes),
            Err(_) => self.is_whole = false,
        }
    }

    /// Appends a text with escapes, with the number in place of `{}`.
    fn put_numbered(&mut self, text: &str, number: u32) {
        match text.split_once("{}") {
            None => self.put_escaped(text),
            Some((before, after)) => {
                self.put_escaped(before);
                self.put(itoa::Buffer::new().format(number).as_bytes());
                self.put_escaped(after);
            }
        }
    }

    /// Appends the text of `COUNT TEXT` as often as the count says, each time with this end.
    fn put_many(&mut self, many: &str, end: &[u8]) {
        let (count, text) = many.split_once(" ").unwrap_or((many, ""));
        let Ok(count) = count.parse::<u32>() else {
            self.is_whole = false;
            return;
        };
        for number in 0..count {
            self.put_numbered(text, number);
            self.put(end);
        }
    }

    /// Appends a line that stands for any lines, and after a piece without an end for the rest of that line,
    /// too.
    fn put_any_lines(&mut self) {
        if self.bytes.last().copied().unwrap_or(b'\n') != b'\n' {
            self.put(b"...\n");
        }
        self.put(b"...\n");
    }

    /// Appends a piece that is no text's name. False for a line that is no such piece.
    fn put_plain(&mut self, line: &str) -> bool {
        let (mark, text) = line.split_at_checked(1).unwrap_or(("", line));
        match mark {
            "|" => {
                self.put(text.as_bytes());
                self.put(b"\n");
            }
            "~" => self.put_escaped(text),
            "*" => self.put_many(text, b"\n"),
            "^" => self.put_many(text, b""),
            "." => self.put_any_lines(),
            _ => return false,
        }
        true
    }

    /// Appends the pieces with which the lines begin, where none is a text's name.
    pub(crate) fn put_text(&mut self, lines: &[&str]) {
        for line in lines {
            if !self.put_plain(line) {
                return;
            }
        }
    }

    /// Appends a piece. False for a line that is none.
    fn put_piece(&mut self, file: &[&str], line: &str) -> bool {
        match line.strip_prefix("+") {
            Some(name) => {
                let text = section(file, "text ", name);
                self.is_whole &= !text.is_empty();
                self.put_text(text);
                true
            }
            None => self.put_plain(line),
        }
    }

    /// Takes the pieces with which the lines begin, without those after a line `after N` where N is above
    /// `whole`.
    pub(crate) fn set_pieces(&mut self, file: &[&str], lines: &[&str], whole: usize) {
        self.clear();
        for line in lines {
            let is_taken = match line.strip_prefix("after ") {
                Some(needed) => needed.parse::<usize>().unwrap_or(usize::MAX) <= whole,
                None => self.put_piece(file, line),
            };
            if !is_taken {
                return;
            }
        }
    }
}

/// The lines after the first one that is these two parts, and none where there is no such line.
pub(crate) fn section<'a>(lines: &'a [&'a str], head: &str, name: &str) -> &'a [&'a str] {
    for (place, line) in lines.iter().enumerate() {
        if line.strip_prefix(head) == Some(name) {
            return lines.get(place + 1..).unwrap_or(&[]);
        }
    }
    &[]
}
