//! What is printed of the cases.

use crate::runs::Ran;
use std::alloc::Global;
use std::fmt::Write;
use std::io;

/// How many cases there were, how many of them differ, and a line for each of these.
#[derive(Drop)]
pub(crate) struct Report {
    pub text: String,
    pub cases: u64,
    pub differing: u64,
}

impl Report {
    pub(crate) fn new(alloc: Global) -> Report {
        Report {
            text: String::new(alloc),
            cases: 0,
            differing: 0,
        }
    }

    /// Prints what differs, and how many cases there were.
    pub(crate) fn print(&self, rt: &HostRuntime) -> io::Result<()> {
        println!(rt;
            "{}{} cases, {} differ",
            self.text, self.cases, self.differing
        )
    }

    /// Counts a case.
    pub(crate) fn count(&mut self) {
        self.cases = self.cases.saturating_add(1);
    }

    /// Says that the case differs at these words, and what came. Without memory for the line the case is
    /// counted alone.
    pub(crate) fn differs(&mut self, name: &str, words: &str, ran: &Ran) {
        self.differing = self.differing.saturating_add(1);
        let shown = ran.text.bytes.get(..400).unwrap_or(&ran.text.bytes);
        let _ = write!(
            self.text,
            "{name}: {words}: status {}, {} bytes: {}\n",
            ran.status,
            ran.text.bytes.len(),
            shown.escape_ascii()
        );
    }
}
