//! How many checks were made, and how many failed.

use std::io;

/// The checks of one kind.
#[derive(Clone, Copy, Default)]
pub struct Checks {
    made: u64,
    wrong: u64,
}

impl Checks {
    /// Counts a check, which failed unless it is right.
    pub fn note(&mut self, is_right: bool) {
        self.made = self.made.wrapping_add(1);
        self.wrong = self.wrong.wrapping_add(u64::from(!is_right));
    }
}

/// Whether no check failed, and there were some of each kind.
pub fn are_right(kinds: &[(&'static str, Checks)]) -> bool {
    for (_, checks) in kinds {
        if checks.made == 0 || checks.wrong != 0 {
            return false;
        }
    }
    true
}

/// Prints a line for each kind of checks, which begins with its word.
pub fn print_kinds(rt: &HostRuntime, kinds: &[(&'static str, Checks)]) -> io::Result<()> {
    for (kind, checks) in kinds {
        println!(rt; "{} {} wrong {}", kind, checks.made, checks.wrong)?;
    }
    Ok(())
}
