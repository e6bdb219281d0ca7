//! The logs of the days of banks.

/// What was written of a bank's day.
#[derive(Drop)]
pub struct BankLog {
    /// The log.
    pub text: Vec<u8>,
    /// Whether some accepted row had a bound below its cost.
    pub is_stopped: bool,
}
