//! The numbers that are printed for what is wrong with a line.
ghost use Rattle.std.specs.Prelude.{◌≡◌};
ghost use Rattle.command_ends.specs.Codes.{number_of, number_of_own};

use crate::input_faults::OwnCode;
use lift_text::TextCode;

/// The number that is printed for what is wrong with a line.
pub fn number_of(code: TextCode) -> u8
    ensures { result ≡ number_of code }
{
    match code {
        TextCode::ForbiddenByte => 1,
        TextCode::OverLong => 2,
        TextCode::NoLineWord => 3,
        TextCode::Missing => 4,
        TextCode::TooMany => 5,
        TextCode::NoNumber => 6,
        TextCode::OutOfRange => 7,
        TextCode::OutOfOrder => 8,
        TextCode::CutShort => 9,
        TextCode::NoState => 23,
        TextCode::ClaimsPast => 24,
        TextCode::UnknownId => 25,
        TextCode::NotInOpening => 26,
        TextCode::NoHeader => 27,
        TextCode::ShorterWay => 52,
        TextCode::NoTime => 53,
        TextCode::Item(fault) => fault.code(),
    }
}

/// The number that is printed for what one command alone refuses.
pub(crate) fn number_of_own(code: OwnCode) -> u8
    ensures { result ≡ number_of_own code }
{
    match code {
        OwnCode::NothingAsked => 54,
        OwnCode::UsedId => 55,
        OwnCode::TooManyBanks => 56,
    }
}
