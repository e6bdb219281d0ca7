//! Numbers in decimal digits, read from words.
ghost use Rattle.std.specs.Prelude.{◌≡◌, FitsSigned, ◌<◌, ◌^◌, length, pos, neg_ℤ, IsTrue, if◌then◌else◌};
ghost use Rattle.std.specs.List.{list_all};
ghost use Rattle.std.specs.Char.{is_ascii_digit};
ghost use Rattle.std.specs.Str.Parse.{digits_value};
ghost use Rattle.std.specs.Option.{SomeIff};
ghost use Rattle.std.specs.Int.{w128};
ghost use Rattle.lift_text.specs.Numbers.{read_number, starts_with_minus};

/// Why a word is not read as a number.
#[derive(Clone, Copy, PartialEq, Eq)]
pub enum NumberFault {
    /// The word is not one or more decimal digits, with a `-` in front where that is allowed.
    NoNumber,
    /// The number is outside the range.
    OutOfRange,
}

/// Reads a word as a number from `low` to `high`: one or more decimal digits, of which leading zeros
/// count for nothing. A `-` may begin it where `low` is below 0.
pub fn number_in(word: &[u8], low: i128, high: i128) -> Result<i128, NumberFault>
    ensures { result ≡ read_number low high word.now }
{
    let is_negative = low < 0 && starts_with_minus(word);
    let digits = if is_negative { &word[1..] } else { word };
    if digits.is_empty() || !are_digits(digits) {
        return Err(NumberFault::NoNumber);
    }
    let Some(magnitude) = value_of(digits) else {
        return Err(NumberFault::OutOfRange);
    };
    match signed(is_negative, magnitude) {
        Some(value) if low <= value && value <= high => Ok(value),
        _ => Err(NumberFault::OutOfRange),
    }
}

fn starts_with_minus(word: &[u8]) -> bool
    ensures value { result ≡ starts_with_minus word.now }
    ensures some { IsTrue result → 0 < length word.now }
{
    word.first() == Some(&b'-')
}

fn are_digits(bytes: &[u8]) -> bool
    ensures { result ≡ list_all is_ascii_digit bytes.now }
{
    bytes.iter().all(|byte| byte.is_ascii_digit())
}

/// The value of digits, where it has at most 128 bits.
fn value_of(digits: &[u8]) -> Option<u128>
    requires { IsTrue (list_all is_ascii_digit digits.now) }
    ensures { SomeIff result (digits_value 10 digits.now < 2 ^ 128) (digits_value 10 digits.now) }
{
    let mut value: u128 = 0;
    for digit in digits {
        value = value
            .checked_mul(10)?
            .checked_add(u128::from(*digit - b'0'))?;
    }
    Some(value)
}

/// A number with its sign, where it fits.
fn signed(is_negative: bool, magnitude: u128) -> Option<i128>
    ensures { let value = if is_negative then neg_ℤ (pos magnitude) else pos magnitude in
        SomeIff result (FitsSigned w128 value) value }
{
    if is_negative {
        0i128.checked_sub_unsigned(magnitude)
    } else {
        0i128.checked_add_unsigned(magnitude)
    }
}
