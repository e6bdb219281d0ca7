//! Appends numbers, words and lines to a text.
ghost use Rattle.std.specs.Prelude.{◌≡◌, ◌++◌, OnOk, OnErr};
ghost use Rattle.std.specs.Fmt.{signed_decimal};
ghost use Rattle.lift_text.specs.Text.{word, words, line, BeginsAfter};

use itoa::Buffer;
use std::alloc::AllocError;

/// Appends a number in decimal digits, with a `-` in front where it is negative and no leading
/// zeros. The only error is that memory runs out, which leaves `out` as it was.
pub fn put_number(out: &mut Vec<u8>, value: i128) -> Result<(), AllocError>
    ensures ok { OnOk result (out.new.items ≡ out.old.items ++ signed_decimal value) }
    ensures err { OnErr result (out.new.items ≡ out.old.items) }
{
    let mut buffer = Buffer::new();
    out.extend_from_slice(buffer.format(value).as_bytes())
}

/// Appends a space and a number in decimal digits. The only error is that memory runs out: then `out` has a
/// front of them.
#[tactic(auto, unfolding(crate::specs::Text::word))]
pub fn put_word(out: &mut Vec<u8>, number: u64) -> Result<(), AllocError>
    ensures ok { OnOk result (out.new.items ≡ out.old.items ++ word number) }
    ensures err { OnErr result (BeginsAfter out.old.items out.new.items (word number)) }
{
    let mut buffer = Buffer::new();
    out.push(b' ')?;
    out.extend_from_slice(buffer.format(number).as_bytes())
}

/// Appends a name and the words of numbers. The only error is that memory runs out: then `out` has a front
/// of them.
#[tactic(auto, unfolding(crate::specs::Text::words))]
pub fn put_words(out: &mut Vec<u8>, name: &[u8], numbers: &[u64]) -> Result<(), AllocError>
    ensures ok { OnOk result (out.new.items ≡ out.old.items ++ words name.now numbers.now) }
    ensures err { OnErr result
        (BeginsAfter out.old.items out.new.items (words name.now numbers.now)) }
{
    out.extend_from_slice(name)?;
    for number in numbers {
        put_word(out, *number)?;
    }
    Ok(())
}

/// Appends a line of a name and the words of numbers, with its LF. The only error is that memory runs out:
/// then `out` has a front of the line.
#[tactic(auto, unfolding(crate::specs::Text::line))]
pub fn put_line(out: &mut Vec<u8>, name: &[u8], numbers: &[u64]) -> Result<(), AllocError>
    ensures ok { OnOk result (out.new.items ≡ out.old.items ++ line name.now numbers.now) }
    ensures err { OnErr result
        (BeginsAfter out.old.items out.new.items (line name.now numbers.now)) }
{
    put_words(out, name, numbers)?;
    out.push(b'\n')?;
    Ok(())
}
