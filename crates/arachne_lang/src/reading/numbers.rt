//! Parses a decimal number up to a limit.
ghost use Rattle.std.specs.Prelude.{◌+◌, ◌*◌, ◌^◌, ◌<◌, ◌≤◌, length, IfErr, IfOk};
ghost use Rattle.arachne_lang.specs.Reading.{Gives, IsAtByte, digits_at, figures_at, number_at};

use super::stop::Stop;
use super::words::word;

/// Parses the number at the front of `text`, and then the bytes `end`. Returns the number, and the text after `end`.
#[tactic(auto, unfolding(crate::specs::Reading::number_at))]
pub fn number<'t>(text: &'t [u8], end: &[u8]) -> Result<(u64, &'t [u8]), Stop<'t>>
    ensures read { Gives (λ read. (read.0, read.1.now)) result (number_at (2 ^ 64) end.now text.now) }
    ensures at_byte { IfErr result IsAtByte }
{
    let (value, rest) = figures(u64::MAX, text)?;
    let rest = word(rest, end)?;
    Ok((value, rest))
}

/// Parses the number at the front of `text`, which must be at most 255, and then the bytes `end`.
#[tactic(auto, unfolding(crate::specs::Reading::number_at))]
pub fn small_number<'t>(text: &'t [u8], end: &[u8]) -> Result<(u8, &'t [u8]), Stop<'t>>
    ensures { Gives (λ read. (read.0, read.1.now)) result (number_at 256 end.now text.now) }
{
    let (value, rest) = figures(255, text)?;
    let rest = word(rest, end)?;
    Ok((value as u8, rest))
}

/// Parses the number at the front of `text`, which must be at most `greatest`. Returns the number, and the text after
/// its digits.
pub fn figures(greatest: u64, text: &[u8]) -> Result<(u64, &[u8]), Stop<'_>>
    requires { 9 ≤ greatest }
    ensures read { Gives (λ read. (read.0, read.1.now)) result (figures_at (greatest + 1) text.now) }
    ensures in_range { IfOk result (λ read. read.0 ≤ greatest) }
    ensures shorter { IfOk result (λ read. length read.1.now < length text.now) }
    ensures at_byte { IfErr result IsAtByte }
{
    match text {
        [b'0', rest @ ..] => Ok((0, rest)),
        [digit @ b'1'..=b'9', rest @ ..] => digits(greatest, u64::from(*digit - b'0'), rest),
        _ => Err(Stop::Departs(text)),
    }
}

/// Parses the rest of a number of at most `greatest`, whose digits so far have the value `value`.
fn digits(greatest: u64, value: u64, text: &[u8]) -> Result<(u64, &[u8]), Stop<'_>>
    requires { value ≤ greatest }
    ensures read { Gives (λ read. (read.0, read.1.now)) result (digits_at (greatest + 1) value text.now) }
    ensures in_range { IfOk result (λ read. read.0 ≤ greatest) }
    ensures shorter { IfOk result (λ read. length read.1.now ≤ length text.now) }
    ensures at_byte { IfErr result IsAtByte }
{
    let [byte @ b'0'..=b'9', rest @ ..] = text else {
        return Ok((value, text));
    };
    let digit = u64::from(*byte - b'0');
    match value
        .checked_mul(10)
        .and_then(|tens| tens.checked_add(digit))
    {
        Some(value) if value <= greatest => digits(greatest, value, rest),
        _ => Err(Stop::Overflows(text)),
    }
}
