// A decimal number, read from bytes up to a limit.

ghost use Rattle.std.specs.Prelude.{◌≡◌, ◌<◌, ◌≤◌, length, nat_le, if◌then◌else◌};
ghost use Rattle.go_text.specs.Number.{digits_in_front, value_of, number_of};
ghost use Rattle.go_text.specs.declared.numbers.TheConstants.{SHORT};

// So many digits write a number of 64 bits, whichever they are.
const SHORT: usize = 19;

/// Why bytes are no number within a limit.
#[derive(Clone, Copy, Debug, PartialEq, Eq)]
pub enum NumberFault {
    /// There is no byte.
    Empty,
    /// The byte at this place, from 0, is no decimal digit, and those before it are.
    NotADigit { at: usize },
    /// The number is above the limit.
    TooLarge,
}

/// The number that decimal digits write, if it is at most `limit`; leading zeros are taken, and any number of digits.
pub fn number(bytes: &[u8], limit: u64) -> Result<u64, NumberFault>
    ensures { result ≡ number_of limit bytes.now }
{
    if bytes.is_empty() {
        return Err(NumberFault::Empty);
    }
    if bytes.len() <= SHORT {
        return short_number(bytes, limit);
    }
    let digits = digits_in_front(bytes);
    if digits < bytes.len() {
        return Err(NumberFault::NotADigit { at: digits });
    }
    match value_within(bytes, limit) {
        Some(value) => Ok(value),
        None => Err(NumberFault::TooLarge),
    }
}

// The same for so few bytes that their number fits 64 bits whatever they are: one pass, and no sum can wrap.
fn short_number(bytes: &[u8], limit: u64) -> Result<u64, NumberFault>
    requires some { 0 < length bytes.now }
    requires few { length bytes.now ≤ SHORT }
    ensures { result ≡ number_of limit bytes.now }
{
    let mut value = 0u64;
    for at in 0..bytes.len() {
        let byte = bytes[at];
        if !byte.is_ascii_digit() {
            return Err(NumberFault::NotADigit { at });
        }
        value = value * 10 + u64::from(byte - b'0');
    }
    if value > limit {
        return Err(NumberFault::TooLarge);
    }
    Ok(value)
}

// How many bytes from the front on are digits.
fn digits_in_front(bytes: &[u8]) -> usize
    ensures { result ≡ digits_in_front bytes.now }
{
    bytes
        .iter()
        .take_while(|byte| byte.is_ascii_digit())
        .count()
}

// The number that digits write, if it is at most `limit`.
fn value_within(digits: &[u8], limit: u64) -> Option<u64>
    requires { digits_in_front digits.now ≡ length digits.now }
    ensures { result ≡ (if nat_le (value_of digits.now) limit then Some (value_of digits.now) else None) }
{
    let mut value = 0u64;
    for digit in digits {
        value = value
            .checked_mul(10)?
            .checked_add(u64::from(*digit - b'0'))?;
    }
    if value <= limit { Some(value) } else { None }
}
