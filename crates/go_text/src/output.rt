// Numbers and texts, appended to a list of bytes.

ghost use Rattle.std.specs.Prelude.{◌≡◌, ◌≤◌, ◌++◌, OnOk, OnErr, decimal, drop};
ghost use Rattle.go_text.specs.Number.{IsNumeralOf};

use std::alloc::AllocError;

/// Appends a number in decimal digits without leading zeros. What is appended reads back as the number by `number`.
///
/// At an error `out` is as before. One growth of `out` at most, and no other memory.
pub fn put_number(out: &mut Vec<u8>, n: u64) -> Result<(), AllocError>
    ensures ok { OnOk result (out.new.items ≡ out.old.items ++ decimal n) }
    ensures err { OnErr result (out.new.items ≡ out.old.items) }
    ensures numeral { IsNumeralOf n (decimal n) }
{
    let mut digits = [0; 20];
    let start = fill_digits(&mut digits, n);
    out.extend_from_slice(&digits[start..])
}

/// Appends bytes. At an error `out` is as before.
pub fn put_text(out: &mut Vec<u8>, t: &[u8]) -> Result<(), AllocError>
    ensures ok { OnOk result (out.new.items ≡ out.old.items ++ t.now) }
    ensures err { OnErr result (out.new.items ≡ out.old.items) }
{
    out.extend_from_slice(t)
}

// Writes the decimal digits of `n` to the end of `digits`, and answers where they begin.
fn fill_digits(digits: &mut [u8; 20], n: u64) -> usize
    ensures inside { result ≤ 20 }
    ensures digits { drop result digits.new ≡ decimal n }
{
    let mut start = 20;
    let mut rest = n;
    while rest >= 10 {
        start -= 1;
        digits[start] = b'0' + (rest % 10) as u8;
        rest /= 10;
    }
    start -= 1;
    digits[start] = b'0' + rest as u8;
    start
}
