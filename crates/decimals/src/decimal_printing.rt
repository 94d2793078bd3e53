//! The pieces of a decimal's printed text. A call fails only where the text has no room for what it
//! appends, and then leaves it open how much of that was appended.
ghost use Rattle.std.specs.Prelude.{◌≡◌, ◌+◌, ◌<◌, ◌≤◌, ◌++◌, length, replicate, OnOk, OnErr};
ghost use Rattle.std.specs.Prelude.{string_bytes, string_len, string_capacity};
ghost use Rattle.std.specs.Fmt.{sign_text};
ghost use Rattle.std.specs.Str.{IsAscii};
ghost use Rattle.decimals.specs.Decimals.{with_point, with_exponent, printed_digits};

use itoa::Buffer;
use std::alloc::AllocError;

/// Appends `-` where the number is negative, and nothing elsewhere.
pub fn push_sign(out: &mut String, is_negative: bool) -> Result<(), AllocError>
    ensures ok { OnOk result
        (string_bytes out.new ≡ string_bytes out.old ++ sign_text is_negative) }
    ensures len { OnOk result
        (string_len out.new ≡ string_len out.old + length (sign_text is_negative)) }
    ensures capacity { string_capacity out.old ≤ string_capacity out.new }
    ensures full { OnErr result (string_capacity out.old < string_len out.old + 1) }
{
    if is_negative {
        out.push('-')?;
    }
    Ok(())
}

fn push_zeros(out: &mut String, count: usize) -> Result<(), AllocError>
    ensures ok { OnOk result (string_bytes out.new ≡ string_bytes out.old ++ replicate count 48) }
    ensures len { OnOk result (string_len out.new ≡ string_len out.old + count) }
    ensures capacity { string_capacity out.old ≤ string_capacity out.new }
    ensures full { OnErr result (string_capacity out.old < string_len out.old + count) }
{
    for _ in 0..count {
        out.push('0')?;
    }
    Ok(())
}

/// Appends the digits with a point before the last `places` of them.
fn push_with_point(out: &mut String, digits: &str, places: usize) -> Result<(), AllocError>
    requires ascii { IsAscii digits.now }
    ensures ok { OnOk result
        (string_bytes out.new ≡ string_bytes out.old ++ with_point places digits.now) }
    ensures full { OnErr result (string_capacity out.old
        < string_len out.old + length (with_point places digits.now)) }
{
    if digits.len() > places {
        let (whole, fraction) = digits.split_at(digits.len() - places);
        out.push_str(whole)?;
        out.push('.')?;
        return out.push_str(fraction);
    }
    out.push_str("0.")?;
    push_zeros(out, places - digits.len())?;
    out.push_str(digits)
}

fn push_with_exponent(out: &mut String, digits: &str, power: i32) -> Result<(), AllocError>
    ensures ok { OnOk result
        (string_bytes out.new ≡ string_bytes out.old ++ with_exponent digits.now power) }
    ensures full { OnErr result (string_capacity out.old
        < string_len out.old + length (with_exponent digits.now power)) }
{
    let mut buffer = Buffer::new();
    out.push_str(digits)?;
    out.push('E')?;
    out.push_str(buffer.format(power))
}

/// Appends the digits times ten to the power.
pub fn push_digits(out: &mut String, digits: &str, power: i32) -> Result<(), AllocError>
    requires ascii { IsAscii digits.now }
    ensures ok { OnOk result
        (string_bytes out.new ≡ string_bytes out.old ++ printed_digits digits.now power) }
    ensures full { OnErr result (string_capacity out.old
        < string_len out.old + length (printed_digits digits.now power)) }
{
    if power < -20 || power > 20 {
        return push_with_exponent(out, digits, power);
    }
    if power < 0 {
        return push_with_point(out, digits, power.unsigned_abs() as usize);
    }
    out.push_str(digits)?;
    push_zeros(out, power.unsigned_abs() as usize)
}
