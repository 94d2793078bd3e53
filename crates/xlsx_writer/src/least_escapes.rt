//! Texts where `_xHHHH_` counts, with no more escapes than they need.
ghost use Rattle.std.specs.Prelude.{◌≡◌, ◌<◌, ◌++◌, nat_lt, string_bytes, encode_utf8, codes, OnOk};
ghost use Rattle.std.specs.Prelude.{MatchOption, true, ◌&&◌, ◌||◌, ◌==◌};
ghost use Rattle.std.specs.Char.{digit_value};
ghost use Rattle.std.specs.Fmt.{digit_glyph};
ghost use Rattle.written_markup.specs.Words.{is_control, makes_escape, control_escape};
ghost use Rattle.written_markup.specs.Words.{least_escaped};
ghost use Rattle.xlsx_writer.specs.Escaping.{escape_alone, IsLeastCut};

use std::alloc::AllocError;

/// A byte that no text of XML has.
fn is_control(byte: u8) -> bool
    ensures { result ≡ is_control byte }
{
    byte < 32 && !(byte == 9 || (byte == 10 || byte == 13))
}

/// What is written of a byte begins with `_`.
fn is_mark(byte: u8) -> bool
    ensures { result ≡ (byte == 95 || is_control byte) }
{
    byte == b'_' || is_control(byte)
}

fn is_digit(byte: u8) -> bool
    ensures { result ≡ nat_lt (digit_value byte) 16 }
{
    char::from(byte).is_digit(16)
}

/// All of these hold.
fn all_four(one: bool, two: bool, three: bool, four: bool) -> bool
    ensures { result ≡ (one && (two && (three && four))) }
{
    one && two && three && four
}

/// What stands behind a `_`, as it is written, makes it the first byte of an escape.
fn makes_escape(behind: &[u8]) -> bool
    ensures { result ≡ makes_escape behind.now }
{
    if behind.len() < 6 {
        return false;
    }
    if behind[0] != b'x' {
        return false;
    }
    let are_digits = all_four(
        is_digit(behind[1]),
        is_digit(behind[2]),
        is_digit(behind[3]),
        is_digit(behind[4]),
    );
    if are_digits {
        return is_mark(behind[5]);
    }
    false
}

/// A byte isn't written as it is in front of what stands behind it.
fn is_escaped(byte: u8, behind: &[u8]) -> bool
    ensures { result ≡ (is_control byte || (byte == 95 && makes_escape behind.now)) }
{
    is_control(byte) || (byte == b'_' && makes_escape(behind))
}

/// The place of the first byte that isn't written as it is.
fn next_escaped(text: &[u8]) -> Option<usize>
    ensures { MatchOption result (least_escaped text.now ≡ text.now)
        (λ place. IsLeastCut text.now place) }
{
    for i in 0..text.len() {
        if is_escaped(text[i], &text[i + 1..]) {
            return Some(i);
        }
    }
    None
}

/// The digit of a number below 16.
fn digit(number: u8) -> char
    requires { number < 16 }
    ensures { result ≡ digit_glyph true number }
{
    if number < 10 {
        char::from(b'0' + number)
    } else {
        char::from(b'A' + (number - 10))
    }
}

/// Appends a byte below 128 as its escape.
fn push_control(out: &mut String, byte: u8) -> Result<(), AllocError>
    ensures { OnOk result (string_bytes out.new ≡ string_bytes out.old ++ control_escape byte) }
{
    out.push_str("_x00")?;
    out.push(digit(byte / 16))?;
    out.push(digit(byte % 16))?;
    out.push_str("_")
}

/// Appends the escape of a byte that isn't written as it is.
fn push_escape(out: &mut String, byte: u8) -> Result<(), AllocError>
    ensures { OnOk result (string_bytes out.new ≡ string_bytes out.old ++ escape_alone byte) }
{
    if is_control(byte) {
        push_control(out, byte)
    } else {
        out.push_str("_x005F_")
    }
}

/// Appends a text where `_xHHHH_` counts, with no more escapes than it needs.
pub fn push_least_escaped(out: &mut String, text: &str) -> Result<(), AllocError>
    ensures { OnOk result
        (string_bytes out.new ≡ string_bytes out.old ++ least_escaped text.now) }
{
    let mut rest = text;
    'runs: while let Some(place) = next_escaped(rest.as_bytes()) {
        out.push_str(&rest[..place])?;
        push_escape(out, rest.as_bytes()[place])?;
        rest = &rest[place + 1..];
    }
    out.push_str(rest)
}
