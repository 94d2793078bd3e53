//! What a number format says of the numbers that it shows.
ghost use Rattle.std.specs.Prelude.{◌≡◌, ◌≤◌, ◌||◌, ◌==◌, drop, length};
ghost use Rattle.std.specs.Char.{to_ascii_lowercase};
ghost use Rattle.std.specs.List.{after_first, list_all, position_or_len};
ghost use Rattle.std.specs.Option.{option_map};
ghost use Rattle.cell_data.specs.NumberFormat.{builtin_format, builtin_code, is_date_letter};
ghost use Rattle.cell_data.specs.NumberFormat.{begins_half_day, is_elapsed, group_sign, first_sign};
ghost use Rattle.cell_data.specs.NumberFormat.{custom_format};
ghost use Rattle.cell_data.specs.SignOf.{sign_of};

use std::ops::ControlFlow;

/// What a number format makes of a number.
#[derive(Debug, Clone, Copy, PartialEq, Eq)]
pub enum CellFormat {
    /// The number stays one.
    Other,
    /// A date or a time of day.
    DateTime,
    /// A time that has passed.
    TimeDelta,
}

/// What the built-in format of this id makes of a number (ECMA-376 part 1, section 18.8.30).
pub fn builtin_format_by_id(id: &str) -> CellFormat
    ensures { result ≡ builtin_format id.now }
{
    match id {
        "14" | "15" | "16" | "17" | "18" | "19" | "20" | "21" | "22" | "45" | "47" => {
            CellFormat::DateTime
        }
        "46" => CellFormat::TimeDelta,
        _ => CellFormat::Other,
    }
}

/// The code of the built-in format of this id (ECMA-376 part 1, section 18.8.30).
pub fn builtin_format_code_by_id(id: u32) -> Option<&'static str>
    ensures { option_map (λ code. code.now) result ≡ builtin_code id }
{
    match id {
        0 => Some("General"),
        1 => Some("0"),
        2 => Some("0.00"),
        3 => Some("#,##0"),
        4 => Some("#,##0.00"),
        9 => Some("0%"),
        10 => Some("0.00%"),
        11 => Some("0.00E+00"),
        12 => Some("# ?/?"),
        13 => Some("# ??/??"),
        14 => Some("mm-dd-yy"),
        15 => Some("d-mmm-yy"),
        16 => Some("d-mmm"),
        17 => Some("mmm-yy"),
        18 => Some("h:mm AM/PM"),
        19 => Some("h:mm:ss AM/PM"),
        20 => Some("h:mm"),
        21 => Some("h:mm:ss"),
        22 => Some("m/d/yy h:mm"),
        37 => Some("#,##0 ;(#,##0)"),
        38 => Some("#,##0 ;[Red](#,##0)"),
        39 => Some("#,##0.00;(#,##0.00)"),
        40 => Some("#,##0.00;[Red](#,##0.00)"),
        45 => Some("mm:ss"),
        46 => Some("[h]:mm:ss"),
        47 => Some("mmss.0"),
        48 => Some("##0.0E+0"),
        49 => Some("@"),
        _ => None,
    }
}

/// Whether each of these is the letter, in either case.
fn all_are(text: &[u8], letter: u8) -> bool
    ensures { result ≡ list_all (λ b. to_ascii_lowercase b == letter) text.now }
{
    text.iter().all(|b| b.to_ascii_lowercase() == letter)
}

/// Whether the content of a bracketed group counts time that has passed: one letter h, m or s of
/// either case, once or repeated.
fn is_elapsed(content: &[u8]) -> bool
    ensures { result ≡ is_elapsed content.now }
{
    let Some((first, others)) = content.split_first() else {
        return false;
    };
    let letter = first.to_ascii_lowercase();
    matches!(letter, b'h' | b'm' | b's') && all_are(others, letter)
}

/// Whether a date or a time of day begins here: a letter d, m, h, y or s, or `a/p`, of either case.
fn begins_date(first: u8, behind: &[u8]) -> bool
    ensures { result ≡ (is_date_letter first || begins_half_day first behind.now) }
{
    let letter = first.to_ascii_lowercase();
    if letter == b'a' {
        return behind.len() > 1 && behind[0] == b'/' && behind[1].to_ascii_lowercase() == b'p';
    }
    matches!(letter, b'd' | b'm' | b'h' | b'y' | b's')
}

/// Where the byte stands first, or the length.
fn place_of(text: &[u8], byte: u8) -> usize
    ensures bound { result ≤ length text.now }
    ensures value { result ≡ position_or_len (λ b. b == byte) text.now }
{
    let mut place = 0;
    while place < text.len() && text[place] != byte {
        place += 1;
    }
    place
}

/// What stands behind the first such byte, or nothing.
fn behind_byte(text: &[u8], byte: u8) -> &[u8]
    ensures { result.now ≡ after_first (λ b. b == byte) text.now }
{
    let place = place_of(text, byte);
    let (_, behind) = text.split_at((place + 1).min(text.len()));
    behind
}

/// What a group in brackets says, by what stands behind its bracket.
fn pass_group(behind: &[u8]) -> ControlFlow<CellFormat, &[u8]>
    ensures { sign_of result ≡ group_sign behind.now }
{
    let close = place_of(behind, b']');
    if close == behind.len() {
        return ControlFlow::Break(CellFormat::Other);
    }
    let (content, _) = behind.split_at(close);
    if is_elapsed(content) {
        return ControlFlow::Break(CellFormat::TimeDelta);
    }
    ControlFlow::Continue(behind_byte(behind, b']'))
}

/// What stands behind the first byte.
fn behind_one(text: &[u8]) -> &[u8]
    ensures { result.now ≡ drop 1 text.now }
{
    match text.split_first() {
        Some((_, behind)) => behind,
        None => text,
    }
}

/// What stands first in a format tells what it makes of a number, or is passed over.
fn pass_sign(first: u8, behind: &[u8]) -> ControlFlow<CellFormat, &[u8]>
    ensures { sign_of result ≡ first_sign first behind.now }
{
    match first {
        b'\\' | b'_' => ControlFlow::Continue(behind_one(behind)),
        b'"' => ControlFlow::Continue(behind_byte(behind, b'"')),
        b';' => ControlFlow::Break(CellFormat::Other),
        b'[' => pass_group(behind),
        _ if begins_date(first, behind) => ControlFlow::Break(CellFormat::DateTime),
        _ => ControlFlow::Continue(behind),
    }
}

/// What a format that is not built in makes of a number: it is a date where a letter of one stands
/// outside quotes and brackets, and not behind `\` or `_`, before the first `;`.
pub fn detect_custom_number_format(format: &str) -> CellFormat
    ensures { result ≡ custom_format format.now }
{
    let mut rest = format.as_bytes();
    while let Some((first, behind)) = rest.split_first() {
        match pass_sign(*first, behind) {
            ControlFlow::Break(format) => return format,
            ControlFlow::Continue(next) => rest = next,
        }
    }
    CellFormat::Other
}
