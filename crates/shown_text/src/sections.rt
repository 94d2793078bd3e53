//! Numbers and texts in a section. A refusal may leave a front of what is appended behind.
ghost use Rattle.std.specs.Prelude.{◌≡◌, ◌≤◌, ◌^◌, ◌++◌, length, string_bytes, OnOk, OnErr};
ghost use Rattle.escaped_text.specs.Escaped.{AddsBehind};
ghost use Rattle.decimals.specs.Words.{number_of};
ghost use Rattle.format_codes.specs.Words.{shown_by};
ghost use Rattle.shown_text.specs.ShownText.{general_piece, general_pieces, size_text, is_sized};
ghost use Rattle.shown_text.specs.ShownText.{signed_text, sized_text, shown_by_section, text_piece};
ghost use Rattle.shown_text.specs.ShownText.{text_pieces, truth_word};

use crate::date_texts::push_date;
use crate::digits::push_own;
use crate::fraction_texts::push_fraction;
use crate::general::{push_general, push_sign, push_size};
use crate::numbers::{push_number, push_power};
use crate::sizes::Size;
use cell_data::Decimal;
use format_codes::{ChosenSection, CodePiece, SectionKind};
use std::alloc::AllocError;

/// The greatest power of ten, and its opposite, of a number that is shown in a section.
const MOST_POWER: u64 = 400;

/// How many pieces a section has at most.
const MOST_PIECES: usize = 1 << 20;

/// Appends a piece of a section of General.
fn push_general_piece(out: &mut String, size: Size, piece: CodePiece) -> Result<(), AllocError>
    ensures ok { OnOk result (string_bytes out.new ≡ string_bytes out.old
        ++ general_piece size.number size.power piece) }
    ensures err { OnErr result (AddsBehind (string_bytes out.old) (string_bytes out.new)) }
{
    if piece.is_general() {
        return push_size(out, size);
    }
    push_own(out, piece)
}

/// Appends a size in a section of General.
fn push_general_pieces(out: &mut String, pieces: &[CodePiece], size: Size) -> Result<(), AllocError>
    ensures ok { OnOk result (string_bytes out.new ≡ string_bytes out.old
        ++ general_pieces pieces.now size.number size.power) }
    ensures err { OnErr result (AddsBehind (string_bytes out.old) (string_bytes out.new)) }
{
    for piece in pieces {
        push_general_piece(out, size, *piece)?;
    }
    Ok(())
}

/// Appends a size in the pieces of a section.
fn push_sized_pieces(
    out: &mut String,
    kind: SectionKind,
    pieces: &[CodePiece],
    size: Size,
) -> Result<(), AllocError>
    requires { length pieces.now ≤ 2 ^ 20 }
    ensures ok { OnOk result (string_bytes out.new ≡ string_bytes out.old
        ++ size_text kind pieces.now size.number size.power) }
    ensures err { OnErr result (AddsBehind (string_bytes out.old) (string_bytes out.new)) }
{
    match kind {
        SectionKind::General => push_general_pieces(out, pieces, size),
        SectionKind::Number => push_number(out, pieces, size),
        SectionKind::Power => push_power(out, pieces, size),
        SectionKind::Fraction => push_fraction(out, pieces, size),
        SectionKind::Date => Ok(()),
    }
}

/// Whether a size with such a power is shown in a section.
fn is_sized(section: &ChosenSection, power: i64) -> bool
    ensures { result ≡ is_sized (shown_by section.now) power }
{
    power.unsigned_abs() <= MOST_POWER && section.pieces.len() <= MOST_PIECES
}

/// Appends a size in a section, with the sign of its number in front.
fn push_signed(
    out: &mut String,
    section: &ChosenSection,
    is_below: bool,
    size: Size,
) -> Result<(), AllocError>
    requires { length section.now.pieces.now ≤ 2 ^ 20 }
    ensures ok { OnOk result (string_bytes out.new ≡ string_bytes out.old
        ++ signed_text (shown_by section.now) is_below size.number size.power) }
    ensures err { OnErr result (AddsBehind (string_bytes out.old) (string_bytes out.new)) }
{
    if section.pieces.len() == 0 {
        return Ok(());
    }
    push_sign(out, is_below && !section.is_unsigned)?;
    push_sized_pieces(out, section.kind, section.pieces, size)
}

/// Appends a number in a section by its fifteen digits, and under General where its power is too
/// great.
fn push_sized(out: &mut String, section: &ChosenSection, number: &Decimal) -> Result<(), AllocError>
    ensures ok { OnOk result (string_bytes out.new ≡ string_bytes out.old
        ++ sized_text (shown_by section.now) (number_of number.now)) }
    ensures err { OnErr result (AddsBehind (string_bytes out.old) (string_bytes out.new)) }
{
    let size = Size::of(number);
    if !is_sized(section, size.power) {
        return push_general(out, number);
    }
    push_signed(out, section, number.mantissa() < 0, size)
}

/// Appends a number in a section.
pub fn push_in_section(
    out: &mut String,
    is_1904: bool,
    section: &ChosenSection,
    number: &Decimal,
) -> Result<(), AllocError>
    ensures ok { OnOk result (string_bytes out.new ≡ string_bytes out.old
        ++ shown_by_section is_1904 section.now.kind (shown_by section.now)
        (number_of number.now)) }
    ensures err { OnErr result (AddsBehind (string_bytes out.old) (string_bytes out.new)) }
{
    match section.kind {
        SectionKind::Date => {
            push_date(out, is_1904, section.pieces, section.is_unsigned, number)
        }
        _ => push_sized(out, section, number),
    }
}

/// Appends a piece of a section of texts.
fn push_text_piece(out: &mut String, text: &str, piece: CodePiece) -> Result<(), AllocError>
    ensures ok { OnOk result (string_bytes out.new ≡ string_bytes out.old
        ++ text_piece text.now piece) }
    ensures err { OnErr result (AddsBehind (string_bytes out.old) (string_bytes out.new)) }
{
    if piece.is_text_place() || piece.is_general() {
        return out.push_str(text);
    }
    push_own(out, piece)
}

/// Appends a text in the pieces of a section of texts.
pub fn push_text_pieces(
    out: &mut String,
    text: &str,
    pieces: &[CodePiece],
) -> Result<(), AllocError>
    ensures ok { OnOk result (string_bytes out.new ≡ string_bytes out.old
        ++ text_pieces text.now pieces.now) }
    ensures err { OnErr result (AddsBehind (string_bytes out.old) (string_bytes out.new)) }
{
    for piece in pieces {
        push_text_piece(out, text, *piece)?;
    }
    Ok(())
}

/// The word for truth.
pub fn truth_word(truth: bool) -> &'static str
    ensures { result.now ≡ truth_word truth }
{
    if truth { "TRUE" } else { "FALSE" }
}
