//! A size in the parts of a section of fractions. A refusal may leave a front of what is appended
//! behind.
ghost use Rattle.std.specs.Prelude.{◌≡◌, ◌<◌, ◌≤◌, ◌^◌, ◌++◌, ◌∷◌, ◌==◌, length, ℕ, pos};
ghost use Rattle.std.specs.Prelude.{string_bytes, OnOk, OnErr};
ghost use Rattle.std.specs.Fmt.{decimal};
ghost use Rattle.escaped_text.specs.Escaped.{AddsBehind};
ghost use Rattle.shown_text.specs.GivenDigits.{digits_in};
ghost use Rattle.shown_text.specs.GivenParts.{part_pieces};
ghost use Rattle.shown_text.specs.FractionTexts.{whole_digits, slashed, has_space_place};
ghost use Rattle.shown_text.specs.FractionTexts.{no_fraction, whole_part_text, is_whole_gone};
ghost use Rattle.shown_text.specs.FractionTexts.{gap_text, in_place_of_whole, whole_front, mixed};
ghost use Rattle.shown_text.specs.FractionTexts.{carried, mixed_digits, slash_text, front_gap};
ghost use Rattle.shown_text.specs.FractionTexts.{back_gap, unit_parts, unparted, parts_text};
ghost use Rattle.shown_text.specs.FractionTexts.{fraction_shown};

use crate::digits::{has_places, is_grouped, place_count, push_with_digits};
use crate::fraction_parts::GivenParts;
use crate::fractions::{
    Fraction, has_empty, has_space, has_zero, is_fixed, push_between, push_decimal,
    push_denominator, push_spaces, push_width,
};
use crate::given_digits::Digits;
use crate::sizes::Size;
use format_codes::CodePiece;
use itoa::Buffer;
use std::alloc::AllocError;

/// Appends the slash with what stands on either side of it.
fn push_slash(out: &mut String, parts: &GivenParts) -> Result<(), AllocError>
    ensures ok { OnOk result (string_bytes out.new ≡ string_bytes out.old
        ++ slash_text (part_pieces parts.now)) }
    ensures err { OnErr result (AddsBehind (string_bytes out.old) (string_bytes out.new)) }
{
    push_between(out, parts.before)?;
    out.push_str("/")?;
    push_between(out, parts.behind)
}

/// Appends numerator, slash and denominator.
fn push_slashed(
    out: &mut String,
    parts: &GivenParts,
    over: &Digits,
    under: u128,
) -> Result<(), AllocError>
    ensures ok { OnOk result (string_bytes out.new ≡ string_bytes out.old
        ++ slashed (part_pieces parts.now) (digits_in over.now) under) }
    ensures err { OnErr result (AddsBehind (string_bytes out.old) (string_bytes out.new)) }
{
    push_with_digits(out, false, false, "", over, parts.over)?;
    push_slash(out, parts)?;
    push_denominator(out, parts.under, under)
}

/// Appends numerator, slash and denominator of a fraction.
fn push_fraction_of(
    out: &mut String,
    parts: &GivenParts,
    fraction: Fraction,
) -> Result<(), AllocError>
    ensures ok { OnOk result (string_bytes out.new ≡ string_bytes out.old
        ++ slashed (part_pieces parts.now) (decimal fraction.over) fraction.under) }
    ensures err { OnErr result (AddsBehind (string_bytes out.old) (string_bytes out.new)) }
{
    let mut buffer = Buffer::new();
    let text = buffer.format(fraction.over);
    push_slashed(out, parts, &Digits { text, zeros: 0 }, fraction.under)
}

/// Whether a place of the whole number, of the numerator, or of a denominator that isn't given is
/// `?`.
fn has_space_place(parts: &GivenParts) -> bool
    ensures { result ≡ has_space_place (part_pieces parts.now) }
{
    has_space(parts.whole)
        || has_space(parts.over)
        || (!is_fixed(parts.under) && has_space(parts.under))
}

/// Appends the spaces in place of what stands before a slash.
fn push_front_gap(out: &mut String, parts: &GivenParts) -> Result<(), AllocError>
    ensures ok { OnOk result (string_bytes out.new ≡ string_bytes out.old
        ++ front_gap (part_pieces parts.now)) }
    ensures err { OnErr result (AddsBehind (string_bytes out.old) (string_bytes out.new)) }
{
    push_width(out, parts.between)?;
    push_width(out, parts.over)?;
    push_width(out, parts.before)
}

/// Appends the spaces in place of a slash and what stands behind it.
fn push_back_gap(out: &mut String, parts: &GivenParts) -> Result<(), AllocError>
    ensures ok { OnOk result (string_bytes out.new ≡ string_bytes out.old
        ++ back_gap (part_pieces parts.now)) }
    ensures err { OnErr result (AddsBehind (string_bytes out.old) (string_bytes out.new)) }
{
    out.push_str(" ")?;
    push_width(out, parts.behind)?;
    push_width(out, parts.under)
}

/// Appends the spaces in place of a fraction of 0.
fn push_no_fraction(out: &mut String, parts: &GivenParts) -> Result<(), AllocError>
    ensures ok { OnOk result (string_bytes out.new ≡ string_bytes out.old
        ++ no_fraction (part_pieces parts.now)) }
    ensures err { OnErr result (AddsBehind (string_bytes out.old) (string_bytes out.new)) }
{
    if !has_space_place(parts) {
        return Ok(());
    }
    push_front_gap(out, parts)?;
    push_back_gap(out, parts)
}

/// Appends the places of a whole number with its digits.
fn push_whole_places(
    out: &mut String,
    parts: &GivenParts,
    digits: &Digits,
) -> Result<(), AllocError>
    ensures ok { OnOk result (string_bytes out.new ≡ string_bytes out.old
        ++ whole_part_text (part_pieces parts.now) (digits_in digits.now)) }
    ensures err { OnErr result (AddsBehind (string_bytes out.old) (string_bytes out.new)) }
{
    push_with_digits(out, is_grouped(parts.whole), false, "", digits, parts.whole)
}

/// Whether a whole number that is 0 isn't shown.
fn is_whole_gone(parts: &GivenParts, over: u128) -> bool
    ensures { result ≡ is_whole_gone (part_pieces parts.now) over }
{
    if over == 0 {
        place_count(parts.whole) == 1 && has_empty(parts.whole)
    } else {
        !has_zero(parts.whole)
    }
}

/// Appends the spaces in place of what stands behind a whole number.
fn push_gap(out: &mut String, parts: &GivenParts) -> Result<(), AllocError>
    ensures ok { OnOk result (string_bytes out.new ≡ string_bytes out.old
        ++ gap_text (part_pieces parts.now)) }
    ensures err { OnErr result (AddsBehind (string_bytes out.old) (string_bytes out.new)) }
{
    if has_space(parts.whole) {
        out.push_str(" ")?;
        return push_width(out, parts.between);
    }
    if has_space(parts.over) {
        return push_width(out, parts.between);
    }
    Ok(())
}

/// Appends what stands in place of a whole number.
fn push_in_place_of_whole(out: &mut String, parts: &GivenParts) -> Result<(), AllocError>
    ensures ok { OnOk result (string_bytes out.new ≡ string_bytes out.old
        ++ in_place_of_whole (part_pieces parts.now)) }
    ensures err { OnErr result (AddsBehind (string_bytes out.old) (string_bytes out.new)) }
{
    let (places, _) = parts.whole.split_at(parts.whole.len().saturating_sub(1));
    push_with_digits(
        out,
        false,
        false,
        "",
        &Digits { text: "", zeros: 0 },
        places,
    )?;
    push_gap(out, parts)
}

/// Appends a whole number, by its digits, with what stands behind it.
fn push_whole_front(
    out: &mut String,
    parts: &GivenParts,
    digits: &Digits,
    is_zero: bool,
    over: u128,
) -> Result<(), AllocError>
    ensures ok { OnOk result (string_bytes out.new ≡ string_bytes out.old
        ++ whole_front (part_pieces parts.now) (digits_in digits.now) is_zero over) }
    ensures err { OnErr result (AddsBehind (string_bytes out.old) (string_bytes out.new)) }
{
    if is_zero && is_whole_gone(parts, over) {
        return push_in_place_of_whole(out, parts);
    }
    push_whole_places(out, parts, digits)?;
    push_between(out, parts.between)
}

/// Appends a whole number by its digits, and a fraction.
fn push_mixed_digits(
    out: &mut String,
    parts: &GivenParts,
    digits: &Digits,
    is_zero: bool,
    fraction: Fraction,
) -> Result<(), AllocError>
    ensures ok { OnOk result (string_bytes out.new ≡ string_bytes out.old
        ++ mixed_digits (part_pieces parts.now) (digits_in digits.now) is_zero fraction) }
    ensures err { OnErr result (AddsBehind (string_bytes out.old) (string_bytes out.new)) }
{
    if fraction.over == 0 && !has_zero(parts.over) {
        push_whole_places(out, parts, digits)?;
        return push_no_fraction(out, parts);
    }
    push_whole_front(out, parts, digits, is_zero, fraction.over)?;
    push_fraction_of(out, parts, fraction)
}

/// Appends a whole number with so many zeros behind it, and a fraction.
fn push_mixed(
    out: &mut String,
    parts: &GivenParts,
    whole: u128,
    zeros: usize,
    fraction: Fraction,
) -> Result<(), AllocError>
    requires { zeros < 2 ^ 62 }
    ensures ok { OnOk result (string_bytes out.new ≡ string_bytes out.old
        ++ mixed (part_pieces parts.now) whole zeros fraction) }
    ensures err { OnErr result (AddsBehind (string_bytes out.old) (string_bytes out.new)) }
{
    if whole == 0 {
        return push_mixed_digits(
            out,
            parts,
            &Digits {
                text: "0",
                zeros: 0,
            },
            true,
            fraction,
        );
    }
    let mut buffer = Buffer::new();
    let text = buffer.format(whole);
    push_mixed_digits(out, parts, &Digits { text, zeros }, false, fraction)
}

/// Appends a whole number and a fraction, of which one that is 1 is one more of the whole number.
fn push_carried(
    out: &mut String,
    parts: &GivenParts,
    whole: u128,
    fraction: Fraction,
) -> Result<(), AllocError>
    requires { whole ≤ 10 ^ 15 }
    ensures ok { OnOk result (string_bytes out.new ≡ string_bytes out.old
        ++ carried (part_pieces parts.now) whole fraction) }
    ensures err { OnErr result (AddsBehind (string_bytes out.old) (string_bytes out.new)) }
{
    if fraction.over == fraction.under {
        return push_mixed(out, parts, whole + 1, 0, Fraction::empty(parts.under));
    }
    push_mixed(out, parts, whole, 0, fraction)
}

/// Appends a number over a unit.
fn push_parted(
    out: &mut String,
    parts: &GivenParts,
    number: u128,
    unit: u128,
) -> Result<(), AllocError>
    requires number { number ≤ 10 ^ 15 }
    requires some { 0 < unit }
    requires unit { unit ≤ 10 ^ 30 }
    ensures ok { OnOk result (string_bytes out.new ≡ string_bytes out.old
        ++ unit_parts (part_pieces parts.now) number unit) }
    ensures err { OnErr result (AddsBehind (string_bytes out.old) (string_bytes out.new)) }
{
    if has_places(parts.whole) {
        let fraction = Fraction::found(parts.under, number % unit, unit);
        return push_carried(out, parts, number / unit, fraction);
    }
    push_between(out, parts.between)?;
    push_fraction_of(out, parts, Fraction::found(parts.under, number, unit))
}

/// Appends a numerator with so many zeros behind it.
fn push_improper(
    out: &mut String,
    parts: &GivenParts,
    number: u128,
    zeros: usize,
    under: u128,
) -> Result<(), AllocError>
    requires { zeros < 2 ^ 62 }
    ensures ok { OnOk result (string_bytes out.new ≡ string_bytes out.old
        ++ slashed (part_pieces parts.now) (whole_digits number zeros) under) }
    ensures err { OnErr result (AddsBehind (string_bytes out.old) (string_bytes out.new)) }
{
    if number == 0 {
        return push_slashed(
            out,
            parts,
            &Digits {
                text: "0",
                zeros: 0,
            },
            under,
        );
    }
    let mut buffer = Buffer::new();
    let text = buffer.format(number);
    push_slashed(out, parts, &Digits { text, zeros }, under)
}

/// Appends a whole number with so many zeros behind it.
fn push_unparted(
    out: &mut String,
    parts: &GivenParts,
    number: u128,
    zeros: usize,
) -> Result<(), AllocError>
    requires number { number ≤ 10 ^ 15 }
    requires zeros { zeros < 2 ^ 62 }
    ensures ok { OnOk result (string_bytes out.new ≡ string_bytes out.old
        ++ unparted (part_pieces parts.now) number zeros) }
    ensures err { OnErr result (AddsBehind (string_bytes out.old) (string_bytes out.new)) }
{
    let fraction = Fraction::empty(parts.under);
    if has_places(parts.whole) {
        return push_mixed(out, parts, number, zeros, fraction);
    }
    push_between(out, parts.between)?;
    push_improper(out, parts, number * fraction.under, zeros, fraction.under)
}

/// Appends a size in the parts of a section.
#[tactic(auto, using(crate::proofs::FractionSteps::size_steps))]
fn push_parts(out: &mut String, parts: &GivenParts, size: Size) -> Result<(), AllocError>
    ensures ok { OnOk result (string_bytes out.new ≡ string_bytes out.old
        ++ parts_text (part_pieces parts.now) size.number size.power) }
    ensures err { OnErr result (AddsBehind (string_bytes out.old) (string_bytes out.new)) }
{
    let places = size.power.unsigned_abs();
    if size.power >= 0 {
        return push_unparted(out, parts, size.number, places as usize);
    }
    if places > 30 {
        return push_unparted(out, parts, 0, 0);
    }
    push_parted(out, parts, size.number, 10u128.pow(places as u32))
}

/// Appends a size in a section of fractions.
#[tactic(auto, unfolding(crate::specs::FractionTexts::fraction_shown))]
pub fn push_fraction(out: &mut String, section: &[CodePiece], size: Size) -> Result<(), AllocError>
    ensures ok { OnOk result (string_bytes out.new ≡ string_bytes out.old
        ++ fraction_shown section.now size.number size.power) }
    ensures err { OnErr result (AddsBehind (string_bytes out.old) (string_bytes out.new)) }
{
    let parts = GivenParts::of(section);
    push_parts(out, &parts, size)?;
    push_between(out, parts.rest)
}
