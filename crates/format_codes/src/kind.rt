//! What the sections of a number format code are.
ghost use Rattle.std.specs.Prelude.{◌≡◌, ◌≤◌, ◌+◌, ◌&&◌, ◌||◌, count_by, drop, length, nat_lt, not};
ghost use Rattle.std.specs.Prelude.{take};
ghost use Rattle.std.specs.List.{after_first, before_first, list_all, position_or_len, prefix_len};
ghost use Rattle.format_codes.specs.Kinds.{is_digit_or_exponent, is_not_general, is_general_sound};
ghost use Rattle.format_codes.specs.Kinds.{shows_name, is_date_sound, is_power_sound};
ghost use Rattle.format_codes.specs.Kinds.{is_denominator, from_denominator, denominator_in};
ghost use Rattle.format_codes.specs.Kinds.{is_fixed, is_denominator_sound, is_point_or_percent};
ghost use Rattle.format_codes.specs.Kinds.{is_fraction_sound, is_fraction, is_no_number, kind_if};
ghost use Rattle.format_codes.specs.Kinds.{undated_kind};
ghost use Rattle.format_codes.specs.Pieces.{has, is_digit, is_exponent, is_foreign_language};
ghost use Rattle.format_codes.specs.Pieces.{is_general, is_figure, is_point_piece};
ghost use Rattle.format_codes.specs.Pieces.{is_second_digits, is_slash_piece, is_time};
ghost use Rattle.format_codes.specs.Pieces.{is_zero_place};
ghost use Rattle.format_codes.specs.TimedPieces.{second_digits, second_places};

use crate::piece::{CodePiece, TimeUnit};

/// What a section is that shows a number.
#[derive(Clone, Copy, Debug, PartialEq, Eq)]
pub enum SectionKind {
    /// The word General.
    General,
    /// A date, a time of day, or a time that has passed.
    Date,
    /// Places of digits, or none.
    Number,
    /// A number with a power of ten, as `0.00E+00`.
    Power,
    /// A fraction, as `# ?/?`.
    Fraction,
}

/// A kind, where a section is sound.
pub fn kind_if(sound: bool, kind: SectionKind) -> Option<SectionKind>
    ensures { result ≡ kind_if sound kind }
{
    if sound { Some(kind) } else { None }
}

/// Whether a place of a digit stands among these pieces.
fn has_digit(pieces: &[CodePiece]) -> bool
    ensures { result ≡ has is_digit pieces.now }
{
    pieces.iter().any(|piece| piece.is_digit())
}

/// Whether a place of a digit or a power of ten stands among these pieces.
pub fn has_digit_or_exponent(pieces: &[CodePiece]) -> bool
    ensures { result ≡ has is_digit_or_exponent pieces.now }
{
    pieces
        .iter()
        .any(|piece| piece.is_digit() || piece.is_exponent())
}

/// Whether a section has what no section of numbers has.
pub fn has_no_number(section: &[CodePiece]) -> bool
    ensures { result ≡ has is_no_number section.now }
{
    section
        .iter()
        .any(|piece| piece.is_unknown() || piece.is_text_place())
}

/// Whether the word General stands in a section.
pub fn has_general(section: &[CodePiece]) -> bool
    ensures { result ≡ has is_general section.now }
{
    section.iter().any(|piece| piece.is_general())
}

/// Whether a part of a date or a half of a day stands in a section.
pub fn has_time(section: &[CodePiece]) -> bool
    ensures { result ≡ has is_time section.now }
{
    section.iter().any(|piece| piece.is_time())
}

/// Whether a section has what no section of General has.
fn has_not_general(section: &[CodePiece]) -> bool
    ensures { result ≡ has is_not_general section.now }
{
    section.iter().any(|p| p.is_digit() || p.is_exponent() || p.is_percent() || p.is_time())
}

/// How often the word General stands in a section.
fn general_count(section: &[CodePiece]) -> usize
    ensures { result ≡ count_by is_general section.now }
{
    section.iter().filter(|piece| piece.is_general()).count()
}

/// Whether General stands once in a section, and nothing else that shows a number.
pub fn is_general_sound(section: &[CodePiece]) -> bool
    ensures { result ≡ is_general_sound section.now }
{
    general_count(section) == 1 && !has_not_general(section)
}

/// Whether a piece shows a name of a month or of a day, or a half of a day.
fn shows_name(piece: CodePiece) -> bool
    ensures { result ≡ shows_name piece }
{
    match piece {
        CodePiece::TimePart(TimeUnit::Year, _) => false,
        CodePiece::TimePart(_, count) => count > 2,
        CodePiece::HalfDay(_) => true,
        _ => false,
    }
}

/// Whether a language stands among pieces that isn't English.
fn has_foreign(timed: &[CodePiece]) -> bool
    ensures { result ≡ has is_foreign_language timed.now }
{
    timed.iter().any(|piece| piece.is_foreign())
}

/// Whether a name stands among pieces.
fn has_name(timed: &[CodePiece]) -> bool
    ensures { result ≡ has shows_name timed.now }
{
    timed.iter().any(|piece| shows_name(*piece))
}

/// How often digits of a second stand among pieces.
fn second_digits_count(timed: &[CodePiece]) -> usize
    ensures { result ≡ count_by is_second_digits timed.now }
{
    timed
        .iter()
        .filter(|piece| piece.is_second_digits())
        .count()
}

/// Whether pieces of a date that tell minutes from months have no places of digits but those of
/// seconds, three in one place, and no name in another language.
pub fn is_date_sound(timed: &[CodePiece]) -> bool
    ensures { result ≡ is_date_sound timed.now }
{
    !has_digit_or_exponent(timed)
        && !(has_foreign(timed) && has_name(timed))
        && second_digits_count(timed) < 2
        && has_few_second_places(timed)
}

/// How many digits of a second a piece shows.
fn digits_of(piece: CodePiece) -> usize
    ensures { result ≡ second_digits piece }
{
    match piece {
        CodePiece::SecondDigits(count) => count,
        _ => 0,
    }
}

/// Whether at most three digits of a second are shown.
fn has_few_second_places(timed: &[CodePiece]) -> bool
    ensures { result ≡ nat_lt (second_places timed.now) 4 }
{
    let mut left = 3;
    let mut rest = timed;
    while let Some((first, others)) = rest.split_first() {
        let digits = digits_of(*first);
        if digits > left {
            return false;
        }
        left -= digits;
        rest = others;
    }
    true
}

/// Whether `E` stands in a section.
fn has_exponent(section: &[CodePiece]) -> bool
    ensures { result ≡ has is_exponent section.now }
{
    section.iter().any(|piece| piece.is_exponent())
}

/// Whether a point stands among pieces.
fn has_point(pieces: &[CodePiece]) -> bool
    ensures { result ≡ has is_point_piece pieces.now }
{
    pieces.iter().any(|piece| piece.is_point())
}

/// Whether a point or `%` stands in a section.
fn has_point_or_percent(section: &[CodePiece]) -> bool
    ensures { result ≡ has is_point_or_percent section.now }
{
    section
        .iter()
        .any(|piece| piece.is_point() || piece.is_percent())
}

/// How many pieces stand before the first `E`, or all.
fn exponent_place(section: &[CodePiece]) -> usize
    ensures value { result ≡ position_or_len is_exponent section.now }
    ensures bound { result ≤ length section.now }
{
    section
        .iter()
        .take_while(|piece| !piece.is_exponent())
        .count()
}

/// How often an `E` stands in a section.
fn exponent_count(section: &[CodePiece]) -> usize
    ensures { result ≡ count_by is_exponent section.now }
{
    section.iter().filter(|piece| piece.is_exponent()).count()
}

/// The pieces before the one at this place, and those behind it.
fn around(section: &[CodePiece], place: usize) -> (&[CodePiece], &[CodePiece])
    requires { place ≤ length section.now }
    ensures front { result.0.now ≡ take place section.now }
    ensures behind { result.1.now ≡ drop (place + 1) section.now }
{
    let (front, _) = section.split_at(place);
    let (_, behind) = section.split_at((place + 1).min(section.len()));
    (front, behind)
}

/// Whether places of digits stand on both sides of one `E`, and no point behind it.
fn is_power_sound(section: &[CodePiece]) -> bool
    ensures { result ≡ is_power_sound section.now }
{
    let (front, behind) = around(section, exponent_place(section));
    exponent_count(section) == 1 && has_digit(front) && has_digit(behind) && !has_point(behind)
}

/// How many pieces stand before the first `/`, or all.
fn slash_place(section: &[CodePiece]) -> usize
    ensures value { result ≡ position_or_len is_slash_piece section.now }
    ensures bound { result ≤ length section.now }
{
    section.iter().take_while(|piece| !piece.is_slash()).count()
}

/// How often a `/` stands in a section.
fn slash_count(section: &[CodePiece]) -> usize
    ensures { result ≡ count_by is_slash_piece section.now }
{
    section.iter().filter(|piece| piece.is_slash()).count()
}

/// Whether a piece is a place of a digit or a digit.
fn is_denominator(piece: CodePiece) -> bool
    ensures { result ≡ is_denominator piece }
{
    piece.is_digit() || piece.is_figure()
}

/// Whether a place of a digit or a digit stands among pieces.
fn has_denominator(pieces: &[CodePiece]) -> bool
    ensures { result ≡ has is_denominator pieces.now }
{
    pieces.iter().any(|piece| is_denominator(*piece))
}

/// How many pieces stand in front of a denominator, or all.
fn denominator_place(behind: &[CodePiece]) -> usize
    ensures value { result ≡ prefix_len (λ p. not (is_denominator p)) behind.now }
    ensures bound { result ≤ length behind.now }
{
    behind
        .iter()
        .take_while(|piece| !is_denominator(**piece))
        .count()
}

/// How many pieces in front are those of a denominator.
fn denominator_size(pieces: &[CodePiece]) -> usize
    ensures value { result ≡ prefix_len is_denominator pieces.now }
    ensures bound { result ≤ length pieces.now }
{
    pieces
        .iter()
        .take_while(|piece| is_denominator(**piece))
        .count()
}

/// The denominator of a section of fractions.
pub fn denominator_in(section: &[CodePiece]) -> &[CodePiece]
    ensures { result.now ≡ denominator_in section.now }
{
    let (_, behind) = around(section, slash_place(section));
    let (_, rest) = behind.split_at(denominator_place(behind));
    let (denominator, _) = rest.split_at(denominator_size(rest));
    denominator
}

/// Whether a denominator is given: a digit from 1 to 9 begins it.
pub fn is_fixed(denominator: &[CodePiece]) -> bool
    ensures { result ≡ is_fixed denominator.now }
{
    match denominator.first() {
        Some(first) => first.is_figure(),
        None => false,
    }
}

/// Whether each piece is a digit that is given.
fn all_figures(denominator: &[CodePiece]) -> bool
    ensures { result ≡ list_all (λ p. is_figure p || is_zero_place p) denominator.now }
{
    denominator
        .iter()
        .all(|piece| piece.is_figure() || piece.is_zero())
}

/// Whether each piece is a place of a digit.
fn all_digits(denominator: &[CodePiece]) -> bool
    ensures { result ≡ list_all is_digit denominator.now }
{
    denominator.iter().all(|piece| piece.is_digit())
}

/// Whether a denominator that is given has digits alone, one that is found places alone, and four
/// at most.
fn is_denominator_sound(denominator: &[CodePiece]) -> bool
    ensures { result ≡ is_denominator_sound denominator.now }
{
    !denominator.is_empty()
        && denominator.len() <= 4
        && if is_fixed(denominator) {
            all_figures(denominator)
        } else {
            all_digits(denominator)
        }
}

/// Whether a section has one `/`, neither a point nor `%`, and a denominator.
fn is_fraction_sound(section: &[CodePiece]) -> bool
    ensures { result ≡ is_fraction_sound section.now }
{
    slash_count(section) == 1
        && !has_point_or_percent(section)
        && is_denominator_sound(denominator_in(section))
}

/// Whether a place of a digit stands before a `/`, and one or a digit from 1 to 9 behind it.
fn is_fraction(section: &[CodePiece]) -> bool
    ensures { result ≡ is_fraction section.now }
{
    let (front, behind) = around(section, slash_place(section));
    has_digit(front) && has_denominator(behind)
}

/// What a section is without a part of a date: a power, a fraction, or a number.
pub fn undated_kind(section: &[CodePiece]) -> Option<SectionKind>
    ensures { result ≡ undated_kind section.now }
{
    if has_exponent(section) {
        kind_if(is_power_sound(section), SectionKind::Power)
    } else if is_fraction(section) {
        kind_if(is_fraction_sound(section), SectionKind::Fraction)
    } else {
        Some(SectionKind::Number)
    }
}
