//! Digits in the places that a section has for them. A refusal may leave a front of what is
//! appended behind.
ghost use Rattle.std.specs.Prelude.{◌≡◌, ◌-◌, ◌<◌, ◌≤◌, ◌++◌, length, take, string_bytes, OnOk};
ghost use Rattle.std.specs.Prelude.{OnErr, IfSome};
ghost use Rattle.escaped_text.specs.Escaped.{AddsBehind};
ghost use Rattle.std.specs.List.{after_last, position_or_len};
ghost use Rattle.format_codes.specs.Words.{has, is_digit, is_point_piece, is_zero_place, own_text};
ghost use Rattle.shown_text.specs.Digits.{place_character, separator, placed_text, surplus};
ghost use Rattle.shown_text.specs.Digits.{among_places, piece_in_place, places_behind, in_places};
ghost use Rattle.shown_text.specs.Digits.{place_count, first_place, last_place, is_grouped};
ghost use Rattle.shown_text.specs.Digits.{own_texts, with_digits, hidden_places};
ghost use Rattle.shown_text.specs.Digits.{fraction_character, fraction_piece, fraction_places};
ghost use Rattle.shown_text.specs.Digits.{before_point, after_point, whole_text, behind_text};
ghost use Rattle.shown_text.specs.Digits.{laid_out};
ghost use Rattle.shown_text.specs.GivenDigits.{digits_in};

use crate::given_digits::Digits;
use format_codes::{CodePiece, Filler};
use std::alloc::AllocError;

/// The character of a place: its digit, or what fills it.
fn place_character(filler: Filler, forced: bool, digit: Option<u8>) -> Option<u8>
    requires { IfSome digit (λ d. d < 128) }
    ensures value { result ≡ place_character filler forced digit }
    ensures ascii { IfSome result (λ c. c < 128) }
{
    if digit.is_some() {
        return digit;
    }
    match filler {
        Filler::Zero => Some(b'0'),
        Filler::Space => Some(if forced { b'0' } else { b' ' }),
        Filler::Nothing => if forced { Some(b'0') } else { None },
    }
}

/// Appends a character in the place that has so many places behind it.
fn push_placed(
    out: &mut String,
    grouped: bool,
    place: usize,
    character: Option<u8>,
) -> Result<(), AllocError>
    requires { IfSome character (λ c. c < 128) }
    ensures ok { OnOk result
        (string_bytes out.new ≡ string_bytes out.old ++ placed_text grouped place character) }
    ensures err { OnErr result (AddsBehind (string_bytes out.old) (string_bytes out.new)) }
{
    let Some(character) = character else {
        return Ok(());
    };
    out.push(char::from(character))?;
    if grouped && place > 0 && place % 3 == 0 {
        out.push_str(if character == b' ' { " " } else { "," })?;
    }
    Ok(())
}

/// Appends the digits in front of the last `places` ones.
fn push_surplus(
    out: &mut String,
    grouped: bool,
    digits: &Digits,
    places: usize,
) -> Result<(), AllocError>
    ensures ok { OnOk result (string_bytes out.new ≡ string_bytes out.old
        ++ surplus grouped (digits_in digits.now) places (length (digits_in digits.now))) }
    ensures err { OnErr result (AddsBehind (string_bytes out.old) (string_bytes out.new)) }
{
    let mut left = digits.len();
    while left > places {
        left -= 1;
        push_placed(out, grouped, left, digits.at(left))?;
    }
    Ok(())
}

/// Appends the text of a piece that shows itself.
pub fn push_own(out: &mut String, piece: CodePiece) -> Result<(), AllocError>
    ensures ok { OnOk result
        (string_bytes out.new ≡ string_bytes out.old ++ own_text piece) }
    ensures err { OnErr result (AddsBehind (string_bytes out.old) (string_bytes out.new)) }
{
    match piece {
        CodePiece::Literal(c) | CodePiece::Figure(c) => out.push(c),
        CodePiece::Point => out.push_str("."),
        CodePiece::Comma => out.push_str(","),
        CodePiece::Percent => out.push_str("%"),
        CodePiece::Slash => out.push_str("/"),
        _ => Ok(()),
    }
}

/// Appends the text of a piece among places.
pub fn push_among_places(out: &mut String, piece: CodePiece) -> Result<(), AllocError>
    ensures ok { OnOk result
        (string_bytes out.new ≡ string_bytes out.old ++ among_places piece) }
    ensures err { OnErr result (AddsBehind (string_bytes out.old) (string_bytes out.new)) }
{
    if piece.is_comma() {
        return Ok(());
    }
    push_own(out, piece)
}

/// Appends the texts of pieces that show themselves.
pub fn push_own_texts(out: &mut String, pieces: &[CodePiece]) -> Result<(), AllocError>
    ensures ok { OnOk result
        (string_bytes out.new ≡ string_bytes out.old ++ own_texts pieces.now) }
    ensures err { OnErr result (AddsBehind (string_bytes out.old) (string_bytes out.new)) }
{
    for piece in pieces {
        push_own(out, *piece)?;
    }
    Ok(())
}

/// Appends a piece with the digit of its place, which has so many places behind it.
fn push_in_place(
    out: &mut String,
    grouped: bool,
    digits: &Digits,
    forced: bool,
    place: usize,
    piece: CodePiece,
) -> Result<(), AllocError>
    ensures ok { OnOk result (string_bytes out.new ≡ string_bytes out.old
        ++ piece_in_place grouped (digits_in digits.now) forced place piece) }
    ensures err { OnErr result (AddsBehind (string_bytes out.old) (string_bytes out.new)) }
{
    match piece {
        CodePiece::Digit(filler) => {
            let character = place_character(filler, forced, digits.at(place));
            push_placed(out, grouped, place, character)
        }
        other => push_among_places(out, other),
    }
}

/// Appends pieces with digits in their places, which are so many.
fn push_in_places(
    out: &mut String,
    grouped: bool,
    digits: &Digits,
    forced: bool,
    places: usize,
    pieces: &[CodePiece],
) -> Result<(), AllocError>
    ensures ok { OnOk result (string_bytes out.new ≡ string_bytes out.old
        ++ in_places grouped (digits_in digits.now) forced places pieces.now) }
    ensures err { OnErr result (AddsBehind (string_bytes out.old) (string_bytes out.new)) }
{
    let mut left = places;
    let mut forced = forced;
    for piece in pieces {
        push_in_place(out, grouped, digits, forced, left.saturating_sub(1), *piece)?;
        forced = forced || piece.is_zero();
        left = places_behind(left, *piece);
    }
    Ok(())
}

/// How many places are left behind a piece.
fn places_behind(left: usize, piece: CodePiece) -> usize
    ensures { result ≡ places_behind left piece }
{
    if piece.is_digit() {
        left.saturating_sub(1)
    } else {
        left
    }
}

/// How many places of digits there are.
pub fn place_count(pieces: &[CodePiece]) -> usize
    ensures { result ≡ place_count pieces.now }
{
    pieces.iter().filter(|piece| piece.is_digit()).count()
}

/// Whether there is a place of a digit.
pub fn has_places(pieces: &[CodePiece]) -> bool
    ensures { result ≡ has is_digit pieces.now }
{
    pieces.iter().any(|piece| piece.is_digit())
}

/// How many pieces stand before the first place.
fn first_place(pieces: &[CodePiece]) -> usize
    ensures value { result ≡ first_place pieces.now }
    ensures within { result ≤ length pieces.now }
{
    let mut first = 0;
    while first < pieces.len() && !pieces[first].is_digit() {
        first += 1;
    }
    first
}

/// How many pieces there are up to the last place.
pub fn last_place(pieces: &[CodePiece]) -> usize
    ensures value { result ≡ last_place pieces.now }
    ensures within { result ≤ length pieces.now }
{
    let mut last = pieces.len();
    while last > 0 && !pieces[last - 1].is_digit() {
        last -= 1;
    }
    last
}

/// Whether thousands are grouped.
pub fn is_grouped(pieces: &[CodePiece]) -> bool
    ensures { result ≡ is_grouped pieces.now }
{
    let (up_to_last, _) = pieces.split_at(last_place(pieces));
    up_to_last
        .iter()
        .skip(first_place(pieces))
        .any(|piece| piece.is_comma())
}

/// Appends pieces with the digits of a whole number in their places, and `front` in front of these.
pub fn push_with_digits(
    out: &mut String,
    grouped: bool,
    forced: bool,
    front: &str,
    digits: &Digits,
    pieces: &[CodePiece],
) -> Result<(), AllocError>
    ensures ok { OnOk result (string_bytes out.new ≡ string_bytes out.old
        ++ with_digits grouped forced front.now (digits_in digits.now) pieces.now) }
    ensures err { OnErr result (AddsBehind (string_bytes out.old) (string_bytes out.new)) }
{
    let places = place_count(pieces);
    let (before, from) = pieces.split_at(first_place(pieces));
    push_own_texts(out, before)?;
    out.push_str(front)?;
    push_surplus(out, grouped, digits, places)?;
    push_in_places(out, grouped, digits, forced, places, from)
}

/// How many places stand behind the last `0`.
fn unforced_places(pieces: &[CodePiece]) -> usize
    ensures { result ≡ place_count (after_last is_zero_place pieces.now) }
{
    let mut last = pieces.len();
    while last > 0 && !pieces[last - 1].is_zero() {
        last -= 1;
    }
    let (_, behind) = pieces.split_at(last);
    place_count(behind)
}

/// How many places behind the point, from the last one, show no digit.
fn hidden_places(digits: &Digits, pieces: &[CodePiece]) -> usize
    ensures { result ≡ hidden_places (digits_in digits.now) pieces.now }
{
    let unforced = unforced_places(pieces);
    if digits.len() == 0 {
        return unforced;
    }
    digits.trailing_zeros().min(unforced)
}

/// The character of a place behind the point, which has so many places behind it.
fn fraction_character(filler: Filler, digits: &Digits, hidden: usize, place: usize) -> Option<u8>
    ensures value { result ≡ fraction_character filler (digits_in digits.now) hidden place }
    ensures ascii { IfSome result (λ c. c < 128) }
{
    if place < hidden {
        return place_character(filler, false, None);
    }
    Some(digits.at(place).unwrap_or(b'0'))
}

/// Appends a piece behind the point with the digit of its place.
fn push_fraction_piece(
    out: &mut String,
    digits: &Digits,
    hidden: usize,
    place: usize,
    piece: CodePiece,
) -> Result<(), AllocError>
    ensures ok { OnOk result (string_bytes out.new ≡ string_bytes out.old
        ++ fraction_piece (digits_in digits.now) hidden place piece) }
    ensures err { OnErr result (AddsBehind (string_bytes out.old) (string_bytes out.new)) }
{
    match piece {
        CodePiece::Digit(filler) => {
            match fraction_character(filler, digits, hidden, place) {
                Some(character) => out.push(char::from(character)),
                None => Ok(()),
            }
        }
        other => push_among_places(out, other),
    }
}

/// Appends the pieces behind the point with digits in their places, which are so many.
fn push_fraction_places(
    out: &mut String,
    digits: &Digits,
    hidden: usize,
    places: usize,
    pieces: &[CodePiece],
) -> Result<(), AllocError>
    ensures ok { OnOk result (string_bytes out.new ≡ string_bytes out.old
        ++ fraction_places (digits_in digits.now) hidden places pieces.now) }
    ensures err { OnErr result (AddsBehind (string_bytes out.old) (string_bytes out.new)) }
{
    let mut left = places;
    for piece in pieces {
        push_fraction_piece(out, digits, hidden, left.saturating_sub(1), *piece)?;
        left = places_behind(left, *piece);
    }
    Ok(())
}

/// How many pieces stand before the point.
fn point_place(section: &[CodePiece]) -> usize
    ensures value { result ≡ position_or_len is_point_piece section.now }
    ensures within { result ≤ length section.now }
{
    let mut place = 0;
    while place < section.len() && !section[place].is_point() {
        place += 1;
    }
    place
}

/// The pieces before the point.
pub fn before_point(section: &[CodePiece]) -> &[CodePiece]
    ensures { result.now ≡ before_point section.now }
{
    let (before, _) = section.split_at(point_place(section));
    before
}

/// The pieces behind the point, if there is one.
pub fn after_point(section: &[CodePiece]) -> &[CodePiece]
    ensures { result.now ≡ after_point section.now }
{
    let (_, from) = section.split_at(point_place(section));
    let (_, after) = from.split_at(from.len().min(1));
    after
}

/// Whether there is a point.
fn has_point(section: &[CodePiece]) -> bool
    ensures { result ≡ has is_point_piece section.now }
{
    section.iter().any(|piece| piece.is_point())
}

/// Appends the pieces before the point.
fn push_whole(
    out: &mut String,
    shows_digits: bool,
    forced: bool,
    digits: &Digits,
    before: &[CodePiece],
) -> Result<(), AllocError>
    ensures ok { OnOk result (string_bytes out.new ≡ string_bytes out.old
        ++ whole_text shows_digits forced (digits_in digits.now) before.now) }
    ensures err { OnErr result (AddsBehind (string_bytes out.old) (string_bytes out.new)) }
{
    if has_places(before) {
        return push_with_digits(out, is_grouped(before), forced, "", digits, before);
    }
    push_own_texts(out, before)?;
    if shows_digits {
        digits.push_to(out)?;
    }
    Ok(())
}

/// Appends the pieces behind the point.
fn push_behind(
    out: &mut String,
    shows_digits: bool,
    digits: &Digits,
    after: &[CodePiece],
) -> Result<(), AllocError>
    ensures ok { OnOk result (string_bytes out.new ≡ string_bytes out.old
        ++ behind_text shows_digits (digits_in digits.now) after.now) }
    ensures err { OnErr result (AddsBehind (string_bytes out.old) (string_bytes out.new)) }
{
    if !shows_digits {
        return push_own_texts(out, after);
    }
    push_fraction_places(
        out,
        digits,
        hidden_places(digits, after),
        place_count(after),
        after,
    )
}

/// Appends pieces, and a point among them, with the digits of a whole number in their places, the
/// last ones behind the point. `forced` has each place before the point show a zero at least.
pub fn push_laid_out(
    out: &mut String,
    forced: bool,
    digits: &Digits,
    section: &[CodePiece],
) -> Result<(), AllocError>
    ensures ok { OnOk result (string_bytes out.new ≡ string_bytes out.old
        ++ laid_out forced (digits_in digits.now) section.now) }
    ensures err { OnErr result (AddsBehind (string_bytes out.old) (string_bytes out.new)) }
{
    let after = after_point(section);
    let whole = digits.without_last(place_count(after));
    let shows_digits = has_places(section);
    let shows_point = has_point(section);
    push_whole(
        out,
        shows_point && shows_digits,
        forced,
        &whole,
        before_point(section),
    )?;
    if shows_point {
        out.push_str(".")?;
        push_behind(out, shows_digits, digits, after)?;
    }
    Ok(())
}
