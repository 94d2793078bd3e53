//! A code is cut into its pieces from the left.
ghost use Rattle.std.specs.Prelude.{◌≡◌, ◌<◌, ◌≤◌, drop, ◌++◌, ◌∷◌, IfOk, MatchOption, length};
ghost use Rattle.std.specs.Prelude.{slice_index};
ghost use Rattle.std.specs.Char.{to_ascii_lowercase};
ghost use Rattle.format_codes.specs.Groups.{date_unit};
ghost use Rattle.format_codes.specs.Sections.{IsCut, IsPieceCut, first_character, character_size};
ghost use Rattle.format_codes.specs.Sections.{quoted_in_front, group_in_front, sign_piece};
ghost use Rattle.format_codes.specs.Sections.{sign_or_letter, run_behind, unit_or_other};
ghost use Rattle.format_codes.specs.Sections.{half_day_or_other, letter_in_front, pieces_in_front};
ghost use Rattle.format_codes.specs.Sections.{code_pieces};

use crate::group::{push_group, push_literal};
use crate::piece::{CodePiece, Filler, HalfDay, TimeUnit};
use crate::text::{around_first, behind_ascii, behind_word, split_character};
use std::alloc::{AllocError, Global};

/// Pushes the character in front as it stands for itself, and answers what stands behind it.
fn push_character<'a>(found: &mut Vec<CodePiece>, text: &'a str) -> Result<&'a str, AllocError>
    ensures { IfOk result (λ rest. IsCut
        (record { pieces = first_character text.now; size = character_size text.now })
        text.now found.old.items found.new.items rest.now) }
{
    let (character, rest) = split_character(text);
    push_literal(found, character)?;
    Ok(rest)
}

/// Pushes a text in quotes, and answers what stands behind it.
fn push_quoted<'a>(found: &mut Vec<CodePiece>, behind: &'a str) -> Result<&'a str, AllocError>
    ensures { IfOk result (λ rest. IsCut (quoted_in_front behind.now) behind.now found.old.items
        found.new.items rest.now) }
{
    let (text, rest) = around_first(behind, '"');
    push_literal(found, text)?;
    Ok(rest)
}

/// Pushes what a group in brackets is, and answers what stands behind it.
fn push_bracket<'a>(found: &mut Vec<CodePiece>, behind: &'a str) -> Result<&'a str, AllocError>
    ensures { IfOk result (λ rest. IsCut (group_in_front behind.now) behind.now found.old.items
        found.new.items rest.now) }
{
    let Some((content, rest)) = behind.split_once(']') else {
        found.push(CodePiece::Unknown)?;
        return Ok("");
    };
    push_group(found, content)?;
    Ok(rest)
}

/// The piece of a sign that stands alone.
fn sign_piece(sign: u8) -> Option<CodePiece>
    ensures { result ≡ sign_piece sign }
{
    match sign {
        b';' => Some(CodePiece::Divider),
        b'0' => Some(CodePiece::Digit(Filler::Zero)),
        b'#' => Some(CodePiece::Digit(Filler::Nothing)),
        b'?' => Some(CodePiece::Digit(Filler::Space)),
        b'1'..=b'9' => Some(CodePiece::Figure(char::from(sign))),
        b'.' => Some(CodePiece::Point),
        b',' => Some(CodePiece::Comma),
        b'%' => Some(CodePiece::Percent),
        b'/' => Some(CodePiece::Slash),
        b'@' => Some(CodePiece::TextPlace),
        _ => None,
    }
}

/// The unit of a small letter of a date.
fn date_unit(letter: u8) -> Option<TimeUnit>
    ensures { result ≡ date_unit letter }
{
    match letter {
        b'y' => Some(TimeUnit::Year),
        b'm' => Some(TimeUnit::Month),
        b'd' => Some(TimeUnit::Day),
        b'h' => Some(TimeUnit::Hour),
        b's' => Some(TimeUnit::Second),
        _ => None,
    }
}

/// How many letters in front are this small letter, in either case.
fn run_behind(letter: u8, behind: &[u8]) -> usize
    ensures value { result ≡ run_behind letter behind.now }
    ensures bound { result ≤ length behind.now }
{
    behind
        .iter()
        .take_while(|b| b.to_ascii_lowercase() == letter)
        .count()
}

/// What stands behind a run of this small letter in either case, and how long the run is.
fn split_run(letter: u8, behind: &str) -> (usize, &str)
    requires { letter < 128 }
    ensures run { result.0 ≡ run_behind letter behind.now }
    ensures left { result.1.now ≡ drop (run_behind letter behind.now) behind.now }
    ensures bound { result.0 ≤ length behind.now }
{
    let run = run_behind(letter, behind.as_bytes());
    if run == 0 {
        return (0, behind);
    }
    (run, behind_ascii(behind, run - 1))
}

/// A part of a date that this letter begins, a letter that isn't supported, or a character that
/// stands for itself; and what stands behind it.
fn unit_or_other(first: u8, behind: &str) -> (CodePiece, &str)
    requires { first < 128 }
    ensures { IsPieceCut (unit_or_other first behind.now) behind.now result.0 result.1.now }
{
    let letter = first.to_ascii_lowercase();
    if let Some(unit) = date_unit(letter) {
        let (run, rest) = split_run(letter, behind);
        return (CodePiece::TimePart(unit, run + 1), rest);
    }
    match letter {
        b'b' | b'e' | b'g' => (CodePiece::Unknown, behind),
        _ => (CodePiece::Literal(char::from(first)), behind),
    }
}

/// A half of a day, or what else this letter begins; and what stands behind it.
fn half_day_or_other<'a>(first: u8, code: &'a str, behind: &'a str) -> (CodePiece, &'a str)
    requires ascii { first < 128 }
    requires code { code.now ≡ first ∷ behind.now }
    ensures { IsPieceCut (half_day_or_other first behind.now) behind.now result.0 result.1.now }
{
    if let Some(rest) = behind_word(code, b"am/pm") {
        return (CodePiece::HalfDay(HalfDay::Words), rest);
    }
    if let Some(rest) = behind_word(code, b"a/p") {
        let evening = char::from(code.as_bytes()[2]);
        return (
            CodePiece::HalfDay(HalfDay::Letters(char::from(first), evening)),
            rest,
        );
    }
    unit_or_other(first, behind)
}

/// What a letter begins, or a character that stands for itself; and what stands behind it.
fn letter_in_front<'a>(first: u8, code: &'a str, behind: &'a str) -> (CodePiece, &'a str)
    requires ascii { first < 128 }
    requires code { code.now ≡ first ∷ behind.now }
    ensures { IsPieceCut (letter_in_front first behind.now) behind.now result.0 result.1.now }
{
    if first.to_ascii_lowercase() == b'e' {
        if let Some(sign @ (b'+' | b'-')) = behind.as_bytes().first() {
            let piece = CodePiece::Exponent(char::from(first), *sign == b'+');
            return (piece, behind_ascii(behind, 0));
        }
    }
    if let Some(rest) = behind_word(code, b"general") {
        return (CodePiece::General, rest);
    }
    half_day_or_other(first, code, behind)
}

/// Pushes what an ASCII character begins, and answers what stands behind it.
fn push_ascii<'a>(
    found: &mut Vec<CodePiece>,
    first: u8,
    code: &'a str,
    behind: &'a str,
) -> Result<&'a str, AllocError>
    requires ascii { first < 128 }
    requires code { code.now ≡ first ∷ behind.now }
    ensures { IfOk result (λ rest. IsCut (pieces_in_front first behind.now) behind.now
        found.old.items found.new.items rest.now) }
{
    match first {
        b'\\' => return push_character(found, behind),
        b'"' => return push_quoted(found, behind),
        b'[' => return push_bracket(found, behind),
        b'_' => found.push(CodePiece::Literal(' '))?,
        b'*' => {}
        _ => return push_sign(found, first, code, behind),
    }
    let (_, rest) = split_character(behind);
    Ok(rest)
}

/// Pushes a sign that stands alone, a letter or another character, and answers what stands behind.
fn push_sign<'a>(
    found: &mut Vec<CodePiece>,
    first: u8,
    code: &'a str,
    behind: &'a str,
) -> Result<&'a str, AllocError>
    requires ascii { first < 128 }
    requires code { code.now ≡ first ∷ behind.now }
    ensures { IfOk result (λ rest. IsCut (sign_or_letter (sign_piece first) first behind.now)
        behind.now found.old.items found.new.items rest.now) }
{
    let (piece, rest) = match sign_piece(first) {
        Some(sign) => (sign, behind),
        None => letter_in_front(first, code, behind),
    };
    found.push(piece)?;
    Ok(rest)
}

/// The first character of a text and what stands behind it, if it is ASCII.
fn split_ascii(text: &str) -> Option<(u8, &str)>
    requires { 0 < length text.now }
    ensures { MatchOption result (127 < slice_index text.now 0)
        (λ r. (text.now ≡ r.0 ∷ r.1.now) × (r.0 < 128)) }
{
    let first = text.as_bytes()[0];
    if !first.is_ascii() {
        return None;
    }
    Some((first, behind_ascii(text, 0)))
}

/// Pushes the pieces in front of a code that isn't empty, and answers what stands behind them.
#[tactic(auto, using(crate::proofs::CodesCut::ascii_cut, crate::proofs::CodesCut::character_cut))]
fn push_front<'a>(found: &mut Vec<CodePiece>, code: &'a str) -> Result<&'a str, AllocError>
    requires { 0 < length code.now }
    ensures pieces { IfOk result (λ rest. found.new.items ++ code_pieces rest.now
        ≡ found.old.items ++ code_pieces code.now) }
    ensures shorter { IfOk result (λ rest. length rest.now < length code.now) }
{
    match split_ascii(code) {
        Some((first, behind)) => push_ascii(found, first, code, behind),
        None => push_character(found, code),
    }
}

/// The pieces of a code, from its left end.
#[tactic(auto, using(crate::proofs::CodesCut::nothing_left))]
pub fn cut_pieces(alloc: Global, code: &str) -> Result<Vec<CodePiece>, AllocError>
    ensures { IfOk result (λ found. found.items ≡ code_pieces code.now) }
{
    let mut found = Vec::new(alloc);
    let mut rest = code;
    while !rest.is_empty() {
        rest = push_front(&mut found, rest)?;
    }
    Ok(found)
}
