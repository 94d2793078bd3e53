//! The pieces of a section of dates: which are minutes, and which are digits of a second.
ghost use Rattle.std.specs.Prelude.{◌≡◌, ◌≤◌, IfOk, length};
ghost use Rattle.format_codes.specs.Pieces.{has, is_passed};
ghost use Rattle.format_codes.specs.TimedPieces.{zeros_in_front, next_unit, is_minutes, minutes_if};
ghost use Rattle.format_codes.specs.TimedPieces.{digits_told, told_piece, place_after_piece};
ghost use Rattle.format_codes.specs.TimedPieces.{section_start, timed_pieces};

use crate::piece::{CodePiece, TimeUnit};
use std::alloc::{AllocError, Global};

/// Where a piece stands in a section of dates.
#[derive(Clone, Copy)]
struct TimePlace {
    /// The section shows a time that has passed.
    passes: bool,
    /// The unit of the last part of a date before the piece.
    last: Option<TimeUnit>,
    /// Seconds stand right before the piece.
    behind_seconds: bool,
}

impl TimePlace {
    /// The place in front of a section.
    fn first(section: &[CodePiece]) -> TimePlace
        ensures { result ≡ section_start section.now }
    {
        TimePlace {
            passes: has_passed(section),
            last: None,
            behind_seconds: false,
        }
    }

    /// The place behind a piece.
    fn behind(self, piece: CodePiece) -> TimePlace
        ensures { result ≡ place_after_piece self piece }
    {
        let unit = piece.unit();
        TimePlace {
            passes: self.passes,
            last: unit.or(self.last),
            behind_seconds: unit == Some(TimeUnit::Second),
        }
    }

    /// How many digits of a second a piece and the zeros behind it tell here.
    fn digits_told(self, piece: CodePiece, behind: &[CodePiece]) -> usize
        ensures value { result ≡ digits_told self piece behind.now }
        ensures bound { result ≤ length behind.now }
    {
        if self.behind_seconds && piece.is_point() {
            zeros_in_front(behind)
        } else {
            0
        }
    }

    /// Whether `m` is minutes here.
    fn is_minutes(self, behind: &[CodePiece]) -> bool
        ensures { result ≡ is_minutes self.passes self.last behind.now }
    {
        self.passes
            || self.last == Some(TimeUnit::Hour)
            || next_unit(behind) == Some(TimeUnit::Second)
    }

    /// The piece, with its minutes. Only behind a month that may be minutes are the next pieces
    /// looked at, up to the next part of a date: each piece once at most in a section.
    fn with_minutes(self, piece: CodePiece, behind: &[CodePiece]) -> CodePiece
        ensures { result
            ≡ minutes_if (is_minutes self.passes self.last behind.now)
            piece }
    {
        match piece {
            CodePiece::TimePart(TimeUnit::Month, count) if count < 3 && self.is_minutes(behind) => {
                CodePiece::TimePart(TimeUnit::Minute, count)
            }
            _ => piece,
        }
    }

    /// The piece where so many digits of a second are told.
    fn told_piece(self, digits: usize, piece: CodePiece, behind: &[CodePiece]) -> CodePiece
        ensures { result ≡ told_piece self digits piece behind.now }
    {
        if digits > 0 {
            CodePiece::SecondDigits(digits)
        } else {
            self.with_minutes(piece, behind)
        }
    }
}

/// Whether a section shows a time that has passed.
fn has_passed(section: &[CodePiece]) -> bool
    ensures { result ≡ has is_passed section.now }
{
    section.iter().any(|piece| piece.is_passed())
}

/// How many zeros stand in front.
fn zeros_in_front(pieces: &[CodePiece]) -> usize
    ensures value { result ≡ zeros_in_front pieces.now }
    ensures bound { result ≤ length pieces.now }
{
    pieces.iter().take_while(|piece| piece.is_zero()).count()
}

/// The unit of the next part of a date.
fn next_unit(pieces: &[CodePiece]) -> Option<TimeUnit>
    ensures { result ≡ next_unit pieces.now }
{
    let mut rest = pieces;
    while let Some((first, others)) = rest.split_first() {
        if let Some(unit) = first.unit() {
            return Some(unit);
        }
        rest = others;
    }
    None
}

/// A section with its minutes and its digits of seconds.
#[tactic(auto, using(crate::proofs::TimesTold::timed_behind), unfolding(crate::specs::TimedPieces::timed_pieces))]
pub fn timed_pieces(alloc: Global, section: &[CodePiece]) -> Result<Vec<CodePiece>, AllocError>
    ensures { IfOk result (λ timed. timed.items ≡ timed_pieces section.now) }
{
    let mut timed = Vec::new(alloc);
    let mut place = TimePlace::first(section);
    let mut rest = section;
    while let Some((first, others)) = rest.split_first() {
        let digits = place.digits_told(*first, others);
        timed.push(place.told_piece(digits, *first, others))?;
        place = place.behind(*first);
        (_, rest) = others.split_at(digits);
    }
    Ok(timed)
}
