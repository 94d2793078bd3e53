//! The parts of a section of fractions.
ghost use Rattle.std.specs.Prelude.{◌≡◌, ◌-◌, ◌≤◌, length, not};
ghost use Rattle.std.specs.List.{position_or_len, prefix_len};
ghost use Rattle.format_codes.specs.Words.{is_denominator, is_slash_piece};
ghost use Rattle.shown_text.specs.FractionTexts.{last_run};

use crate::digits::{has_places, last_place};
use format_codes::CodePiece;

/// The pieces of a section of fractions.
#[derive(Clone, Copy)]
pub struct GivenParts<'a> {
    /// The places of a whole number.
    pub whole: &'a [CodePiece],
    /// What stands between them and the numerator.
    pub between: &'a [CodePiece],
    /// The places of the numerator.
    pub over: &'a [CodePiece],
    /// What stands before the slash, and behind it.
    pub before: &'a [CodePiece],
    pub behind: &'a [CodePiece],
    /// The denominator.
    pub under: &'a [CodePiece],
    /// What stands behind that.
    pub rest: &'a [CodePiece],
}

/// How many pieces stand before the slash.
fn slash_place(section: &[CodePiece]) -> usize
    ensures value { result ≡ position_or_len is_slash_piece section.now }
    ensures within { result ≤ length section.now }
{
    let mut place = 0;
    while place < section.len() && !section[place].is_slash() {
        place += 1;
    }
    place
}

/// How many pieces stand before the places at the end.
fn run_place(pieces: &[CodePiece]) -> usize
    ensures value { result ≡ length pieces.now - last_run pieces.now }
    ensures within { result ≤ length pieces.now }
{
    let mut place = pieces.len();
    while place > 0 && pieces[place - 1].is_digit() {
        place -= 1;
    }
    place
}

/// Whether a piece is a place or a digit of a denominator.
fn is_denominator(piece: CodePiece) -> bool
    ensures { result ≡ is_denominator piece }
{
    piece.is_digit() || piece.is_figure()
}

/// How many pieces stand before the denominator.
fn denominator_place(back: &[CodePiece]) -> usize
    ensures value { result ≡ prefix_len (λ p. not (is_denominator p)) back.now }
    ensures within { result ≤ length back.now }
{
    let mut place = 0;
    while place < back.len() && !is_denominator(back[place]) {
        place += 1;
    }
    place
}

/// How many pieces of a denominator stand in front.
fn denominator_len(pieces: &[CodePiece]) -> usize
    ensures value { result ≡ prefix_len is_denominator pieces.now }
    ensures within { result ≤ length pieces.now }
{
    let mut place = 0;
    while place < pieces.len() && is_denominator(pieces[place]) {
        place += 1;
    }
    place
}

impl GivenParts<'_> {
    ghost use Rattle.shown_text.specs.FractionTexts.{fraction_parts, parts_around};
    ghost use Rattle.shown_text.specs.GivenParts.{part_pieces};

    /// The parts by what stands before and behind the slash.
    fn around<'a>(front: &'a [CodePiece], back: &'a [CodePiece]) -> GivenParts<'a>
        ensures { part_pieces result ≡ parts_around front.now back.now }
    {
        let (to_last_place, before) = front.split_at(last_place(front));
        let (before_numerator, over) = to_last_place.split_at(run_place(to_last_place));
        let whole_places = if has_places(before_numerator) {
            last_place(before_numerator)
        } else {
            0
        };
        let (whole, between) = before_numerator.split_at(whole_places);
        let (behind, from_denominator) = back.split_at(denominator_place(back));
        let (under, rest) = from_denominator.split_at(denominator_len(from_denominator));
        GivenParts {
            whole,
            between,
            over,
            before,
            behind,
            under,
            rest,
        }
    }

    /// The parts of a section.
    pub fn of(section: &[CodePiece]) -> GivenParts<'_>
        ensures { part_pieces result ≡ fraction_parts section.now }
    {
        let (front, from) = section.split_at(slash_place(section));
        let (_, back) = from.split_at(from.len().min(1));
        GivenParts::around(front, back)
    }
}
