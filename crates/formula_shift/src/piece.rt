ghost use Rattle.std.specs.Prelude.{◌≡◌, ◌≤◌, ◌∷◌, length, Some, IfSome};
ghost use Rattle.std.specs.List.{prefix_len};
ghost use Rattle.formula_shift.specs.Pieces.{piece_text, piece_kind, string_length, quoted_length};
ghost use Rattle.formula_shift.specs.Pieces.{group_length, length_behind, is_word_byte};
ghost use Rattle.formula_shift.specs.Pieces.{is_other_byte, joined_pieces, pieces, first_size};
ghost use Rattle.formula_shift.specs.References.{IsInWorksheet};
ghost use Rattle.formula_shift.specs.Relocation.{first_byte, is_name_before, piece_reference};

use crate::reference::Reference;

/// A piece of a formula. Its first byte decides which.
#[derive(Clone, Copy, Debug, PartialEq, Eq)]
pub enum Piece<'a> {
    /// A text in quotes, up to the next `"`.
    String(&'a str),
    /// A name in apostrophes, up to a `'` that is not doubled.
    Quoted(&'a str),
    /// What stands in brackets, up to the matching `]`. Brackets nest, and an apostrophe takes the
    /// next character as plain.
    Group(&'a str),
    /// The longest run of ASCII letters, digits and `\ . _ $ :`.
    Word(&'a str),
    /// The longest run of all else.
    Other(&'a str),
}

impl<'a> Piece<'a> {
    /// The piece's text.
    pub fn as_str(self) -> &'a str
        ensures { result.now ≡ (piece_text self.entry).bytes }
    {
        match self {
            Piece::String(text)
            | Piece::Quoted(text)
            | Piece::Group(text)
            | Piece::Word(text)
            | Piece::Other(text) => text,
        }
    }

    /// The reference that the piece is, where this byte stands directly behind it. None but a Word
    /// is one, and no function's name and no sheet's, which have `(` and `!` behind them.
    #[tactic(auto, unfolding(crate::specs::Relocation::piece_reference))]
    pub fn reference(self, behind: Option<u8>) -> Option<Reference>
        ensures value { result ≡ piece_reference (piece_text self.entry) behind }
        ensures inside { IfSome result IsInWorksheet }
    {
        match self {
            Piece::Word(word) if !is_name_before(behind) => Reference::parse(word),
            _ => None,
        }
    }
}

/// Whether a Word before this byte is a function's name, or a sheet's.
fn is_name_before(behind: Option<u8>) -> bool
    ensures { result ≡ is_name_before behind }
{
    behind == Some(b'(') || behind == Some(b'!')
}

/// The first byte of a text.
pub(crate) fn first_byte(text: &str) -> Option<u8>
    ensures { result ≡ first_byte text.now }
{
    text.as_bytes().first().copied()
}

/// The pieces of a formula, from the left. Joined they are the formula; one that is not closed runs
/// to the formula's end.
#[derive(Clone, Copy, Debug)]
pub struct Pieces<'a> {
    rest: &'a str,
}

impl<'a> Pieces<'a> {
    ghost use Rattle.formula_shift.specs.Pieces.{pieces_left, text_left};

    /// The pieces of this formula, of which none was taken yet.
    pub fn new(formula: &'a str) -> Pieces<'a>
        ensures text { text_left result ≡ formula.now }
        ensures pieces { pieces_left result ≡ pieces formula.now }
        ensures joined { joined_pieces (pieces_left result) ≡ formula.now }
        ensures few { length (pieces_left result) ≤ length formula.now }
    {
        Pieces { rest: formula }
    }

    /// What is left of the formula, behind the pieces that were given.
    pub fn as_str(&self) -> &'a str
        ensures { result.now ≡ text_left self.now }
    {
        self.rest
    }

    /// The byte directly behind the pieces that were given.
    pub fn first_byte(&self) -> Option<u8>
        ensures { result ≡ first_byte (text_left self.now) }
    {
        first_byte(self.rest)
    }
}

impl<'a> Iterator for Pieces<'a> {
    ghost use Rattle.std.specs.Iterator.{YieldsFirstBy, item_count};
    ghost use Rattle.formula_shift.specs.Pieces.{piece_text, pieces_left};

    type Item = Piece<'a>;

    ghost next_gives = { YieldsFirstBy piece_text pieces_left };

    ghost remaining = { item_count pieces_left };

    fn next(&mut self) -> Option<Piece<'a>> {
        let (&first, behind) = self.rest.as_bytes().split_first()?;
        let (text, rest) = self.rest.split_at(length_behind(first, behind) + 1);
        self.rest = rest;
        Some(piece_of(first, text))
    }
}

/// The piece that the text begins with, which has so many bytes, and what stands behind it.
pub(crate) fn cut_first(text: &str, size: usize) -> (Piece<'_>, &str)
    requires { first_size (pieces text.now) ≡ Some size }
    ensures { pieces text.now ≡ piece_text result.0 ∷ pieces result.1.now }
{
    let (front, behind) = text.split_at(size);
    (piece_of(front.as_bytes()[0], front), behind)
}

/// The piece of this text, whose first byte is given.
fn piece_of<'a>(first: u8, text: &'a str) -> Piece<'a>
    ensures { piece_text result ≡ record { kind = piece_kind first; bytes = text.now } }
{
    match first {
        b'"' => Piece::String(text),
        b'\'' => Piece::Quoted(text),
        b'[' => Piece::Group(text),
        _ if is_word_byte(first) => Piece::Word(text),
        _ => Piece::Other(text),
    }
}

/// How many of the bytes behind a piece's first byte belong to it.
fn length_behind(first: u8, behind: &[u8]) -> usize
    ensures { result ≡ length_behind (piece_kind first) behind.now }
{
    match first {
        b'"' => string_length(behind),
        b'\'' => quoted_length(behind),
        b'[' => group_length(behind),
        _ if is_word_byte(first) => word_length(behind),
        _ => other_length(behind),
    }
}

#[tactic(auto, using(crate::proofs::Steps::string_steps))]
fn string_length(bytes: &[u8]) -> usize
    ensures { result ≡ string_length bytes.now }
{
    for (i, b) in bytes.iter().enumerate() {
        if *b == b'"' {
            return i + 1;
        }
    }
    bytes.len()
}

#[tactic(auto, using(crate::proofs::Steps::quoted_steps))]
fn quoted_length(bytes: &[u8]) -> usize
    ensures { result ≡ quoted_length bytes.now }
{
    let mut i = 0;
    while i < bytes.len() {
        if bytes[i] != b'\'' {
            i += 1;
        } else if bytes.get(i + 1) == Some(&b'\'') {
            i += 2;
        } else {
            return i + 1;
        }
    }
    bytes.len()
}

#[tactic(auto, using(crate::proofs::Steps::group_steps))]
fn group_length(bytes: &[u8]) -> usize
    ensures { result ≡ group_length 0 bytes.now }
{
    let mut inner = 0usize;
    let mut i = 0;
    while i < bytes.len() {
        let b = bytes[i];
        i += 1;
        if b == b'\'' {
            // At the end there is nothing to take.
            if i < bytes.len() {
                i += 1;
            }
        } else if b == b'[' {
            inner += 1;
        } else if b == b']' {
            if inner == 0 {
                return i;
            }
            inner -= 1;
        }
    }
    bytes.len()
}

/// Whether the byte is an ASCII letter, a digit or one of `\ . _ $ :`.
fn is_word_byte(b: u8) -> bool
    ensures { result ≡ is_word_byte b }
{
    b.is_ascii_alphanumeric() || matches!(b, b'\\' | b'.' | b'_' | b'$' | b':')
}

fn word_length(bytes: &[u8]) -> usize
    ensures { result ≡ prefix_len is_word_byte bytes.now }
{
    bytes.iter().take_while(|b| is_word_byte(**b)).count()
}

/// Whether the byte begins no other kind of piece.
fn is_other_byte(b: u8) -> bool
    ensures { result ≡ is_other_byte b }
{
    !is_word_byte(b) && !matches!(b, b'"' | b'\'' | b'[')
}

fn other_length(bytes: &[u8]) -> usize
    ensures { result ≡ prefix_len is_other_byte bytes.now }
{
    bytes.iter().take_while(|b| is_other_byte(**b)).count()
}
