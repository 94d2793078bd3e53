//! A formula cut into its tokens.
ghost use Rattle.std.specs.Prelude.{◌≡◌, ◌+◌, ◌<◌, ◌∷◌, false, length, take, drop, slice_index};
ghost use Rattle.std.specs.Prelude.{slice_get, position, ◌==◌, Some};
ghost use Rattle.std.specs.List.{prefix_len};
ghost use Rattle.formula_tokens.specs.Tokens.{IsCutAs, other_cut, colon_cut, blank_cut};
ghost use Rattle.formula_tokens.specs.Tokens.{literal_cut, closed_cut, quotes_end, brackets_end};
ghost use Rattle.formula_tokens.specs.Tokens.{hash_cut, is_name_byte, behind_blanks, tokens};
ghost use Rattle.formula_tokens.specs.Tokens.{quotes, brackets};
ghost use Rattle.formula_tokens.specs.Told.{token_text, tokens_left};

use crate::ends::{
    blank_size, brackets_end, failure_size, is_begun_by, is_blank_byte, is_name_byte, name_size,
    place_of, quotes_end,
};

/// A token. Texts in apostrophes and in brackets are those between them, as they are written.
#[derive(Clone, Copy)]
pub(crate) enum Token<'a> {
    Word(&'a str),
    Quotes(&'a str),
    Brackets(&'a str),
    /// `#REF!`
    Lost,
    /// Any other error.
    Failure,
    /// A text in quotes.
    Literal,
    Blank,
    /// An apostrophe or a bracket that nothing closes. What stands behind it belongs to it.
    Stray(&'a str),
    Sign(u8),
}

/// What stands before the ASCII byte at a place, and what stands behind it.
pub(crate) fn around(text: &str, place: usize) -> (&str, &str)
    requires within { place < length text.now }
    requires ascii { slice_index text.now place < 128 }
    ensures before { result.0.now ≡ take place text.now }
    ensures behind { result.1.now ≡ drop (place + 1) text.now }
{
    let (_, behind) = text.split_at(place + 1);
    (text.split_at(place).0, behind)
}

/// The word that a text begins with, and what stands behind it.
fn word_token(text: &str) -> (&str, &str)
    ensures word { result.0.now ≡ take (prefix_len is_name_byte text.now) text.now }
    ensures behind { result.1.now ≡ drop (prefix_len is_name_byte text.now) text.now }
{
    text.split_at(name_size(text.as_bytes()))
}

/// What stands behind the blanks, tabs and line ends that a text begins with.
pub fn behind_blanks(text: &str) -> &str
    ensures { result.now ≡ behind_blanks text.now }
{
    text.split_at(blank_size(text.as_bytes())).1
}

/// Blanks and what stands behind them. Those before a colon belong to it.
fn blank_token(behind: &str) -> (Token<'_>, &str)
    ensures { IsCutAs (blank_cut behind.now) behind.now (token_text result.0) result.1.now }
{
    let rest = behind_blanks(behind);
    match rest.as_bytes().first() {
        Some(b':') => (Token::Sign(b':'), behind_blanks(around(rest, 0).1)),
        _ => (Token::Blank, rest),
    }
}

/// A text in quotes and what stands behind it.
fn literal_token(behind: &str) -> (Token<'_>, &str)
    ensures { IsCutAs (literal_cut (position (λ b. b == 34) behind.now) behind.now) behind.now
        (token_text result.0) result.1.now }
{
    match place_of(b'"', behind.as_bytes()) {
        Some(end) => (Token::Literal, around(behind, end).1),
        None => (Token::Literal, ""),
    }
}

/// A text in apostrophes and what stands behind it.
fn quotes_token(behind: &str) -> (Token<'_>, &str)
    ensures { IsCutAs (closed_cut 39 quotes (quotes_end behind.now) behind.now) behind.now
        (token_text result.0) result.1.now }
{
    let Some(end) = quotes_end(behind.as_bytes()) else {
        return (Token::Stray("'"), "");
    };
    let (inside, rest) = around(behind, end);
    (Token::Quotes(inside), rest)
}

/// What stands in brackets, and what stands behind them.
fn brackets_token(behind: &str) -> (Token<'_>, &str)
    ensures { IsCutAs (closed_cut 91 brackets (brackets_end 0 behind.now) behind.now) behind.now
        (token_text result.0) result.1.now }
{
    let Some(end) = brackets_end(behind.as_bytes()) else {
        return (Token::Stray("["), "");
    };
    let (inside, rest) = around(behind, end);
    (Token::Brackets(inside), rest)
}

/// An error or the sign of a number, and what stands behind it.
fn hash_token(behind: &str) -> (Token<'_>, &str)
    ensures { IsCutAs (hash_cut behind.now) behind.now (token_text result.0) result.1.now }
{
    if is_begun_by(b"REF!", behind.as_bytes()) {
        return (Token::Lost, around(behind, 3).1);
    }
    match failure_size(behind.as_bytes()) {
        Some(size) => (Token::Failure, around(behind, size - 1).1),
        None => (Token::Sign(b'#'), behind),
    }
}

/// The token that a byte begins with what stands behind it, if it begins no word; and what stands
/// behind the token.
fn token_behind(first: u8, behind: &str) -> (Token<'_>, &str)
    ensures { IsCutAs (other_cut first behind.now) behind.now (token_text result.0) result.1.now }
{
    match first {
        _ if is_blank_byte(first) => blank_token(behind),
        b':' => (Token::Sign(b':'), behind_blanks(behind)),
        b'"' => literal_token(behind),
        b'\'' => quotes_token(behind),
        b'[' => brackets_token(behind),
        b'#' => hash_token(behind),
        _ => (Token::Sign(first), behind),
    }
}

/// The token that a text begins with, and what stands behind it.
fn first_token(first: u8, text: &str) -> (Token<'_>, &str)
    requires { slice_get text.now 0 ≡ Some first }
    ensures { tokens text.now ≡ token_text result.0 ∷ tokens result.1.now }
{
    if is_name_byte(first) {
        let (word, rest) = word_token(text);
        return (Token::Word(word), rest);
    }
    token_behind(first, around(text, 0).1)
}

/// The tokens of a formula, from the left. Blanks beside a colon belong to it.
#[derive(Clone, Copy, Debug)]
pub(crate) struct Tokens<'a> {
    rest: &'a str,
}

impl<'a> Tokens<'a> {
    ghost use Rattle.std.specs.Prelude.{option_map};

    /// The tokens of this formula.
    pub(crate) fn new(formula: &'a str) -> Tokens<'a>
        ensures { tokens_left result ≡ tokens formula.now }
    {
        Tokens { rest: formula }
    }

    /// The tokens behind the first ones.
    pub(crate) fn behind(self, count: usize) -> Tokens<'a>
        ensures { tokens_left result ≡ drop count (tokens_left self.entry) }
    {
        let mut left = self;
        for _ in 0..count {
            left.next();
        }
        left
    }

    /// A token by its number, counted from 0.
    pub(crate) fn at(self, place: usize) -> Option<Token<'a>>
        ensures { option_map token_text result ≡ slice_get (tokens_left self.entry) place }
    {
        self.behind(place).next()
    }
}

impl<'a> Iterator for Tokens<'a> {
    ghost use Rattle.std.specs.Iterator.{YieldsFirstBy, item_count};
    ghost use Rattle.formula_tokens.specs.Told.{token_text, tokens_left};

    type Item = Token<'a>;

    ghost next_gives = { YieldsFirstBy token_text tokens_left };

    ghost remaining = { item_count tokens_left };

    fn next(&mut self) -> Option<Token<'a>> {
        let first = *self.rest.as_bytes().first()?;
        let (token, rest) = first_token(first, self.rest);
        self.rest = rest;
        Some(token)
    }
}
