//! The place that tokens begin with.
ghost use Rattle.std.specs.Prelude.{◌≡◌, ◌==◌, ◌+◌, ◌≤◌, true, false, IfSome, option_map, position};
ghost use Rattle.std.specs.Option.{option_map_or};
ghost use Rattle.formula_shift.specs.Words.{corner_of};
ghost use Rattle.formula_tokens.specs.Items.{sign_at, name_at, book_or, book_prefix, is_of_file};
ghost use Rattle.formula_tokens.specs.Items.{parted, quoted_place, is_cell, span_prefix};
ghost use Rattle.formula_tokens.specs.Items.{word_prefix, quotes_prefix, prefix_of};
ghost use Rattle.formula_tokens.specs.Told.{token_text, tokens_left, name_text, place_told};
ghost use Rattle.formula_tokens.specs.Told.{prefix_told, name_is_of_file};

use crate::ends::place_of;
use crate::item::{Name, Place};
use crate::token::{Token, Tokens, around};
use formula_shift::Corner;

/// A place, and how many tokens behind the first one tell it.
#[derive(Clone, Copy)]
pub(crate) struct Prefix<'a> {
    pub(crate) place: Place<'a>,
    pub(crate) size: usize,
}

/// The sign that a token is, or 0. Tokens are counted from 0.
pub(crate) fn sign_at(place: usize, tokens: Tokens<'_>) -> u8
    ensures { result ≡ sign_at place (tokens_left tokens.entry) }
{
    match tokens.at(place) {
        Some(Token::Sign(sign)) => sign,
        _ => 0,
    }
}

/// The name that a token is.
fn name_at<'a>(place: usize, tokens: Tokens<'a>) -> Option<Name<'a>>
    ensures { option_map name_text result ≡ name_at place (tokens_left tokens.entry) }
{
    match tokens.at(place) {
        Some(Token::Word(word)) => Some(Name::Plain(word)),
        Some(Token::Quotes(text)) => Some(Name::Quoted(text)),
        _ => None,
    }
}

/// The place in this workbook where brackets have a 0, and else in another file.
fn book_or<'a>(book: &'a str, own: Place<'a>, sheet: Name<'a>) -> Place<'a>
    ensures { place_told result ≡ book_or book.now (place_told own.entry) (name_text sheet.entry) }
{
    if book == "0" {
        return own;
    }
    Place::InFile { book, sheet }
}

/// The place that brackets tell with the tokens behind them.
fn book_prefix<'a>(book: &'a str, tokens: Tokens<'a>) -> Option<Prefix<'a>>
    ensures value { option_map prefix_told result ≡ book_prefix book.now (tokens_left tokens.entry)
        (name_at 0 (tokens_left tokens.entry)) (name_at 2 (tokens_left tokens.entry)) }
    ensures short { IfSome result (λ found. found.size ≤ 4) }
{
    let Some(sheet) = name_at(0, tokens) else {
        if sign_at(0, tokens) != b'!' {
            return None;
        }
        let place = book_or(book, Place::InBook, Name::Plain(""));
        return Some(Prefix { place, size: 1 });
    };
    if sign_at(1, tokens) == b'!' {
        let place = book_or(book, Place::OnSheet(sheet), sheet);
        return Some(Prefix { place, size: 2 });
    }
    let last = name_at(2, tokens)?;
    if sign_at(1, tokens) != b':' || sign_at(3, tokens) != b'!' {
        return None;
    }
    let place = book_or(book, Place::OnSheets(sheet, last), sheet);
    Some(Prefix { place, size: 4 })
}

/// Whether a text in apostrophes has a bracket, and so is of another file.
fn is_of_file(text: &str) -> bool
    ensures { result ≡ is_of_file text.now }
{
    text.as_bytes().iter().any(|b| *b == b'[')
}

/// Whether the name is of another file.
fn name_is_of_file(name: Name<'_>) -> bool
    ensures { result ≡ name_is_of_file name.entry }
{
    match name {
        Name::Plain(_) => false,
        Name::Quoted(text) => is_of_file(text),
    }
}

/// The place that a text in apostrophes is.
fn quoted_place(text: &str) -> Place<'_>
    ensures { place_told result ≡ quoted_place text.now }
{
    if is_of_file(text) {
        return Place::Elsewhere(Name::Quoted(text));
    }
    let Some(colon) = place_of(b':', text.as_bytes()) else {
        return Place::OnSheet(Name::Quoted(text));
    };
    let (first, last) = around(text, colon);
    Place::OnSheets(Name::Quoted(first), Name::Quoted(last))
}

/// Whether a word is a cell.
fn is_cell(word: &str) -> bool
    ensures { result ≡ is_cell (corner_of word.now) }
{
    matches!(Corner::parse(word), Some(Corner::Cell { .. }))
}

/// The sheets from a name to another, where a colon and the other stand behind it before `!`.
fn span_prefix<'a>(first: Name<'a>, tokens: Tokens<'a>) -> Option<Prefix<'a>>
    ensures value { option_map prefix_told result ≡ span_prefix (name_is_of_file first.entry)
        (name_text first.entry) (tokens_left tokens.entry)
        (name_at 1 (tokens_left tokens.entry)) }
    ensures short { IfSome result (λ found. found.size ≤ 4) }
{
    if sign_at(0, tokens) != b':' {
        return None;
    }
    let last = name_at(1, tokens)?;
    if sign_at(2, tokens) != b'!' {
        return None;
    }
    let place = if name_is_of_file(first) {
        Place::Elsewhere(first)
    } else {
        Place::OnSheets(first, last)
    };
    Some(Prefix { place, size: 3 })
}

/// The place that a word begins with the tokens behind it. One that is a cell begins no sheets.
fn word_prefix<'a>(word: &'a str, tokens: Tokens<'a>) -> Option<Prefix<'a>>
    ensures value { option_map prefix_told result
        ≡ word_prefix word.now (tokens_left tokens.entry) }
    ensures short { IfSome result (λ found. found.size ≤ 4) }
{
    if sign_at(0, tokens) == b'!' {
        let place = Place::OnSheet(Name::Plain(word));
        return Some(Prefix { place, size: 1 });
    }
    if is_cell(word) {
        return None;
    }
    span_prefix(Name::Plain(word), tokens)
}

/// The place that a text in apostrophes begins with the tokens behind it.
fn quotes_prefix<'a>(text: &'a str, tokens: Tokens<'a>) -> Option<Prefix<'a>>
    ensures value { option_map prefix_told result
        ≡ quotes_prefix text.now (tokens_left tokens.entry) }
    ensures short { IfSome result (λ found. found.size ≤ 4) }
{
    if sign_at(0, tokens) == b'!' {
        let place = quoted_place(text);
        return Some(Prefix { place, size: 1 });
    }
    span_prefix(Name::Quoted(text), tokens)
}

/// The place that a token begins with those behind it, if any.
pub(crate) fn prefix_of<'a>(first: Token<'a>, tokens: Tokens<'a>) -> Option<Prefix<'a>>
    ensures value { option_map prefix_told result
        ≡ prefix_of (token_text first.entry) (tokens_left tokens.entry) }
    ensures short { IfSome result (λ found. found.size ≤ 4) }
{
    match first {
        Token::Brackets(book) => book_prefix(book, tokens),
        Token::Word(word) => word_prefix(word, tokens),
        Token::Quotes(text) => quotes_prefix(text, tokens),
        Token::Sign(b'!') => Some(Prefix {
            place: Place::Here,
            size: 0,
        }),
        _ => None,
    }
}
