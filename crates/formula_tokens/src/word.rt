//! What words are, and what stands behind places.
ghost use Rattle.std.specs.Prelude.{◌≡◌, ◌≤◌, IfSome, option_map, drop};
ghost use Rattle.formula_shift.specs.Words.{corner_of, same_kind};
ghost use Rattle.formula_tokens.specs.Items.{is_number_byte, begins_number, is_number_word};
ghost use Rattle.formula_tokens.specs.Items.{is_constant_word, corner_at, corners_around};
ghost use Rattle.formula_tokens.specs.Items.{table_or_name, cell_or_name, brackets_in, word_item};
ghost use Rattle.formula_tokens.specs.Items.{placed_item, behind_place, sign_item, plain_item};
ghost use Rattle.formula_tokens.specs.Items.{item_by, first_item};
ghost use Rattle.formula_tokens.specs.Told.{token_text, tokens_left, name_text, place_told};
ghost use Rattle.formula_tokens.specs.Told.{prefix_told, cut_told, item_text};
ghost use Rattle.std.specs.List.{list_all, slice_get};

use crate::ends::is_same_name;
use crate::item::{Item, Name, Named, Place};
use crate::prefix::{Prefix, prefix_of, sign_at};
use crate::token::{Token, Tokens};
use formula_shift::Corner;

/// An item, and how many tokens behind the first one belong to it.
#[derive(Clone, Copy)]
pub(crate) struct ItemCut<'a> {
    pub(crate) item: Item<'a>,
    pub(crate) size: usize,
}

/// Whether the byte is a digit, a point or E.
fn is_number_byte(b: u8) -> bool
    ensures { result ≡ is_number_byte b }
{
    b.is_ascii_digit() || matches!(b, b'.' | b'E' | b'e')
}

/// Whether the word begins with a digit or a point.
fn begins_number(word: &[u8]) -> bool
    ensures { result ≡ begins_number word.now }
{
    match word.split_first() {
        Some((first, _)) => first.is_ascii_digit() || *first == b'.',
        None => false,
    }
}

/// Whether each byte is a digit, a point or E.
fn all_of_numbers(word: &[u8]) -> bool
    ensures { result ≡ list_all is_number_byte word.now }
{
    word.iter().all(|b| is_number_byte(*b))
}

/// Whether the word is a number.
fn is_number_word(word: &[u8]) -> bool
    ensures { result ≡ is_number_word word.now }
{
    begins_number(word) && all_of_numbers(word)
}

/// Whether the word is a number or a boolean.
fn is_constant_word(word: &[u8]) -> bool
    ensures { result ≡ is_constant_word word.now }
{
    is_number_word(word) || is_same_name(word, b"TRUE") || is_same_name(word, b"FALSE")
}

/// The corner that a token names. Tokens are counted from 0.
fn corner_at(place: usize, tokens: Tokens<'_>) -> Option<Corner>
    ensures { result ≡ corner_at place (tokens_left tokens.entry) }
{
    match tokens.at(place) {
        Some(Token::Word(word)) => Corner::parse(word),
        _ => None,
    }
}

/// Whether both corners are cells, both are rows, or both are columns.
fn same_kind(a: Corner, b: Corner) -> bool
    ensures { result ≡ same_kind a b }
{
    match a {
        Corner::Cell { .. } => matches!(b, Corner::Cell { .. }),
        Corner::Row { .. } => matches!(b, Corner::Row { .. }),
        Corner::Column { .. } => matches!(b, Corner::Column { .. }),
    }
}

/// The corners of one kind around a colon, of which the first is a word's, if they are such. A
/// function's name and a sheet's are none.
fn corners_around(word: &str, tokens: Tokens<'_>) -> Option<(Corner, Corner)>
    ensures { result ≡ corners_around (tokens_left tokens.entry) (corner_of word.now)
        (corner_at 1 (tokens_left tokens.entry)) }
{
    if sign_at(0, tokens) != b':' {
        return None;
    }
    let first = Corner::parse(word)?;
    let last = corner_at(1, tokens)?;
    if !same_kind(first, last) || matches!(sign_at(2, tokens), b'(' | b'!') {
        return None;
    }
    Some((first, last))
}

/// A table where brackets stand behind its name, else a value or a name. A value has no place that
/// is written.
fn table_or_name<'a>(
    place: Place<'a>,
    is_placed: bool,
    word: &'a str,
    tokens: Tokens<'a>,
) -> ItemCut<'a>
    ensures value { cut_told result ≡ table_or_name (place_told place.entry) is_placed word.now
        (brackets_in (slice_get (tokens_left tokens.entry) 0)) }
    ensures short { result.size ≤ 2 }
{
    if let Some(Token::Brackets(inside)) = tokens.at(0) {
        let item = Item::Says(place, Named::Table { name: word, inside });
        return ItemCut { item, size: 1 };
    }
    let item = if !is_placed && is_constant_word(word.as_bytes()) {
        Item::Apart
    } else {
        Item::Says(place, Named::Name(word))
    };
    ItemCut { item, size: 0 }
}

/// What a word is behind a place, which is written or not, with the tokens behind it.
fn word_item<'a>(
    place: Place<'a>,
    is_placed: bool,
    word: &'a str,
    tokens: Tokens<'a>,
) -> ItemCut<'a>
    ensures value { cut_told result
        ≡ word_item (place_told place.entry) is_placed word.now (tokens_left tokens.entry) }
    ensures short { result.size ≤ 2 }
{
    if let Some((first, last)) = corners_around(word, tokens) {
        let item = Item::Says(place, Named::Cells(first, last));
        return ItemCut { item, size: 2 };
    }
    if sign_at(0, tokens) == b'(' {
        let item = Item::Calls(place, word);
        return ItemCut { item, size: 0 };
    }
    match Corner::parse(word) {
        Some(cell @ Corner::Cell { .. }) => {
            let item = Item::Says(place, Named::Cells(cell, cell));
            ItemCut { item, size: 0 }
        }
        _ => table_or_name(place, is_placed, word, tokens),
    }
}

/// What the tokens are behind a place that is written, if they are what stands there.
fn placed_item<'a>(place: Place<'a>, tokens: Tokens<'a>) -> Option<ItemCut<'a>>
    ensures value { option_map cut_told result
        ≡ placed_item (place_told place.entry) (tokens_left tokens.entry) }
    ensures short { IfSome result (λ cut. cut.size ≤ 2) }
{
    match tokens.at(0)? {
        Token::Word(word) => Some(word_item(place, true, word, tokens.behind(1))),
        Token::Lost => Some(ItemCut {
            item: Item::Says(place, Named::Lost),
            size: 0,
        }),
        Token::Failure => Some(ItemCut {
            item: Item::Apart,
            size: 0,
        }),
        _ => None,
    }
}

/// What stands behind a place, with the place itself, or the place alone.
fn behind_place<'a>(prefix: Prefix<'a>, tokens: Tokens<'a>) -> ItemCut<'a>
    requires { prefix.size ≤ 4 }
    ensures { cut_told result ≡ behind_place (place_told prefix.entry.place) prefix.entry.size
        (placed_item (place_told prefix.entry.place)
        (drop prefix.entry.size (tokens_left tokens.entry))) }
{
    match placed_item(prefix.place, tokens.behind(prefix.size)) {
        Some(cut) => ItemCut {
            item: cut.item,
            size: prefix.size + 1 + cut.size,
        },
        None => ItemCut {
            item: Item::Alone(prefix.place),
            size: prefix.size,
        },
    }
}

/// What a sign is.
fn sign_item<'a>(sign: u8) -> Item<'a>
    ensures { item_text result ≡ sign_item sign }
{
    match sign {
        b'(' => Item::Opens,
        b')' => Item::Closes,
        b':' => Item::Colon,
        _ => Item::Apart,
    }
}

/// What a token is with those behind it where no place stands before it.
fn plain_item<'a>(first: Token<'a>, tokens: Tokens<'a>) -> ItemCut<'a>
    ensures { cut_told result ≡ plain_item (token_text first.entry) (tokens_left tokens.entry) }
{
    let item = match first {
        Token::Word(word) => return word_item(Place::Here, false, word, tokens),
        Token::Quotes(text) => Item::Unread(Name::Quoted(text)),
        Token::Brackets(inside) => Item::Says(Place::Here, Named::OwnTable(inside)),
        Token::Lost => Item::Says(Place::Here, Named::Lost),
        Token::Stray(text) => Item::Unread(Name::Plain(text)),
        Token::Sign(sign) => sign_item(sign),
        Token::Failure | Token::Literal | Token::Blank => Item::Apart,
    };
    ItemCut { item, size: 0 }
}

/// The item that a token begins with those behind it.
pub(crate) fn first_item<'a>(first: Token<'a>, tokens: Tokens<'a>) -> ItemCut<'a>
    ensures { cut_told result ≡ first_item (token_text first.entry) (tokens_left tokens.entry) }
{
    match prefix_of(first, tokens) {
        Some(prefix) => behind_place(prefix, tokens),
        None => plain_item(first, tokens),
    }
}
