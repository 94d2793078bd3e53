ghost use Rattle.std.specs.Prelude.{◌≡◌, ◌==◌, ◌<◌, ◌≤◌, ◌∷◌, length, MatchOption, true, false};
ghost use Rattle.std.specs.List.{before_first, after_first};
ghost use Rattle.attr_text.specs.Attributes.{front_of, is_quote, begins_with_quote, items};
ghost use Rattle.attr_text.specs.Attributes.{items_left, items_from};
ghost use Rattle.attr_text.specs.FirstItem.{front_read};

use crate::cuts::{split_first, trim_end, trim_start};
use crate::fault::AttrFault;

/// What stands first in a text.
enum FirstItem<'a> {
    Nothing,
    Broken(AttrFault),
    Attribute(&'a str, &'a str, &'a str),
}

/// The quote with which the text begins, and the text behind it.
fn opening_quote(text: &str) -> Option<(char, &str)>
    ensures { MatchOption result (begins_with_quote text.now ≡ false)
        (λ p. (text.now ≡ p.0 ∷ p.1.now) × (is_quote p.0 ≡ true)) }
{
    match text.as_bytes() {
        [b'"', ..] => Some(('"', &text[1..])),
        [b'\'', ..] => Some(('\'', &text[1..])),
        _ => None,
    }
}

/// The value before the closing quote, or the whole text, and what follows the quote.
fn to_quote(text: &str, quote: char) -> (&str, &str)
    requires { quote < 128 }
    ensures value { result.0.now ≡ before_first (λ b. b == quote) text.now }
    ensures rest { result.1.now ≡ after_first (λ b. b == quote) text.now }
{
    match split_first(text, quote) {
        Some((value, rest)) => (value, rest),
        None => (text, ""),
    }
}

/// What stands first in `text`, the end of a text of `size` bytes.
fn first_item(size: usize, text: &str) -> FirstItem<'_>
    requires { length text.now ≤ size }
    ensures { front_read result ≡ front_of size text.now }
{
    let body = trim_start(text);
    if body.is_empty() {
        return FirstItem::Nothing;
    }
    let Some((key, behind)) = split_first(body, '=') else {
        return FirstItem::Broken(AttrFault::ExpectedEq(size - body.len()));
    };
    let value = trim_start(behind);
    let Some((quote, inside)) = opening_quote(value) else {
        return FirstItem::Broken(AttrFault::UnquotedValue(size - value.len()));
    };
    let (value, rest) = to_quote(inside, quote);
    FirstItem::Attribute(trim_end(key), value, rest)
}

/// The items of an attribute text, from left to right: pairs of a key and a value as they are
/// written, then perhaps the fault in which they end. It takes no memory.
#[derive(Clone, Copy, Debug)]
pub struct RawAttrIter<'a> {
    size: usize,
    rest: &'a str,
    ghost within: { length rest.now ≤ size },
}

impl<'a> RawAttrIter<'a> {
    ghost use Rattle.attr_text.specs.AttrIter.{attrs_left};

    /// The items of this attribute text, of which none was taken yet.
    pub fn new(raw: &'a str) -> RawAttrIter<'a>
        ensures gives { attrs_left result ≡ items raw.now }
        ensures bound { length (attrs_left result) ≤ length raw.now }
    {
        RawAttrIter {
            size: raw.len(),
            rest: raw,
        }
    }
}

impl<'a> Iterator for RawAttrIter<'a> {
    ghost use Rattle.std.specs.Iterator.{YieldsFirstBy, item_count};
    ghost use Rattle.attr_text.specs.AttrIter.{attrs_left, item_of};

    type Item = Result<(&'a str, &'a str), AttrFault>;

    ghost next_gives = { YieldsFirstBy item_of attrs_left };

    ghost remaining = { item_count attrs_left };

    fn next(&mut self) -> Option<Self::Item> {
        match first_item(self.size, self.rest) {
            FirstItem::Nothing => {
                self.rest = "";
                None
            }
            FirstItem::Broken(fault) => {
                self.rest = "";
                Some(Err(fault))
            }
            FirstItem::Attribute(key, value, rest) => {
                self.rest = rest;
                Some(Ok((key, value)))
            }
        }
    }
}

/// The items of the end of a text are the first one and those of what follows it. It computes
/// nothing: its contract is what a proof cites.
pub fn items_in_order(size: usize, text: &str)
    ensures { items_left size text.now ≡ items_from (items_left size) (front_of size text.now) }
{}
