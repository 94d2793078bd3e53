//! A plain reader of attribute items, byte by byte, which keeps them all. Its contract is the
//! definition.
ghost use Rattle.std.specs.Prelude.{◌≡◌, ◌==◌, ◌≤◌, drop, length, map, IfOk};
ghost use Rattle.std.specs.List.{position_or_len};
ghost use Rattle.attr_text.specs.Words.{items, front_of, without_leading_space};
ghost use Rattle.attr_text.specs.Words.{without_trailing_space, item_of, front_of_parts};

use attr_text::AttrFault;
use std::alloc::{AllocError, Global};

/// The text from this place on.
fn text_from(text: &[u8], place: usize) -> &[u8]
    requires { place ≤ length text.now }
    ensures { result.now ≡ drop place text.now }
{
    &text[place..]
}

/// The text without the white space in front.
fn back_part(text: &[u8]) -> &[u8]
    ensures { result.now ≡ without_leading_space text.now }
{
    let mut count = 0;
    while count < text.len() && text[count].is_ascii_whitespace() {
        count += 1;
    }
    text_from(text, count)
}

/// Where the byte stands first, or the length.
fn place_of(text: &[u8], byte: u8) -> usize
    ensures bound { result ≤ length text.now }
    ensures value { result ≡ position_or_len (λ b. b == byte) text.now }
{
    let mut place = 0;
    while place < text.len() && text[place] != byte {
        place += 1;
    }
    place
}

/// The text without the white space at its end.
fn front_part(text: &[u8]) -> &[u8]
    ensures { result.now ≡ without_trailing_space text.now }
{
    let mut end = text.len();
    while end > 0 && text[end - 1].is_ascii_whitespace() {
        end -= 1;
    }
    &text[..end]
}

/// The first item in the end `text` of a text of `size` bytes: its key, its value and what follows.
fn first_parts(size: usize, text: &[u8]) -> Option<Result<(&[u8], &[u8], &[u8]), AttrFault>>
    requires { length text.now ≤ size }
    ensures { front_of_parts result ≡ front_of size text.now }
{
    let body = back_part(text);
    if body.is_empty() {
        return None;
    }
    let equals = place_of(body, b'=');
    if equals == body.len() {
        return Some(Err(AttrFault::ExpectedEq(size - body.len())));
    }
    let value = back_part(text_from(body, equals + 1));
    if value.is_empty() {
        return Some(Err(AttrFault::UnquotedValue(size)));
    }
    if value[0] != b'"' && value[0] != b'\'' {
        return Some(Err(AttrFault::UnquotedValue(size - value.len())));
    }
    let inside = text_from(value, 1);
    let end = place_of(inside, value[0]);
    let rest = text_from(inside, (end + 1).min(inside.len()));
    Some(Ok((front_part(&body[..equals]), &inside[..end], rest)))
}

pub fn slow_items<'a>(
    alloc: Global,
    text: &'a [u8],
) -> Result<Vec<Result<(&'a [u8], &'a [u8]), AttrFault>>, AllocError>
    ensures { IfOk result (λ list. map item_of list.items ≡ items text.now) }
{
    let mut list = Vec::new(alloc);
    let mut left = text;
    while let Some(first) = first_parts(text.len(), left) {
        match first {
            Ok((key, value, rest)) => {
                list.push(Ok((key, value)))?;
                left = rest;
            }
            Err(fault) => {
                list.push(Err(fault))?;
                return Ok(list);
            }
        }
    }
    Ok(list)
}
