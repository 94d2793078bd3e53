//! What stands first in a text, by the sizes of its texts.
ghost use Rattle.std.specs.Prelude.{◌≡◌, ◌<◌, ◌∷◌, length, drop, false};
ghost use Rattle.markup.specs.Marks.{byte_at, is_mark};
ghost use Rattle.markup.specs.Front.{front_in_markup, text_front, reference_front, end_front};
ghost use Rattle.markup.specs.Front.{start_front, declared_front, instruction_front, markup_front};
ghost use Rattle.markup.specs.Front.{is_behind_name, ends_in_slash};
ghost use Rattle.markup.specs.Found.{seen, Stands};

use crate::doctype::doctype_place;
use crate::marks::{
    begins_no_name, end_size, is_space, kept_size, name_size, place_of, reference_size, tag_size,
    text_size,
};

/// What stands first in a text. Each number is how many bytes a text in it has, but that `size` is
/// how many the markup has.
#[derive(Clone, Copy, Debug)]
pub enum Found {
    Flaw,
    Start { name: usize, attributes: usize },
    /// An element with nothing in it.
    Empty { name: usize, attributes: usize },
    End { name: usize, size: usize },
    Text { content: usize },
    CharData { content: usize },
    EntityRef { name: usize },
    Other { size: usize },
}

/// Behind a `&`.
fn reference_found(bytes: &[u8]) -> Found
    ensures front { seen (38 ∷ bytes.now) result ≡ reference_front bytes.now }
    ensures stands { Stands (38 ∷ bytes.now) result }
{
    let name = reference_size(bytes);
    if name == bytes.len() || bytes[name] != b';' {
        return Found::Flaw;
    }
    Found::EntityRef { name }
}

/// Behind `</`.
#[tactic(auto, using(crate::proofs::TagEnds::end_stands))]
fn end_found(bytes: &[u8]) -> Found
    ensures front { seen (60 ∷ 47 ∷ bytes.now) result ≡ end_front bytes.now }
    ensures stands { Stands (60 ∷ 47 ∷ bytes.now) result }
{
    let size = end_size(bytes);
    if size == bytes.len() || bytes[size] != b'>' || size == 0 {
        return Found::Flaw;
    }
    Found::End {
        name: kept_size(&bytes[..size]),
        size: size + 3,
    }
}

/// Whether what stands behind a name may stand there.
fn is_behind_name(attributes: &[u8]) -> bool
    ensures { result ≡ is_behind_name attributes.now }
{
    match attributes {
        [] => true,
        [only] => is_space(*only) || *only == b'/',
        [first, ..] => is_space(*first),
    }
}

/// Whether a text ends in `/`.
fn ends_in_slash(bytes: &[u8]) -> bool
    ensures { result ≡ ends_in_slash bytes.now }
{
    match bytes {
        [.., last] => *last == b'/',
        [] => false,
    }
}

/// Behind a `<`.
#[tactic(auto, using(crate::proofs::TagEnds::of_start))]
fn start_found(bytes: &[u8]) -> Found
    ensures front { seen (60 ∷ bytes.now) result ≡ start_front bytes.now }
    ensures stands { Stands (60 ∷ bytes.now) result }
{
    let name = name_size(bytes);
    let place = tag_size(bytes);
    if place == bytes.len() || bytes[place] != b'>' {
        return Found::Flaw;
    }
    if name == 0 || begins_no_name(bytes[0]) {
        return Found::Flaw;
    }
    let attributes = &bytes[name..place];
    if !is_behind_name(attributes) {
        return Found::Flaw;
    }
    if ends_in_slash(attributes) {
        return Found::Empty {
            name,
            attributes: place - name - 1,
        };
    }
    Found::Start {
        name,
        attributes: place - name,
    }
}

/// Behind `<!`.
fn declared_found(bytes: &[u8]) -> Found
    ensures front { seen (60 ∷ 33 ∷ bytes.now) result ≡ declared_front bytes.now }
    ensures stands { Stands (60 ∷ 33 ∷ bytes.now) result }
{
    if bytes.starts_with(b"--") {
        return match place_of(b"-->", &bytes[2..]) {
            Some(place) => Found::Other { size: place + 7 },
            None => Found::Flaw,
        };
    }
    if bytes.starts_with(b"[CDATA[") {
        return match place_of(b"]]>", &bytes[7..]) {
            Some(content) => Found::CharData { content },
            None => Found::Flaw,
        };
    }
    if bytes.starts_with(b"DOCTYPE") {
        return match doctype_place(&bytes[7..]) {
            Some(place) => Found::Other { size: place + 10 },
            None => Found::Flaw,
        };
    }
    Found::Flaw
}

/// Behind `<?`.
fn instruction_found(bytes: &[u8]) -> Found
    ensures front { seen (60 ∷ 63 ∷ bytes.now) result ≡ instruction_front bytes.now }
    ensures stands { Stands (60 ∷ 63 ∷ bytes.now) result }
{
    match place_of(b"?>", bytes) {
        Some(place) => Found::Other { size: place + 4 },
        None => Found::Flaw,
    }
}

/// Behind a `<`.
fn markup_found(bytes: &[u8]) -> Found
    ensures front { seen (60 ∷ bytes.now) result ≡ markup_front bytes.now }
    ensures stands { Stands (60 ∷ bytes.now) result }
{
    match bytes {
        [] => Found::Flaw,
        [b'/', behind @ ..] => end_found(behind),
        [b'?', behind @ ..] => instruction_found(behind),
        [b'!', behind @ ..] => declared_found(behind),
        [_, ..] => start_found(bytes),
    }
}

/// A text that begins with no `<` and no `&`.
fn text_found(bytes: &[u8]) -> Found
    requires some { 0 < length bytes.now }
    requires text { is_mark (byte_at bytes.now 0) ≡ false }
    ensures front { seen bytes.now result ≡ text_front bytes.now }
    ensures stands { Stands bytes.now result }
{
    Found::Text {
        content: text_size(bytes),
    }
}

/// What stands first in a text that isn't empty.
#[tactic(auto, using(crate::proofs::FirstBytes::front_text))]
pub(crate) fn found_in(text: &[u8]) -> Found
    requires { 0 < length text.now }
    ensures front { seen text.now result ≡ front_in_markup (byte_at text.now 0) (drop 1 text.now) }
    ensures stands { Stands text.now result }
{
    match text[0] {
        b'<' => markup_found(&text[1..]),
        b'&' => reference_found(&text[1..]),
        _ => text_found(text),
    }
}
