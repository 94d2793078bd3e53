//! The text that the bytes of a part are.
ghost use Rattle.std.specs.Prelude.{◌≡◌, option_map, codes};
ghost use Rattle.std.specs.Str.{str_eq_ignore_ascii_case};
ghost use Rattle.text_package.specs.PartText.{text_in, without_mark, declares_other, is_read};
ghost use Rattle.text_package.specs.PartText.{declaration, names_other};

use attr_text::RawAttributes;
use markup::place_of;
use memchr::memchr;

/// The attribute text of a declaration.
#[derive(Drop)]
struct DeclaredAttributes<'a> {
    attributes: &'a str,
}

impl RawAttributes for DeclaredAttributes<'_> {
    ghost attributes = { λ declaration. declaration.attributes.now };

    fn attributes_raw(&self) -> &str {
        self.attributes
    }
}

/// Whether a text is this one, in letters of either case.
#[tactic(auto, using(crate::proofs::Texts::decided))]
fn is_same(text: &str, other: &str) -> bool
    ensures { result ≡ str_eq_ignore_ascii_case text.now other.now }
{
    text.eq_ignore_ascii_case(other)
}

/// Whether the bytes of the encoding of this name are read.
fn is_read(name: &str) -> bool
    ensures { result ≡ is_read name.now }
{
    is_same(name, "utf-8")
        || is_same(name, "utf8")
        || is_same(name, "utf-16")
        || is_same(name, "utf16")
        || is_same(name, "us-ascii")
}

/// Whether this attribute text names an encoding whose bytes aren't read.
fn names_other(attributes: &str) -> bool
    ensures { result ≡ names_other attributes.now }
{
    let declaration = DeclaredAttributes { attributes };
    match declaration.raw_attr("encoding") {
        Ok(Some(name)) => !is_read(name),
        _ => false,
    }
}

/// What stands in front of the end of the declaration, behind its first word.
fn declaration(text: &str) -> Option<&str>
    ensures { option_map (λ own. own.now) result ≡ declaration text.now }
{
    if !text.as_bytes().starts_with(b"<?xml ") {
        return None;
    }
    match place_of(b"?>", &text.as_bytes()[5..]) {
        Some(size) => Some(&text[5..5 + size]),
        None => None,
    }
}

/// Whether the text declares an encoding whose bytes aren't read.
fn declares_other(text: &str) -> bool
    ensures { result ≡ declares_other text.now }
{
    match declaration(text) {
        Some(attributes) => names_other(attributes),
        None => false,
    }
}

/// The text without its byte order mark.
fn without_mark(text: &str) -> &str
    ensures { result.now ≡ without_mark text.now }
{
    match text.strip_prefix("\u{feff}") {
        Some(rest) => rest,
        None => text,
    }
}

/// The text that a part's bytes are, without a byte order mark. None where they aren't UTF-8, have
/// a character 0 (XML 1.0, section 2.2), or where a declaration names another encoding (section
/// 4.3.3). A name of UTF-16 is passed over, since such a part is in UTF-8 by now.
pub fn part_text(bytes: &[u8]) -> Option<&str>
    ensures { option_map (λ text. text.now) result ≡ text_in bytes.now }
{
    let Ok(text) = simdutf8::compat::from_utf8(bytes) else {
        return None;
    };
    if memchr(0, bytes).is_some() {
        return None;
    }
    let text = without_mark(text);
    if declares_other(text) {
        return None;
    }
    Some(text)
}
