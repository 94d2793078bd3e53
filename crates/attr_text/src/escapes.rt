ghost use Rattle.std.specs.Prelude.{◌≡◌, ◌==◌, ◌++◌, ℕ, List, [], ◌∷◌, drop, MatchOption, Some};
ghost use Rattle.std.specs.Prelude.{None, IfOk, OnOk, OnErr, string_bytes, encode_utf8};
ghost use Rattle.std.specs.List.{list_any};
ghost use Rattle.attr_text.specs.Text.{unescaped, escaped_character};
ghost use Rattle.attr_text.specs.Escapes.{HasEscapeAt};

use crate::entity::digits_number;
use std::alloc::{AllocError, Global};

/// The character of the escape `_xHHHH_` with which the bytes begin.
fn escape_at(bytes: &[u8]) -> Option<char>
    ensures { result ≡ escaped_character bytes.now }
{
    if bytes.len() < 7 || bytes[0] != b'_' || bytes[1] != b'x' || bytes[6] != b'_' {
        return None;
    }
    char::from_u32(digits_number(&bytes[2..6], 16)?)
}

/// The place of the first escape that has a character, and that character.
fn next_escape(bytes: &[u8]) -> Option<(usize, char)>
    ensures { MatchOption result (unescaped bytes.now ≡ bytes.now)
        (λ p. HasEscapeAt bytes.now p.0 p.1) }
{
    for i in 0..bytes.len() {
        if let Some(c) = escape_at(&bytes[i..]) {
            return Some((i, c));
        }
    }
    None
}

/// The text with each `_xHHHH_` replaced by the character of that number; the number of a surrogate
/// is no character, and stays as it is written.
pub fn unescape_hex(alloc: Global, text: &str) -> Result<String, AllocError>
    ensures { IfOk result (λ out. string_bytes out ≡ unescaped text.now) }
{
    let mut out = String::new(alloc);
    let mut rest = text;
    while let Some((at, c)) = next_escape(rest.as_bytes()) {
        out.push_str(&rest[..at])?;
        out.push(c)?;
        rest = &rest[at + 7..];
    }
    out.push_str(rest)?;
    Ok(out)
}

/// Whether a byte of the text may begin an escape.
fn has_underscore(text: &[u8]) -> bool
    ensures { result ≡ list_any (λ b. b == 95) text.now }
{
    text.iter().any(|b| *b == b'_')
}

/// Appends a text, each `_xHHHH_` of it replaced by the character of its number.
pub fn push_unescaped(alloc: Global, out: &mut String, text: &str) -> Result<(), AllocError>
    ensures ok { OnOk result (string_bytes out.new ≡ string_bytes out.old ++ unescaped text.now) }
    ensures unchanged { OnErr result (string_bytes out.new ≡ string_bytes out.old) }
{
    if has_underscore(text.as_bytes()) {
        out.push_str(unescape_hex(alloc, text)?.as_str())?;
    } else {
        out.push_str(text)?;
    }
    Ok(())
}

/// The text, each `_xHHHH_` of it replaced by the character of its number. A text without an
/// underscore is answered as it is.
pub fn unescaped(alloc: Global, text: String) -> Result<String, AllocError>
    ensures { IfOk result (λ own. string_bytes own ≡ unescaped (string_bytes text)) }
{
    if has_underscore(text.as_bytes()) {
        unescape_hex(alloc, text.as_str())
    } else {
        Ok(text)
    }
}

/// A text without its escapes by what stands first in it: an escape, which has seven bytes, or a
/// byte. It computes nothing: its contract is what a proof cites.
pub fn unescaped_in_order()
    ensures none { unescaped [] ≡ [] }
    ensures escape { (text : List ℕ) (c : ℕ) → escaped_character text ≡ Some c →
        unescaped text ≡ encode_utf8 c ++ unescaped (drop 7 text) }
    ensures byte { (b : ℕ) (rest : List ℕ) → escaped_character (b ∷ rest) ≡ None →
        unescaped (b ∷ rest) ≡ b ∷ unescaped rest }
{}
