//! A part that is held as text.
ghost use Rattle.std.specs.Prelude.{◌≡◌, IfOk, IsUtf8, length, option_map, string_bytes};
ghost use Rattle.std.specs.Prelude.{MatchOption, None};
ghost use Rattle.text_package.specs.PartText.{text_in};
ghost use Rattle.text_package.specs.TextParts.{IsMark, IsKept, bytes_of, part_flaw};

use crate::decoding::part_text;
use markup::flaw_place;
use std::alloc::{AllocError, Global};
use std::marker::Model;

/// The bytes of a part.
#[derive(Debug, Drop)]
pub enum PartBytes {
    /// A text behind so many bytes of a byte order mark.
    Text(String, usize),
    /// What is no text.
    NoText(Vec<u8>),
}

/// A named part, seen as its name and its bytes.
#[derive(Debug, Drop)]
pub struct TextPart {
    name: String,
    bytes: PartBytes,
}

impl Model for TextPart {
    ghost use Rattle.std.specs.Prelude.{ℕ, List, string_bytes};
    ghost use Rattle.text_package.specs.TextParts.{TextOfPart, bytes_of, IsKept};

    ghost Value = { TextOfPart };

    ghost view = { λ a. (string_bytes a.name, bytes_of a.bytes) };

    ghost invariant = { λ a. IsKept a.bytes };
}

/// Bytes that are a text as one, with no byte looked at again.
fn as_string(bytes: Vec<u8>) -> String
    requires { IsUtf8 bytes.items }
    ensures { string_bytes result ≡ bytes.items }
{
    // The `requires` is what the call owes.
    unsafe { String::from_utf8_unchecked(bytes) }
}

/// How many bytes of a byte order mark stand before the text that these bytes are. None where they
/// are no text.
fn mark_size(bytes: &[u8]) -> Option<usize>
    ensures { MatchOption result (text_in bytes.now ≡ None) (λ mark. IsMark bytes.now mark) }
{
    let text = part_text(bytes)?;
    Some(bytes.len() - text.len())
}

impl PartBytes {
    fn new(bytes: Vec<u8>) -> PartBytes
        ensures kept { IsKept result }
        ensures value { bytes_of result ≡ bytes.items }
    {
        match mark_size(&bytes) {
            Some(mark) => PartBytes::Text(as_string(bytes), mark),
            None => PartBytes::NoText(bytes),
        }
    }
}

impl TextPart {
    /// A part of this name and these bytes.
    pub fn new(alloc: Global, name: &str, bytes: Vec<u8>) -> Result<TextPart, AllocError>
        ensures { IfOk result (λ part. part ≡ (name.now, bytes.items)) }
    {
        Ok(TextPart {
            name: String::from_str(alloc, name)?,
            bytes: PartBytes::new(bytes),
        })
    }

    /// The text that its bytes are, if they are one.
    pub fn text(&self) -> Option<&str>
        ensures { option_map (λ text. text.now) result ≡ text_in self.now.1 }
    {
        match &self.bytes {
            PartBytes::Text(text, mark) => Some(&text.as_str()[*mark..]),
            PartBytes::NoText(_) => None,
        }
    }

    /// How many bytes it has.
    pub fn size(&self) -> usize
        ensures { result ≡ length self.now.1 }
    {
        match &self.bytes {
            PartBytes::Text(text, _) => text.len(),
            PartBytes::NoText(bytes) => bytes.len(),
        }
    }

    /// Where its flaw stands, in bytes, counted from 0. None where it has none.
    pub fn flaw(&self) -> Option<usize>
        ensures { result ≡ part_flaw self.now.1 }
    {
        let Some(text) = self.text() else {
            return Some(0);
        };
        match flaw_place(text) {
            Some(place) => Some(self.size() - text.len() + place),
            None => None,
        }
    }
}
