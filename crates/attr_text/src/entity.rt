ghost use Rattle.std.specs.Prelude.{◌≡◌, ◌≢◌, ◌<◌, ◌≤◌, ◌+◌, ◌++◌, ℕ, List, [], ◌∷◌, length, min};
ghost use Rattle.std.specs.Prelude.{true, false, MatchOption, IfOk, IfErr, IfSome, IsSomeAnd, OnOk};
ghost use Rattle.std.specs.Prelude.{OnErr, Ok, Err, Some, None, encode_utf8, string_bytes};
ghost use Rattle.std.specs.String.{string_len, string_capacity};
ghost use Rattle.std.specs.List.{before_first, after_first};
ghost use Rattle.std.specs.Str.Parse.{digits_value};
ghost use Rattle.attr_text.specs.Text.{all_digits, character_of_digits, unnamed_character};
ghost use Rattle.attr_text.specs.Text.{entity_character, is_semicolon, character_behind};
ghost use Rattle.attr_text.specs.Text.{onto_decoded, decoded};
ghost use Rattle.attr_text.specs.TextFaults.{DecodeFails, EntityFails};

use crate::cuts::split_first;
use crate::fault::TextFault;
use std::alloc::Global;

/// The least number that is above each character's.
const PAST_CHARACTERS: u32 = 0x11_0000;

/// The number that these digits spell, or `PAST_CHARACTERS` where it is larger.
pub(crate) fn digits_number(digits: &[u8], base: u32) -> Option<u32>
    requires low { 2 ≤ base }
    requires high { base ≤ 16 }
    ensures { MatchOption result (all_digits base digits.now ≡ false)
        (λ n. (all_digits base digits.now ≡ true)
        × (n ≡ min (digits_value base digits.now) PAST_CHARACTERS)) }
{
    let mut number = 0;
    for digit in digits {
        let value = char::from(*digit).to_digit(base)?;
        number = (number * base + value).min(PAST_CHARACTERS);
    }
    Some(number)
}

/// The character whose number these digits spell.
fn digits_char(digits: &[u8], base: u32) -> Option<char>
    requires low { 2 ≤ base }
    requires high { base ≤ 16 }
    ensures { result ≡ character_of_digits base digits.now }
{
    if digits.is_empty() {
        return None;
    }
    match digits_number(digits, base)? {
        0 => None,
        number => char::from_u32(number),
    }
}

/// The character of a name that begins with `#`.
fn numbered_char(name: &[u8]) -> Option<char>
    ensures { result ≡ unnamed_character name.now }
{
    match name {
        [b'#', b'x', digits @ ..] => digits_char(digits, 16),
        [b'#', digits @ ..] => digits_char(digits, 10),
        _ => None,
    }
}

/// The character of an entity's name, as it stands between `&` and `;`: `lt`, `gt`, `amp`, `apos`,
/// `quot`, `#` with decimal digits, or `#x` with hexadecimal digits whose number is a Unicode
/// scalar value other than 0.
pub fn entity_char(name: &str) -> Option<char>
    ensures { result ≡ entity_character name.now }
{
    match name {
        "lt" => Some('<'),
        "gt" => Some('>'),
        "amp" => Some('&'),
        "apos" => Some('\''),
        "quot" => Some('"'),
        _ => numbered_char(name.as_bytes()),
    }
}

/// The text with each `&name;` replaced by its character. The first `&` that has no later `;`, or
/// whose name has no character, is refused as `Entity` with its place in bytes.
pub fn decode_attr(alloc: Global, text: &str) -> Result<String, TextFault>
    ensures ok { IfOk result (λ out. decoded text.now ≡ Ok (string_bytes out)) }
    ensures err { IfErr result (DecodeFails text.now) }
{
    let mut out = String::new(alloc);
    let mut rest = text;
    while let Some((run, behind)) = split_first(rest, '&') {
        let at = text.len() - rest.len() + run.len();
        let Some((name, after)) = split_first(behind, ';') else {
            return Err(TextFault::Entity { at });
        };
        let Some(c) = entity_char(name) else {
            return Err(TextFault::Entity { at });
        };
        out.push_str(run)?;
        out.push(c)?;
        rest = after;
    }
    out.push_str(rest)?;
    Ok(out)
}

/// Appends the character of an entity's name. A name without one is `Entity` with a place of 0.
/// Where the name has one, it is refused only where the capacity has no room for it. After a
/// refusal `out` is as it was.
pub fn push_entity(out: &mut String, name: &str) -> Result<(), TextFault>
    ensures ok { OnOk result (IsSomeAnd (entity_character name.now)
        (λ c. string_bytes out.new ≡ string_bytes out.old ++ encode_utf8 c)) }
    ensures err { IfErr result (EntityFails name.now) }
    ensures unchanged { OnErr result (string_bytes out.new ≡ string_bytes out.old) }
    ensures capacity { string_capacity out.old ≤ string_capacity out.new }
    ensures full { OnErr result (IfSome (entity_character name.now)
        (λ c. string_capacity out.old < string_len out.old + length (encode_utf8 c))) }
{
    match entity_char(name) {
        Some(c) => {
            out.push(c)?;
            Ok(())
        }
        None => Err(TextFault::Entity { at: 0 }),
    }
}

/// A text decoded by what stands first in it: the `&` of a reference, or another byte. The place of
/// a refusal counts from the first byte. It computes nothing: its contract is what a proof cites.
pub fn decoded_in_order()
    ensures none { decoded [] ≡ Ok [] }
    ensures character { (rest : List ℕ) (c : ℕ) → character_behind rest ≡ Some c →
        decoded (38 ∷ rest) ≡ onto_decoded (encode_utf8 c)
        (length (before_first is_semicolon rest) + 2)
        (decoded (after_first is_semicolon rest)) }
    ensures refused { (rest : List ℕ) → character_behind rest ≡ None →
        decoded (38 ∷ rest) ≡ Err 0 }
    ensures other { (b : ℕ) (rest : List ℕ) → b ≢ 38 →
        decoded (b ∷ rest) ≡ onto_decoded (b ∷ []) 1 (decoded rest) }
{}
