ghost use Rattle.std.specs.Prelude.{◌≡◌, ◌++◌, ℕ, Ok, true, false, string_bytes, option_map, IfOk};
ghost use Rattle.std.specs.Prelude.{OnOk, IfErr};
ghost use Rattle.part_events.specs.Words.{event_of, tag_of, event_text, is_unknown};
ghost use Rattle.part_events.specs.declared.fault.XmlFault.TheVariants.{Entity};
ghost use Rattle.xlsx_error.specs.declared.error.XlsxError.TheVariants.{Xml};
ghost use Rattle.xlsx_sections.specs.Names.{name_by, IsNameError};
ghost use Rattle.xlsx_sections.specs.Refusal.{ElementFails, RefusedAt, IsDecodeError, decoded_at};
ghost use Rattle.xlsx_sections.specs.Refusal.{no_character, placed_at};

use attr_text::{RawAttributes, TextFault, decode_attr};
use part_events::{PartEvent, StartTag, XmlFault, push_text};
use std::alloc::Global;
use xlsx_error::XlsxError;

/// The refusal of event number `at` of a part, where a reference has no character.
fn unknown_entity(at: u64) -> XlsxError
    ensures { result ≡ Xml (Entity at) }
{
    XlsxError::Xml(XmlFault::Entity { at })
}

/// A text of the attributes of a start, which is event number `at` of its part, counted from 0,
/// decoded. An `&` that has no later `;`, or whose name has no character, is `Xml(Entity)` with
/// that number.
pub fn decode_at(alloc: Global, text: &str, at: u64) -> Result<String, XlsxError>
    ensures ok { IfOk result (λ out. (behind : ℕ) → decoded_at behind text.now
        ≡ Ok (string_bytes out)) }
    ensures err { IfErr result (λ error. (behind : ℕ) →
        ElementFails (decoded_at behind text.now) at behind error) }
    ensures kind { IfErr result IsDecodeError }
{
    match decode_attr(alloc, text) {
        Ok(out) => Ok(out),
        Err(TextFault::Entity { .. }) => Err(unknown_entity(at)),
        Err(TextFault::OutOfMemory) => Err(XlsxError::OutOfMemory),
    }
}

/// The attribute `name` of a start, decoded, which is event number `at` of its part, counted from
/// 0. None where it has none. A name that can't be decoded is `Xml(Entity)` with that number, and a
/// lookup that is refused `XmlAttr`.
pub fn name_by(alloc: Global, tag: StartTag<'_>, at: u64) -> Result<Option<String>, XlsxError>
    ensures ok { IfOk result (λ name. (behind : ℕ) →
        name_by (placed_at (tag_of tag.entry) behind) ≡ Ok (option_map string_bytes name)) }
    ensures err { IfErr result (λ error. (behind : ℕ) →
        ElementFails (name_by (placed_at (tag_of tag.entry) behind)) at behind error) }
    ensures kind { IfErr result IsNameError }
{
    match tag.raw_attr("name")? {
        Some(name) => Ok(Some(decode_at(alloc, name, at)?)),
        None => Ok(None),
    }
}

/// Appends the text of an event, number `at` of its part: a Text with its line ends as LF, or the
/// character of a reference. A reference without a character is `Xml(Entity)` with that number.
pub fn push_text_at(out: &mut String, event: PartEvent<'_>, at: u64) -> Result<(), XlsxError>
    ensures text { let text = event_text false (event_of event.entry) in
        OnOk result (string_bytes out.new ≡ string_bytes out.old ++ text) }
    ensures known { OnOk result (is_unknown (event_of event.entry) ≡ false) }
    ensures err { IfErr result (λ error. (behind : ℕ) →
        RefusedAt (λ refusal. (is_unknown (event_of event.entry) ≡ true)
        × (refusal ≡ no_character behind)) at behind error) }
    ensures kind { IfErr result IsDecodeError }
{
    match push_text(out, event, false) {
        Ok(()) => Ok(()),
        Err(TextFault::Entity { .. }) => Err(unknown_entity(at)),
        Err(TextFault::OutOfMemory) => Err(XlsxError::OutOfMemory),
    }
}
