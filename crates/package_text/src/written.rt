ghost use Rattle.std.specs.Prelude.{◌≡◌, ◌<◌, ◌+◌, ◌++◌, ◌∷◌, [], drop, length, false, IfOk, OnOk};
ghost use Rattle.std.specs.Prelude.{OnErr, string_bytes};
ghost use Rattle.part_events.specs.Words.{part_at};
ghost use Rattle.serde_json.specs.Data.{array, string};
ghost use Rattle.serde_json.specs.View.{view};
ghost use Rattle.serde_json.specs.Written.{has_float, compact_text, comma_if, items_text};
ghost use Rattle.package_text.specs.WrittenPackage.{texts_data, event_texts, events_data};
ghost use Rattle.package_text.specs.WrittenPackage.{part_data, parts_data, written_package};
ghost use Rattle.package_text.specs.WrittenPackage.{texts_of_spelled, begins_by_end, IsWrittenAt};

use crate::spelled::SpelledEvent;
use part_events::{Flaw, MemoryPackage, PartEvent, StartTag};
use serde_json::Value;
use std::alloc::{AllocError, Global};

/// The JSON value of a text.
fn text_value(alloc: Global, text: &str) -> Result<Value, AllocError>
    ensures { IfOk result (λ value. view value ≡ string text.now) }
{
    Ok(Value::String(String::from_str(alloc, text)?))
}

/// The array of a kind alone.
fn kind_value(alloc: Global, kind: &str) -> Result<Value, AllocError>
    ensures { IfOk result (λ value. view value ≡ array (texts_data (kind.now ∷ []))) }
{
    let kind = text_value(alloc, kind)?;
    Ok(Value::Array(vec![in alloc; kind]?))
}

/// The array of a kind and a text.
fn pair_value(alloc: Global, kind: &str, content: &str) -> Result<Value, AllocError>
    ensures { let texts = kind.now ∷ content.now ∷ [] in
        IfOk result (λ value. view value ≡ array (texts_data texts)) }
{
    let kind = text_value(alloc, kind)?;
    let content = text_value(alloc, content)?;
    Ok(Value::Array(vec![in alloc; kind, content]?))
}

/// The array of a kind and the name and the attributes of a start.
fn tag_value(alloc: Global, kind: &str, tag: StartTag<'_>) -> Result<Value, AllocError>
    ensures { let texts = kind.now ∷ tag.entry.name.now ∷ tag.entry.attributes.now ∷ [] in
        IfOk result (λ value. view value ≡ array (texts_data texts)) }
{
    let kind = text_value(alloc, kind)?;
    let name = text_value(alloc, tag.name)?;
    let attributes = text_value(alloc, tag.attributes)?;
    Ok(Value::Array(vec![in alloc; kind, name, attributes]?))
}

/// The array that an event is in a package text.
fn event_value(alloc: Global, event: SpelledEvent<'_>) -> Result<Value, AllocError>
    ensures { IfOk result (λ value.
        view value ≡ array (texts_data (texts_of_spelled event.entry))) }
{
    match event {
        SpelledEvent::Empty(tag) => tag_value(alloc, "b", tag),
        SpelledEvent::One(PartEvent::Start(tag)) => tag_value(alloc, "s", tag),
        SpelledEvent::One(PartEvent::End(name)) => pair_value(alloc, "e", name),
        SpelledEvent::One(PartEvent::Text(text)) => pair_value(alloc, "t", text),
        SpelledEvent::One(PartEvent::CharData(text)) => pair_value(alloc, "d", text),
        SpelledEvent::One(PartEvent::EntityRef(name)) => pair_value(alloc, "r", name),
        SpelledEvent::One(PartEvent::Flaw(Flaw::Malformed)) => kind_value(alloc, "x"),
        SpelledEvent::One(PartEvent::Flaw(flaw)) => pair_value(alloc, "x", flaw.description()),
        SpelledEvent::One(PartEvent::Other) => kind_value(alloc, "o"),
    }
}

/// Appends the text of a value, in which every number is an integer of 64 bits.
fn push_value(alloc: Global, out: &mut String, value: &Value) -> Result<(), AllocError>
    requires { has_float (view value.now) ≡ false }
    ensures { OnOk result (string_bytes out.new
        ≡ string_bytes out.old ++ compact_text (view value.now)) }
{
    let text = value.to_string(alloc)?;
    out.push_str(text.as_str())
}

/// Appends a text in quotes.
fn push_text(alloc: Global, out: &mut String, text: &str) -> Result<(), AllocError>
    ensures { OnOk result (string_bytes out.new
        ≡ string_bytes out.old ++ compact_text (string text.now)) }
{
    let value = text_value(alloc, text)?;
    push_value(alloc, out, &value)
}

/// Appends an event as an array.
fn push_event(alloc: Global, out: &mut String, event: SpelledEvent<'_>) -> Result<(), AllocError>
    ensures { let own = array (texts_data (texts_of_spelled event.entry)) in
        OnOk result (string_bytes out.new ≡ string_bytes out.old ++ compact_text own) }
{
    let value = event_value(alloc, event)?;
    push_value(alloc, out, &value)
}

/// Whether the event behind this one is the end of this name.
fn is_end_behind(package: &MemoryPackage, part: usize, event: usize, name: &str) -> bool
    requires part { part < length «package».now.parts }
    requires event { event < length (part_at «package».now.parts part).events }
    ensures { let events = (part_at «package».now.parts part).events in
        result ≡ begins_by_end name.now (drop (event + 1) events) }
{
    if package.event_count(part) - event == 1 {
        return false;
    }
    match package.event_at(part, event + 1) {
        PartEvent::End(own) => name == own,
        _ => false,
    }
}

/// The event of this number as it is written: where it is a start, and the end of its name stands
/// behind it, both are one.
fn spelled_at(package: &MemoryPackage, part: usize, event: usize) -> SpelledEvent<'_>
    requires part { part < length «package».now.parts }
    requires event { event < length (part_at «package».now.parts part).events }
    ensures { let events = (part_at «package».now.parts part).events in
        IsWrittenAt events event result }
{
    match package.event_at(part, event) {
        PartEvent::Start(tag) => {
            if is_end_behind(package, part, event, tag.name) {
                return SpelledEvent::Empty(tag);
            }
            SpelledEvent::One(PartEvent::Start(tag))
        }
        other => SpelledEvent::One(other),
    }
}

/// Appends a comma, where something stands before what comes next.
fn push_comma(out: &mut String, is_later: bool) -> Result<(), AllocError>
    ensures { OnOk result (string_bytes out.new ≡ string_bytes out.old ++ comma_if is_later) }
{
    if is_later {
        return out.push_str(",");
    }
    Ok(())
}

/// Appends the events of a part, and the end of their array.
fn push_events(
    alloc: Global,
    out: &mut String,
    package: &MemoryPackage,
    part: usize,
) -> Result<(), AllocError>
    requires { part < length «package».now.parts }
    ensures { let events = (part_at «package».now.parts part).events in
        OnOk result (string_bytes out.new
        ≡ string_bytes out.old ++ items_text false (events_data (event_texts events))) }
{
    let count = package.event_count(part);
    let mut next = 0;
    let mut is_later = false;
    'events: while next < count {
        push_comma(out, is_later)?;
        let event = spelled_at(package, part, next);
        push_event(alloc, out, event)?;
        next += event.count();
        is_later = true;
    }
    out.push_str("]")
}

/// Appends a part as an object.
fn push_part(
    alloc: Global,
    out: &mut String,
    package: &MemoryPackage,
    part: usize,
) -> Result<(), AllocError>
    requires { part < length «package».now.parts }
    ensures { OnOk result (string_bytes out.new
        ≡ string_bytes out.old ++ compact_text (part_data (part_at «package».now.parts part))) }
{
    out.push_str("{\"events\":[")?;
    push_events(alloc, out, package, part)?;
    out.push_str(",\"name\":")?;
    push_text(alloc, out, package.part_name(part))?;
    out.push_str("}")?;
    Ok(())
}

/// Appends the parts, and the end of their array.
fn push_parts(alloc: Global, out: &mut String, package: &MemoryPackage) -> Result<(), AllocError>
    ensures { OnOk result (string_bytes out.new
        ≡ string_bytes out.old ++ items_text false (parts_data «package».now.parts)) }
{
    let mut is_later = false;
    for part in 0..package.part_count() {
        push_comma(out, is_later)?;
        push_part(alloc, out, package, part)?;
        is_later = true;
    }
    out.push_str("]")
}

/// The text of a package in version 2.
fn package_text(alloc: Global, package: &MemoryPackage) -> Result<String, AllocError>
    ensures { IfOk result (λ text. string_bytes text ≡ written_package «package».now.parts) }
{
    let mut text = String::from_str(alloc, "{\"parts\":[")?;
    push_parts(alloc, &mut text, package)?;
    text.push_str(",\"version\":2}")?;
    Ok(text)
}

/// Appends the text of the package in version 2 (docs/FORMAT.md), in which an element with nothing
/// in it is one event. It has no spaces and no line feed. A refusal changes nothing.
pub fn push_package_text(
    alloc: Global,
    out: &mut String,
    package: &MemoryPackage,
) -> Result<(), AllocError>
    ensures ok { OnOk result (string_bytes out.new
        ≡ string_bytes out.old ++ written_package «package».now.parts) }
    ensures err { OnErr result (string_bytes out.new ≡ string_bytes out.old) }
{
    let text = package_text(alloc, package)?;
    out.push_str(text.as_str())
}
