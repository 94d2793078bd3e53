ghost use Rattle.std.specs.Prelude.{◌≡◌, ◌<◌, ◌∷◌, [], length, Some, None, IfOk, OnOk, IfSome};
ghost use Rattle.std.specs.Prelude.{option_map, false};
ghost use Rattle.serde_json.specs.View.{view, items_view, members_view};
ghost use Rattle.serde_json.specs.Written.{has_float, items_have_float, members_have_float};
ghost use Rattle.part_events.specs.Words.{closed};
ghost use Rattle.package_text.specs.PackageText.{events_of_texts, events_of_value, events_of_items};
ghost use Rattle.package_text.specs.PackageText.{package_of, named_part, members_have_float_beside};
ghost use Rattle.package_text.specs.PackageText.{has_float_beside, part_beside, package_beside};
ghost use Rattle.package_text.specs.PackageText.{AppendsPart, version_is_second, event_meant};
ghost use Rattle.package_text.specs.PackageText.{with_last_events, flaw_named};

use part_events::{Flaw, MemoryPackage, PartEvent, StartTag};
use serde_json::{Map, Value};
use std::alloc::{AllocError, Global};

/// Whether some number in the value, at any depth, is no integer of 64 bits.
#[cycle(floats)]
fn has_float(value: &Value) -> bool
    ensures { result ≡ has_float (view value.now) }
{
    match value {
        Value::Null | Value::Bool(_) | Value::String(_) => false,
        Value::Number(number) => number.is_f64(),
        Value::Array(items) => items_have_float(items),
        Value::Object(members) => members_have_float(members),
    }
}

#[cycle(floats)]
fn items_have_float(items: &Vec<Value>) -> bool
    ensures { result ≡ items_have_float (items_view items.now.items) }
{
    for item in items {
        if has_float(item) {
            return true;
        }
    }
    false
}

#[cycle(floats)]
fn members_have_float(members: &Map<String, Value>) -> bool
    ensures { result ≡ members_have_float (members_view members.now.entries) }
{
    for (_, member) in members.iter() {
        if has_float(member) {
            return true;
        }
    }
    false
}

/// The same of the members of an object, the first of this key left aside.
fn members_have_float_beside(members: &Map<String, Value>, key: &str) -> bool
    ensures { result ≡ members_have_float_beside key.now (members_view members.now.entries) }
{
    let mut is_passed = false;
    for (own, member) in members.iter() {
        if !is_passed && key == own.as_str() {
            is_passed = true;
        } else if has_float(member) {
            return true;
        }
    }
    false
}

/// The same of the value, where of an object its first member of this key is left aside.
fn has_float_beside(value: &Value, key: &str) -> bool
    ensures { result ≡ has_float_beside key.now (view value.now) }
{
    match value {
        Value::Object(members) => members_have_float_beside(members, key),
        _ => has_float(value),
    }
}

/// What an event of a package text stands for: an event, or an element with nothing in it, which is
/// two.
#[derive(Clone, Copy, Debug)]
pub enum SpelledEvent<'a> {
    One(PartEvent<'a>),
    Empty(StartTag<'a>),
}

impl SpelledEvent<'_> {
    /// How many events it stands for.
    pub fn count(&self) -> usize
        ensures { result ≡ length (event_meant self.now) }
    {
        match self {
            SpelledEvent::One(_) => 1,
            SpelledEvent::Empty(_) => 2,
        }
    }
}

/// What a value of a list of events stands for, or None where it is no event of the version.
fn event_from(value: &Value, is_second: bool) -> Option<SpelledEvent<'_>>
    ensures { option_map (λ event. event_meant event) result
        ≡ events_of_value is_second (view value.now) }
{
    match value.as_array()?.as_slice() {
        [kind] => plain_event(is_second, kind.as_str()?),
        [kind, content] => text_event(is_second, kind.as_str()?, content.as_str()?),
        [kind, name, attributes] => {
            start_event(
                is_second,
                kind.as_str()?,
                name.as_str()?,
                attributes.as_str()?,
            )
        }
        [] => None,
        [_, _, _, _, ..] => None,
    }
}

/// An event of a kind without a text.
fn plain_event(is_second: bool, kind: &str) -> Option<SpelledEvent<'_>>
    ensures { option_map (λ event. event_meant event) result
        ≡ events_of_texts is_second (kind.now ∷ []) }
{
    match kind {
        "o" => Some(SpelledEvent::One(PartEvent::Other)),
        "x" if is_second => Some(SpelledEvent::One(PartEvent::Flaw(Flaw::Malformed))),
        _ => None,
    }
}

/// The flaw of these words. Malformed markup has none.
fn flaw_named(words: &str) -> Option<Flaw>
    ensures { result ≡ flaw_named words.now }
{
    match words {
        "not a text in UTF-8" => Some(Flaw::NotText),
        "encrypted" => Some(Flaw::Encrypted),
        "unknown compression method" => Some(Flaw::UnknownMethod),
        "too large" => Some(Flaw::TooLarge),
        "damaged" => Some(Flaw::Damaged),
        "wrong size" => Some(Flaw::WrongSize),
        "wrong checksum" => Some(Flaw::WrongChecksum),
        _ => None,
    }
}

/// An event of a kind and a text.
fn text_event<'a>(is_second: bool, kind: &str, content: &'a str) -> Option<SpelledEvent<'a>>
    ensures { let texts = kind.now ∷ content.now ∷ [] in
        option_map (λ event. event_meant event) result ≡ events_of_texts is_second texts }
{
    let event = match kind {
        "e" => PartEvent::End(content),
        "t" => PartEvent::Text(content),
        "d" => PartEvent::CharData(content),
        "r" => PartEvent::EntityRef(content),
        "x" if is_second => PartEvent::Flaw(flaw_named(content)?),
        _ => return None,
    };
    Some(SpelledEvent::One(event))
}

/// A start, or an element with nothing in it.
fn start_event<'a>(
    is_second: bool,
    kind: &str,
    name: &'a str,
    attributes: &'a str,
) -> Option<SpelledEvent<'a>>
    ensures { let texts = kind.now ∷ name.now ∷ attributes.now ∷ [] in
        option_map (λ event. event_meant event) result ≡ events_of_texts is_second texts }
{
    let tag = StartTag { name, attributes };
    match kind {
        "s" => Some(SpelledEvent::One(PartEvent::Start(tag))),
        "b" if is_second => Some(SpelledEvent::Empty(tag)),
        _ => None,
    }
}

/// Appends what it stands for to the last part.
fn push_spelled(package: &mut MemoryPackage, event: SpelledEvent<'_>) -> Result<(), AllocError>
    requires { 0 < length «package».old.parts }
    ensures { OnOk result («package».new
        ≡ closed (with_last_events «package».old.parts (event_meant event.entry))
        «package».old.taken) }
{
    match event {
        SpelledEvent::One(event) => package.push_event(event),
        SpelledEvent::Empty(tag) => package.push_empty(tag.name, tag.attributes),
    }
}

/// Appends a part of this name with these events. Answers false where one of them is no event.
fn push_part_of(
    package: &mut MemoryPackage,
    is_second: bool,
    name: &str,
    events: &[Value],
) -> Result<bool, AllocError>
    ensures { let part = named_part name.now (events_of_items is_second (items_view events.now)) in
        IfOk result (AppendsPart part «package».old «package».new) }
{
    package.add_part(name)?;
    for value in events {
        let Some(event) = event_from(value, is_second) else {
            return Ok(false);
        };
        push_spelled(package, event)?;
    }
    Ok(true)
}

/// Appends the part that the value spells. Answers false where it spells none, or has a number that
/// is no integer of 64 bits.
fn push_part(
    package: &mut MemoryPackage,
    is_second: bool,
    value: &Value,
) -> Result<bool, AllocError>
    ensures { let part = part_beside is_second (view value.now) in
        IfOk result (AppendsPart part «package».old «package».new) }
{
    // Events have no numbers, so that they are looked at once.
    if has_float_beside(value, "events") {
        return Ok(false);
    }
    let Some(name) = value.get("name").and_then(Value::as_str) else {
        return Ok(false);
    };
    let Some(events) = value.get("events").and_then(Value::as_array) else {
        return Ok(false);
    };
    push_part_of(package, is_second, name, events)
}

/// Whether a version is the second, which has empty elements as one event, and flaws, or None where
/// it is no version.
fn version_is_second(version: Option<u64>) -> Option<bool>
    ensures { result ≡ version_is_second version }
{
    match version? {
        1 => Some(false),
        2 => Some(true),
        _ => None,
    }
}

/// The package that a JSON value spells, by numbers that stand beside its parts and their events.
#[tactic(auto, unfolding(crate::specs::PackageText::package_beside))]
fn package_beside(alloc: Global, value: &Value) -> Result<Option<MemoryPackage>, AllocError>
    ensures value { let spelled = package_beside (view value.now) in
        IfOk result (λ found. option_map (λ held. held.parts) found ≡ spelled) }
    ensures fresh { IfOk result (λ found. IfSome found (λ held. held ≡ closed held.parts 0)) }
{
    if has_float_beside(value, "parts") {
        return Ok(None);
    }
    let version = value.get("version").and_then(Value::as_u64);
    let Some(is_second) = version_is_second(version) else {
        return Ok(None);
    };
    let Some(parts) = value.get("parts").and_then(Value::as_array) else {
        return Ok(None);
    };
    let mut package = MemoryPackage::new(alloc);
    for part in parts {
        if !push_part(&mut package, is_second, part)? {
            return Ok(None);
        }
    }
    Ok(Some(package))
}

/// The package that a JSON value spells (docs/FORMAT.md), or None where it spells none.
#[tactic(auto, using(crate::proofs::FloatsBeside::checked_beside))]
pub fn package_from_json(alloc: Global, value: &Value) -> Result<Option<MemoryPackage>, AllocError>
    ensures value { let spelled = package_of (view value.now) in
        IfOk result (λ found. option_map (λ held. held.parts) found ≡ spelled) }
    ensures fresh { IfOk result (λ found. IfSome found (λ held. held ≡ closed held.parts 0)) }
{
    package_beside(alloc, value)
}
