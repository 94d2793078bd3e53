ghost use Rattle.std.specs.Prelude.{◌≡◌, ◌∷◌, ℕ, List, length, Ok, Err, true, false, option_map};
ghost use Rattle.std.specs.Prelude.{string_bytes, OnOk, IfErr, refl};
ghost use Rattle.std.specs.Option.{option_or};
ghost use Rattle.part_events.specs.Words.{Event, event_of, tag_of, start, end, is_unknown};
ghost use Rattle.xlsx_error.specs.declared.error.XlsxError.TheVariants.{OutOfMemory};
ghost use Rattle.xlsx_sections.specs.Words.{or_earlier, RefusedAt, no_character};
ghost use Rattle.xlsx_properties.specs.CustomProperties.{custom_in, text_named, behind_leaf};
ghost use Rattle.xlsx_properties.specs.CustomProperties.{is_taken, custom_opened};
ghost use Rattle.xlsx_properties.specs.Errors.{IsPropertyError};
ghost use Rattle.xlsx_properties.specs.Kept.{held, custom_held};
ghost use Rattle.xlsx_properties.specs.Open.{custom_in_place, custom_behind};
ghost use Rattle.xlsx_properties.specs.declared.property.Property.{Property};

use crate::keeping_texts::KeepsTexts;
use crate::workbook_properties::WorkbookProperties;
use attr_text::local_name;
use part_events::{PartEvent, StartTag};
use std::alloc::Global;
use xlsx_error::XlsxError;
use xlsx_sections::{name_by, push_text_at};

/// A property that users named, whose end is still to come, with its text so far.
#[derive(Drop)]
struct OpenCustom {
    name: String,
    text: String,
}

/// Where reading stands among the properties that users named.
#[derive(Drop)]
struct CustomPlace {
    started: Option<OpenCustom>,
    /// Whether the texts that come next count.
    takes: bool,
}

fn opened(alloc: Global, name: Option<String>) -> Option<OpenCustom>
    ensures { custom_in_place result ≡ custom_opened (option_map string_bytes name) }
{
    Some(OpenCustom {
        name: name?,
        text: String::new(alloc),
    })
}

/// Takes a start, which is event number `at` of its part: one of a property begins it, and texts
/// count behind any other in it.
fn take_start(
    alloc: Global,
    place: &mut CustomPlace,
    tag: StartTag<'_>,
    at: u64,
) -> Result<(), XlsxError>
    ensures ok { OnOk result ((name : List ℕ) (events : List Event) →
        custom_behind place.old name (start (tag_of tag.entry) ∷ events)
        ≡ custom_behind place.new name events) }
    ensures err { IfErr result (λ error. (events : List Event) →
        RefusedAt (λ refusal. (name : List ℕ) →
        custom_behind place.old name (start (tag_of tag.entry) ∷ events) ≡ Err refusal)
        at (length events) error) }
    ensures kind { IfErr result IsPropertyError }
{
    if tag.local_name() != "property" {
        place.takes = place.started.is_some();
        return Ok(());
    }
    let name = name_by(alloc, tag, at)?;
    place.started = opened(alloc, name);
    Ok(())
}

/// Keeps the text of a property that ends.
fn keep_custom(
    properties: &mut WorkbookProperties,
    ended: Option<OpenCustom>,
) -> Result<(), XlsxError>
    ensures ok { OnOk result ((name : List ℕ) → custom_held name properties.new
        ≡ option_or (text_named name (custom_in_place ended)) (custom_held name properties.old)) }
    ensures held { (own : Property) → held own properties.new ≡ held own properties.old }
    ensures err { IfErr result (λ error. error ≡ OutOfMemory) }
{
    if let Some(own) = ended {
        properties.keep(own.name, own.text)?;
    }
    Ok(())
}

/// Takes the end of an element of this name, which keeps the property that ends. No text counts
/// behind it.
fn take_end(
    properties: &mut WorkbookProperties,
    place: &mut CustomPlace,
    ended: &str,
) -> Result<(), XlsxError>
    ensures ok { OnOk result ((name : List ℕ) (events : List Event) →
        or_earlier (custom_held name properties.old)
        (custom_behind place.old name (end ended.now ∷ events))
        ≡ or_earlier (custom_held name properties.new) (custom_behind place.new name events)) }
    ensures held { (own : Property) → held own properties.new ≡ held own properties.old }
    ensures err { IfErr result (λ error. error ≡ OutOfMemory) }
{
    place.takes = false;
    if local_name(ended) != "property" {
        return Ok(());
    }
    keep_custom(properties, place.started.take())
}

/// Appends the text of a leaf, which is event number `at` of its part, where it counts.
fn push_leaf(place: &mut CustomPlace, event: PartEvent<'_>, at: u64) -> Result<(), XlsxError>
    ensures text { OnOk result (custom_in_place place.new.started
        ≡ behind_leaf place.old.takes (event_of event.entry)
        (custom_in_place place.old.started)) }
    ensures takes { place.new.takes ≡ place.old.takes }
    ensures known { OnOk result (is_taken (custom_in_place place.old.started) place.old.takes ≡ true
        → is_unknown (event_of event.entry) ≡ false) }
    ensures err { IfErr result (λ error. (behind : ℕ) → RefusedAt
        (λ refusal. (is_taken (custom_in_place place.old.started) place.old.takes ≡ true)
        × (is_unknown (event_of event.entry) ≡ true) × (refusal ≡ no_character behind))
        at behind error) }
    ensures kind { IfErr result IsPropertyError }
{
    if !place.takes {
        return Ok(());
    }
    if let Some(own) = &mut place.started {
        push_text_at(&mut own.text, event, at)?;
    }
    Ok(())
}

/// Keeps the texts of the properties that users named.
#[derive(Drop)]
pub(crate) struct CustomKeeper {
    alloc: Global,
    place: CustomPlace,
    pub(crate) properties: WorkbookProperties,
}

impl CustomKeeper {
    /// A part of which nothing was taken, and what was kept of others.
    pub(crate) fn new(alloc: Global, properties: WorkbookProperties) -> CustomKeeper
        ensures following { custom_behind result.place ≡ custom_in }
        ensures properties { result.properties ≡ properties }
    {
        let place = CustomPlace {
            started: None,
            takes: false,
        };
        CustomKeeper {
            alloc,
            place,
            properties,
        }
    }
}

impl KeepsTexts for CustomKeeper {
    ghost Key = { List ℕ };

    ghost held = { λ k name. custom_held name k.properties };

    ghost following = { λ k. custom_behind k.place };

    ghost Other = { Property };

    ghost beside = { λ k own. held own k.properties };

    fn take(&mut self, event: PartEvent<'_>, at: u64) -> Result<(), XlsxError> {
        match event {
            PartEvent::Start(tag) => take_start(self.alloc, &mut self.place, tag, at)?,
            PartEvent::End(name) => take_end(&mut self.properties, &mut self.place, name)?,
            PartEvent::Text(_)
            | PartEvent::CharData(_)
            | PartEvent::EntityRef(_)
            | PartEvent::Flaw(_)
            | PartEvent::Other => push_leaf(&mut self.place, event, at)?,
        }
        Ok(())
    }

    ghost ended = { λ k name. refl };
}
