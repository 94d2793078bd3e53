ghost use Rattle.std.specs.Prelude.{◌≡◌, ℕ, List, Some, option_map, OnOk, IfErr, true, false};
ghost use Rattle.std.specs.Prelude.{IsSome};
ghost use Rattle.std.specs.Option.{option_or};
ghost use Rattle.part_events.specs.Words.{event_text, is_unknown, event_of, tag_of};
ghost use Rattle.xlsx_sections.specs.Words.{RefusedAt, IsDecodeError, no_character};
ghost use Rattle.xlsx_properties.specs.Kept.{held, custom_held};
ghost use Rattle.xlsx_properties.specs.PropertyTexts.{listed_in, property_of, property_begun};
ghost use Rattle.xlsx_properties.specs.PropertyTexts.{text_kept, property_in, with_text};
ghost use Rattle.xlsx_properties.specs.PropertyTexts.{said_at_end};
ghost use Rattle.xlsx_properties.specs.Open.{open_in, property_behind};
ghost use Rattle.xlsx_properties.specs.declared.property.Property.{Property};

use crate::keeping_texts::KeepsTexts;
use crate::property::{Property, core_property, program_property};
use crate::workbook_properties::WorkbookProperties;
use part_events::{PartEvent, StartTag};
use std::alloc::Global;
use xlsx_error::XlsxError;
use xlsx_sections::push_text_at;

/// A part whose elements give properties by their names.
#[derive(Clone, Copy)]
pub(crate) enum PropertyPart {
    Core,
    Program,
}

impl PropertyPart {
    fn property(self, tag: StartTag<'_>) -> Option<Property>
        ensures { result ≡ property_of (listed_in self) (tag_of tag.entry) }
    {
        match self {
            PropertyPart::Core => core_property(tag.local_name()),
            PropertyPart::Program => program_property(tag.local_name()),
        }
    }
}

/// The property whose start was taken last, with its text so far.
#[derive(Drop)]
struct OpenProperty {
    property: Property,
    text: String,
}

fn opened(alloc: Global, property: Option<Property>) -> Option<OpenProperty>
    ensures { open_in result ≡ property_begun property }
{
    Some(OpenProperty {
        property: property?,
        text: String::new(alloc),
    })
}

/// Keeps the text of the property that an end closes, where it says something.
fn keep_text(properties: &mut WorkbookProperties, started: Option<OpenProperty>)
    ensures held { (wanted : Property) → held wanted properties.new
        ≡ option_or (text_kept wanted (open_in started)) (held wanted properties.old) }
    ensures custom { properties.new.custom_properties ≡ properties.old.custom_properties }
{
    if let Some(own) = started {
        if !own.text.is_empty() {
            properties.set(own.property, own.text);
        }
    }
}

/// Appends the text of a leaf, which is event number `at` of its part, where a property is read.
fn push_leaf(
    started: &mut Option<OpenProperty>,
    event: PartEvent<'_>,
    at: u64,
) -> Result<(), XlsxError>
    ensures text { let text = event_text false (event_of event.entry) in
        OnOk result (open_in started.new ≡ option_map (with_text text) (open_in started.old)) }
    ensures known { OnOk result (IsSome (open_in started.old) →
        is_unknown (event_of event.entry) ≡ false) }
    ensures err { IfErr result (λ error. (behind : ℕ) → RefusedAt
        (λ refusal. IsSome (open_in started.old) × (is_unknown (event_of event.entry) ≡ true)
        × (refusal ≡ no_character behind)) at behind error) }
    ensures kind { IfErr result IsDecodeError }
{
    if let Some(own) = started {
        push_text_at(&mut own.text, event, at)?;
    }
    Ok(())
}

/// Keeps the texts of the properties that a part says.
#[derive(Drop)]
pub(crate) struct PropertyKeeper {
    alloc: Global,
    part: PropertyPart,
    started: Option<OpenProperty>,
    pub(crate) properties: WorkbookProperties,
}

impl PropertyKeeper {
    /// A part of which nothing was taken, and what was kept of others.
    pub(crate) fn new(
        alloc: Global,
        part: PropertyPart,
        properties: WorkbookProperties,
    ) -> PropertyKeeper
        ensures following { property_behind result.part result.started
            ≡ property_in (listed_in part) }
        ensures properties { result.properties ≡ properties }
    {
        PropertyKeeper {
            alloc,
            part,
            started: None,
            properties,
        }
    }
}

impl KeepsTexts for PropertyKeeper {
    ghost Key = { Property };

    ghost held = { λ k wanted. held wanted k.properties };

    ghost following = { λ k. property_behind k.part k.started };

    ghost Other = { List ℕ };

    ghost beside = { λ k name. custom_held name k.properties };

    #[tactic(auto, using(crate::proofs::Errors::decode_error))]
    fn take(&mut self, event: PartEvent<'_>, at: u64) -> Result<(), XlsxError> {
        match event {
            PartEvent::Start(tag) => self.started = opened(self.alloc, self.part.property(tag)),
            PartEvent::End(_) => keep_text(&mut self.properties, self.started.take()),
            PartEvent::Text(_)
            | PartEvent::CharData(_)
            | PartEvent::EntityRef(_)
            | PartEvent::Flaw(_)
            | PartEvent::Other => push_leaf(&mut self.started, event, at)?,
        }
        Ok(())
    }

    ghost ended = { λ k wanted. said_at_end (listed_in k.part) wanted (open_in k.started) };
}
