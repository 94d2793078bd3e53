ghost use Rattle.std.specs.Prelude.{◌≡◌, ◌<◌, ◌++◌, ◌∷◌, [], length, map, IfOk, OnOk};
ghost use Rattle.part_events.specs.Words.{Event, event_of, start, end, leaf, text, closed};
ghost use Rattle.written_markup.specs.Markup.{element, words, with_events, opened_part};

use part_events::{MemoryPackage, PartEvent, StartTag};
use std::alloc::{AllocError, Global};
use std::marker::Model;

/// The start of an element, with the text of its attributes.
pub fn start<'a>(name: &'a str, attributes: &'a str) -> PartEvent<'a>
    ensures { event_of result
        ≡ start (record { name = name.now; attributes = attributes.now }) }
{
    PartEvent::Start(StartTag { name, attributes })
}

/// Appends the events to the last part.
fn push_events(held: &mut MemoryPackage, events: &[PartEvent<'_>]) -> Result<(), AllocError>
    requires { 0 < length held.old.parts }
    ensures ok { let more = map event_of events.now in
        OnOk result (held.new ≡ with_events held.old more) }
    ensures some { 0 < length held.new.parts }
{
    for event in events {
        held.push_event(*event)?;
    }
    Ok(())
}

/// A package in memory whose last part is being written.
#[derive(Debug, Drop)]
pub struct PackageBuilder {
    held: MemoryPackage,
}

impl Model for PackageBuilder {
    ghost use Rattle.std.specs.Prelude.{◌<◌, length};
    ghost use Rattle.part_events.specs.Words.{Contents};

    ghost Value = { Contents };

    ghost view = { λ a. a.held };

    ghost invariant = { λ a. 0 < length a.held.parts };
}

impl PackageBuilder {
    /// A package of one part of this name, in which an element with these attributes is begun.
    pub fn new(
        alloc: Global,
        name: &str,
        root: &str,
        attributes: &str,
    ) -> Result<PackageBuilder, AllocError>
        ensures { let part = opened_part name.now root.now attributes.now in
            IfOk result (λ builder. builder ≡ closed (part ∷ []) 0) }
    {
        let mut held = MemoryPackage::new(alloc);
        held.add_part(name)?;
        held.push_event(start(root, attributes))?;
        Ok(PackageBuilder { held })
    }

    /// Appends a part of this name, in which an element with these attributes is begun.
    pub fn begin_part(&mut self, name: &str, root: &str, attributes: &str) -> Result<(), AllocError>
        ensures { let parts =
            self.old.parts ++ opened_part name.now root.now attributes.now ∷ [] in
            OnOk result (self.new ≡ closed parts self.old.taken) }
    {
        self.held.add_part(name)?;
        self.push(&[start(root, attributes)])
    }

    /// Appends the events to the last part.
    pub fn push(&mut self, events: &[PartEvent<'_>]) -> Result<(), AllocError>
        ensures { let more = map event_of events.now in
            OnOk result (self.new ≡ with_events self.old more) }
    {
        push_events(&mut self.held, events)
    }

    /// Begins an element.
    pub fn open(&mut self, name: &str, attributes: &str) -> Result<(), AllocError>
        ensures { let tag = start (record { name = name.now; attributes = attributes.now }) in
            OnOk result (self.new ≡ with_events self.old (tag ∷ [])) }
    {
        self.push(&[start(name, attributes)])
    }

    /// Ends an element.
    pub fn close(&mut self, name: &str) -> Result<(), AllocError>
        ensures { OnOk result (self.new ≡ with_events self.old (end name.now ∷ [])) }
    {
        self.push(&[PartEvent::End(name)])
    }

    /// Appends an element with nothing in it.
    pub fn push_empty(&mut self, name: &str, attributes: &str) -> Result<(), AllocError>
        ensures { let whole = element name.now attributes.now [] in
            OnOk result (self.new ≡ with_events self.old whole) }
    {
        self.push(&[start(name, attributes), PartEvent::End(name)])
    }

    /// Appends an element with a text in it.
    pub fn push_text(
        &mut self,
        name: &str,
        attributes: &str,
        content: &str,
    ) -> Result<(), AllocError>
        ensures { let whole = element name.now attributes.now (words content.now) in
            OnOk result (self.new ≡ with_events self.old whole) }
    {
        let events = [
            start(name, attributes),
            PartEvent::Text(content),
            PartEvent::End(name),
        ];
        self.push(&events)
    }

    /// The package as it was written.
    pub fn into_package(self) -> MemoryPackage
        ensures { result ≡ self }
    {
        self.held
    }
}
