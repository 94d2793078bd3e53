ghost use Rattle.std.specs.Prelude.{◌≡◌, ◌<◌, ◌++◌, ◌∷◌, [], length, slice_get, Some, OnOk, OnErr};
ghost use Rattle.std.specs.Prelude.{IfOk, IsOk, true};
ghost use Rattle.part_events.specs.Event.{event_of, Tag, start, end};
ghost use Rattle.part_events.specs.Memory.{state_of, closed, part_at, with_event};
ghost use Rattle.part_events.specs.Package.{SameParts, Opens, OpenCounts, Advances, AdvanceCounts};

use crate::event::PartEvent;
use crate::package::{Package, PackageError};
use crate::part_names::PartNames;
use crate::stored::StoredPart;
use std::alloc::{AllocError, Global};
use std::marker::Model;

/// Where reading stands in an open part.
#[derive(Clone, Copy, Debug)]
pub struct Place {
    pub part: usize,
    /// How many events were taken of the part.
    pub next: usize,
    /// Whether the last call took an event.
    pub has_event: bool,
}

/// Parts in memory. No call of it as a package fails.
///
/// # Examples
///
/// A package of one part, in which an element is begun:
///
/// ```
/// let mut held = MemoryPackage::new(alloc);
/// held.add_part(name)?;
/// held.push_event(start(root, attributes))?;
/// ```
#[derive(Debug, Drop)]
pub struct MemoryPackage {
    alloc: Global,
    parts: Vec<StoredPart>,
    names: PartNames,
    place: Option<Place>,
    taken: u64,
}

impl Model for MemoryPackage {
    ghost use Rattle.part_events.specs.Memory.{Contents, IsPlace};
    ghost use Rattle.part_events.specs.PartNames.{FindsParts};

    ghost Value = { Contents };

    ghost view = { λ a. record { parts = a.parts.items; place = a.place; taken = a.taken } };

    ghost invariant = { λ a. IsPlace a.parts.items a.place
        × FindsParts a.names a.parts.items };
}

impl MemoryPackage {
    /// A package without parts.
    pub fn new(alloc: Global) -> MemoryPackage
        ensures { result ≡ closed [] 0 }
    {
        MemoryPackage {
            alloc,
            parts: Vec::new(alloc),
            names: PartNames::new(alloc),
            place: None,
            taken: 0,
        }
    }

    /// Appends an empty part of this name. No part is open afterwards. A refusal changes nothing.
    pub fn add_part(&mut self, name: &str) -> Result<(), AllocError>
        ensures ok { OnOk result (self.new ≡ closed (self.old.parts
            ++ record { name = name.now; events = [] } ∷ []) self.old.taken) }
        ensures err { OnErr result (self.new ≡ self.old) }
    {
        let part = StoredPart::new(self.alloc, name)?;
        let place = self.parts.len();
        self.parts.push(part)?;
        if let Err(error) = self.names.push(self.alloc, name, place) {
            self.parts.pop();
            return Err(error);
        }
        self.place = None;
        Ok(())
    }

    /// Appends the event to the last part. No part is open afterwards. A refusal changes nothing.
    pub fn push_event(&mut self, event: PartEvent<'_>) -> Result<(), AllocError>
        requires { 0 < length self.old.parts }
        ensures ok { OnOk result (self.new
            ≡ closed (with_event self.old.parts (event_of event.entry)) self.old.taken) }
        ensures err { OnErr result (self.new ≡ self.old) }
    {
        let last = self.parts.len() - 1;
        self.parts[last].push(event)?;
        self.place = None;
        Ok(())
    }

    /// Appends the start and the end of an element with nothing in it to the last part. No part is
    /// open afterwards. A refusal changes nothing.
    pub fn push_empty(&mut self, name: &str, attributes: &str) -> Result<(), AllocError>
        requires { 0 < length self.old.parts }
        ensures ok { let tag : Tag = record { name = name.now; attributes = attributes.now } in
            OnOk result (self.new
            ≡ closed (with_event (with_event self.old.parts (start tag)) (end name.now))
            self.old.taken) }
        ensures err { OnErr result (self.new ≡ self.old) }
    {
        let last = self.parts.len() - 1;
        self.parts[last].push_empty(name, attributes)?;
        self.place = None;
        Ok(())
    }

    /// Leaves no part open.
    pub(crate) fn close(&mut self)
        ensures { self.new ≡ closed self.old.parts self.old.taken }
    {
        self.place = None;
    }

    /// How many parts the package has.
    pub fn part_count(&self) -> usize
        ensures { result ≡ length self.now.parts }
    {
        self.parts.len()
    }

    /// The name of the part of this number, counted from 0, as it was given.
    pub fn part_name(&self, part: usize) -> &str
        requires { part < length self.now.parts }
        ensures { result.now ≡ (part_at self.now.parts part).name }
    {
        self.parts[part].name()
    }

    /// How many events the part of this number has.
    pub fn event_count(&self, part: usize) -> usize
        requires { part < length self.now.parts }
        ensures { result ≡ length (part_at self.now.parts part).events }
    {
        self.parts[part].len()
    }

    /// The event of this number, counted from 0, of the part of this number. It is not taken.
    pub fn event_at(&self, part: usize, event: usize) -> PartEvent<'_>
        requires part { part < length self.now.parts }
        requires event { event < length (part_at self.now.parts part).events }
        ensures { slice_get (part_at self.now.parts part).events event ≡ Some (event_of result) }
    {
        self.parts[part].event(event)
    }
}

// The clauses of `open` and `advance` are the trait's, but that no call is refused.
impl Package for MemoryPackage {
    ghost state = { state_of };

    fn open(&mut self, name: &str) -> Result<bool, PackageError>
        ensures keeps { SameParts (state_of self.old) (state_of self.new) }
        ensures counts { IfOk result (λ found. OpenCounts found (state_of self.old)
            (state_of self.new)) }
        ensures opens { (state_of self.old).is_visible ≡ true
            → IfOk result (λ found. Opens name.now found (state_of self.old)
            (state_of self.new)) }
        ensures never { IsOk result }
    {
        match self.names.place(name) {
            Some(part) => {
                self.place = Some(Place {
                    part,
                    next: 0,
                    has_event: false,
                });
                Ok(true)
            }
            None => {
                self.place = None;
                Ok(false)
            }
        }
    }

    fn advance(&mut self) -> Result<bool, PackageError>
        ensures keeps { SameParts (state_of self.old) (state_of self.new) }
        ensures counts { IfOk result (λ more. AdvanceCounts more (state_of self.old)
            (state_of self.new)) }
        ensures events { (state_of self.old).is_visible ≡ true
            → IfOk result (λ more. Advances more (state_of self.old) (state_of self.new)) }
        ensures never { IsOk result }
    {
        let Some(place) = self.place else {
            return Ok(false);
        };
        if place.next == self.parts[place.part].len() {
            self.place = Some(Place {
                part: place.part,
                next: place.next,
                has_event: false,
            });
            return Ok(false);
        }
        self.place = Some(Place {
            part: place.part,
            next: place.next + 1,
            has_event: true,
        });
        self.taken = self.taken.saturating_add(1);
        Ok(true)
    }

    fn event(&self) -> PartEvent<'_> {
        match self.place {
            Some(place) => self.parts[place.part].event(place.next - 1),
            None => unreachable!(),
        }
    }

    fn left(&self) -> u64 {
        match self.place {
            Some(place) => (self.parts[place.part].len() - place.next) as u64,
            None => 0,
        }
    }

    fn taken(&self) -> u64 {
        self.taken
    }

    fn faults(&self) -> u64 {
        0
    }
}
