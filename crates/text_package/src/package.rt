//! A package whose parts are held as text.
ghost use Rattle.std.specs.Prelude.{◌≡◌, ◌++◌, ◌∷◌, [], OnOk, OnErr, IfOk, IsOk, true};
ghost use Rattle.part_events.specs.Words.{SameParts, Opens, OpenCounts, Advances, AdvanceCounts};
ghost use Rattle.text_package.specs.TextParts.{closed_texts, texts_state, named_flaw};

use crate::part::TextPart;
use crate::reading::Reading;
use part_events::{Package, PackageError, PartEvent, PartNames};
use std::alloc::{AllocError, Global};
use std::marker::Model;

/// Where reading stands in an open part.
#[derive(Clone, Copy, Debug)]
pub struct TextPlace {
    part: usize,
    reading: Reading,
}

/// Parts whose bytes are held and cut into events as they are read. No call of it as a package
/// fails: a part that is no text, or in which no markup begins somewhere, has a flaw as its last
/// event.
#[derive(Debug, Drop)]
pub struct TextPackage {
    alloc: Global,
    parts: Vec<TextPart>,
    names: PartNames,
    place: Option<TextPlace>,
    taken: u64,
}

impl Model for TextPackage {
    ghost use Rattle.std.specs.Prelude.{map, option_map};
    ghost use Rattle.part_events.specs.Words.{FindsParts};
    ghost use Rattle.text_package.specs.TextParts.{TextContents, place_seen, IsTextPlace};
    ghost use Rattle.text_package.specs.TextParts.{part_seen};

    ghost Value = { TextContents };

    ghost view = { λ a. record {
      parts = a.parts.items;
      place = option_map (place_seen a.parts.items) a.place;
      taken = a.taken;
    } };

    ghost invariant = { λ a. IsTextPlace a.parts.items a.place
        × FindsParts a.names (map part_seen a.parts.items) };
}

impl TextPackage {
    /// A package without parts.
    pub fn new(alloc: Global) -> TextPackage
        ensures { result ≡ closed_texts [] 0 }
    {
        TextPackage {
            alloc,
            parts: Vec::new(alloc),
            names: PartNames::new(alloc),
            place: None,
            taken: 0,
        }
    }

    /// Appends a part of this name and these bytes. No part is open afterwards. A refusal changes
    /// nothing.
    pub fn add_part(&mut self, name: &str, bytes: Vec<u8>) -> Result<(), AllocError>
        ensures ok { OnOk result (self.new ≡ closed_texts
            (self.old.parts ++ (name.now, bytes.items) ∷ []) self.old.taken) }
        ensures err { OnErr result (self.new ≡ self.old) }
    {
        let part = TextPart::new(self.alloc, name, bytes)?;
        let place = self.parts.len();
        self.parts.push(part)?;
        if let Err(error) = self.names.push(self.alloc, name, place) {
            self.parts.pop();
            return Err(error);
        }
        self.place = None;
        Ok(())
    }

    /// Where the flaw stands in the first part of this name, in bytes, counted from 0: for what is
    /// said of a refusal. None where the part has none, or where there is no such part. It takes
    /// the time of cutting the part up to there.
    pub fn flaw_place(&mut self, name: &str) -> Option<usize>
        ensures value { result ≡ named_flaw self.old.parts name.now }
        ensures kept { self.new ≡ self.old }
    {
        match self.names.place(name) {
            Some(part) => self.parts[part].flaw(),
            None => None,
        }
    }
}

// The clauses of `open` and `advance` are the trait's, but that no call is refused.
impl Package for TextPackage {
    ghost state = { texts_state };

    fn open(&mut self, name: &str) -> Result<bool, PackageError>
        ensures keeps { SameParts (texts_state self.old) (texts_state self.new) }
        ensures counts { IfOk result (λ found. OpenCounts found (texts_state self.old)
            (texts_state self.new)) }
        ensures opens { (texts_state self.old).is_visible ≡ true
            → IfOk result (λ found. Opens name.now found (texts_state self.old)
            (texts_state self.new)) }
        ensures never { IsOk result }
    {
        match self.names.place(name) {
            Some(part) => {
                let reading = Reading::new(&self.parts[part]);
                self.place = Some(TextPlace { part, reading });
                Ok(true)
            }
            None => {
                self.place = None;
                Ok(false)
            }
        }
    }

    fn advance(&mut self) -> Result<bool, PackageError>
        ensures keeps { SameParts (texts_state self.old) (texts_state self.new) }
        ensures counts { IfOk result (λ more. AdvanceCounts more (texts_state self.old)
            (texts_state self.new)) }
        ensures events { (texts_state self.old).is_visible ≡ true
            → IfOk result (λ more. Advances more (texts_state self.old)
            (texts_state self.new)) }
        ensures never { IsOk result }
    {
        let Some(place) = self.place else {
            return Ok(false);
        };
        let mut reading = place.reading;
        let more = reading.advance(&self.parts[place.part]);
        self.place = Some(TextPlace {
            part: place.part,
            reading,
        });
        if more {
            self.taken = self.taken.saturating_add(1);
        }
        Ok(more)
    }

    fn event(&self) -> PartEvent<'_> {
        match self.place {
            Some(place) => place.reading.event(&self.parts[place.part]),
            None => unreachable!(),
        }
    }

    fn left(&self) -> u64 {
        match self.place {
            Some(place) => place.reading.left() as u64,
            None => 0,
        }
    }

    fn taken(&self) -> u64 {
        self.taken
    }

    fn faults(&self) -> u64 {
        0
    }
}
