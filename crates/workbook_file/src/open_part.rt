//! A part that is open: its bytes, or why there are none.
ghost use Rattle.std.specs.Prelude.{◌≡◌, ◌≤◌, length, IfOk, true};
ghost use Rattle.part_events.specs.Words.{event_of};
ghost use Rattle.text_package.specs.PartText.{part_markup};
ghost use Rattle.workbook_file.specs.FileParts.{flaw_alone};
ghost use Rattle.workbook_file.specs.OpenEvents.{IsHeld, TakesNextEvent, held_events, last_taken};
ghost use Rattle.workbook_file.specs.OpenEvents.{not_begun, rest_of};

use part_events::{Flaw, PartEvent};
use std::alloc::{AllocError, Global};
use std::marker::Model;
use text_package::{Reading, TextPart};

/// Where reading stands at a flaw that is told in place of a part.
#[derive(Clone, Copy, Debug)]
pub enum FlawPlace {
    Ahead,
    /// The last call took it.
    AtHand,
    Behind,
}

/// What is held of a part, and where reading stands in it.
#[derive(Debug, Drop)]
pub enum Held {
    /// The bytes that were unpacked.
    Text(TextPart, Reading),
    /// Why there are none.
    Flaw(Flaw, FlawPlace),
}

/// A part that is open, seen as its events.
#[derive(Debug, Drop)]
pub struct OpenPart {
    held: Held,
}

impl Model for OpenPart {
    ghost use Rattle.workbook_file.specs.OpenEvents.{OpenEvents, held_events, IsHeld};

    ghost Value = { OpenEvents };

    ghost view = { λ a. held_events a.held };

    ghost invariant = { λ a. IsHeld a.held };
}

impl Held {
    /// Takes the next event. Answers false at the end.
    fn advance(&mut self) -> bool
        requires { IsHeld self.old }
        ensures stands { IsHeld self.new }
        ensures takes { TakesNextEvent result (held_events self.old) (held_events self.new) }
    {
        match self {
            Held::Text(part, reading) => reading.advance(part),
            Held::Flaw(_, place) => {
                let more = matches!(place, FlawPlace::Ahead);
                *place = if more {
                    FlawPlace::AtHand
                } else {
                    FlawPlace::Behind
                };
                more
            }
        }
    }

    /// The event that the last call took.
    fn event(&self) -> PartEvent<'_>
        requires stands { IsHeld self.now }
        requires has { (held_events self.now).has_event ≡ true }
        ensures { event_of result ≡ last_taken (held_events self.now) }
    {
        match self {
            Held::Text(part, reading) => reading.event(part),
            Held::Flaw(flaw, _) => PartEvent::Flaw(*flaw),
        }
    }

    /// How many events it still gives, at most.
    fn left(&self) -> usize
        requires { IsHeld self.now }
        ensures value { result ≡ (held_events self.now).left }
        ensures bound { length (rest_of (held_events self.now)) ≤ result }
    {
        match self {
            Held::Text(_, reading) => reading.left(),
            Held::Flaw(_, FlawPlace::Ahead) => 1,
            Held::Flaw(_, _) => 0,
        }
    }
}

impl OpenPart {
    /// A part of these bytes, before its first event. Its name isn't kept.
    pub fn from_bytes(alloc: Global, bytes: Vec<u8>) -> Result<OpenPart, AllocError>
        ensures { IfOk result (λ part. part
            ≡ not_begun (part_markup bytes.items) (length bytes.items)) }
    {
        let part = TextPart::new(alloc, "", bytes)?;
        let reading = Reading::new(&part);
        Ok(OpenPart {
            held: Held::Text(part, reading),
        })
    }

    /// A flaw in place of a part.
    pub fn from_flaw(flaw: Flaw) -> OpenPart
        ensures { result ≡ not_begun (flaw_alone flaw) 1 }
    {
        OpenPart {
            held: Held::Flaw(flaw, FlawPlace::Ahead),
        }
    }

    /// Takes its next event. Answers false at its end.
    pub fn advance(&mut self) -> bool
        ensures { TakesNextEvent result self.old self.new }
    {
        self.held.advance()
    }

    /// The event that the last call took.
    pub fn event(&self) -> PartEvent<'_>
        requires { self.now.has_event ≡ true }
        ensures { event_of result ≡ last_taken self.now }
    {
        self.held.event()
    }

    /// How many events it still gives, at most.
    pub fn left(&self) -> usize
        ensures value { result ≡ self.now.left }
        ensures bound { length (rest_of self.now) ≤ result }
    {
        self.held.left()
    }
}
