//! Where reading stands in a part.
ghost use Rattle.std.specs.Prelude.{◌≡◌, ◌+◌, length, true, false, if◌then◌else◌};
ghost use Rattle.part_events.specs.Words.{event_of};
ghost use Rattle.text_package.specs.PartText.{text_in};
ghost use Rattle.text_package.specs.Reading.{IsReadingPart, StepsIn, event_in};

use crate::part::TextPart;
use markup::Cutter;
use part_events::{Flaw, PartEvent};

/// Where reading stands in a part.
#[derive(Clone, Copy, Debug)]
pub struct Reading {
    cutter: Cutter,
    /// How many events the part still gives, at most.
    left: usize,
    /// Whether the last call took an event.
    has_event: bool,
}

impl Reading {
    /// Before the first event of a part.
    pub fn new(part: &TextPart) -> Reading
        ensures stands { IsReadingPart (text_in part.now.1) (length part.now.1) result }
        ensures left { result.left ≡ length part.now.1 }
        ensures has { result.has_event ≡ false }
    {
        Reading {
            cutter: Cutter::new(),
            left: part.size(),
            has_event: false,
        }
    }

    /// How many events the part still gives, at most.
    pub fn left(&self) -> usize
        ensures { result ≡ self.now.left }
    {
        self.left
    }

    /// Takes the next event of the part. Answers false at its end.
    pub fn advance(&mut self, part: &TextPart) -> bool
        requires { IsReadingPart (text_in part.now.1) (length part.now.1) self.old }
        ensures stands { IsReadingPart (text_in part.now.1) (length part.now.1) self.new }
        ensures steps { StepsIn result (text_in part.now.1) (length part.now.1) self.old self.new }
        ensures left { self.old.left ≡ (if result then self.new.left + 1 else self.new.left) }
        ensures has { self.new.has_event ≡ result }
    {
        let more = match part.text() {
            Some(text) => self.cutter.advance(text),
            None => self.left == part.size(),
        };
        self.has_event = more;
        if more {
            self.left -= 1;
        }
        more
    }

    /// The event of the part that the last call took.
    pub fn event<'a>(&self, part: &'a TextPart) -> PartEvent<'a>
        requires stands { IsReadingPart (text_in part.now.1) (length part.now.1) self.now }
        requires has { self.now.has_event ≡ true }
        ensures { event_of result ≡ event_in (text_in part.now.1) self.now }
    {
        match part.text() {
            Some(text) => self.cutter.event(text),
            None => PartEvent::Flaw(Flaw::NotText),
        }
    }
}
