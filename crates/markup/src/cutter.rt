//! Where cutting stands in a text, event after event.
ghost use Rattle.std.specs.Prelude.{◌≡◌, ◌≤◌, ℕ, List, drop, length, true, IfSome};
ghost use Rattle.std.specs.Str.{IsUtf8};
ghost use Rattle.markup.specs.Found.{Stands};
ghost use Rattle.markup.specs.Cutting.{held_at, place_behind, held_event, has_cut_event, to_come};
ghost use Rattle.markup.specs.Cutting.{IsCutting, Takes, events_left, cut_size, PassesNoFlaw};
ghost use Rattle.markup.specs.Markup.{markup_events, flaw_place};
ghost use Rattle.part_events.specs.Words.{event_of};

use crate::found::{Found, found_in};
use part_events::{Flaw, PartEvent, StartTag};

/// The event at hand, by the places of its texts in bytes, counted from 0: each begins at the first
/// place, or where the text before it ends.
#[derive(Clone, Copy, Debug)]
pub enum Held {
    /// No event was taken yet, or the text has ended.
    Nothing,
    Start {
        begin: usize,
        name: usize,
        attributes: usize,
        is_empty: bool,
    },
    End {
        begin: usize,
        name: usize,
    },
    Text {
        begin: usize,
        last: usize,
    },
    CharData {
        begin: usize,
        last: usize,
    },
    EntityRef {
        begin: usize,
        name: usize,
    },
    /// A comment, a declaration or an instruction.
    Other,
    /// No markup begins at this place.
    Flaw {
        at: usize,
    },
}

/// Where cutting stands in a text, which each call is given. It keeps places alone, so that the
/// text may lie with it in one value.
#[derive(Clone, Copy, Debug)]
pub struct Cutter {
    /// How many bytes were cut.
    at: usize,
    held: Held,
}

/// What was found at a place of a text.
fn held_at(text: &str, at: usize, found: Found) -> Held
    requires within { at ≤ length text.now }
    requires stands { Stands (drop at text.now) found }
    ensures { result ≡ held_at at found }
{
    match found {
        Found::Flaw => Held::Flaw { at },
        Found::Start { name, attributes } => Held::Start {
            begin: at + 1,
            name: at + 1 + name,
            attributes: at + 1 + name + attributes,
            is_empty: false,
        },
        Found::Empty { name, attributes } => Held::Start {
            begin: at + 1,
            name: at + 1 + name,
            attributes: at + 1 + name + attributes,
            is_empty: true,
        },
        Found::End { name, size: _ } => Held::End {
            begin: at + 2,
            name: at + 2 + name,
        },
        Found::Text { content } => Held::Text {
            begin: at,
            last: at + content,
        },
        Found::CharData { content } => Held::CharData {
            begin: at + 9,
            last: at + 9 + content,
        },
        Found::EntityRef { name } => Held::EntityRef {
            begin: at + 1,
            name: at + 1 + name,
        },
        Found::Other { size: _ } => Held::Other,
    }
}

/// The place behind what was found there.
fn place_behind(text: &str, at: usize, found: Found) -> usize
    requires within { at ≤ length text.now }
    requires stands { Stands (drop at text.now) found }
    ensures { result ≡ place_behind at (length text.now) found }
{
    match found {
        Found::Flaw => text.len(),
        Found::Start { name, attributes } => at + (name + attributes + 2),
        Found::Empty { name, attributes } => at + (name + attributes + 3),
        Found::End { name: _, size } => at + size,
        Found::Text { content } => at + content,
        Found::CharData { content } => at + (content + 12),
        Found::EntityRef { name } => at + (name + 2),
        Found::Other { size } => at + size,
    }
}

/// The end behind the start of an element with nothing in it.
fn to_come(held: Held) -> Option<Held>
    ensures { result ≡ to_come held }
{
    match held {
        Held::Start {
            begin,
            name,
            attributes: _,
            is_empty: true,
        } => { Some(Held::End { begin, name }) }
        _ => None,
    }
}

impl Cutter {
    /// Before the first event of a text.
    #[tactic(auto, using(crate::proofs::Steps::new_stands))]
    pub fn new() -> Cutter
        ensures stands { (text : List ℕ) → IsUtf8 text → IsCutting text result }
        ensures left { (text : List ℕ) → events_left text result ≡ markup_events text }
        ensures start { result.at ≡ 0 }
    {
        Cutter {
            at: 0,
            held: Held::Nothing,
        }
    }

    /// Takes the next event of the text. Answers false at its end.
    #[tactic(auto, using(crate::proofs::Steps::of_step))]
    pub fn advance(&mut self, text: &str) -> bool
        requires { IsCutting text.now self.old }
        ensures stays { IsCutting text.now self.new }
        ensures takes { Takes result text.now self.old self.new }
        ensures has { result ≡ has_cut_event self.new.held }
        ensures flaw { PassesNoFlaw result text.now self.old self.new }
    {
        if let Some(next) = to_come(self.held) {
            self.held = next;
            return true;
        }
        if self.at == text.len() {
            self.held = Held::Nothing;
            return false;
        }
        let found = found_in(&text.as_bytes()[self.at..]);
        self.held = held_at(text, self.at, found);
        self.at = place_behind(text, self.at, found);
        true
    }

    /// The event that the last call of `advance` took of this text.
    pub fn event<'a>(&self, text: &'a str) -> PartEvent<'a>
        requires cutting { IsCutting text.now self.now }
        requires has { has_cut_event self.now.held ≡ true }
        ensures { event_of result ≡ held_event text.now self.now.held }
    {
        match self.held {
            Held::Nothing => unreachable!(),
            Held::Start {
                begin,
                name,
                attributes,
                is_empty: _,
            } => PartEvent::Start(StartTag {
                name: &text[begin..name],
                attributes: &text[name..attributes],
            }),
            Held::End { begin, name } => PartEvent::End(&text[begin..name]),
            Held::Text { begin, last } => PartEvent::Text(&text[begin..last]),
            Held::CharData { begin, last } => PartEvent::CharData(&text[begin..last]),
            Held::EntityRef { begin, name } => PartEvent::EntityRef(&text[begin..name]),
            Held::Other => PartEvent::Other,
            Held::Flaw { at: _ } => PartEvent::Flaw(Flaw::Malformed),
        }
    }

    /// How many bytes of the text were cut. Where a flaw was taken last, it is the place of the
    /// flaw in bytes, counted from 0.
    pub fn at(&self) -> usize
        ensures { result ≡ cut_size self.now }
    {
        match self.held {
            Held::Flaw { at } => at,
            _ => self.at,
        }
    }
}

/// Where the flaw of a text stands, in bytes, counted from 0. None where the text has none.
pub fn flaw_place(text: &str) -> Option<usize>
    ensures value { result ≡ flaw_place text.now }
    ensures within { IfSome result (λ place. place ≤ length text.now) }
{
    let mut cutter = Cutter::new();
    'events: while cutter.advance(text) {
        if let Held::Flaw { at } = cutter.held {
            return Some(at);
        }
    }
    None
}
