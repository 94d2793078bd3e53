ghost use Rattle.std.specs.Prelude.{◌≡◌, ℕ, List, ◌<◌, ◌++◌, ◌-◌, suc, length, true, false, OnOk};
ghost use Rattle.std.specs.Prelude.{OnErr, IfOk, IfErr, string_bytes};
ghost use Rattle.part_events.specs.declared.fault.StreamError.TheVariants.{Io};
ghost use Rattle.part_events.specs.Event.{event_of};
ghost use Rattle.part_events.specs.JoinedText.{text_error, event_text, is_unknown, EventFails};
ghost use Rattle.part_events.specs.JoinedText.{IsFrontOf, PutsFront, ReadsText, TextFails};
ghost use Rattle.part_events.specs.Reading.{IsReading, IsAtElement, Reads, ahead};
ghost use Rattle.part_events.specs.Section.{content};

use crate::event::PartEvent;
use crate::fault::{StreamError, XmlFault};
use crate::package::Package;
use crate::reader::XlReader;
use crate::walk::Step;
use attr_text::{TextFault, push_entity, push_line_ends};

/// Appends the text of an event: a Text, or a CharData where `char_data` says so, with its line
/// ends as LF, or the character of a reference. After a refusal `out` is as it was. A reference
/// without a character is refused as `Entity`.
pub fn push_text(out: &mut String, event: PartEvent<'_>, char_data: bool) -> Result<(), TextFault>
    ensures ok { let text = event_text char_data (event_of event.entry) in
        OnOk result (string_bytes out.new ≡ string_bytes out.old ++ text) }
    ensures known { OnOk result (is_unknown (event_of event.entry) ≡ false) }
    ensures err { IfErr result (EventFails (event_of event.entry)) }
    ensures unchanged { OnErr result (string_bytes out.new ≡ string_bytes out.old) }
{
    match event {
        PartEvent::Text(text) => push_line_ends(out, text)?,
        PartEvent::CharData(text) => {
            if char_data {
                push_line_ends(out, text)?;
            }
        }
        PartEvent::EntityRef(name) => push_entity(out, name)?,
        PartEvent::Start(_) | PartEvent::End(_) | PartEvent::Flaw(_) | PartEvent::Other => {}
    }
    Ok(())
}

impl<P: Package> XlReader<P> {
    /// The refusal of the text of the last event. The part can't be read on.
    fn text_error(&mut self, fault: TextFault) -> StreamError
        requires { 0 < self.old.at }
        ensures error { result ≡ text_error (self.old.at - 1) fault }
        ensures fails { self.new ≡ record self.old { is_failed = true } }
    {
        self.give_up();
        match fault {
            TextFault::Entity { at: _ } => StreamError::Xml(XmlFault::Entity { at: self.at() - 1 }),
            TextFault::OutOfMemory => StreamError::OutOfMemory,
        }
    }

    /// Appends the text of the element at whose start the reader stands: each Text, each CharData
    /// where `char_data` says so, with their line ends as LF, and the character of each reference.
    /// Reads to the element's end, and answers false where the part ends before. After a refusal
    /// `out` has its old text and that of the events before.
    ///
    /// A reference without a character is refused as `Xml(Entity)`, and an end that breaks the
    /// nesting, or a flaw, as `Xml(Break)`, each with its number, counted from 0.
    pub fn read_text(&mut self, out: &mut String, char_data: bool) -> Result<bool, StreamError>
        requires reading { IsReading self.old }
        requires element { IsAtElement self.old }
        ensures reads { Reads Io result self.old self.new }
        ensures depth { let before = length self.old.names in
            IfOk result (λ closed. closed ≡ true → before ≡ suc (length self.new.names)) }
        ensures text { let texts : List ℕ × List ℕ = (string_bytes out.old, string_bytes out.new) in
            self.old.source.is_visible ≡ true → IfOk result
            (λ closed. ReadsText char_data closed texts self.old self.new) }
        ensures kept { IsFrontOf (string_bytes out.old) (string_bytes out.new) }
        ensures front { let texts : List ℕ × List ℕ =
            (string_bytes out.old, string_bytes out.new) in
            self.old.source.is_visible ≡ true → OnErr result (PutsFront char_data (content 0
            (ahead self.old)) texts) }
        ensures err { IfErr result (TextFails self.old self.new) }
    {
        let base = self.depth();
        'events: loop {
            match self.next_inside(base)? {
                Step::Closed => return Ok(true),
                Step::Ended => return Ok(false),
                Step::Found => {}
            }
            match push_text(out, self.event(), char_data) {
                Ok(()) => {}
                Err(fault) => return Err(self.text_error(fault)),
            }
        }
    }
}
