ghost use Rattle.std.specs.Prelude.{◌≡◌, ◌∷◌, ℕ, List, [], length, true, Option, None, Ok, Err};
ghost use Rattle.std.specs.Prelude.{OnOk, IfErr};
ghost use Rattle.part_events.specs.Words.{Event, event_of, whole, Uses, CountsUp, part_of};
ghost use Rattle.part_events.specs.Words.{event_count, events_of, IsReading, ReadsPart};
ghost use Rattle.xlsx_error.specs.declared.error.XlsxError.TheVariants.{Io};
ghost use Rattle.xlsx_sections.specs.Words.{or_earlier, FailsBy, RefusedAt};
ghost use Rattle.xlsx_parts.specs.Words.{WholePartFails};
ghost use Rattle.xlsx_properties.specs.Errors.{IsPropertyError};
ghost use Rattle.xlsx_properties.specs.Parts.{said_by, SaidCause, IsWholeIfThere};
ghost use Rattle.xlsx_properties.specs.Said.{Saying, AreRefused};

use part_events::{Package, PartEvent, XlReader};
use xlsx_error::XlsxError;
use xlsx_parts::{next_event_of_part, open_part};

/// Keeps the texts that a part says by keys, event by event, of each key the last.
pub(crate) trait KeepsTexts {
    ghost Key: { Type 0 };

    ghost held: { Self → Key → Option (List ℕ) };

    /// What the events that follow say, from where reading stands.
    ghost following: { Self → Saying Key (List ℕ) };

    /// What the part says nothing of.
    ghost Other: { Type 0 };

    ghost beside: { Self → Other → Option (List ℕ) };

    /// Takes an event, which is number `at` of its part.
    fn take(&mut self, event: PartEvent<'_>, at: u64) -> Result<(), XlsxError>
        ensures ok { OnOk result ((key : Key) (events : List Event) →
            or_earlier (held self.old key) (following self.old key (event_of event.entry ∷ events))
            ≡ or_earlier (held self.new key) (following self.new key events)) }
        ensures beside { (other : Other) → beside self.new other ≡ beside self.old other }
        ensures err { IfErr result (λ error. (events : List Event) →
            RefusedAt (λ refusal. (key : Key) →
            following self.old key (event_of event.entry ∷ events) ≡ Err refusal)
            at (length events) error) }
        ensures kind { IfErr result IsPropertyError };

    ghost ended: { (keeper : Self) (key : Key) → following keeper key [] ≡ Ok None };
}

/// Reads a part of which nothing was taken to its end, and keeps the texts that it says. An end
/// that breaks the nesting, or a flaw, is `Xml(Break)` with its number in the part, counted from 0.
#[tactic(auto, using(crate::proofs::Errors::step_error))]
fn keep_texts<P: Package, K: KeepsTexts>(
    xml: &mut XlReader<P>,
    keeper: &mut K,
) -> Result<(), XlsxError>
    requires reading { IsReading xml.old }
    requires first { xml.old.at ≡ 0 }
    ensures reads { ReadsPart Io result xml.old xml.new }
    ensures ends { xml.old.source.is_visible ≡ true →
        OnOk result (xml.new.at ≡ length (events_of xml.old)) }
    ensures whole { xml.old.source.is_visible ≡ true →
        OnOk result (whole (events_of xml.old) ≡ events_of xml.old) }
    ensures said { xml.old.source.is_visible ≡ true → OnOk result ((key : K.Key) →
        or_earlier (K.held keeper.old key) (K.following keeper.old key (events_of xml.old))
        ≡ Ok (K.held keeper.new key)) }
    ensures beside { (other : K.Other) →
        K.beside keeper.new other ≡ K.beside keeper.old other }
    ensures err { IfErr result
        (WholePartFails (AreRefused (K.following keeper.old)) xml.old xml.new.source) }
    ensures kind { IfErr result IsPropertyError }
{
    'events: while let Some(at) = next_event_of_part(xml)? {
        keeper.take(xml.event(), at)?;
    }
    Ok(())
}

/// Keeps the texts of the part at this path, where there is one, which is read to its end.
pub(crate) fn keep_part<P: Package, K: KeepsTexts>(
    xml: &mut XlReader<P>,
    path: &str,
    keeper: &mut K,
) -> Result<(), XlsxError>
    ensures uses { Uses (event_count xml.old.source.parts path.now) Io result
        xml.old.source xml.new.source }
    ensures to_end { let old = xml.old.source in
        old.is_visible ≡ true →
        OnOk result (CountsUp (event_count old.parts path.now) old.taken xml.new.source.taken) }
    ensures whole { xml.old.source.is_visible ≡ true →
        OnOk result (IsWholeIfThere (part_of xml.old.source.parts path.now)) }
    ensures said { xml.old.source.is_visible ≡ true →
        OnOk result ((key : K.Key) → or_earlier (K.held keeper.old key)
        (said_by (K.following keeper.old) key (part_of xml.old.source.parts path.now))
        ≡ Ok (K.held keeper.new key)) }
    ensures beside { (other : K.Other) →
        K.beside keeper.new other ≡ K.beside keeper.old other }
    ensures err { let cause = SaidCause (K.following keeper.old) path.now xml.old.source.parts in
        IfErr result (FailsBy cause xml.old.source xml.new.source) }
    ensures kind { IfErr result IsPropertyError }
{
    if open_part(xml, path)? {
        keep_texts(xml, keeper)?;
    }
    Ok(())
}
