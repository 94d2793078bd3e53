//! Laws: how the events of a text go together, and that markup that is written is cut back.
ghost use Rattle.std.specs.Prelude.{◌≡◌, ◌≤◌, ℕ, List, [], ◌∷◌, ◌++◌, drop, length, true, false};
ghost use Rattle.std.specs.List.{flat_map, list_any};
ghost use Rattle.part_events.specs.Words.{Event, leaf, flaw};
ghost use Rattle.part_events.specs.declared.flaw.Flaw.{Flaw};
ghost use Rattle.part_events.specs.declared.flaw.Flaw.TheVariants.{Malformed};
ghost use Rattle.equalities.specs.Equality.{CopiesItself};
ghost use Rattle.markup.specs.Front.{Piece, front_in_markup};
ghost use Rattle.markup.specs.Markup.{markup_events, events_from, events_of_piece, is_flaw_event};
ghost use Rattle.markup.specs.Spelled.{spelled, are_spellable};

use crate::cutter::{Cutter, Held};
use crate::found::Found;

/// A copy of a value is that value, at each type of this crate that is `Copy`.
pub fn copies_are_the_same()
    ensures cutter { CopiesItself ⟦<Cutter as Clone>⟧.is_clone
        ⟦<Cutter as Clone>⟧.is_infallible }
    ensures held { CopiesItself ⟦<Held as Clone>⟧.is_clone ⟦<Held as Clone>⟧.is_infallible }
    ensures found { CopiesItself ⟦<Found as Clone>⟧.is_clone ⟦<Found as Clone>⟧.is_infallible }
{}

/// The events of a text are those of the piece that stands first in it, and then those of the text
/// behind it.
pub fn events_come_in_order()
    ensures empty { markup_events [] ≡ [] }
    ensures first { (b : ℕ) (bytes : List ℕ) → markup_events (b ∷ bytes)
        ≡ events_from (λ n. markup_events (drop n bytes)) (front_in_markup b bytes) }
{}

/// A text has no more events than bytes.
pub fn events_are_bounded()
    ensures { (text : List ℕ) → length (markup_events text) ≤ length text }
{}

/// A flaw is the last event of a text, and the only one.
pub fn a_flaw_is_last()
    ensures { (text : List ℕ) (before behind : List Event) (why : Flaw)
        → markup_events text ≡ before ++ leaf (flaw why) ∷ behind
        → (why ≡ Malformed) × (behind ≡ []) × (list_any is_flaw_event before ≡ false) }
{}

/// Pieces that markup spells, written one behind the other, are cut into their own events.
pub fn spelled_markup_is_cut_back()
    ensures { (pieces : List Piece) → are_spellable pieces ≡ true →
        markup_events (spelled pieces) ≡ flat_map events_of_piece pieces }
{}
