//! Laws: how many events a part has, that markup that is written is read as a part, and that a copy
//! is what was copied.
ghost use Rattle.std.specs.Prelude.{◌≡◌, ◌≤◌, ℕ, List, length, true};
ghost use Rattle.std.specs.List.{flat_map, All};
ghost use Rattle.equalities.specs.Equality.{CopiesItself};
ghost use Rattle.markup.specs.Words.{Piece, events_of_piece, spelled, are_spellable};
ghost use Rattle.text_package.specs.PartText.{part_markup};
ghost use Rattle.text_package.specs.PartSpelling.{HasTexts, begin_with_tag};

use crate::reading::Reading;

/// A part has no more events than bytes.
pub fn parts_are_bounded()
    ensures { (bytes : List ℕ) → length (part_markup bytes) ≤ length bytes }
{}

/// Pieces that markup spells, the first of which begins an element, are cut into their own events
/// where their spelling is the bytes of a part, and their texts are UTF-8 without a character 0.
pub fn spelled_parts_are_cut_back()
    ensures { (pieces : List Piece) → are_spellable pieces ≡ true → begin_with_tag pieces ≡ true
        → All HasTexts pieces →
        part_markup (spelled pieces) ≡ flat_map events_of_piece pieces }
{}

/// A copy of where reading stands is the same.
pub fn copies_are_the_same()
    ensures reading { CopiesItself ⟦<Reading as Clone>⟧.is_clone
        ⟦<Reading as Clone>⟧.is_infallible }
{}
