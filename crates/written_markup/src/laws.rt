//! Laws: what is written reads back.

ghost use Rattle.std.specs.Prelude.{◌≡◌, ℕ, List, Ok, map, true, false, None};
ghost use Rattle.attr_text.specs.Words.{items, decoded, unescaped, line_ends};
ghost use Rattle.part_events.specs.Words.{Event, joined_text, unknown_entity};
ghost use Rattle.written_markup.specs.Nests.{IsNested, NestsItself};
ghost use Rattle.written_markup.specs.WrittenText.{has_byte, attributes_of, AreWritablePairs};
ghost use Rattle.written_markup.specs.WrittenText.{encoded, underscores_escaped, text_events};
ghost use Rattle.written_markup.specs.WrittenText.{least_escaped};

/// The items of attributes that are written are their keys and values, where no key has white space
/// or `=` and no value a `"`.
pub fn written_attributes_are_read_back()
    ensures { (pairs : List (List ℕ × List ℕ)) →
        AreWritablePairs pairs → items (attributes_of pairs) ≡ map Ok pairs }
{}

/// A text that is written says the text: between quotes by references, in a string by escapes, of
/// each `_` or only where they are needed, and in an element by its events.
pub fn written_texts_are_read_back()
    ensures decoded { (text : List ℕ) → decoded (encoded text) ≡ Ok text }
    ensures quoted { (text : List ℕ) → has_byte 34 (encoded text) ≡ false }
    ensures unescaped { (text : List ℕ) → unescaped (underscores_escaped text) ≡ text }
    ensures least { (text : List ℕ) → unescaped (least_escaped text) ≡ text }
    ensures line_ends { (text : List ℕ) → has_byte 13 text ≡ false → line_ends text ≡ text }
    ensures joined { (text : List ℕ) → joined_text false (text_events text) ≡ text }
    ensures known { (text : List ℕ) → unknown_entity (text_events text) ≡ None }
{}

/// Leaves that are no flaws, and elements of such events, are passed over by what reads forward and
/// by what looks back.
pub fn nested_events_are_passed_over()
    ensures { (events : List Event) → IsNested events → NestsItself events }
{}
