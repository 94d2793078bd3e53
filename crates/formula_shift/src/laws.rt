ghost use Rattle.std.specs.Prelude.{◌≡◌, ◌↔◌, ℕ, false, Some, Ok, IfSome, pos, suc, ◌+◌, [], ◌∷◌};
ghost use Rattle.std.specs.Prelude.{◌++◌, List, ℤ, length, drop, encode_utf8};
ghost use Rattle.formula_shift.specs.Pieces.{piece_kind, group_length, length_behind, first_piece};
ghost use Rattle.formula_shift.specs.Pieces.{pieces, joined_pieces};
ghost use Rattle.cell_refs.specs.Words.{column_name, corner, reference, row_reference};
ghost use Rattle.formula_shift.specs.References.{corner_of, corner_spelling, word_reference};
ghost use Rattle.formula_shift.specs.References.{spelling};
ghost use Rattle.formula_shift.specs.Relocation.{NoneLeaves, offset_between, shifted_pieces};
ghost use Rattle.formula_shift.specs.Relocation.{joined_others, references, moved};
ghost use Rattle.formula_shift.specs.Relocation.{shifted_references};

use crate::Corner;

/// A text is cut into its first piece and the pieces of what follows it.
pub fn pieces_by_the_first()
    ensures none { pieces [] ≡ [] }
    ensures some { (b : ℕ) (bs : List ℕ) →
        pieces (b ∷ bs) ≡ first_piece b bs ∷ pieces (drop (length_behind (piece_kind b) bs) bs) }
{}

/// The pieces of a text joined are the text.
pub fn pieces_joined_are_the_text()
    ensures { (text : List ℕ) → joined_pieces (pieces text) ≡ text }
{}

/// In a Group an apostrophe takes a whole character as plain, however many bytes it has.
pub fn apostrophe_takes_a_character(c: char)
    ensures { (inner : ℕ) (rest : List ℕ) →
        group_length inner (39 ∷ (encode_utf8 c ++ rest))
        ≡ suc (length (encode_utf8 c) + group_length inner rest) }
{}

/// A moved text is cut into the pieces of the text, where each reference is replaced by the Word
/// that spells it moved, or by the pieces of `#REF!`, and neighbouring Other pieces are one.
pub fn shifted_text_is_cut_into_the_shifted_pieces()
    ensures { (text : List ℕ) (offset : ℤ × ℤ) →
        pieces (moved text offset) ≡ joined_others (shifted_pieces offset (pieces text)) }
{}

/// The references of a moved text are those of the text, moved, in order. Those that leave the
/// worksheet are left out, and `#REF!` has none.
pub fn references_of_a_shifted_text_are_shifted()
    ensures { (text : List ℕ) (offset : ℤ × ℤ) →
        references (pieces (moved text offset)) ≡ shifted_references text offset }
{}

/// A text without a reference is its own expansion.
pub fn text_without_reference_stays()
    ensures { (text : List ℕ) (offset : ℤ × ℤ) → references (pieces text) ≡ [] →
        moved text offset ≡ text }
{}

/// A reference that a Word names, spelled, is the Word of that reference again.
pub fn spelling_reads_back()
    ensures { (word : List ℕ) →
        IfSome (word_reference word) (λ r. word_reference (spelling r) ≡ Some r) }
{}

/// Where no reference of a text leaves the worksheet from a to b, expanding from a to b and then
/// from b to c gives the expansion from a to c. One that leaves from a to c is `#REF!` either way.
pub fn expansions_compose()
    ensures { (text : List ℕ) (a b c : ℕ × ℕ) → NoneLeaves (offset_between a b) text →
        moved (moved text (offset_between a b)) (offset_between b c)
        ≡ moved text (offset_between a c) }
{}

/// Where no reference leaves the worksheet, there and back gives the canonical spelling.
pub fn expansion_and_back_is_the_canonical_spelling()
    ensures { (text : List ℕ) (a b : ℕ × ℕ) → NoneLeaves (offset_between a b) text →
        moved (moved text (offset_between a b)) (offset_between b a) ≡ moved text (pos 0, pos 0) }
{}

/// A text is a cell without `$` exactly where it is read as that position, and corners without `$`
/// are spelled as positions, rows and columns are.
pub fn corners_are_positions()
    ensures read { (text : List ℕ) (row column : ℕ) →
        corner text ≡ Ok (row, column)
        ↔ corner_of text ≡ Some (Corner.Cell row column false false) }
    ensures cell { (row column : ℕ) →
        corner_spelling (Corner.Cell row column false false) ≡ reference (row, column) }
    ensures row { (row : ℕ) → corner_spelling (Corner.Row row false) ≡ row_reference row }
    ensures column { (column : ℕ) →
        corner_spelling (Corner.Column column false) ≡ column_name column }
{}
