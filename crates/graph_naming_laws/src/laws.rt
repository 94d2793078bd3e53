ghost use Rattle.std.specs.Prelude.{◌≡◌, ℕ, true, false, None, List, map, ℤ, option_to_list};
ghost use Rattle.std.specs.List.{flat_map};
ghost use Rattle.formula_shift.specs.Words.{area_named, own_references, pieces, shifted, moved};
ghost use Rattle.formula_tokens.specs.Items.{formula_items};
ghost use Rattle.book_names.specs.Book.{Book};
ghost use Rattle.xlsx_graph.specs.Naming.{named_in};
ghost use Rattle.xlsx_graph.specs.NamingLaws.{says_name};
ghost use Rattle.xlsx_graph.specs.declared.named.Standing.{Standing};
ghost use Rattle.graph_naming_laws.specs.MovedItems.{moved_item, moves_plainly};
ghost use Rattle.graph_naming_laws.specs.MovedNaming.{areas_meant, valued, words_meant};
ghost use Rattle.graph_naming_laws.specs.OwnSheet.{is_plain, own_areas};

/// The areas that the items of a plain formula say on its own sheet are those of its references
/// there, in order: the dependents of one sheet and the graph of a workbook read it alike. They
/// don't read alike `A1:`, `A1:B`, `A1: B2` and `A1:B2:C3`, where a colon stands in no reference,
/// `?A1`, where one touches a question mark, `#N/A1`, where one begins in an error, and `!A1`,
/// where no place stands before `!`.
pub fn own_areas_are_those_of_references()
    ensures { (text : List ℕ) → is_plain text ≡ true
        → own_areas (formula_items text) ≡ map area_named (own_references None (pieces text)) }
{}

/// The items of a moved formula are its items, each mention of cells displaced in its place, or
/// lost where a part of it leaves the worksheet. It isn't so of `#N/B1`, of which an error becomes
/// one column to the left; nor of `A1:` and `S!A1!`, where a cell stays, nor of `?A1` and `#N/A1`,
/// where what is none moves.
pub fn items_of_a_moved_formula_are_moved()
    ensures { (text : List ℕ) (offset : ℤ × ℤ) → moves_plainly text ≡ true
        → formula_items (moved text offset) ≡ map (moved_item offset) (formula_items text) }
{}

/// A formula that moves as its items do becomes one that does. The areas of its own sheet are then
/// those of its references there, displaced, but for those of which a part leaves the worksheet.
pub fn moved_formulas_move_on()
    ensures again { (text : List ℕ) (offset : ℤ × ℤ) → moves_plainly text ≡ true
        → moves_plainly (moved text offset) ≡ true }
    ensures own { (text : List ℕ) (offset : ℤ × ℤ) → moves_plainly text ≡ true
        → own_areas (formula_items (moved text offset))
        ≡ map area_named (flat_map (λ r. option_to_list (shifted offset r))
        (own_references None (pieces text))) }
{}

/// A plain formula that says no defined name names what its items mean, one by one: areas on their
/// sheets, and words that are left open.
pub fn plain_formulas_name_what_items_mean()
    ensures areas { (book : Book) (cell : Standing) (text : List ℕ) → is_plain text ≡ true
        → says_name book cell text ≡ false
        → map valued (named_in book cell text).areas ≡ areas_meant book cell (formula_items text) }
    ensures words { (book : Book) (cell : Standing) (text : List ℕ) → is_plain text ≡ true
        → says_name book cell text ≡ false
        → (named_in book cell text).words ≡ words_meant book cell (formula_items text) }
{}

/// Moved to another cell, it names there what its items mean there, each displaced: the displaced
/// areas, on the same sheets and in the same order, and the words that are left open. An area of
/// which a part leaves the worksheet is none of them, and is a word that is gone, `#REF!`, among
/// these.
pub fn moved_formulas_name_what_moved_items_mean()
    ensures areas { (book : Book) (there : Standing) (text : List ℕ) (offset : ℤ × ℤ)
        → moves_plainly text ≡ true → says_name book there text ≡ false
        → map valued (named_in book there (moved text offset)).areas
        ≡ areas_meant book there (map (moved_item offset) (formula_items text)) }
    ensures words { (book : Book) (there : Standing) (text : List ℕ) (offset : ℤ × ℤ)
        → moves_plainly text ≡ true → says_name book there text ≡ false
        → (named_in book there (moved text offset)).words
        ≡ words_meant book there (map (moved_item offset) (formula_items text)) }
{}
