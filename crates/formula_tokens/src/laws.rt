//! What holds of all formulas.
ghost use Rattle.std.specs.Prelude.{◌≡◌, [], ◌∷◌, List, drop};
ghost use Rattle.formula_tokens.specs.Tokens.{TokenText};
ghost use Rattle.formula_tokens.specs.Items.{first_item, items_behind};

/// Tokens are put together to the first item and those of what follows it.
pub fn items_by_the_first()
    ensures none { items_behind 0 [] ≡ [] }
    ensures some { (t : TokenText) (ts : List TokenText) → items_behind 0 (t ∷ ts)
        ≡ (first_item t ts).item ∷ items_behind 0 (drop (first_item t ts).size ts) }
{}
