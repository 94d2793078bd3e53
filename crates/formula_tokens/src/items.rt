//! The items of a formula, from the left.
ghost use Rattle.std.specs.Prelude.{◌≡◌};
ghost use Rattle.formula_tokens.specs.Items.{formula_items};
ghost use Rattle.formula_tokens.specs.Told.{formula_items_left};

use crate::item::Item;
use crate::token::Tokens;
use crate::word::first_item;

/// What a formula mentions, from the left, with the signs that matter between two mentions.
#[derive(Clone, Copy, Debug)]
pub struct Items<'a> {
    tokens: Tokens<'a>,
}

impl<'a> Items<'a> {
    /// The items of this formula, of which none was taken yet.
    #[tactic(auto, unfolding(crate::specs::Items::formula_items))]
    pub fn new(formula: &'a str) -> Items<'a>
        ensures { formula_items_left result ≡ formula_items formula.now }
    {
        Items {
            tokens: Tokens::new(formula),
        }
    }
}

impl<'a> Iterator for Items<'a> {
    ghost use Rattle.std.specs.Iterator.{YieldsFirstBy, item_count};
    ghost use Rattle.formula_tokens.specs.Told.{item_text, formula_items_left};

    type Item = Item<'a>;

    ghost next_gives = { YieldsFirstBy item_text formula_items_left };

    ghost remaining = { item_count formula_items_left };

    fn next(&mut self) -> Option<Item<'a>> {
        let first = self.tokens.next()?;
        let cut = first_item(first, self.tokens);
        self.tokens = self.tokens.behind(cut.size);
        Some(cut.item)
    }
}
