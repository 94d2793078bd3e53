ghost use Rattle.std.specs.Prelude.{◌≡◌, ◌↔◌, true};
ghost use Rattle.xlsx_areas.specs.Hyperlinks.{link_said};
ghost use Rattle.xlsx_areas.specs.declared.hyperlink.Hyperlink.{Hyperlink};

use crate::hyperlink::Hyperlink;

/// `a == b` exactly where both are the same by all fields, texts by their bytes.
pub fn equality_is_by_all_fields()
    ensures { (a b : Hyperlink) → (⟦<Hyperlink as PartialEq>⟧.eq a b ≡ true)
        ↔ (link_said a ≡ link_said b) }
{}
