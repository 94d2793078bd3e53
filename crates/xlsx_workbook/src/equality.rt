//! What `==` and a copy of the types of this crate are.
ghost use Rattle.equalities.specs.Equality.{IsEquality, IsEqualityBy, CopiesItself};
ghost use Rattle.xlsx_workbook.specs.KeptContents.{sheet_seen, metadata_seen};

use crate::name_scope::NameScope;
use crate::sheet::{Metadata, Sheet, SheetType, SheetVisible};
use crate::workbook::SheetPlaces;

/// `a == b` exactly where all fields are the same, at each type of this crate, texts by their
/// bytes.
pub fn equality_is_by_all_fields()
    ensures sheet_type { IsEquality ⟦<SheetType as PartialEq>⟧.eq }
    ensures sheet_visible { IsEquality ⟦<SheetVisible as PartialEq>⟧.eq }
    ensures name_scope { IsEquality ⟦<NameScope as PartialEq>⟧.eq }
    ensures sheet { IsEqualityBy sheet_seen ⟦<Sheet as PartialEq>⟧.eq }
    ensures metadata { IsEqualityBy metadata_seen ⟦<Metadata as PartialEq>⟧.eq }
{}

/// A copy of a value is that value, at each type of this crate that is `Copy`.
pub fn copies_are_the_same<'a>()
    ensures sheet_type { CopiesItself ⟦<SheetType as Clone>⟧.is_clone
        ⟦<SheetType as Clone>⟧.is_infallible }
    ensures sheet_visible { CopiesItself ⟦<SheetVisible as Clone>⟧.is_clone
        ⟦<SheetVisible as Clone>⟧.is_infallible }
    ensures name_scope { CopiesItself ⟦<NameScope as Clone>⟧.is_clone
        ⟦<NameScope as Clone>⟧.is_infallible }
    ensures sheet_places { CopiesItself ⟦<SheetPlaces<'a> as Clone>⟧.is_clone
        ⟦<SheetPlaces<'a> as Clone>⟧.is_infallible }
{}
