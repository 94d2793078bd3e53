//! The workbook's own part: its sheets, its defined names, and how its dates count (ECMA-376 part
//! 1, section 18.2).
//!
//! Rooms: `paths` (the name of the workbook's part, and `PartPath`), `workbook` (its section),
//! `sheet_element`, `sheet` (`Sheet`, `Metadata`), `name_scope` (which sheets see a defined name).
//! The events of the section are looked at once; those inside a defined name are taken as events of
//! the section, too.
//!
//! **Of a sheet's path its pieces are kept** (`PartPath`): the workbook's folder and the target of
//! the sheet's relationship, each shared with all that name it. What it says is the path
//! (`path_kept`), and so the layers above speak of paths alone. Finding the sheet of a name joins
//! none; the call that opens its part joins one.
#![tactic(auto)]

mod equality;
mod name_scope;
mod paths;
mod sheet;
mod sheet_element;
mod workbook;

pub use equality::{copies_are_the_same, equality_is_by_all_fields};
pub use name_scope::NameScope;
pub use paths::{PartPath, file_of};
pub use sheet::{Metadata, Sheet, SheetEntry, SheetType, SheetVisible};
pub use workbook::{SheetPlaces, WorkbookContents, read_contents};
