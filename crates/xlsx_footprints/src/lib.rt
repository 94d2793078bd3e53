//! Where each command looks in a package: laws over the definitions of the commands, and no code.
//!
//! Room: `laws`. The footprint of a command in a package is the parts at which it looks. Two
//! packages have the same one (`HaveSameFootprint`) where they have these parts alike; other parts,
//! and the order of all, may differ. So whoever feeds the program may leave out what stands in no
//! footprint, as `./xlsx` leaves out other worksheets' parts.
//!
//! The theme is in the footprint where styles are shown alone: by another theme a style sheet says
//! the same but for colors, or is refused in one way (`ThemesAlike`).
//!
//! Every definition goes by `part_of` alone, so each row is a rewriting by equal parts. Its lemma
//! files, from below: `SaidAlike` (what is said of several parts), `PartsAlike` (relationships, and
//! why a part isn't read), `TablesAlike` and `PivotsAlike` (what sheets lead to), `ThemesAlike`,
//! `OpeningsAlike`, `SheetsAlike` (what is had of a sheet), `NamedLooksAlike` (what a look at one
//! says), `ListsAlike` and `GraphsAlike` (of all
//! sheets), `CommandsAlike` (a row for each command) and `PlacesAlike` (the parts of sheets, by the
//! places alone).
#![tactic(auto)]

mod laws;

pub use laws::{commands_go_by_their_footprints, parts_of_sheets_go_by_their_places};
