//! Package text: the package of parts that a JSON value spells (docs/FORMAT.md).
//!
//! Rooms: `spelled` (JSON to a package), `written` (a package to JSON, each empty element in one
//! event), `laws`.
//!
//! **Each event of the JSON value is looked at once.** A number that is no integer of 64 bits
//! refuses the package wherever it stands. Events are texts alone, so numbers are looked for beside
//! the events of a part, and beside the parts (`package_beside`); that this is the definition is a
//! lemma.
//!
//! The lemmas `PackageTextLemmas` say so of bytes (`package_in`).
#![tactic(auto)]

mod laws;
mod spelled;
mod written;

pub use laws::{
    no_written_start_stands_before_its_end, written_packages_are_read_back,
    written_values_spell_their_parts,
};
pub use spelled::package_from_json;
pub use written::push_package_text;
