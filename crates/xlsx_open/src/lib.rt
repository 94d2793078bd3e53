//! Opening a workbook: its sheets, its defined names, how its dates count, and what its sheets
//! share: strings, a theme and styles.
//!
//! Rooms: `opening` (the parts in their order), `shared_parts` (strings, theme and styles), `laws`.
//! What opening finds is `OpensAs`, and each cause of a refusal is `OpeningCause`, both over the
//! parts of the package. What the sheets share is one value (`SharedParts`, `SharedSaid`), which
//! the layers above hand on whole; the theme has no cause, since the default theme stands for a
//! faulty one. What opening takes of the parts is the sum of their sections (`TakesSections`).
#![tactic(auto)]

mod laws;
mod opening;
mod shared_parts;

pub use laws::openings_have_no_cause_of_a_refusal;
pub use opening::{Opened, open};
pub use shared_parts::SharedParts;
pub use xlsx_workbook::{Metadata, NameScope, PartPath, Sheet, SheetType, SheetVisible};
