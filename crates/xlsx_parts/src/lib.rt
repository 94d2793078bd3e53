//! Parts that are read whole, and sections that a part may lack.
//!
//! Rooms: `parts` (a part is opened, its first section of a name is looked for, or it is read
//! whole, start by start or event by event), `part_elements` (element by element), `first_element`.
//! A whole part is read as a section whose element is number 0 of the open ones, so that the laws
//! on sections serve it, too (`begins_part` in the lemmas `WholeRead`). Its end refuses nothing.
//!
//! What parts say is a function into Option (`PartSaid`): none where a part can't be taken. Why it
//! can't is a cause: `WholePartCause`, `LackingCause` of a section that may be lacking, `IfThere`
//! of a part that may be absent, and `SomeCause` over many.
//!
//! Its lemma files: `WholeRead` (how a part is read whole), `SaidRead` (what a part says, and how
//! its refusal is handed on), `ManySaid` (what many say) and `SoundParts` (a part that says
//! something has no cause to be refused).
#![tactic(auto)]

mod first_element;
mod part_elements;
mod parts;

pub use first_element::find_element;
pub use part_elements::next_element_of_part;
pub use parts::{find_section, next_event_of_part, next_start_of_part, open_part};
