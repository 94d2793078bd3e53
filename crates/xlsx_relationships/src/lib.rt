//! Relationships and paths: where the parts of a package lead (ECMA-376 part 2, section 9.3).
//!
//! Rooms: `paths` (the pieces of a path), `relationships` (what one start says),
//! `relationship_parts` (a part of them), `link_targets` (where the hyperlinks of a sheet lead).
//! The folder of the workbook loses a slash at its front (`folder_of`), that of any other part
//! keeps it (`part_folder`).
//!
//! **Each list of relationships is a keeper** of the one loop over starts (`Keeps`, `Reads` of
//! xlsx_sections): the path of the workbook is the last that is read, where those of one type lead
//! is all that is read, and the two maps are seen by their Ids.
//!
//! **Targets are said as a list of pairs and kept in a map.** `link_targets_in` gives an Id and a
//! target for each relationship that counts, in order, and `target_in` finds the last of an Id. So
//! a refusal is one whatever Id is asked for. The lemma file is `TargetsKept`. `targets` has where
//! a target leads, `related` where the relationships of one type lead, by the target of each
//! (`typed_target`), and `related_lists` what the parts say that they lead to, by a look of each
//! (`ReadsRelated`); their lemma file is `RelatedRead`.
#![tactic(auto)]

mod link_targets;
mod paths;
mod related;
mod related_lists;
mod relationship_parts;
mod relationships;
mod targets;

pub use link_targets::{link_text, read_sheet_hyperlink_rels};
pub use paths::{behind_slash, folder_of, joined, last_piece, part_folder, relationships_beside};
pub use related::{related_parts, typed_target};
pub use related_lists::{ReadsRelated, push_related};
pub use relationship_parts::{read_path, read_relationships};
pub use relationships::{Relationship, find_relationship, text_or};
pub use targets::target_path;
