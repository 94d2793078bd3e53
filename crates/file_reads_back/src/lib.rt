//! What is written of a sheet as a workbook file is read back, from the file's bytes on: laws over
//! the definitions of the writers of packages, of markup and of archives, and of their reading.
//! It has no code.
//!
//! Of the lemmas of proofs/, `EntriesNamed` says what a file's entries hold, `FilesRead` that the
//! parts of a file are those that were written, `SheetsFiled` that the parts of a sheet can be
//! those of a file; `SheetsResaved` brings that to the output of a command.
#![tactic(auto)]

mod laws;

pub use laws::{
    package_files_are_read_back, resaved_files_are_read_back, written_files_are_read_back,
};
