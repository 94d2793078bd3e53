//! A package in memory as the bytes of a workbook file: each part is spelled as markup, and stored
//! as an entry of an archive.
//!
//! Room: `package_file`. A part's markup is one text, and all are held until the archive is made of
//! them: as many bytes as that has.
#![tactic(auto)]

mod package_file;

pub use package_file::write_package_file;
