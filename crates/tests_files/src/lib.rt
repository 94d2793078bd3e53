//! What the files of workbooks hold: tests of checksums, streams and archives (`crc32`, `inflate`,
//! `zip_writer`, `zip_archive`), of parts that are held as text (`markup`, `text_package`), of
//! workbook files as packages (`workbook_file`) and of what an input is (`input_package`), by their
//! public calls.
//!
//! Tests alone: `inflate_tests` and `archive_tests`, `markup_tests`, `workbook_file_tests` and
//! `input_tests`.
#![tactic(auto)]

#[cfg(test)]
mod archive_tests;
#[cfg(test)]
mod inflate_tests;
#[cfg(test)]
mod input_tests;
#[cfg(test)]
mod markup_tests;
#[cfg(test)]
mod workbook_file_tests;
