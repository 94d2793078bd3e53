//! What is known of an open workbook, and of its package.

use crate::runs::Opened;
use crate::words::{number, word};
use anyhow::Result;
use xlsx_core::NameScope;

/// The scope of each defined name: `*` for the workbook's, the number of a sheet, or `-` for one
/// that no sheet sees.
fn push_scopes(out: &mut String, scopes: &[NameScope]) -> Result<()> {
    for scope in scopes {
        match scope {
            NameScope::Workbook => out.push_str("*;")?,
            NameScope::Sheet(sheet) => write!(out, "{sheet};")?,
            NameScope::Unread => out.push_str("-;")?,
        }
    }
    Ok(())
}

/// Whether this is a call for a fact, which is answered then.
pub fn push_fact(out: &mut String, opened: &Opened, words: &[&str]) -> Result<bool> {
    let xlsx = &opened.xlsx;
    match word(words, 0) {
        "faults" => write!(out, "{}", xlsx.faults())?,
        "sheets" => write!(out, "{}", xlsx.metadata().sheets.len())?,
        "name_scopes" => push_scopes(out, xlsx.name_scopes())?,
        "styles" => write!(out, "{}", xlsx.styles().len())?,
        "theme_defaulted" => write!(out, "{}", xlsx.theme_defaulted())?,
        "has_1904_epoch" => write!(out, "{}", xlsx.has_1904_epoch())?,
        "string" => match xlsx.shared_string(number(words, 1)) {
            Some(text) => write!(out, "={text}")?,
            None => out.push_str("-")?,
        },
        _ => return Ok(false),
    }
    Ok(true)
}
