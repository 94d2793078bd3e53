//! The keys of rows.
ghost use Rattle.std.specs.Prelude.{◌≡◌, map, string_bytes, IfOk, OnOk, IfErr, None, Err, ◌≢◌};
ghost use Rattle.std.specs.Option.{option_copied};
ghost use Rattle.cell_data.specs.Words.{row_left};
ghost use Rattle.json_rows.specs.RowObjects.{first_double, header_keys, IsOfKeys};
ghost use Rattle.json_rows.specs.declared.error.ObjectsError.TheVariants.{BoxTooLarge, NoHeader};

use crate::error::ObjectsError;
use cell_data::{Data, RowCells};
use csv_rows::{CsvOptions, push_field};
use std::alloc::{AllocError, Global};
use std::collections::BTreeSet;

/// The first key that is one of those before it.
fn first_double(alloc: Global, keys: &[String]) -> Result<Option<&str>, AllocError>
    ensures { IfOk result (λ found.
        option_copied found ≡ first_double (map string_bytes keys.now)) }
{
    let mut seen = BTreeSet::new(alloc);
    for key in keys {
        if !seen.insert(key.as_str())? {
            return Ok(Some(key.as_str()));
        }
    }
    Ok(None)
}

/// Refuses keys of which two are equal.
pub fn check_keys(alloc: Global, keys: &[String]) -> Result<(), ObjectsError>
    ensures apart { OnOk result (first_double (map string_bytes keys.now) ≡ None) }
    ensures err { IfErr result (IsOfKeys (map string_bytes keys.now)) }
    ensures large { result ≢ Err BoxTooLarge }
    ensures none { result ≢ Err NoHeader }
{
    match first_double(alloc, keys)? {
        Some(key) => Err(ObjectsError::TwoColumns(String::from_str(alloc, key)?)),
        None => Ok(()),
    }
}

/// The keys that a row gives: the fields of its values as CSV.
pub fn header_keys(
    alloc: Global,
    row: RowCells<'_, Data>,
    options: &CsvOptions,
) -> Result<Vec<String>, AllocError>
    ensures { IfOk result (λ keys.
        map string_bytes keys.items ≡ header_keys options.now (row_left row.entry)) }
{
    let mut keys = Vec::new(alloc);
    for value in row {
        let mut key = String::new(alloc);
        push_field(&mut key, value, options)?;
        keys.push(key)?;
    }
    Ok(keys)
}
