//! Names of sheets, of tables and of their columns, with their numbers.
ghost use Rattle.std.specs.Prelude.{◌≡◌, IfOk, map, string_bytes};
ghost use Rattle.book_names.specs.Numbers.{FindsFirstNumbers, FindsColumns};
ghost use Rattle.book_names.specs.Told.{table_told};

use crate::book::TableShape;
use crate::numbers::{Numbers, numbers_of};
use std::alloc::{AllocError, Global};

/// The texts of strings.
fn texts_of<'a>(alloc: Global, strings: &'a [String]) -> Result<Vec<&'a str>, AllocError>
    ensures { IfOk result
        (λ texts. map (λ t. t.now) texts.items ≡ map string_bytes strings.now) }
{
    let mut texts = Vec::new(alloc);
    for string in strings {
        texts.push(string.as_str())?;
    }
    Ok(texts)
}

/// The names of tables.
fn names_of<'a>(alloc: Global, tables: &'a [TableShape]) -> Result<Vec<&'a str>, AllocError>
    ensures { IfOk result
        (λ texts. map (λ t. t.now) texts.items ≡ map (λ t. string_bytes t.name) tables.now) }
{
    let mut texts = Vec::new(alloc);
    for table in tables {
        texts.push(table.name.as_str())?;
    }
    Ok(texts)
}

/// The numbers of strings.
pub(crate) fn numbers_of_strings(alloc: Global, strings: &[String]) -> Result<Numbers, AllocError>
    ensures { IfOk result (λ numbers. FindsFirstNumbers numbers 0 (map string_bytes strings.now)) }
{
    let texts = texts_of(alloc, strings)?;
    numbers_of(alloc, &texts)
}

/// The numbers of tables.
pub(crate) fn numbers_of_tables(alloc: Global, tables: &[TableShape]) -> Result<Numbers, AllocError>
    ensures { IfOk result
        (λ numbers. FindsFirstNumbers numbers 0 (map (λ t. string_bytes t.name) tables.now)) }
{
    let texts = names_of(alloc, tables)?;
    numbers_of(alloc, &texts)
}

/// For each table the numbers of its columns.
pub(crate) fn column_numbers(
    alloc: Global,
    tables: &[TableShape],
) -> Result<Vec<Numbers>, AllocError>
    ensures { IfOk result (λ found. FindsColumns found.items (map table_told tables.now)) }
{
    let mut found = Vec::new(alloc);
    for table in tables {
        found.push(numbers_of_strings(alloc, &table.columns)?)?;
    }
    Ok(found)
}
