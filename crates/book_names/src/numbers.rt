//! For names the number of the first of each.
ghost use Rattle.std.specs.Prelude.{◌≡◌, ◌<◌, ℕ, List, IfOk, OnOk, map, drop, length};
ghost use Rattle.std.specs.Prelude.{if◌then◌else◌, Some, [], ◌==◌, ◌&&◌, vec_len};
ghost use Rattle.book_names.specs.Numbers.{kept_number, first_from, FindsFirstNumbers, kept_at};
ghost use Rattle.book_names.specs.Numbers.{FindsAt};
ghost use Rattle.book_names.specs.Book.{lowered, scope_place};
ghost use Rattle.book_names.specs.Told.{name_told};
ghost use Rattle.std.specs.Str.{bytes_eq};

use crate::book::DefinedName;
use crate::key::{NameKey, lowered_copy};
use std::alloc::{AllocError, Global};
use std::collections::BTreeMap;

/// For each name as it is looked up the number of the first, counted from 0.
pub(crate) type Numbers = BTreeMap<Vec<u8>, usize>;

/// The number of a name.
pub(crate) fn number_of(numbers: &Numbers, key: &NameKey) -> Option<usize>
    ensures { result ≡ kept_number numbers.now key.now }
{
    numbers.get(key.as_bytes()).copied()
}

/// Keeps a name before those that are kept.
pub(crate) fn put_name(
    alloc: Global,
    numbers: &mut Numbers,
    name: &str,
    number: usize,
) -> Result<(), AllocError>
    ensures { OnOk result ((key : List ℕ) → kept_number numbers.new key
        ≡ (if bytes_eq (lowered name.now) key then Some number
        else kept_number numbers.old key)) }
{
    numbers.insert(lowered_copy(alloc, name)?, number)?;
    Ok(())
}

/// The numbers of names.
pub(crate) fn numbers_of(alloc: Global, names: &[&str]) -> Result<Numbers, AllocError>
    ensures { IfOk result (λ numbers. FindsFirstNumbers numbers 0 (map (λ n. n.now) names.now)) }
{
    let mut numbers = BTreeMap::new(alloc);
    let mut number = names.len();
    while number > 0 {
        number -= 1;
        put_name(alloc, &mut numbers, names[number], number)?;
    }
    Ok(numbers)
}

/// The place of a scope: the workbook's stands before those of its sheets.
pub(crate) fn scope_place(scope: Option<u32>) -> usize
    ensures { result ≡ scope_place scope }
{
    match scope {
        Some(sheet) => sheet as usize + 1,
        None => 0,
    }
}

/// So many scopes without names.
fn empty_scopes(alloc: Global, count: usize) -> Result<Vec<Numbers>, AllocError>
    ensures { IfOk result (λ scopes. (vec_len scopes ≡ count) × FindsAt scopes.items 0 []) }
{
    let mut scopes = Vec::new(alloc);
    for _ in 0..count {
        scopes.push(BTreeMap::new(alloc))?;
    }
    Ok(scopes)
}

/// Keeps a name at the place of its scope, before those that are kept. One of a scope that there
/// is none of is kept nowhere.
fn put_at(
    alloc: Global,
    scopes: &mut Vec<Numbers>,
    place: usize,
    name: &str,
    number: usize,
) -> Result<(), AllocError>
    ensures size { OnOk result (vec_len scopes.new ≡ vec_len scopes.old) }
    ensures kept { OnOk result ((at : ℕ) (key : List ℕ) → at < vec_len scopes.old →
        kept_at scopes.new.items at key
        ≡ (if (place == at) && bytes_eq (lowered name.now) key then Some number
        else kept_at scopes.old.items at key)) }
{
    if place < scopes.len() {
        put_name(alloc, &mut scopes[place], name, number)?;
    }
    Ok(())
}

/// The numbers of defined names, by their scopes.
pub(crate) fn scoped_numbers(
    alloc: Global,
    scopes: usize,
    names: &[DefinedName],
) -> Result<Vec<Numbers>, AllocError>
    ensures { IfOk result (λ found. (vec_len found ≡ scopes)
        × FindsAt found.items 0 (map name_told names.now)) }
{
    let mut found = empty_scopes(alloc, scopes)?;
    let mut number = names.len();
    while number > 0 {
        number -= 1;
        let name = &names[number];
        put_at(
            alloc,
            &mut found,
            scope_place(name.scope),
            &name.name,
            number,
        )?;
    }
    Ok(found)
}
