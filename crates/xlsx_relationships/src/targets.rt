ghost use Rattle.std.specs.Prelude.{◌≡◌, option_map, string_bytes, IfOk};
ghost use Rattle.std.specs.Option.{option_copied};
ghost use Rattle.xlsx_relationships.specs.RelatedParts.{before_slash, outer_folder, behind_dots};
ghost use Rattle.xlsx_relationships.specs.RelatedParts.{target_path};

use crate::paths::{behind_slash, joined, part_folder};
use std::alloc::{AllocError, Global};

/// What stands before the last slash of a path.
fn before_slash(path: &str) -> &str
    ensures { result.now ≡ before_slash path.now }
{
    match path.rfind('/') {
        Some(slash) => &path[..slash],
        None => "",
    }
}

/// The folder in which the folder of the part at this path lies.
fn outer_folder(path: &str) -> &str
    ensures { result.now ≡ outer_folder path.now }
{
    part_folder(before_slash(path))
}

/// What follows `../` at the front.
fn behind_dots(target: &str) -> Option<&str>
    ensures { option_copied result ≡ behind_dots target.now }
{
    target.strip_prefix("../")
}

/// The path that a target leads to which the relationships of the part at `path` name. None for an
/// empty target.
///
/// One that begins with `../` is taken from the folder that the part's folder lies in, and every
/// other one from the package's root, with a slash at its front or without.
pub fn target_path(alloc: Global, path: &str, target: &str) -> Result<Option<String>, AllocError>
    ensures { IfOk result (λ there.
        option_map string_bytes there ≡ target_path path.now target.now) }
{
    if target.is_empty() {
        return Ok(None);
    }
    if let Some(rest) = behind_dots(target) {
        return Ok(Some(joined(alloc, outer_folder(path), rest)?));
    }
    let there = match behind_slash(target) {
        Some(rest) => rest,
        None => target,
    };
    Ok(Some(String::from_str(alloc, there)?))
}
