ghost use Rattle.std.specs.Prelude.{◌≡◌, ◌++◌, string_bytes, IfOk};
ghost use Rattle.std.specs.Option.{option_copied};
ghost use Rattle.xlsx_relationships.specs.Paths.{behind_slash, last_piece, front_pieces, folder_of};
ghost use Rattle.xlsx_relationships.specs.Paths.{part_folder, relationships_beside};

use std::alloc::{AllocError, Global};

/// What follows a slash at the front.
pub fn behind_slash(path: &str) -> Option<&str>
    ensures { option_copied result ≡ behind_slash path.now }
{
    path.strip_prefix('/')
}

/// What follows the last slash, or all.
pub fn last_piece(path: &str) -> &str
    ensures { result.now ≡ last_piece path.now }
{
    match path.rfind('/') {
        Some(slash) => &path[slash + 1..],
        None => path,
    }
}

/// What stands before the last piece.
fn front_pieces(path: &str) -> &str
    ensures { result.now ≡ front_pieces path.now }
{
    match path.rfind('/') {
        Some(slash) => &path[..slash + 1],
        None => "",
    }
}

/// The folder of the part at this path, with the slash at its end and none at its front.
pub fn folder_of(path: &str) -> &str
    ensures { result.now ≡ folder_of path.now }
{
    let front = front_pieces(path);
    match behind_slash(front) {
        Some(rest) => rest,
        None => front,
    }
}

/// Two texts, one behind the other.
pub fn joined(alloc: Global, front: &str, end: &str) -> Result<String, AllocError>
    ensures { IfOk result (λ path. string_bytes path ≡ front.now ++ end.now) }
{
    let mut path = String::from_str(alloc, front)?;
    path.push_str(end)?;
    Ok(path)
}

/// The folder of any part, as `folder_of` but with what stands at its front. A slash alone is none.
pub fn part_folder(path: &str) -> &str
    ensures { result.now ≡ part_folder path.now }
{
    let front = front_pieces(path);
    if front == "/" { "" } else { front }
}

/// Where the relationships of the part at this path are (ECMA-376 part 2, section 9.3.4).
pub fn relationships_beside(alloc: Global, path: &str) -> Result<String, AllocError>
    ensures { IfOk result (λ part. string_bytes part ≡ relationships_beside path.now) }
{
    let mut part = joined(alloc, part_folder(path), "_rels/")?;
    part.push_str(last_piece(path))?;
    part.push_str(".rels")?;
    Ok(part)
}
