ghost use Rattle.std.specs.Prelude.{◌≡◌, string_bytes, IfOk};
ghost use Rattle.std.specs.Arc.{arc_str_bytes};
ghost use Rattle.xlsx_workbook.specs.KeptContents.{path_kept};
ghost use Rattle.xlsx_workbook.specs.Paths.{name_in_folder, sheet_part};

use std::alloc::{AllocError, Global};
use std::sync::ArcStr;
use xlsx_relationships::{behind_slash, joined, last_piece};

/// The name of the workbook's part in its folder.
pub fn file_of(path: &str) -> &str
    ensures { result.now ≡ name_in_folder path.now }
{
    let file = last_piece(path);
    if file.is_empty() {
        "workbook.xml"
    } else {
        file
    }
}

/// Where the part of a sheet is, by the target of its relationship.
fn sheet_part(alloc: Global, folder: &str, target: &str) -> Result<String, AllocError>
    ensures { IfOk result (λ path. string_bytes path ≡ sheet_part folder.now target.now) }
{
    match behind_slash(target) {
        Some(path) => String::from_str(alloc, path),
        None => joined(alloc, folder, target),
    }
}

/// The path of a sheet's part, made when it is asked for: the folder of the workbook is shared by
/// all sheets, and a target by those whose relationship it is of.
#[derive(Debug, Drop)]
pub struct PartPath {
    folder: ArcStr,
    target: ArcStr,
}

impl PartPath {
    /// That of a sheet in the folder of its workbook, by the target of its relationship.
    pub fn new(folder: &ArcStr, target: &ArcStr) -> Result<PartPath, AllocError>
        ensures { IfOk result (λ path.
            path_kept path ≡ sheet_part (arc_str_bytes folder.now) (arc_str_bytes target.now)) }
    {
        Ok(PartPath {
            folder: folder.clone()?,
            target: target.clone()?,
        })
    }

    /// The path, in memory of its own.
    pub fn joined(&self, alloc: Global) -> Result<String, AllocError>
        ensures { IfOk result (λ path. string_bytes path ≡ path_kept self.now) }
    {
        sheet_part(alloc, self.folder.as_str(), self.target.as_str())
    }
}
