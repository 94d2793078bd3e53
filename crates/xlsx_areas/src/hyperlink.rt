ghost use Rattle.std.specs.Prelude.{◌≡◌, ◌↔◌, IsTrue, IfOk, option_map, string_bytes};
ghost use Rattle.cell_refs.specs.Words.{IsInArea};
ghost use Rattle.xlsx_areas.specs.Hyperlinks.{link_said};

use cell_refs::Dimensions;
use std::alloc::{AllocError, Global};

/// A link of the cells of a sheet (ECMA-376 part 1, section 18.3.1.47).
#[derive(Debug, PartialEq, Eq, Drop)]
pub struct Hyperlink {
    /// The cells, rows and columns counted from 0.
    pub range: Dimensions,
    /// Where it leads outside the workbook: the target of the relationship that it names.
    pub target: Option<String>,
    /// Where it leads in what it leads to, as a cell or a defined name.
    pub location: Option<String>,
    pub displayed_text: Option<String>,
    pub tooltip: Option<String>,
}

impl Hyperlink {
    /// Whether the cell in this row and this column, both counted from 0, has the link.
    pub fn contains(&self, row: u32, column: u32) -> bool
        ensures { IsTrue result ↔ IsInArea self.now.range row column }
    {
        self.range.contains(row, column)
    }

    /// A copy in memory of its own.
    pub fn clone_in(&self, alloc: Global) -> Result<Hyperlink, AllocError>
        ensures { IfOk result (λ copy. link_said copy ≡ link_said self.now) }
    {
        Ok(Hyperlink {
            range: self.range,
            target: text_copy(alloc, &self.target)?,
            location: text_copy(alloc, &self.location)?,
            displayed_text: text_copy(alloc, &self.displayed_text)?,
            tooltip: text_copy(alloc, &self.tooltip)?,
        })
    }
}

fn text_copy(alloc: Global, text: &Option<String>) -> Result<Option<String>, AllocError>
    ensures { IfOk result (λ copy.
        option_map string_bytes copy ≡ option_map string_bytes text.now) }
{
    match text {
        Some(text) => Ok(Some(String::from_str(alloc, text.as_str())?)),
        None => Ok(None),
    }
}
