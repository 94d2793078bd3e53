ghost use Rattle.std.specs.Prelude.{◌≡◌, ◌++◌, ◌∷◌, [], IfOk, OnOk};
ghost use Rattle.part_events.specs.Words.{closed};
ghost use Rattle.written_markup.specs.Words.{with_events};
ghost use Rattle.xlsx_sample.specs.Sample.{data_element, sample_sheet, sample_parts};

use crate::fixed_parts::{add_relationships, add_strings, add_styles, add_workbook, with_root};
use crate::rows::push_rows;
use part_events::MemoryPackage;
use std::alloc::{AllocError, Global};
use written_markup::PackageBuilder;

/// Appends the data of the sheet, with so many rows.
fn push_data(builder: &mut PackageBuilder, alloc: Global, rows: u32) -> Result<(), AllocError>
    ensures { OnOk result (builder.new ≡ with_events builder.old (data_element rows)) }
{
    builder.open("sheetData", "")?;
    push_rows(builder, alloc, rows)?;
    builder.close("sheetData")
}

/// Appends the part of the sheet, with so many rows.
fn add_sheet(builder: &mut PackageBuilder, alloc: Global, rows: u32) -> Result<(), AllocError>
    ensures { OnOk result (builder.new
        ≡ closed (builder.old.parts ++ sample_sheet rows ∷ []) builder.old.taken) }
{
    builder.begin_part("xl/worksheets/sheet1.xml", "worksheet", "")?;
    push_data(builder, alloc, rows)?;
    builder.close("worksheet")
}

/// A workbook of one sheet, `Sample`, with so many rows of three cells: the number of the row, its
/// double by a shared formula, and a shared string, whose cell is yellow in odd rows
/// (docs/FORMAT.md, "Commands"). No part is open.
#[tactic(auto, unfolding(crate::specs::Sample::sample_parts))]
pub fn sample_package(alloc: Global, rows: u32) -> Result<MemoryPackage, AllocError>
    ensures { IfOk result (λ held. held ≡ closed (sample_parts rows) 0) }
{
    let mut builder = with_root(alloc)?;
    add_relationships(&mut builder)?;
    add_workbook(&mut builder)?;
    add_sheet(&mut builder, alloc, rows)?;
    add_strings(&mut builder)?;
    add_styles(&mut builder)?;
    Ok(builder.into_package())
}
