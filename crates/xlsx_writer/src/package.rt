//! The whole package of a sheet.
ghost use Rattle.std.specs.Prelude.{◌≡◌, ◌++◌, ◌∷◌, [], codes, IfOk, OnOk};
ghost use Rattle.cell_data.specs.Words.{value_pairs, formula_pairs};
ghost use Rattle.part_events.specs.Words.{closed};
ghost use Rattle.written_markup.specs.Words.{with_events, element};
ghost use Rattle.xlsx_writer.specs.Writable.{IsWritable};
ghost use Rattle.xlsx_writer.specs.WrittenSheet.{part, data_markup, sheet_markup, written_parts};

use crate::form::WrittenForm;
use crate::groups::formulas_by;
use crate::parts::{add_relationships, add_styles, add_workbook, sheet_space, with_root};
use crate::sheet::{FormsLeft, push_rows};
use crate::writable::has_time_from_1904;
use cell_data::{Data, Range};
use part_events::MemoryPackage;
use std::alloc::{AllocError, Global};
use written_markup::PackageBuilder;

/// Appends the sheet's data. Attributes and texts are made in `buffer`.
fn push_data(
    builder: &mut PackageBuilder,
    buffer: &mut String,
    alloc: Global,
    form: WrittenForm,
    values: &Range<Data>,
    formulas: &Range<String>,
) -> Result<(), AllocError>
    ensures { let rows = data_markup form (value_pairs values.now) (formula_pairs formulas.now) in
        OnOk result (builder.new ≡ with_events builder.old (element (codes "sheetData") [] rows)) }
{
    let forms = formulas_by(alloc, form, formulas.used())?;
    builder.open("sheetData", "")?;
    push_rows(builder, buffer, form, values.used(), FormsLeft::new(&forms))?;
    builder.close("sheetData")
}

/// Appends the sheet's part. Attributes and texts are made in `buffer`.
fn add_sheet(
    builder: &mut PackageBuilder,
    buffer: &mut String,
    alloc: Global,
    form: WrittenForm,
    values: &Range<Data>,
    formulas: &Range<String>,
) -> Result<(), AllocError>
    ensures { let added = part (codes "xl/worksheets/sheet1.xml")
        (sheet_markup form (value_pairs values.now) (formula_pairs formulas.now)) in
        OnOk result (builder.new ≡ closed (builder.old.parts ++ added ∷ []) builder.old.taken) }
{
    builder.begin_part("xl/worksheets/sheet1.xml", "worksheet", sheet_space(form))?;
    push_data(builder, buffer, alloc, form, values, formulas)?;
    builder.close("worksheet")
}

/// A package of one sheet of this name with these values and formulas, written in a form so that it
/// reads back (docs/FORMAT.md, "A sheet that is written"). No part is open.
///
/// What [`is_writable`](crate::is_writable) answers of values and formulas is asked for.
#[tactic(auto, unfolding(crate::specs::WrittenSheet::written_parts))]
pub fn write_package(
    alloc: Global,
    form: WrittenForm,
    sheet_name: &str,
    values: &Range<Data>,
    formulas: &Range<String>,
) -> Result<MemoryPackage, AllocError>
    requires { IsWritable values.now formulas.now }
    ensures { let parts =
        written_parts form sheet_name.now (value_pairs values.now) (formula_pairs formulas.now) in
        IfOk result (λ written. written ≡ closed parts 0) }
{
    let mut buffer = String::new(alloc);
    let mut builder = with_root(alloc, form)?;
    add_relationships(&mut builder, form)?;
    let is_1904 = has_time_from_1904(values);
    add_workbook(&mut builder, &mut buffer, form, sheet_name, is_1904)?;
    add_styles(&mut builder, form)?;
    add_sheet(&mut builder, &mut buffer, alloc, form, values, formulas)?;
    Ok(builder.into_package())
}
