ghost use Rattle.std.specs.Prelude.{◌≡◌, ◌*◌, OnOk};
ghost use Rattle.written_markup.specs.Words.{with_events};
ghost use Rattle.xlsx_sample.specs.Sample.{sample_value, number_cell, master_formula, first_rows};
ghost use Rattle.xlsx_sample.specs.Sample.{formula_element, doubled_cell, string_cell, row_element};
ghost use Rattle.xlsx_sample.specs.Sample.{derived_formula, style_attribute};

use std::alloc::{AllocError, Global};
use written_markup::PackageBuilder;

/// Appends the value of a cell.
fn push_value(builder: &mut PackageBuilder, alloc: Global, number: u64) -> Result<(), AllocError>
    ensures { OnOk result (builder.new ≡ with_events builder.old (sample_value number)) }
{
    let digits = number.to_string(alloc)?;
    builder.push_text("v", "", digits.as_str())
}

/// Appends the cell of a row in column A: the number of the row.
fn push_number(builder: &mut PackageBuilder, alloc: Global, row: u32) -> Result<(), AllocError>
    ensures { OnOk result (builder.new ≡ with_events builder.old (number_cell row)) }
{
    let attributes = format!(in alloc; " r=\"A{row}\"")?;
    builder.open("c", attributes.as_str())?;
    push_value(builder, alloc, u64::from(row))?;
    builder.close("c")
}

/// Appends the formula that the others are derived from, in the first of so many rows.
fn push_master(builder: &mut PackageBuilder, alloc: Global, rows: u32) -> Result<(), AllocError>
    ensures { OnOk result (builder.new ≡ with_events builder.old (master_formula rows)) }
{
    let attributes = format!(in alloc; " t=\"shared\" ref=\"B1:B{rows}\" si=\"0\"")?;
    builder.push_text("f", attributes.as_str(), "A1*2")
}

/// Appends a formula that is derived from the first one.
fn push_derived(builder: &mut PackageBuilder) -> Result<(), AllocError>
    ensures { OnOk result (builder.new ≡ with_events builder.old derived_formula) }
{
    builder.push_empty("f", " t=\"shared\" si=\"0\"")
}

/// Appends the formula of a row.
fn push_formula(
    builder: &mut PackageBuilder,
    alloc: Global,
    rows: u32,
    row: u32,
) -> Result<(), AllocError>
    ensures { let formula = formula_element rows row in
        OnOk result (builder.new ≡ with_events builder.old formula) }
{
    if row == 1 {
        return push_master(builder, alloc, rows);
    }
    push_derived(builder)
}

fn doubled(row: u32) -> u64
    ensures { result ≡ 2 * row }
{
    2 * u64::from(row)
}

/// Appends the cell of a row in column B: twice the number of the row, by its formula.
fn push_doubled(
    builder: &mut PackageBuilder,
    alloc: Global,
    rows: u32,
    row: u32,
) -> Result<(), AllocError>
    ensures { let cell = doubled_cell rows row in
        OnOk result (builder.new ≡ with_events builder.old cell) }
{
    let attributes = format!(in alloc; " r=\"B{row}\"")?;
    builder.open("c", attributes.as_str())?;
    push_formula(builder, alloc, rows, row)?;
    push_value(builder, alloc, doubled(row))?;
    builder.close("c")
}

/// The attribute that gives the cells of odd rows a style.
fn style_attribute(row: u32) -> &'static str
    ensures { result.now ≡ style_attribute row }
{
    if row % 2 == 1 { " s=\"1\"" } else { "" }
}

/// Appends the cell of a row in column C: a shared string.
fn push_string(builder: &mut PackageBuilder, alloc: Global, row: u32) -> Result<(), AllocError>
    ensures { OnOk result (builder.new ≡ with_events builder.old (string_cell row)) }
{
    let style = style_attribute(row);
    let attributes = format!(in alloc; " r=\"C{row}\"{style} t=\"s\"")?;
    builder.open("c", attributes.as_str())?;
    push_value(builder, alloc, u64::from(row % 3))?;
    builder.close("c")
}

/// Appends a row, counted from 1, of so many.
fn push_row(
    builder: &mut PackageBuilder,
    alloc: Global,
    rows: u32,
    row: u32,
) -> Result<(), AllocError>
    ensures { let element = row_element rows row in
        OnOk result (builder.new ≡ with_events builder.old element) }
{
    let attributes = format!(in alloc; " r=\"{row}\"")?;
    builder.open("row", attributes.as_str())?;
    push_number(builder, alloc, row)?;
    push_doubled(builder, alloc, rows, row)?;
    push_string(builder, alloc, row)?;
    builder.close("row")
}

/// Appends so many rows.
pub fn push_rows(builder: &mut PackageBuilder, alloc: Global, rows: u32) -> Result<(), AllocError>
    ensures { OnOk result (builder.new ≡ with_events builder.old (first_rows rows rows)) }
{
    for above in 0..rows {
        push_row(builder, alloc, rows, above + 1)?;
    }
    Ok(())
}
