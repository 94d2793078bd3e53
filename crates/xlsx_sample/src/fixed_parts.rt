ghost use Rattle.std.specs.Prelude.{◌≡◌, ◌++◌, ◌∷◌, [], IfOk, OnOk};
ghost use Rattle.part_events.specs.Words.{closed};
ghost use Rattle.written_markup.specs.Words.{with_events};
ghost use Rattle.xlsx_sample.specs.Sample.{root_part, sample_relationships, sample_workbook};
ghost use Rattle.xlsx_sample.specs.Sample.{sheets_element, string_element, sample_strings};
ghost use Rattle.xlsx_sample.specs.Sample.{plain_fill, yellow_pattern, yellow_fill, fills_element};
ghost use Rattle.xlsx_sample.specs.Sample.{formats_element, sample_styles};

use std::alloc::{AllocError, Global};
use written_markup::PackageBuilder;

/// The attributes of the relationship to the workbook.
const TO_WORKBOOK: &str = " Id=\"rId1\" \
    Type=\"http://schemas.openxmlformats.org/officeDocument/2006/relationships/officeDocument\" \
    Target=\"xl/workbook.xml\"";

/// The attributes of the relationship to the sheet.
const TO_SHEET: &str = " Id=\"rId1\" \
    Type=\"http://schemas.openxmlformats.org/officeDocument/2006/relationships/worksheet\" \
    Target=\"worksheets/sheet1.xml\"";

/// A package of the part of its relationships.
pub fn with_root(alloc: Global) -> Result<PackageBuilder, AllocError>
    ensures { IfOk result (λ builder. builder ≡ closed (root_part ∷ []) 0) }
{
    let mut builder = PackageBuilder::new(alloc, "_rels/.rels", "Relationships", "")?;
    builder.push_empty("Relationship", TO_WORKBOOK)?;
    builder.close("Relationships")?;
    Ok(builder)
}

/// Appends the part of the workbook's relationships.
pub fn add_relationships(builder: &mut PackageBuilder) -> Result<(), AllocError>
    ensures { OnOk result (builder.new
        ≡ closed (builder.old.parts ++ sample_relationships ∷ []) builder.old.taken) }
{
    builder.begin_part("xl/_rels/workbook.xml.rels", "Relationships", "")?;
    builder.push_empty("Relationship", TO_SHEET)?;
    builder.close("Relationships")
}

/// Appends the list of sheets.
fn push_sheets(builder: &mut PackageBuilder) -> Result<(), AllocError>
    ensures { OnOk result (builder.new ≡ with_events builder.old sheets_element) }
{
    builder.open("sheets", "")?;
    builder.push_empty("sheet", " name=\"Sample\" sheetId=\"1\" r:id=\"rId1\"")?;
    builder.close("sheets")
}

/// Appends the workbook's own part.
pub fn add_workbook(builder: &mut PackageBuilder) -> Result<(), AllocError>
    ensures { OnOk result (builder.new
        ≡ closed (builder.old.parts ++ sample_workbook ∷ []) builder.old.taken) }
{
    builder.begin_part("xl/workbook.xml", "workbook", "")?;
    push_sheets(builder)?;
    builder.close("workbook")
}

/// Appends a shared string.
fn push_string(builder: &mut PackageBuilder, content: &str) -> Result<(), AllocError>
    ensures { let string = string_element content.now in
        OnOk result (builder.new ≡ with_events builder.old string) }
{
    builder.open("si", "")?;
    builder.push_text("t", "", content)?;
    builder.close("si")
}

/// Appends the part of the shared strings.
pub fn add_strings(builder: &mut PackageBuilder) -> Result<(), AllocError>
    ensures { OnOk result (builder.new
        ≡ closed (builder.old.parts ++ sample_strings ∷ []) builder.old.taken) }
{
    builder.begin_part("xl/sharedStrings.xml", "sst", "")?;
    push_string(builder, "red")?;
    push_string(builder, "green")?;
    push_string(builder, "blue")?;
    builder.close("sst")
}

/// Appends a fill without a color, by the attributes of its pattern.
fn push_plain_fill(builder: &mut PackageBuilder, attributes: &str) -> Result<(), AllocError>
    ensures { let fill = plain_fill attributes.now in
        OnOk result (builder.new ≡ with_events builder.old fill) }
{
    builder.open("fill", "")?;
    builder.push_empty("patternFill", attributes)?;
    builder.close("fill")
}

/// Appends the pattern of the yellow fill.
fn push_yellow_pattern(builder: &mut PackageBuilder) -> Result<(), AllocError>
    ensures { OnOk result (builder.new ≡ with_events builder.old yellow_pattern) }
{
    builder.open("patternFill", " patternType=\"solid\"")?;
    builder.push_empty("fgColor", " rgb=\"FFFFFF00\"")?;
    builder.close("patternFill")
}

/// Appends the yellow fill.
fn push_yellow_fill(builder: &mut PackageBuilder) -> Result<(), AllocError>
    ensures { OnOk result (builder.new ≡ with_events builder.old yellow_fill) }
{
    builder.open("fill", "")?;
    push_yellow_pattern(builder)?;
    builder.close("fill")
}

/// Appends the fills.
fn push_fills(builder: &mut PackageBuilder) -> Result<(), AllocError>
    ensures { OnOk result (builder.new ≡ with_events builder.old fills_element) }
{
    builder.open("fills", "")?;
    push_plain_fill(builder, " patternType=\"none\"")?;
    push_plain_fill(builder, " patternType=\"gray125\"")?;
    push_yellow_fill(builder)?;
    builder.close("fills")
}

/// Appends the formats of cells.
fn push_formats(builder: &mut PackageBuilder) -> Result<(), AllocError>
    ensures { OnOk result (builder.new ≡ with_events builder.old formats_element) }
{
    builder.open("cellXfs", "")?;
    builder.push_empty("xf", " fillId=\"0\"")?;
    builder.push_empty("xf", " fillId=\"2\"")?;
    builder.close("cellXfs")
}

/// Appends the part of the styles.
pub fn add_styles(builder: &mut PackageBuilder) -> Result<(), AllocError>
    ensures { OnOk result (builder.new
        ≡ closed (builder.old.parts ++ sample_styles ∷ []) builder.old.taken) }
{
    builder.begin_part("xl/styles.xml", "styleSheet", "")?;
    push_fills(builder)?;
    push_formats(builder)?;
    builder.close("styleSheet")
}
