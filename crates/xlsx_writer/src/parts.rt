//! The parts of the package beside the sheet.
ghost use Rattle.std.specs.Prelude.{◌≡◌, ◌++◌, ◌∷◌, [], codes, if◌then◌else◌, IfOk, OnOk};
ghost use Rattle.std.specs.Prelude.{string_bytes, Bool, List, ℕ};
ghost use Rattle.part_events.specs.Words.{closed};
ghost use Rattle.written_markup.specs.Words.{with_events, element, attribute, encoded, opened_part};
ghost use Rattle.xlsx_writer.specs.WrittenSheet.{space_attributes, workbook_attributes, of_sheets};
ghost use Rattle.xlsx_writer.specs.WrittenSheet.{of_packages, root_events, related_events};
ghost use Rattle.xlsx_writer.specs.WrittenSheet.{to_styles, default_type, own_type, type_events};
ghost use Rattle.xlsx_writer.specs.WrittenSheet.{type_parts, part, cell_format, cell_formats};
ghost use Rattle.xlsx_writer.specs.WrittenSheet.{font_list, fill_list, border_list, style_formats};
ghost use Rattle.xlsx_writer.specs.WrittenSheet.{style_front, style_behind, style_inside};
ghost use Rattle.xlsx_writer.specs.WrittenSheet.{style_events, sheet_attributes, sheets_events};
ghost use Rattle.xlsx_writer.specs.WrittenSheet.{properties_by, workbook_by};

use crate::form::WrittenForm;
use crate::texts::push_encoded;
use part_events::PartEvent;
use std::alloc::{AllocError, Global};
use written_markup::{PackageBuilder, start};

// ---- spaces

/// The attributes of the outermost element of styles and of a sheet.
pub fn sheet_space(form: WrittenForm) -> &'static str
    ensures { result.now ≡ space_attributes form of_sheets }
{
    match form {
        WrittenForm::PackageText => "",
        WrittenForm::WorkbookFile => {
            " xmlns=\"http://schemas.openxmlformats.org/spreadsheetml/2006/main\""
        }
    }
}

/// Those of the workbook.
fn workbook_space(form: WrittenForm) -> &'static str
    ensures { result.now ≡ workbook_attributes form }
{
    match form {
        WrittenForm::PackageText => "",
        WrittenForm::WorkbookFile => {
            " xmlns=\"http://schemas.openxmlformats.org/spreadsheetml/2006/main\" \
             xmlns:r=\"http://schemas.openxmlformats.org/officeDocument/2006/relationships\""
        }
    }
}

/// Those of relationships.
fn relationship_space(form: WrittenForm) -> &'static str
    ensures { result.now ≡ space_attributes form (of_packages (codes "relationships")) }
{
    match form {
        WrittenForm::PackageText => "",
        WrittenForm::WorkbookFile => {
            " xmlns=\"http://schemas.openxmlformats.org/package/2006/relationships\""
        }
    }
}

// ---- types

/// The attributes of the types of parts.
const OF_TYPES: &str = " xmlns=\"http://schemas.openxmlformats.org/package/2006/content-types\"";

const RELATIONSHIP_TYPE: &str = " Extension=\"rels\" \
    ContentType=\"application/vnd.openxmlformats-package.relationships+xml\"";

const MARKUP_TYPE: &str = " Extension=\"xml\" ContentType=\"application/xml\"";

const WORKBOOK_TYPE: &str = " PartName=\"/xl/workbook.xml\" ContentType=\"application/\
    vnd.openxmlformats-officedocument.spreadsheetml.sheet.main+xml\"";

const STYLES_TYPE: &str = " PartName=\"/xl/styles.xml\" ContentType=\"application/\
    vnd.openxmlformats-officedocument.spreadsheetml.styles+xml\"";

const SHEET_TYPE: &str = " PartName=\"/xl/worksheets/sheet1.xml\" ContentType=\"application/\
    vnd.openxmlformats-officedocument.spreadsheetml.worksheet+xml\"";

/// Appends the types of parts.
fn push_types(builder: &mut PackageBuilder) -> Result<(), AllocError>
    ensures { let listed = default_type (codes "rels")
        (codes "application/vnd.openxmlformats-package.relationships+xml")
        ++ (default_type (codes "xml") (codes "application/xml")
        ++ (own_type (codes "/xl/workbook.xml") (codes "sheet.main+xml")
        ++ (own_type (codes "/xl/styles.xml") (codes "styles+xml")
        ++ own_type (codes "/xl/worksheets/sheet1.xml") (codes "worksheet+xml")))) in
        OnOk result (builder.new ≡ with_events builder.old listed) }
{
    let events = [
        start("Default", RELATIONSHIP_TYPE),
        PartEvent::End("Default"),
        start("Default", MARKUP_TYPE),
        PartEvent::End("Default"),
        start("Override", WORKBOOK_TYPE),
        PartEvent::End("Override"),
        start("Override", STYLES_TYPE),
        PartEvent::End("Override"),
        start("Override", SHEET_TYPE),
        PartEvent::End("Override"),
    ];
    builder.push(&events)
}

/// A package of the part of the types.
fn with_types(alloc: Global) -> Result<PackageBuilder, AllocError>
    ensures { let types = part (codes "[Content_Types].xml") type_events in
        IfOk result (λ builder. builder ≡ closed (types ∷ []) 0) }
{
    let mut builder = PackageBuilder::new(alloc, "[Content_Types].xml", "Types", OF_TYPES)?;
    push_types(&mut builder)?;
    builder.close("Types")?;
    Ok(builder)
}

// ---- relationships

/// The attributes of the relationship to the workbook.
const TO_WORKBOOK: &str = " Id=\"rId1\" \
    Type=\"http://schemas.openxmlformats.org/officeDocument/2006/relationships/officeDocument\" \
    Target=\"xl/workbook.xml\"";

/// The attributes of the relationship to the sheet.
const TO_SHEET: &str = " Id=\"rId1\" \
    Type=\"http://schemas.openxmlformats.org/officeDocument/2006/relationships/worksheet\" \
    Target=\"worksheets/sheet1.xml\"";

/// The attributes of the relationship to the styles.
const TO_STYLES: &str = " Id=\"rId2\" \
    Type=\"http://schemas.openxmlformats.org/officeDocument/2006/relationships/styles\" \
    Target=\"styles.xml\"";

/// A package in which the part of its relationships is begun, behind that of the types where there
/// is one.
fn begun(alloc: Global, form: WrittenForm) -> Result<PackageBuilder, AllocError>
    ensures { let root = opened_part (codes "_rels/.rels") (codes "Relationships")
        (space_attributes form (of_packages (codes "relationships"))) in
        IfOk result (λ builder. builder ≡ closed (type_parts form ++ root ∷ []) 0) }
{
    match form {
        WrittenForm::PackageText => PackageBuilder::new(alloc, "_rels/.rels", "Relationships", ""),
        WrittenForm::WorkbookFile => {
            let mut builder = with_types(alloc)?;
            builder.begin_part("_rels/.rels", "Relationships", relationship_space(form))?;
            Ok(builder)
        }
    }
}

/// A package of the part of its relationships, behind that of the types where there is one.
pub fn with_root(alloc: Global, form: WrittenForm) -> Result<PackageBuilder, AllocError>
    ensures { let root = part (codes "_rels/.rels") (root_events form) in
        IfOk result (λ builder. builder ≡ closed (type_parts form ++ root ∷ []) 0) }
{
    let mut builder = begun(alloc, form)?;
    builder.push_empty("Relationship", TO_WORKBOOK)?;
    builder.close("Relationships")?;
    Ok(builder)
}

/// Appends the relationship to the styles, where it is written.
fn push_to_styles(builder: &mut PackageBuilder, form: WrittenForm) -> Result<(), AllocError>
    ensures { OnOk result (builder.new ≡ with_events builder.old (to_styles form)) }
{
    match form {
        WrittenForm::PackageText => Ok(()),
        WrittenForm::WorkbookFile => builder.push_empty("Relationship", TO_STYLES),
    }
}

/// Appends the part of the workbook's relationships.
pub fn add_relationships(builder: &mut PackageBuilder, form: WrittenForm) -> Result<(), AllocError>
    ensures { let added = part (codes "xl/_rels/workbook.xml.rels") (related_events form) in
        OnOk result (builder.new ≡ closed (builder.old.parts ++ added ∷ []) builder.old.taken) }
{
    builder.begin_part(
        "xl/_rels/workbook.xml.rels",
        "Relationships",
        relationship_space(form),
    )?;
    builder.push_empty("Relationship", TO_SHEET)?;
    push_to_styles(builder, form)?;
    builder.close("Relationships")
}

// ---- the workbook

/// Appends the workbook's first year, where it is 1904.
fn push_properties(builder: &mut PackageBuilder, is_1904: bool) -> Result<(), AllocError>
    ensures { OnOk result (builder.new ≡ with_events builder.old (properties_by is_1904)) }
{
    if is_1904 {
        builder.push_empty("workbookPr", " date1904=\"1\"")
    } else {
        Ok(())
    }
}

/// Puts the attributes of a sheet of this name in place of what the buffer holds.
fn put_sheet_attributes(buffer: &mut String, sheet_name: &str) -> Result<(), AllocError>
    ensures { OnOk result (string_bytes buffer.new ≡ sheet_attributes sheet_name.now) }
{
    buffer.clear();
    buffer.push_str(" name=\"")?;
    push_encoded(buffer, sheet_name)?;
    buffer.push_str("\" sheetId=\"1\" r:id=\"rId1\"")
}

/// Appends the list of the one sheet, whose attributes are made in `buffer`.
fn push_sheets(
    builder: &mut PackageBuilder,
    buffer: &mut String,
    sheet_name: &str,
) -> Result<(), AllocError>
    ensures { OnOk result (builder.new ≡ with_events builder.old (sheets_events sheet_name.now)) }
{
    put_sheet_attributes(buffer, sheet_name)?;
    builder.open("sheets", "")?;
    builder.push_empty("sheet", buffer.as_str())?;
    builder.close("sheets")
}

/// Appends the workbook's own part, whose first year is 1904 or 1900; attributes are made in
/// `buffer`.
pub fn add_workbook(
    builder: &mut PackageBuilder,
    buffer: &mut String,
    form: WrittenForm,
    sheet_name: &str,
    is_1904: bool,
) -> Result<(), AllocError>
    ensures { let added =
        part (codes "xl/workbook.xml") (workbook_by form sheet_name.now is_1904) in
        OnOk result (builder.new ≡ closed (builder.old.parts ++ added ∷ []) builder.old.taken) }
{
    builder.begin_part("xl/workbook.xml", "workbook", workbook_space(form))?;
    push_properties(builder, is_1904)?;
    push_sheets(builder, buffer, sheet_name)?;
    builder.close("workbook")
}

// ---- the styles

/// Appends the formats of cells: none, that of a date and that of a duration.
fn push_cell_formats(builder: &mut PackageBuilder) -> Result<(), AllocError>
    ensures { OnOk result (builder.new ≡ with_events builder.old cell_formats) }
{
    let events = [
        start("cellXfs", ""),
        start("xf", " numFmtId=\"0\""),
        PartEvent::End("xf"),
        start("xf", " numFmtId=\"14\""),
        PartEvent::End("xf"),
        start("xf", " numFmtId=\"46\""),
        PartEvent::End("xf"),
        PartEvent::End("cellXfs"),
    ];
    builder.push(&events)
}

/// Appends one font.
fn push_fonts(builder: &mut PackageBuilder) -> Result<(), AllocError>
    ensures { OnOk result (builder.new ≡ with_events builder.old font_list) }
{
    let events = [
        start("fonts", ""),
        start("font", ""),
        start("sz", " val=\"11\""),
        PartEvent::End("sz"),
        start("name", " val=\"Calibri\""),
        PartEvent::End("name"),
        PartEvent::End("font"),
        PartEvent::End("fonts"),
    ];
    builder.push(&events)
}

/// Appends two fills.
fn push_fills(builder: &mut PackageBuilder) -> Result<(), AllocError>
    ensures { OnOk result (builder.new ≡ with_events builder.old fill_list) }
{
    let events = [
        start("fills", ""),
        start("fill", ""),
        start("patternFill", " patternType=\"none\""),
        PartEvent::End("patternFill"),
        PartEvent::End("fill"),
        start("fill", ""),
        start("patternFill", " patternType=\"gray125\""),
        PartEvent::End("patternFill"),
        PartEvent::End("fill"),
        PartEvent::End("fills"),
    ];
    builder.push(&events)
}

/// Appends one border, and the format of the default cell style.
fn push_borders(builder: &mut PackageBuilder) -> Result<(), AllocError>
    ensures { let events = border_list ++ style_formats in
        OnOk result (builder.new ≡ with_events builder.old events) }
{
    let events = [
        start("borders", ""),
        start("border", ""),
        PartEvent::End("border"),
        PartEvent::End("borders"),
        start("cellStyleXfs", ""),
        start("xf", " numFmtId=\"0\""),
        PartEvent::End("xf"),
        PartEvent::End("cellStyleXfs"),
    ];
    builder.push(&events)
}

/// Appends what other programs look for in front of the formats of cells, where they are to read
/// the package.
fn push_style_front(builder: &mut PackageBuilder, form: WrittenForm) -> Result<(), AllocError>
    ensures { OnOk result (builder.new ≡ with_events builder.old (style_front form)) }
{
    match form {
        WrittenForm::PackageText => Ok(()),
        WrittenForm::WorkbookFile => {
            push_fonts(builder)?;
            push_fills(builder)?;
            push_borders(builder)
        }
    }
}

/// Appends what they look for behind these: the default cell style.
fn push_style_behind(builder: &mut PackageBuilder, form: WrittenForm) -> Result<(), AllocError>
    ensures { OnOk result (builder.new ≡ with_events builder.old (style_behind form)) }
{
    match form {
        WrittenForm::PackageText => Ok(()),
        WrittenForm::WorkbookFile => {
            let style = " name=\"Normal\" xfId=\"0\" builtinId=\"0\"";
            let events = [
                start("cellStyles", ""),
                start("cellStyle", style),
                PartEvent::End("cellStyle"),
                PartEvent::End("cellStyles"),
            ];
            builder.push(&events)
        }
    }
}

/// Appends what stands in the styles.
fn push_style_inside(builder: &mut PackageBuilder, form: WrittenForm) -> Result<(), AllocError>
    ensures { OnOk result (builder.new ≡ with_events builder.old (style_inside form)) }
{
    push_style_front(builder, form)?;
    push_cell_formats(builder)?;
    push_style_behind(builder, form)
}

/// Appends the part of the styles.
pub fn add_styles(builder: &mut PackageBuilder, form: WrittenForm) -> Result<(), AllocError>
    ensures { let added = part (codes "xl/styles.xml") (style_events form) in
        OnOk result (builder.new ≡ closed (builder.old.parts ++ added ∷ []) builder.old.taken) }
{
    builder.begin_part("xl/styles.xml", "styleSheet", sheet_space(form))?;
    push_style_inside(builder, form)?;
    builder.close("styleSheet")
}
