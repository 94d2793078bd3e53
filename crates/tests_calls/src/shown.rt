//! Calls of an open workbook, one or two in each function, and what is done with their answers.

ghost use Rattle.std.specs.Prelude.{◌≡◌, ◌==◌, true, None, Ok, Some, List, length, map, IfOk};
ghost use Rattle.std.specs.Prelude.{IfErr, IfSome, IsSomeAnd, option_map, string_bytes};
ghost use Rattle.std.specs.Arc.{arc_str_bytes};
ghost use Rattle.std.specs.List.{flat_map};
ghost use Rattle.cell_data.specs.Words.{cells_of, bounds_of, height_of, width_of};
ghost use Rattle.cell_styles.specs.Words.{style_at};
ghost use Rattle.looks.specs.Words.{look_said};
ghost use Rattle.xlsx_areas.specs.Hyperlinks.{link_said};
ghost use Rattle.xlsx_comments.specs.Comments.{AreSheetCommentsError, sheet_comments_look};
ghost use Rattle.xlsx_core.specs.Words.{OpensInto, named_sheet_ask, all_formulas_ask};
ghost use Rattle.xlsx_core.specs.Words.{named_links_ask, AreListed, sheets_of_book};
ghost use Rattle.xlsx_core.specs.Words.{all_numbered_tables_ask, PlacedSheetFails, ReadsValues};
ghost use Rattle.xlsx_core.specs.Words.{ReadsFormulas, ReadsStyles, path_of, context_of_book};
ghost use Rattle.xlsx_core.specs.Words.{palette_of_book, RangeFails};
ghost use Rattle.xlsx_cells.specs.Words.{values_alone, formulas_alone, styles_alone};
ghost use Rattle.xlsx_open.specs.Words.{OpeningFails};
ghost use Rattle.xlsx_pivot_cache.specs.Words.{row_kept};
ghost use Rattle.xlsx_pivots.specs.Words.{PivotSaid, pivots_ask};
ghost use Rattle.xlsx_properties.specs.Parts.{PropertiesCause, properties_look};
ghost use Rattle.xlsx_sections.specs.Words.{FailsBy, SoundFails};
ghost use Rattle.tests_calls.specs.Shown.{Shows, fill_color_of, comment_texts_in, IsFirstCell};
ghost use Rattle.tests_calls.specs.Shown.{IsFirstRow};

use cell_data::{Cell, Data, DataRef, HeaderRow};
use cell_styles::Color;
use part_events::Package;
use std::alloc::Global;
use xlsx_core::{OpenFailure, Property, Xlsx, XlsxError};

/// An open workbook whose ranges of values begin with this row, counted from 0.
pub fn opened_from_row<P: Package>(
    alloc: Global,
    package: P,
    row: u32,
) -> Result<Xlsx<P>, OpenFailure<P>>
    ensures opens { let old = P.state «package» in
        old.is_visible ≡ true → IfOk result (λ xlsx. OpensInto old.parts xlsx.workbook) }
    ensures header_row { IfOk result (λ xlsx. xlsx.workbook.header_row ≡ HeaderRow.Row row) }
    ensures err { IfErr result (λ failure.
        OpeningFails (P.state «package») (P.state failure.package) failure.error) }
{
    let mut xlsx = Xlsx::new(alloc, package)?;
    xlsx.with_header_row(HeaderRow::Row(row));
    Ok(xlsx)
}

/// How many rows and how many columns the values of the first sheet of this name take.
pub fn size_of_values<P: Package>(
    xlsx: &mut Xlsx<P>,
    name: &str,
) -> Result<(usize, usize), XlsxError>
    ensures ok { let path = path_of xlsx.old name.now in
        xlsx.old.xml.source.is_visible ≡ true → IfOk result
        (Shows (ReadsValues (context_of_book xlsx.old) xlsx.old.workbook.header_row path
        xlsx.old.xml.source.parts)
        (λ range. (height_of (bounds_of range), width_of (bounds_of range)))) }
    ensures err { IfErr result (RangeFails name.now values_alone (context_of_book xlsx.old)
        (path_of xlsx.old name.now) xlsx.old.xml.source xlsx.new.xml.source) }
{
    let range = xlsx.worksheet_range(name)?;
    Ok(range.get_size())
}

/// How many cells of the first sheet of this name have a formula.
pub fn count_of_formulas<P: Package>(xlsx: &mut Xlsx<P>, name: &str) -> Result<usize, XlsxError>
    ensures ok { xlsx.old.xml.source.is_visible ≡ true → IfOk result
        (Shows (ReadsFormulas (path_of xlsx.old name.now) xlsx.old.xml.source.parts)
        (λ range. length (cells_of range))) }
    ensures err { IfErr result (RangeFails name.now formulas_alone (context_of_book xlsx.old)
        (path_of xlsx.old name.now) xlsx.old.xml.source xlsx.new.xml.source) }
{
    let formulas = xlsx.worksheet_formula(name)?;
    Ok(formulas.used_count())
}

/// The color that fills the cell at this position of the first sheet of this name.
pub fn fill_color_at<P: Package>(
    xlsx: &mut Xlsx<P>,
    name: &str,
    position: (u32, u32),
) -> Result<Option<Color>, XlsxError>
    ensures ok { xlsx.old.xml.source.is_visible ≡ true → IfOk result
        (Shows (ReadsStyles (palette_of_book xlsx.old) (path_of xlsx.old name.now)
        xlsx.old.xml.source.parts) (λ styles. fill_color_of (style_at styles position))) }
    ensures err { IfErr result (PlacedSheetFails name.now styles_alone (context_of_book xlsx.old)
        (path_of xlsx.old name.now) xlsx.old.xml.source xlsx.new.xml.source) }
{
    let styles = xlsx.worksheet_style(name)?;
    let Some(style) = styles.get(position) else {
        return Ok(None);
    };
    match &style.fill {
        Some(fill) => Ok(fill.get_color()),
        None => Ok(None),
    }
}

/// Whether the values of all sheets are read: a sheet whose values are refused is left out.
pub fn all_are_read<P: Package>(xlsx: &mut Xlsx<P>) -> Result<bool, XlsxError>
    ensures ok { let sheets = xlsx.old.workbook.metadata.sheets.items in
        xlsx.old.xml.source.is_visible ≡ true → IfOk result
        (Shows (AreListed (context_of_book xlsx.old) xlsx.old.workbook.header_row (path_of xlsx.old)
        xlsx.old.xml.source.parts sheets) (λ listed. length listed == length sheets)) }
    ensures err { IfErr result (SoundFails xlsx.old.xml.source xlsx.new.xml.source) }
{
    let sheets = xlsx.worksheets()?;
    Ok(sheets.len() == xlsx.metadata().sheets.len())
}

/// The first cell of the first sheet of this name, where it has one.
pub fn first_cell<P: Package>(
    xlsx: &mut Xlsx<P>,
    name: &str,
) -> Result<Option<Cell<DataRef>>, XlsxError>
    ensures { let path = path_of xlsx.old name.now in
        xlsx.old.xml.source.is_visible ≡ true → IfOk result
        (IsFirstCell (context_of_book xlsx.old) path xlsx.old.xml.source) }
{
    let mut reader = xlsx.worksheet_cells_reader(name)?;
    reader.next_cell()
}

/// The texts of the comments of the first sheet of this name.
pub fn comment_texts<P: Package>(
    alloc: Global,
    xlsx: &mut Xlsx<P>,
    name: &str,
) -> Result<Vec<String>, XlsxError>
    ensures ok { let ask = named_sheet_ask AreSheetCommentsError sheet_comments_look name.now
        (path_of xlsx.old name.now) in
        xlsx.old.xml.source.is_visible ≡ true → IfOk result (λ texts.
        Shows (λ all. ask.said xlsx.old.xml.source.parts ≡ Some all) (flat_map comment_texts_in)
        (map string_bytes texts.items)) }
    ensures err { let ask = named_sheet_ask AreSheetCommentsError sheet_comments_look name.now
        (path_of xlsx.old name.now) in
        IfErr result (FailsBy (ask.cause xlsx.old.xml.source.parts)
        xlsx.old.xml.source xlsx.new.xml.source) }
{
    let mut texts = Vec::new(alloc);
    let parts = xlsx.comments_by_sheet_name(name)?;
    for part in &parts {
        for comment in part.comments() {
            texts.push(String::from_str(alloc, comment.text())?)?;
        }
    }
    Ok(texts)
}

/// How many links the first sheet of this name has.
pub fn link_count<P: Package>(xlsx: &mut Xlsx<P>, name: &str) -> Result<usize, XlsxError>
    ensures ok { let ask = named_links_ask name.now (path_of xlsx.old name.now) in
        xlsx.old.xml.source.is_visible ≡ true → IfOk result (Shows
        (λ links. ask.said xlsx.old.xml.source.parts ≡ Some (map link_said links))
        (λ links. length links)) }
    ensures err { let ask = named_links_ask name.now (path_of xlsx.old name.now) in
        IfErr result (FailsBy (ask.cause xlsx.old.xml.source.parts)
        xlsx.old.xml.source xlsx.new.xml.source) }
{
    let links = xlsx.hyperlinks_by_sheet_name(name)?;
    Ok(links.len())
}

/// The title of the workbook, where it has one.
pub fn title<P: Package>(alloc: Global, xlsx: &mut Xlsx<P>) -> Result<Option<String>, XlsxError>
    ensures ok { xlsx.old.workbook.lists.properties ≡ None → xlsx.old.xml.source.is_visible ≡ true →
        IfOk result (λ title. IsSomeAnd (look_said properties_look xlsx.old.xml.source.parts)
        (λ said. said.texts Property.Title ≡ option_map string_bytes title)) }
    ensures err { IfErr result (FailsBy (PropertiesCause xlsx.old.xml.source.parts)
        xlsx.old.xml.source xlsx.new.xml.source) }
{
    let properties = xlsx.workbook_properties()?;
    match properties.get(Property::Title) {
        Some(title) => Ok(Some(String::from_str(alloc, title)?)),
        None => Ok(None),
    }
}

/// The first row of the cache of a pivot table: the names of its fields.
pub fn first_row<P: Package>(
    xlsx: &mut Xlsx<P>,
    sheet: &str,
    name: &str,
) -> Result<Option<Vec<Data>>, XlsxError>
    ensures { let ask = pivots_ask (arc_str_bytes xlsx.old.workbook.folder)
        (sheets_of_book xlsx.old) in
        let parts = xlsx.old.xml.source.parts in
        xlsx.old.xml.source.is_visible ≡ true → IfOk result (λ row. IfSome row (λ own.
        (pivots : List PivotSaid) × (ask.said parts ≡ Some pivots)
        × IsFirstRow parts sheet.now name.now (row_kept own.items) pivots)) }
{
    let pivots = xlsx.pivot_tables()?;
    let mut rows = xlsx.pivot_table_data(&pivots, sheet, name)?;
    match rows.next() {
        Some(row) => Ok(Some(row?)),
        None => Ok(None),
    }
}

/// How many formulas the workbook has.
pub fn formula_total<P: Package>(xlsx: &mut Xlsx<P>) -> Result<usize, XlsxError>
    ensures ok { let ask = all_formulas_ask (sheets_of_book xlsx.old) in
        xlsx.old.xml.source.is_visible ≡ true → IfOk result (Shows
        (λ said. ask.said xlsx.old.xml.source.parts ≡ Some said) (λ said. length said)) }
    ensures err { let ask = all_formulas_ask (sheets_of_book xlsx.old) in
        IfErr result (FailsBy (ask.cause xlsx.old.xml.source.parts)
        xlsx.old.xml.source xlsx.new.xml.source) }
{
    let formulas = xlsx.read_formulas()?;
    Ok(formulas.len())
}

/// How many tables the workbook has.
pub fn table_total<P: Package>(xlsx: &mut Xlsx<P>) -> Result<usize, XlsxError>
    ensures ok { let ask = all_numbered_tables_ask (sheets_of_book xlsx.old) in
        xlsx.old.xml.source.is_visible ≡ true → IfOk result (Shows
        (λ said. ask.said xlsx.old.xml.source.parts ≡ Some said) (λ said. length said)) }
    ensures err { let ask = all_numbered_tables_ask (sheets_of_book xlsx.old) in
        IfErr result (FailsBy (ask.cause xlsx.old.xml.source.parts)
        xlsx.old.xml.source xlsx.new.xml.source) }
{
    let tables = xlsx.read_tables()?;
    Ok(tables.len())
}
