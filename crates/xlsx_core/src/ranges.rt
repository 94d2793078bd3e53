ghost use Rattle.std.specs.Prelude.{◌≡◌, List, length, filter, map, string_bytes, IfOk, All, true};
ghost use Rattle.std.specs.Prelude.{Some};
ghost use Rattle.cell_refs.specs.Words.{lie_inside, is_sheet_area};
ghost use Rattle.cell_data.specs.Words.{nothing, value_of_data, value_of_data_ref, AreInSheet};
ghost use Rattle.cell_data.specs.Words.{cells_gathered, with_meaning};
ghost use Rattle.sorted_cells.specs.Words.{kept_cells};
ghost use Rattle.cell_styles.specs.Words.{StyledCell, IsOnSheet, is_explicit, styles_of};
ghost use Rattle.xlsx_cells.specs.Words.{with_texts, value_entries, formula_entries};
ghost use Rattle.xlsx_core.specs.TableData.{IsRangeIn};
ghost use Rattle.xlsx_core.specs.Worksheets.{IsRangeFrom, IsValueRange, IsPlaceRange};
ghost use Rattle.xlsx_core.specs.Worksheets.{IsFormulaRange, header_area, area_below};
ghost use Rattle.xlsx_core.specs.Worksheets.{HaveSamePlaces};

use crate::standing::{last_below, last_in_area};
use cell_data::{Data, DataRef, GatheredCells, HeaderRow, Range, least_area};
use cell_refs::Dimensions;
use cell_styles::{Style, StyleRange, copied_palette};
use sorted_cells::SortedCells;
use std::alloc::{AllocError, Global};
use xlsx_formulas::CellFormula;
use xlsx_values::to_data;

/// The area with the header row as its first one, where a row is set.
fn header_area(header_row: HeaderRow, area: Option<Dimensions>) -> Option<Dimensions>
    ensures { result ≡ header_area header_row area }
{
    let HeaderRow::Row(first) = header_row else {
        return area;
    };
    let Dimensions { start, end } = area?;
    Some(Dimensions {
        start: (first, start.1),
        end,
    })
}

/// The range of cells from the header row on, which begins with that row where there is a cell.
pub fn range_of<T>(cells: SortedCells<T>, header_row: HeaderRow, blank: T) -> Range<T>
    requires { lie_inside (Some (area_below header_row)) (kept_cells cells) ≡ true }
    ensures { IsRangeFrom header_row (kept_cells cells) blank result }
{
    let area = header_area(header_row, least_area(&cells));
    Range::in_area(cells, area, blank)
}

/// The cells with the texts of shared strings in place of their places.
fn with_texts(
    alloc: Global,
    cells: SortedCells<DataRef>,
    strings: &[String],
) -> Result<SortedCells<Data>, AllocError>
    ensures texts { IfOk result (λ own. map (with_meaning value_of_data) (kept_cells own)
        ≡ with_texts (map string_bytes strings.now) (value_entries (kept_cells cells))) }
    ensures places { IfOk result (λ own. HaveSamePlaces (kept_cells cells) (kept_cells own)) }
{
    let mut own = SortedCells::with_capacity(alloc, cells.len())?;
    'cells: for (pos, val) in cells.into_iter() {
        own.push(pos, to_data(alloc, val, strings)?)?;
    }
    Ok(own)
}

/// The range of the values from the header row on, with the texts of shared strings. The text of a
/// value in whose place a later one stands isn't copied.
pub fn value_range(
    alloc: Global,
    cells: GatheredCells<DataRef>,
    strings: &[String],
    header_row: HeaderRow,
) -> Result<Range<Data>, AllocError>
    requires { AreInSheet (cells_gathered cells) }
    ensures { IfOk result (IsValueRange header_row
        (with_texts (map string_bytes strings.now) (value_entries (cells_gathered cells)))) }
{
    let kept = last_below(alloc, cells, header_row)?;
    let own = with_texts(alloc, kept, strings)?;
    Ok(range_of(own, header_row, Data::Empty))
}

/// The same, with shared strings by their places.
pub fn place_range(
    alloc: Global,
    cells: GatheredCells<DataRef>,
    header_row: HeaderRow,
) -> Result<Range<DataRef>, AllocError>
    requires { AreInSheet (cells_gathered cells) }
    ensures { IfOk result (IsPlaceRange header_row (value_entries (cells_gathered cells))) }
{
    let kept = last_below(alloc, cells, header_row)?;
    Ok(range_of(kept, header_row, DataRef::Empty))
}

/// The values in an area, of which the header row cuts off what stands above it, with the texts of
/// shared strings. The text of a value that stands elsewhere, or in whose place a later one stands,
/// isn't copied.
pub fn values_in_area(
    alloc: Global,
    cells: GatheredCells<DataRef>,
    strings: &[String],
    header_row: HeaderRow,
    area: Dimensions,
) -> Result<Range<Data>, AllocError>
    requires sheet { AreInSheet (cells_gathered cells) }
    requires area { is_sheet_area area ≡ true }
    ensures { IfOk result (IsRangeIn value_of_data header_row area
        (with_texts (map string_bytes strings.now) (value_entries (cells_gathered cells)))
        nothing) }
{
    let kept = last_in_area(alloc, cells, header_row, area)?;
    let own = with_texts(alloc, kept, strings)?;
    Ok(Range::in_area(own, Some(area), Data::Empty))
}

/// The same, with shared strings by their places.
pub fn places_in_area(
    alloc: Global,
    cells: GatheredCells<DataRef>,
    header_row: HeaderRow,
    area: Dimensions,
) -> Result<Range<DataRef>, AllocError>
    requires sheet { AreInSheet (cells_gathered cells) }
    requires area { is_sheet_area area ≡ true }
    ensures { IfOk result (IsRangeIn value_of_data_ref header_row area
        (value_entries (cells_gathered cells)) nothing) }
{
    let kept = last_in_area(alloc, cells, header_row, area)?;
    Ok(Range::in_area(kept, Some(area), DataRef::Empty))
}

/// The cells with the texts of their formulas.
fn written_out(
    alloc: Global,
    cells: SortedCells<CellFormula>,
) -> Result<SortedCells<String>, AllocError>
    ensures texts { IfOk result (λ own. map (with_meaning string_bytes) (kept_cells own)
        ≡ formula_entries (kept_cells cells)) }
    ensures places { IfOk result (λ own. HaveSamePlaces (kept_cells cells) (kept_cells own)) }
{
    let mut own = SortedCells::with_capacity(alloc, cells.len())?;
    'cells: for (pos, val) in cells.into_iter() {
        own.push(pos, val.into_text(alloc)?)?;
    }
    Ok(own)
}

/// The range of the formulas. One in whose place a later one stands isn't written out.
pub fn formula_range(
    alloc: Global,
    cells: GatheredCells<CellFormula>,
) -> Result<Range<String>, AllocError>
    requires { AreInSheet (cells_gathered cells) }
    ensures { IfOk result (IsFormulaRange (formula_entries (cells_gathered cells))) }
{
    let kept = last_below(alloc, cells, HeaderRow::FirstNonEmptyRow)?;
    let own = written_out(alloc, kept)?;
    Ok(range_of(own, HeaderRow::FirstNonEmptyRow, String::new(alloc)))
}

/// The styles of the entries, each a row, a column and a style id, over these styles. Entries that
/// don't count may be left out.
pub fn style_range(
    alloc: Global,
    ids: Vec<(u32, u32, usize)>,
    palette: Vec<Style>,
) -> Result<StyleRange, AllocError>
    requires { All IsOnSheet ids.items }
    ensures { (all : List StyledCell) →
        ids.items ≡ filter (is_explicit (length palette.items)) all →
        IfOk result (λ range. range ≡ styles_of palette.items all) }
{
    StyleRange::from_style_ids(alloc, ids, palette)
}

/// The same over a copy of these styles, which is made only where there is an entry.
pub fn copied_style_range(
    alloc: Global,
    ids: Vec<(u32, u32, usize)>,
    styles: &[Style],
) -> Result<StyleRange, AllocError>
    requires { All IsOnSheet ids.items }
    ensures { (all : List StyledCell) → ids.items ≡ filter (is_explicit (length styles.now)) all →
        IfOk result (λ range. range ≡ styles_of styles.now all) }
{
    if ids.is_empty() {
        return Ok(StyleRange::empty(alloc));
    }
    let palette = copied_palette(alloc, styles)?;
    style_range(alloc, ids, palette)
}
