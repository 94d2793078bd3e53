ghost use Rattle.std.specs.Prelude.{◌≡◌, List, true, false, Ok, Err, IfOk, IfErr};
ghost use Rattle.std.specs.Option.{option_copied, unwrap_or};
ghost use Rattle.part_events.specs.Words.{Event, tag_of, IsReadingElement, ReadsElement, Element};
ghost use Rattle.xlsx_error.specs.declared.error.XlsxError.TheVariants.{Io};
ghost use Rattle.xlsx_values.specs.Words.{kind_of, context_of, cell_value, value_in, style_number};
ghost use Rattle.xlsx_cells.specs.Children.{StandsAtElement};
ghost use Rattle.xlsx_cells.specs.Counting.{IsStartRefused, IsRefused, IsPositionError};
ghost use Rattle.xlsx_cells.specs.Ends.{kind_of_cell, reads_children};
ghost use Rattle.xlsx_cells.specs.CellErrors.{IsCellError, IsStyledError};
ghost use Rattle.xlsx_cells.specs.Stream.{CellFails, IsHeadRefused, ReadsCell};
ghost use Rattle.xlsx_cells.specs.StyleIds.{id_named};

use crate::children::{Asked, CellContents, CellStart, Wants, read_children};
use attr_text::{RawAttributes, get_attrs};
use cell_data::{CellFormat, DataRef};
use cell_refs::Dimensions;
use part_events::{Package, StartTag, XlReader};
use std::alloc::Global;
use xlsx_error::XlsxError;
use xlsx_formulas::{CellFormula, Formula, SharedFormulas};
use xlsx_sections::{skip_element_in, start_tag};
use xlsx_values::{CellType, cell_type, format_of_style, style_number};

/// A cell as it was read: what wasn't wanted of it is empty.
#[derive(Debug, Drop)]
pub struct CellRead {
    /// The row and the column, counted from 0.
    pub pos: (u32, u32),
    pub value: DataRef,
    /// The last `f`, as it is written.
    pub formula: Option<Formula>,
    pub style_id: usize,
}

/// A cell with its formula, which may not be written out yet: what wasn't wanted of it is empty.
#[derive(Debug, Drop)]
pub struct CellWithFormula {
    /// The row and the column, counted from 0.
    pub pos: (u32, u32),
    pub value: DataRef,
    pub formula: CellFormula,
    /// The cells that have its values: those of an array that has the cell, and else the cell
    /// alone.
    pub covers: Dimensions,
    pub style_id: usize,
}

/// A cell with the text of its formula: what wasn't wanted of it is empty.
#[derive(Debug, Drop)]
pub struct CellText {
    /// The row and the column, counted from 0.
    pub pos: (u32, u32),
    pub value: DataRef,
    pub text: String,
    /// The cells that have the values of its formula: those of an array that has the cell, and else
    /// the cell alone.
    pub covers: Dimensions,
    pub style_id: usize,
}

/// The style id that the start of a cell names: the number of its `s`, and 0 without one.
fn id_named(tag: StartTag<'_>) -> Result<usize, XlsxError>
    ensures ok { IfOk result (λ id. id_named (tag_of tag.entry) ≡ Ok id) }
    ensures err { IfErr result (IsRefused (λ refusal. id_named (tag_of tag.entry) ≡ Err refusal)) }
    ensures kind { IfErr result IsPositionError }
{
    Ok(style_number(tag.raw_attr("s")?).unwrap_or(0))
}

/// What the start of a cell says of its style id alone, where that is wanted.
fn id_start(tag: StartTag<'_>, wants: Wants, pos: (u32, u32)) -> Result<CellStart, XlsxError>
    ensures pos { IfOk result (λ start. start.pos ≡ pos) }
    ensures styled { wants.styles ≡ true →
        IfOk result (λ start. id_named (tag_of tag.entry) ≡ Ok start.style_id) }
    ensures unstyled { wants.styles ≡ false → IfOk result (λ start. start.style_id ≡ 0) }
    ensures err { IfErr result (IsRefused (λ refusal.
        (wants.styles ≡ true) × (id_named (tag_of tag.entry) ≡ Err refusal))) }
    ensures kind { IfErr result IsPositionError }
{
    let style_id = if wants.styles { id_named(tag)? } else { 0 };
    Ok(CellStart {
        pos,
        style_id,
        format: CellFormat::Other,
        typ: CellType::Untyped,
    })
}

/// The style id that a text names, where it is wanted.
fn wanted_id(style: Option<&str>, wants: Wants) -> usize
    ensures styled { wants.styles ≡ true →
        result ≡ unwrap_or (style_number (option_copied style.entry)) 0 }
    ensures unstyled { wants.styles ≡ false → result ≡ 0 }
{
    if wants.styles {
        style_number(style).unwrap_or(0)
    } else {
        0
    }
}

/// What the start of the cell at this position says, by its attributes `r`, `s` and `t` where its
/// value is wanted, and by its `s` where its style id alone is.
fn start_of(
    alloc: Global,
    tag: StartTag<'_>,
    asked: Asked<'_>,
    pos: (u32, u32),
) -> Result<CellStart, XlsxError>
    ensures pos { IfOk result (λ start. start.pos ≡ pos) }
    ensures value { asked.entry.wants.values ≡ true → IfOk result (λ start.
        (inside : List Event) → cell_value (context_of asked.entry.book) (tag_of tag.entry) inside
        ≡ value_in (context_of asked.entry.book) start.format (kind_of start.typ) inside) }
    ensures typ { asked.entry.wants.values ≡ true →
        IfOk result (λ start. kind_of_cell (tag_of tag.entry) ≡ kind_of start.typ) }
    ensures styled { asked.entry.wants.styles ≡ true →
        IfOk result (λ start. id_named (tag_of tag.entry) ≡ Ok start.style_id) }
    ensures unstyled { asked.entry.wants.styles ≡ false →
        IfOk result (λ start. start.style_id ≡ 0) }
    ensures err { IfErr result (IsStartRefused (IsHeadRefused asked.entry.wants
        (context_of asked.entry.book) (tag_of tag.entry))) }
    ensures kind { IfErr result IsCellError }
    ensures plain { asked.entry.wants.values ≡ false → IfErr result IsPositionError }
{
    if !asked.wants.values {
        return id_start(tag, asked.wants, pos);
    }
    let (_, style, typ) = get_attrs!(tag, "r" => position, "s" => style, "t" => typ)?;
    Ok(CellStart {
        pos,
        style_id: wanted_id(style, asked.wants),
        format: format_of_style(asked.book.formats, style),
        typ: cell_type(alloc, typ)?,
    })
}

/// Reads the cell at this position, at whose start the reader stands, to its end.
pub fn read_cell<P: Package>(
    xml: &mut XlReader<P>,
    asked: Asked<'_>,
    pos: (u32, u32),
    masters: &mut SharedFormulas,
) -> Result<CellRead, XlsxError>
    requires element { IsReadingElement xml.old }
    ensures reads { ReadsElement Io result xml.old xml.new }
    ensures cell { IfOk result (ReadsCell asked.entry pos xml.old masters.old masters.new) }
    ensures err { let context = context_of asked.entry.book in
        IfErr result (λ error. (element : Element) → StandsAtElement element xml.old →
        CellFails asked.entry.wants context element.tag xml.old xml.new error) }
    ensures kind { IfErr result IsCellError }
    ensures plain { reads_children asked.entry.wants ≡ false → IfErr result IsStyledError }
{
    let start = start_of(xml.alloc(), start_tag(xml), asked, pos)?;
    if !asked.wants.values && !asked.wants.formulas {
        skip_element_in(xml, Some("c"))?;
        return Ok(CellRead {
            pos,
            value: DataRef::Empty,
            formula: None,
            style_id: start.style_id,
        });
    }
    let contents = read_children(xml, asked, &start, masters)?;
    let CellContents { value, formula } = contents;
    Ok(CellRead {
        pos,
        value: value.unwrap_or(DataRef::Empty),
        formula,
        style_id: start.style_id,
    })
}
