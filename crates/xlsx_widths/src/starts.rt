ghost use Rattle.std.proofs.Common.{rules};
ghost use Rattle.std.specs.Prelude.{◌≡◌, ◌<◌, ⊤, ℕ, List, Ok, codes, map, option_map, string_bytes};
ghost use Rattle.std.specs.Prelude.{IfOk, IfErr, Err};
ghost use Rattle.std.specs.Option.{option_copied};
ghost use Rattle.cell_refs.specs.Words.{row_limit, column_limit};
ghost use Rattle.part_events.specs.Words.{tag_of};
ghost use Rattle.xlsx_sections.specs.Words.{ElementFails};
ghost use Rattle.xlsx_widths.specs.Widths.{BandSaid, IsWidthsError, RowsSaid, band_kept};
ghost use Rattle.xlsx_widths.specs.Widths.{column_named, columns_kept, columns_of, row_start_kept};
ghost use Rattle.xlsx_widths.specs.Widths.{row_placed, rows_held};

use crate::band::Band;
use attr_text::{RawAttributes, get_attrs};
use cell_refs::get_row;
use part_events::StartTag;
use std::alloc::Global;
use xlsx_error::XlsxError;
use xlsx_sections::{Keeps, number_text};
use xlsx_styles::truth_or;

/// The column, counted from 0, that a text counts from 1.
fn column_named(alloc: Global, text: &str) -> Result<u32, XlsxError>
    ensures ok { IfOk result (λ column. column_named text.now ≡ Ok column) }
    ensures inside { IfOk result (λ column. column < column_limit) }
    ensures err { IfErr result (λ error. (at behind : ℕ) →
        ElementFails (column_named text.now) at behind error) }
    ensures kind { IfErr result IsWidthsError }
{
    match number_text(text) {
        Some(number) if number > 0 && number <= 16_384 => Ok((number - 1) as u32),
        _ => Err(XlsxError::ParseInt(String::from_str(alloc, text)?)),
    }
}

/// The columns that a start tells of.
fn columns_of(alloc: Global, tag: StartTag<'_>) -> Result<Option<Band>, XlsxError>
    ensures ok { IfOk result (λ columns.
        columns_of (tag_of tag.entry) ≡ Ok (option_map band_kept columns)) }
    ensures err { IfErr result (λ error. (at behind : ℕ) →
        ElementFails (columns_of (tag_of tag.entry)) at behind error) }
    ensures kind { IfErr result IsWidthsError }
{
    let (first, last, width, hidden) = get_attrs!(
        tag,
        "min" => first,
        "max" => last,
        "width" => width,
        "hidden" => hidden,
    )?;
    let (Some(first), Some(last)) = (first, last) else {
        return Ok(None);
    };
    let first = column_named(alloc, first)?;
    let last = column_named(alloc, last)?;
    let width = match width {
        Some(width) => Some(String::from_str(alloc, width)?),
        None => None,
    };
    let is_hidden = truth_or(hidden, false);
    Ok(Some(Band::of_columns(first, last, width, is_hidden)))
}

/// Keeps the columns of starts.
#[derive(Drop)]
pub struct ColumnsKeeper {
    pub alloc: Global,
    pub columns: Vec<Band>,
}

impl Keeps for ColumnsKeeper {
    ghost Index = { ⊤ };

    ghost Held = { List BandSaid };

    ghost held = { λ k i. map band_kept k.columns.items };

    ghost change = { λ k i. columns_kept };

    ghost section = { codes "cols" };

    ghost Kind = { IsWidthsError };

    ghost kinds = { Prim.search rules };

    fn take(&mut self, tag: StartTag<'_>, _at: u64) -> Result<(), XlsxError> {
        if let Some(columns) = columns_of(self.alloc, tag)? {
            self.columns.push(columns)?;
        }
        Ok(())
    }
}

/// The row, counted from 0, that a text names, or where there is none the next one.
fn row_placed(next: u32, text: Option<&str>) -> Result<u32, XlsxError>
    ensures ok { IfOk result (λ row. row_placed next (option_copied text.entry) ≡ Ok row) }
    ensures inside { IfOk result (λ row. row < row_limit) }
    ensures err { IfErr result (λ error. (at behind : ℕ) →
        ElementFails (row_placed next (option_copied text.entry)) at behind error) }
    ensures kind { IfErr result IsWidthsError }
{
    match text {
        Some(text) => Ok(get_row(text)?),
        None if next < 1_048_576 => Ok(next),
        None => Err(XlsxError::RowNumberOverflow),
    }
}

/// Keeps the hidden rows of starts, and counts all.
#[derive(Drop)]
pub struct RowsKeeper {
    pub next: u32,
    pub hidden: Vec<Band>,
}

impl Keeps for RowsKeeper {
    ghost Index = { ⊤ };

    ghost Held = { RowsSaid };

    ghost held = { λ k i. rows_held k };

    ghost change = { λ k i. row_start_kept };

    ghost section = { codes "sheetData" };

    ghost Kind = { IsWidthsError };

    ghost kinds = { Prim.search rules };

    fn take(&mut self, tag: StartTag<'_>, _at: u64) -> Result<(), XlsxError> {
        let (number, hidden) = get_attrs!(tag, "r" => number, "hidden" => hidden)?;
        let row = row_placed(self.next, number)?;
        self.next = row + 1;
        if truth_or(hidden, false) {
            self.hidden.push(Band::of_row(row))?;
        }
        Ok(())
    }
}
