ghost use Rattle.std.specs.Prelude.{◌≡◌, ℕ, List, [], ◌∷◌, true, Ok, Err, string_bytes, IfOk};
ghost use Rattle.std.specs.Prelude.{IfErr, MatchResult};
ghost use Rattle.std.specs.Option.{option_copied};
ghost use Rattle.attr_text.specs.Words.{lookup};
ghost use Rattle.cell_refs.specs.Words.{area, are_sheet_bounds};
ghost use Rattle.part_events.specs.Words.{tag_of};
ghost use Rattle.xlsx_error.specs.declared.error.XlsxError.TheVariants.{OutOfMemory};
ghost use Rattle.xlsx_sections.specs.Words.{placed, ElementFails, placed_at, decoded_at};
ghost use Rattle.xlsx_tables.specs.TableErrors.{IsTableStartError};
ghost use Rattle.xlsx_tables.specs.TableParts.{data_area, rows_counted, table_keys, start_said};
ghost use Rattle.xlsx_tables.specs.TableParts.{start_kept, with_table_name};

use attr_text::{AttrFault, AttrValue, RawAttributes, four_values};
use cell_refs::{Dimensions, get_dimension};
use part_events::StartTag;
use std::alloc::Global;
use xlsx_error::XlsxError;
use xlsx_relationships::text_or;
use xlsx_sections::{decode_at, number_text};

type TableTexts<'a> = (AttrValue<'a>, AttrValue<'a>, AttrValue<'a>, AttrValue<'a>);

/// What the start of a table says: its name, its area with headers and totals, how many rows these
/// have, and the area of its data.
#[derive(Debug, Drop)]
pub struct TableStart {
    pub name: String,
    pub whole: Dimensions,
    pub headers: u32,
    pub totals: u32,
    pub area: Option<Dimensions>,
}

/// The area without its first rows, the headers, and its last ones, the totals. None where it has
/// no cell.
fn data_area(headers: u32, totals: u32, area: Dimensions) -> Option<Dimensions>
    ensures { result ≡ data_area headers totals area }
{
    let first = u64::from(area.start.0) + u64::from(headers);
    if first + u64::from(totals) > u64::from(area.end.0) {
        return None;
    }
    if area.start.1 > area.end.1 {
        return None;
    }
    Some(Dimensions {
        start: (first as u32, area.start.1),
        end: (area.end.0 - totals, area.end.1),
    })
}

/// How many rows a text counts, or so many where there is none.
fn rows_counted(alloc: Global, text: Option<&str>, other: u32) -> Result<u32, XlsxError>
    ensures ok { IfOk result (λ rows. rows_counted other (option_copied text.entry) ≡ Ok rows) }
    ensures err { IfErr result (λ error. (at behind : ℕ) →
        ElementFails (rows_counted other (option_copied text.entry)) at behind error) }
    ensures kind { IfErr result IsTableStartError }
{
    let Some(text) = text else {
        return Ok(other);
    };
    match number_text(text) {
        Some(rows) if rows < 4_294_967_296 => Ok(rows as u32),
        _ => Err(XlsxError::ParseInt(String::from_str(alloc, text)?)),
    }
}

/// The texts of a start's attributes, in the order of the keys.
fn table_texts<'a>(tag: &'a StartTag<'_>) -> Result<TableTexts<'a>, AttrFault>
    ensures { let texts = lookup table_keys (tag_of tag.now).attributes in
        MatchResult result
        (λ p. texts ≡ Ok (option_copied p.0 ∷ option_copied p.1 ∷ option_copied p.2
        ∷ option_copied p.3 ∷ []))
        (λ fault. texts ≡ Err fault) }
{
    four_values(
        tag.attributes_raw(),
        "displayName",
        "ref",
        "headerRowCount",
        "totalsRowCount",
    )
}

/// What these texts of a start say, which is event number `at` of its part.
#[tactic(auto, using(crate::proofs::TablesRead::decoding))]
fn start_from(
    alloc: Global,
    name: &str,
    reference: &str,
    headers: Option<&str>,
    totals: Option<&str>,
    at: u64,
) -> Result<TableStart, XlsxError>
    ensures ok { IfOk result (λ begun. (behind : ℕ) → with_table_name (decoded_at behind name.now)
        (placed (area reference.now)) (rows_counted 1 (option_copied headers.entry))
        (rows_counted 0 (option_copied totals.entry)) ≡ Ok (start_kept begun)) }
    ensures inside { IfOk result (λ begun. are_sheet_bounds begun.area ≡ true) }
    ensures err { IfErr result (λ error. (behind : ℕ) → ElementFails
        (with_table_name (decoded_at behind name.now) (placed (area reference.now))
        (rows_counted 1 (option_copied headers.entry))
        (rows_counted 0 (option_copied totals.entry))) at behind error) }
    ensures kind { IfErr result IsTableStartError }
{
    let name = decode_at(alloc, name, at)?;
    let area = get_dimension(reference)?;
    let headers = rows_counted(alloc, headers, 1)?;
    let totals = rows_counted(alloc, totals, 0)?;
    Ok(TableStart {
        name,
        whole: area,
        headers,
        totals,
        area: data_area(headers, totals, area),
    })
}

/// What the start of a table says, which is event number `at` of its part, counted from 0.
pub fn start_said(alloc: Global, tag: StartTag<'_>, at: u64) -> Result<TableStart, XlsxError>
    ensures ok { IfOk result (λ begun. (behind : ℕ) →
        start_said (placed_at (tag_of tag.entry) behind) ≡ Ok (start_kept begun)) }
    ensures inside { IfOk result (λ begun. are_sheet_bounds begun.area ≡ true) }
    ensures err { IfErr result (λ error. (behind : ℕ) →
        ElementFails (start_said (placed_at (tag_of tag.entry) behind)) at behind error) }
    ensures kind { IfErr result IsTableStartError }
{
    let (name, area, headers, totals) = table_texts(&tag)?;
    start_from(
        alloc,
        text_or(name, ""),
        text_or(area, ""),
        headers,
        totals,
        at,
    )
}
