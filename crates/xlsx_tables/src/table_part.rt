ghost use Rattle.std.proofs.Common.{rules};
ghost use Rattle.std.specs.Prelude.{◌≡◌, ◌≤◌, ℕ, List, Ok, Some, suc, length, map, true, codes};
ghost use Rattle.std.specs.Prelude.{string_bytes, IfOk, OnOk, IfErr, IfSome, option_map};
ghost use Rattle.std.specs.Prelude.{option_to_list};
ghost use Rattle.std.specs.Result.{is_err};
ghost use Rattle.cell_refs.specs.Words.{are_sheet_bounds};
ghost use Rattle.part_events.specs.Words.{IsReading, ReadsPart, events_of, section_ahead};
ghost use Rattle.xlsx_error.specs.declared.error.XlsxError.TheVariants.{Io};
ghost use Rattle.xlsx_sections.specs.Words.{Answers, IsInsideRefused, ReachesEnd, FailsBy, name_by};
ghost use Rattle.xlsx_sections.specs.Words.{SectionFails, always, section_events};
ghost use Rattle.looks.specs.Words.{look_ask};
ghost use Rattle.xlsx_tables.specs.TableErrors.{TableCause, IsTableError};
ghost use Rattle.xlsx_tables.specs.TableParts.{columns_in, table_of, table_kept};
ghost use Rattle.xlsx_tables.specs.Tables.{table_look};

use crate::table_start::start_said;
use cell_refs::Dimensions;
use part_events::{Package, StartTag, XlReader};
use std::alloc::Global;
use xlsx_error::XlsxError;
use xlsx_parts::{find_element, open_part};
use xlsx_sections::{Reads, keep_all, name_by, start_tag};

/// The part of a table (ECMA-376 part 1, section 18.5.1.2).
#[derive(Debug, Drop)]
pub struct TablePart {
    /// The name of the table.
    pub display_name: String,
    /// The names of its columns, in order.
    pub columns: Vec<String>,
    /// Its area with headers and totals, as `ref` names it, its rows and columns counted from 0.
    pub whole: Dimensions,
    /// How many rows of headers it has.
    pub headers: u32,
    /// How many rows of totals it has.
    pub totals: u32,
    /// The area of its data, without headers and totals, its rows and columns counted from 0. None
    /// where it has no cell.
    pub area: Option<Dimensions>,
}

/// Reads the names of columns.
#[derive(Drop)]
struct Columns {
    alloc: Global,
}

impl Reads for Columns {
    type Item = String;

    ghost Kept = { List ℕ };

    ghost said = { λ name. string_bytes name };

    ghost meaning = { λ r. name_by };

    ghost section = { codes "Table" };

    ghost Kind = { IsTableError };

    ghost kinds = { Prim.search rules };

    #[tactic(auto, using(crate::proofs::TablesRead::name_error))]
    fn read(&self, tag: StartTag<'_>, at: u64) -> Result<Option<String>, XlsxError> {
        name_by(self.alloc, tag, at)
    }
}

/// The names of the columns in a table whose element is number `base` of the open ones.
fn columns_in<P: Package>(xml: &mut XlReader<P>, base: usize) -> Result<Vec<String>, XlsxError>
    requires reading { IsReading xml.old }
    requires within { base ≤ length xml.old.names }
    ensures reads { ReadsPart Io result xml.old xml.new }
    ensures depth { OnOk result (suc (length xml.new.names) ≡ base) }
    ensures reaches { xml.old.source.is_visible ≡ true →
        OnOk result (ReachesEnd base xml.old xml.new) }
    ensures columns { xml.old.source.is_visible ≡ true → IfOk result (λ columns.
        columns_in (section_ahead base xml.old) ≡ Ok (map string_bytes columns.items)) }
    ensures err { let refused = IsInsideRefused columns_in in
        IfErr result (SectionFails (always (codes "Table")) refused base xml.old xml.new) }
    ensures kind { IfErr result IsTableError }
{
    let alloc = xml.alloc();
    keep_all(xml, base, &["tableColumn"], "Table", Columns { alloc })
}

/// The first table of a part of which nothing was taken.
#[tactic(auto, using(crate::proofs::TablesRead::table_errors))]
fn table_of<P: Package>(xml: &mut XlReader<P>) -> Result<TablePart, XlsxError>
    requires reading { IsReading xml.old }
    requires first { xml.old.at ≡ 0 }
    ensures reads { ReadsPart Io result xml.old xml.new }
    ensures ends { let count = section_events (codes "table") (events_of xml.old) in
        xml.old.source.is_visible ≡ true → OnOk result (xml.new.at ≡ count) }
    ensures table { xml.old.source.is_visible ≡ true →
        IfOk result (λ part. table_of (events_of xml.old) ≡ Some (table_kept part)) }
    ensures inside { IfOk result (λ part. are_sheet_bounds part.area ≡ true) }
    ensures err { IfErr result
        (FailsBy (TableCause (events_of xml.old)) xml.old.source xml.new.source) }
    ensures kind { IfErr result IsTableError }
{
    let alloc = xml.alloc();
    let Some(at) = find_element(xml, "table")? else {
        return Err(XlsxError::XmlEof("Table"));
    };
    let begun = start_said(alloc, start_tag(xml), at)?;
    let base = xml.depth();
    let columns = columns_in(xml, base)?;
    Ok(TablePart {
        display_name: begun.name,
        columns,
        whole: begun.whole,
        headers: begun.headers,
        totals: begun.totals,
        area: begun.area,
    })
}

/// Reads the first table of a part of which no event was taken, to its end (ECMA-376 part 1,
/// section 18.5.1.2): its `displayName`, decoded, the names of its `tableColumn` starts, decoded,
/// in order, the area of `ref`, and the area of its data.
///
/// The data are `ref` without as many first rows as `headerRowCount` says, else one, and as many
/// last ones as `totalsRowCount` says, else none. Rows and columns are counted from 0.
///
/// A part that has no table, or ends in it, is `XmlEof("Table")`, and an end that breaks the
/// nesting, or a flaw, before the table's end is `Xml(Break)` with its number in the part, counted
/// from 0. Attributes that end in a fault and lack one of the wanted keys are `XmlAttr`, and a name
/// with a reference without a character is `Xml(Entity)` with the number of its start. A `ref` that
/// names no area has the refusal of its text, as an absent one has, and a count that isn't a number
/// of 32 bits in decimal digits alone is `ParseInt` of its text.
pub fn read_table_part<P: Package>(xml: &mut XlReader<P>) -> Result<TablePart, XlsxError>
    requires reading { IsReading xml.old }
    requires first { xml.old.at ≡ 0 }
    ensures reads { ReadsPart Io result xml.old xml.new }
    ensures ends { let count = section_events (codes "table") (events_of xml.old) in
        xml.old.source.is_visible ≡ true → OnOk result (xml.new.at ≡ count) }
    ensures table { xml.old.source.is_visible ≡ true →
        IfOk result (λ part. table_of (events_of xml.old) ≡ Some (table_kept part)) }
    ensures inside { IfOk result (λ part. are_sheet_bounds part.area ≡ true) }
    ensures failed { xml.new.is_failed ≡ is_err result }
    ensures err { IfErr result
        (FailsBy (TableCause (events_of xml.old)) xml.old.source xml.new.source) }
    ensures kind { IfErr result IsTableError }
{
    let read = table_of(xml);
    if read.is_err() {
        xml.give_up();
    }
    read
}

/// The table of the part at this path, as `read_table_part` reads it. Answers None where the part
/// is absent.
///
/// Fails as `read_table_part`.
pub fn read_table_at<P: Package>(
    xml: &mut XlReader<P>,
    path: &str,
) -> Result<Option<TablePart>, XlsxError>
    ensures answers { let ask = look_ask IsTableError (table_look path.now) in
        Answers ask (λ found. option_to_list (option_map table_kept found)) result
        xml.old.source xml.new.source }
    ensures inside { IfOk result (λ found. IfSome found (λ part.
        are_sheet_bounds part.area ≡ true)) }
{
    if !open_part(xml, path)? {
        return Ok(None);
    }
    Ok(Some(table_of(xml)?))
}
