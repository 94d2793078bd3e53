ghost use Rattle.std.specs.Prelude.{◌≡◌, true, Some, OnOk, IfErr, String};
ghost use Rattle.std.specs.declared.alloc.Global.{Global};
ghost use Rattle.part_events.specs.Words.{IsReading, ReadsPart, events_of};
ghost use Rattle.xlsx_error.specs.declared.error.XlsxError.TheVariants.{FileNotFound, Io};
ghost use Rattle.xlsx_sections.specs.Words.{Answers, FailsBy, section_events};
ghost use Rattle.looks.specs.Words.{look_ask};
ghost use Rattle.xlsx_widths.specs.Widths.{sheet_widths_ask, starts_ask, starts_look, widths_kept};

use crate::band::Widths;
use crate::starts::{ColumnsKeeper, RowsKeeper};
use part_events::{Package, XlReader};
use xlsx_error::XlsxError;
use xlsx_parts::{find_section, open_part};
use xlsx_sections::{Keeps, keep_starts};

/// Keeps what the starts of a name give in the first section of a part of which nothing was taken.
fn keep_in<P: Package, K: Keeps>(
    xml: &mut XlReader<P>,
    section: &'static str,
    name: &str,
    keeper: &mut K,
) -> Result<(), XlsxError>
    requires reading { IsReading xml.old }
    requires first { xml.old.at ≡ 0 }
    requires section { section.now ≡ K.section }
    ensures reads { ReadsPart Io result xml.old xml.new }
    ensures ends { xml.old.source.is_visible ≡ true →
        OnOk result (xml.new.at ≡ section_events section.now (events_of xml.old)) }
    ensures kept { let ask = λ (i : K.Index). starts_ask section.now name.now
        (K.change keeper.old i) (K.held keeper.old i) in
        xml.old.source.is_visible ≡ true → OnOk result ((i : K.Index) →
        (ask i).said (events_of xml.old) ≡ Some (K.held keeper.new i)) }
    ensures err { let ask = λ (i : K.Index). starts_ask section.now name.now
        (K.change keeper.old i) (K.held keeper.old i) in
        IfErr result (λ error. (i : K.Index) →
        FailsBy ((ask i).cause (events_of xml.old)) xml.old.source xml.new.source error) }
    ensures kind { IfErr result K.Kind }
{
    if !find_section(xml, section)? {
        return Ok(());
    }
    let base = xml.depth();
    keep_starts(xml, base, &[name], section, keeper)?;
    Ok(())
}

/// The same of the part at this path, which has to be there.
fn keep_at<P: Package, K: Keeps>(
    xml: &mut XlReader<P>,
    path: &str,
    section: &'static str,
    name: &str,
    keeper: &mut K,
) -> Result<(), XlsxError>
    requires section { section.now ≡ K.section }
    requires kind { (path : String Global) → K.Kind (FileNotFound path) }
    ensures answers { (i : K.Index) → Answers (look_ask K.Kind (starts_look section.now name.now
        (K.change keeper.old i) (K.held keeper.old i) path.now)) (λ done. K.held keeper.new i)
        result xml.old.source xml.new.source }
{
    if !open_part(xml, path)? {
        return Err(XlsxError::FileNotFound(String::from_str(xml.alloc(), path)?));
    }
    keep_in(xml, section, name, keeper)
}

/// The widths of the columns of the sheet whose part is at this path, and which columns and rows
/// are hidden (ECMA-376 part 1, sections 18.3.1.13, 18.3.1.17 and 18.3.1.73): of each `col` in its
/// first `cols` that has `min` and `max` its columns, with the text of `width` and whether they are
/// `hidden`, and each `row` in its first `sheetData` that is. A row is told by its `r`, or lies
/// behind the row before it. A part without one of these sections has none.
///
/// A part that is absent is `FileNotFound` of its path, one that ends in a section `XmlEof` of that
/// section's name, and an end that breaks the nesting, or a flaw, is `Xml(Break)` with its number
/// in the part, counted from 0. A start that can't be looked up is `XmlAttr`, a `min` or `max` that
/// isn't a column's number in decimal digits `ParseInt` of its text, and an `r` that names no row
/// has the refusal of its text. A row behind the last of a worksheet is `RowNumberOverflow`.
pub fn read_sheet_widths<P: Package>(xml: &mut XlReader<P>, path: &str) -> Result<Widths, XlsxError>
    ensures answers { Answers (sheet_widths_ask path.now) widths_kept result xml.old.source
        xml.new.source }
{
    let alloc = xml.alloc();
    let columns = Vec::new(alloc);
    let mut columns = ColumnsKeeper { alloc, columns };
    keep_at(xml, path, "cols", "col", &mut columns)?;
    let hidden = Vec::new(alloc);
    let mut rows = RowsKeeper { next: 0, hidden };
    keep_at(xml, path, "sheetData", "row", &mut rows)?;
    Ok(Widths {
        columns: columns.columns,
        hidden_rows: rows.hidden,
    })
}
