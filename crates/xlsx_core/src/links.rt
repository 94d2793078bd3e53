ghost use Rattle.std.specs.Prelude.{map};
ghost use Rattle.xlsx_sections.specs.Words.{Answers};
ghost use Rattle.looks.specs.Words.{look_ask};
ghost use Rattle.xlsx_areas.specs.Hyperlinks.{link_said};
ghost use Rattle.xlsx_core.specs.Links.{IsPlacedLinksError, named_links_ask, numbered_links_ask};
ghost use Rattle.xlsx_core.specs.Links.{sheet_links_look};
ghost use Rattle.xlsx_core.specs.Opened.{path_lent};
ghost use Rattle.xlsx_core.specs.Worksheets.{path_of, KeepsWorkbook};

use crate::placed_sheet::{numbered_sheet, path_named};
use crate::xlsx::Xlsx;
use part_events::{Package, XlReader};
use xlsx_areas::{Hyperlink, read_sheet_links};
use xlsx_error::XlsxError;
use xlsx_open::PartPath;

/// The hyperlinks of the sheet of this name whose part is at this path.
fn sheet_links<P: Package>(
    xml: &mut XlReader<P>,
    path: &str,
    name: &str,
) -> Result<Vec<Hyperlink>, XlsxError>
    ensures answers { let look = sheet_links_look name.now path.now in
        Answers (look_ask (IsPlacedLinksError name.now) look) (λ links. map link_said links.items)
        result xml.old.source xml.new.source }
{
    match read_sheet_links(xml, path)? {
        Some(links) => Ok(links),
        None => Err(XlsxError::WorksheetNotFound(String::from_str(xml.alloc(), name)?)),
    }
}

/// The hyperlinks of the sheet of this name, whose part is at this path.
fn placed_links<P: Package>(
    xml: &mut XlReader<P>,
    path: Option<&PartPath>,
    name: &str,
) -> Result<Vec<Hyperlink>, XlsxError>
    ensures answers { let ask = named_links_ask name.now (path_lent path.entry) in
        Answers ask (λ links. map link_said links.items) result xml.old.source xml.new.source }
{
    let alloc = xml.alloc();
    match path {
        Some(path) => {
            let path = path.joined(alloc)?;
            sheet_links(xml, path.as_str(), name)
        }
        None => Err(XlsxError::WorksheetNotFound(String::from_str(alloc, name)?)),
    }
}

/// The hyperlinks of an open workbook.
impl<P: Package> Xlsx<P> {
    /// The hyperlinks of the first sheet of this name (ECMA-376 part 1, section 18.3.1.48): of each
    /// `hyperlink` in the first `hyperlinks` of its part that has a `ref` its link, in order. Its
    /// texts are decoded, and then each `_xHHHH_` is replaced. Its target is where the relationship
    /// beside the part leads that its `id` names. A part without that section has none.
    ///
    /// Fails with `WorksheetNotFound` where no sheet has the name or the first such sheet has no
    /// part. Else a part of relationships that has no section `Relationships`, or ends in it, is
    /// `XmlEof("Relationships")`, and a part of a sheet that ends in its links
    /// `XmlEof("hyperlinks")`. An end that breaks the nesting, or a flaw, up to the end of one of
    /// these sections is `Xml(Break)`. A start that can't be looked up, whose text can't be
    /// decoded, or whose `ref` names no area has its refusal.
    ///
    /// # Examples
    ///
    /// How many links the sheet has:
    ///
    /// ```
    /// let links = xlsx.hyperlinks_by_sheet_name(name)?;
    /// Ok(links.len())
    /// ```
    pub fn hyperlinks_by_sheet_name(&mut self, name: &str) -> Result<Vec<Hyperlink>, XlsxError>
        ensures answers { let ask = named_links_ask name.now (path_of self.old name.now) in
            Answers ask (λ links. map link_said links.items) result self.old.xml.source
            self.new.xml.source }
        ensures rest { KeepsWorkbook self.old self.new }
    {
        let path = path_named(&self.workbook.metadata.sheets, &self.workbook.paths, name);
        placed_links(&mut self.xml, path, name)
    }

    /// The hyperlinks of the sheet at this index, counted from 0, by its name: those of the first
    /// sheet of that name.
    ///
    /// Fails with `WorksheetNotFound("Sheet index N out of range")` past the last sheet, and else
    /// as `hyperlinks_by_sheet_name` of the sheet's name.
    pub fn hyperlinks_by_sheet_id(&mut self, id: usize) -> Result<Vec<Hyperlink>, XlsxError>
        ensures answers { let ask = numbered_links_ask self.old id in
            Answers ask (λ links. map link_said links.items) result self.old.xml.source
            self.new.xml.source }
        ensures rest { KeepsWorkbook self.old self.new }
    {
        let sheet = numbered_sheet(self.xml.alloc(), &self.workbook.metadata.sheets, id)?;
        let name = sheet.name.as_str();
        let path = path_named(&self.workbook.metadata.sheets, &self.workbook.paths, name);
        placed_links(&mut self.xml, path, name)
    }
}
