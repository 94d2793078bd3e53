ghost use Rattle.std.specs.Prelude.{◌≡◌, ℕ, List, true, IfOk, OnOk, IfErr, MatchOption};
ghost use Rattle.std.specs.Prelude.{if◌then◌else◌, Some, IfSome};
ghost use Rattle.std.specs.BTreeMap.{get_by_text};
ghost use Rattle.std.specs.Str.{bytes_eq};
ghost use Rattle.part_events.specs.Words.{Uses, CountsUp};
ghost use Rattle.xlsx_error.specs.declared.error.XlsxError.TheVariants.{Io};
ghost use Rattle.xlsx_sections.specs.Words.{SoundFails};
ghost use Rattle.xlsx_workbook.specs.Words.{path_kept};
ghost use Rattle.xlsx_values.specs.Words.{context_of};
ghost use Rattle.xlsx_cells.specs.Words.{values_alone};
ghost use Rattle.xlsx_core.specs.Opened.{path_listed, path_lent};
ghost use Rattle.xlsx_core.specs.Listing.{AreListed, IsPutBehind, ends_listing, listed_events};
ghost use Rattle.xlsx_core.specs.Listing.{listed_data, CountsAtLeast};
ghost use Rattle.xlsx_core.specs.SheetReading.{placed_events, data_events};
ghost use Rattle.xlsx_core.specs.Worksheets.{ReadsValues, RangeCause, KeepsWorkbook};
ghost use Rattle.xlsx_core.specs.Worksheets.{context_of_book, path_of};

use crate::placed_sheet::{asked_of, read_values};
use crate::xlsx::Xlsx;
use cell_data::{Data, HeaderRow, Range};
use part_events::{Package, XlReader};
use std::alloc::{AllocError, Global};
use std::collections::BTreeMap;
use xlsx_cells::{Asked, Wants};
use xlsx_error::XlsxError;
use xlsx_open::{PartPath, Sheet};

/// Keeps a path for a name, in place of an earlier one.
#[tactic(auto, using(std::proofs::lemmas::Map::Text::text_keys))]
fn put<'a>(
    alloc: Global,
    paths: &mut BTreeMap<String, &'a PartPath>,
    name: &str,
    path: &'a PartPath,
) -> Result<(), AllocError>
    ensures { OnOk result ((other : List ℕ) → path_lent (get_by_text paths.new other)
        ≡ (if bytes_eq other name.now then Some (path_kept path.now)
        else path_lent (get_by_text paths.old other))) }
{
    paths.insert(String::from_str(alloc, name)?, path)?;
    Ok(())
}

/// The path of the part of the first sheet of each name.
fn first_paths<'a>(
    alloc: Global,
    sheets: &[Sheet],
    paths: &'a [PartPath],
) -> Result<BTreeMap<String, &'a PartPath>, AllocError>
    ensures { IfOk result (λ firsts. (name : List ℕ) → path_lent (get_by_text firsts name)
        ≡ path_listed name sheets.now paths.now) }
{
    let mut firsts = BTreeMap::new(alloc);
    let mut place = sheets.len().min(paths.len());
    'places: while place > 0 {
        place -= 1;
        let name = sheets[place].name.as_str();
        put(alloc, &mut firsts, name, &paths[place])?;
    }
    Ok(firsts)
}

/// The path that is kept for a name.
fn kept_path<'a>(paths: &BTreeMap<String, &'a PartPath>, name: &str) -> Option<&'a PartPath>
    ensures { path_lent result ≡ path_lent (get_by_text paths.now name.now) }
{
    paths.get(name).copied()
}

/// Whether nothing is listed where a range is refused so.
fn ends_listing(error: &XlsxError) -> bool
    ensures { result ≡ ends_listing error.now }
{
    matches!(error, XlsxError::Io | XlsxError::OutOfMemory)
}

/// The range of values of the sheet of this name, whose part is at this path, or none where it
/// isn't read for a cause in the parts.
fn range_or_none<P: Package>(
    xml: &mut XlReader<P>,
    path: Option<&PartPath>,
    name: &str,
    asked: Asked<'_>,
    header_row: HeaderRow,
) -> Result<Option<Range<Data>>, XlsxError>
    requires { asked.wants ≡ values_alone }
    ensures uses { Uses (placed_events (path_lent path.entry) xml.old.source.parts) Io result
        xml.old.source xml.new.source }
    ensures to_end { let old = xml.old.source in
        let count = data_events (path_lent path.entry) old.parts in
        old.is_visible ≡ true → IfOk result (λ found.
        IfSome found (λ range. CountsUp count old.taken xml.new.source.taken)) }
    ensures reads { let old = xml.old.source in
        let context = context_of asked.entry.book in
        let path = path_lent path.entry in
        old.is_visible ≡ true → IfOk result (λ found. MatchOption found
        ((error : XlsxError) × RangeCause name.now values_alone context path old.parts error)
        (ReadsValues context header_row path old.parts)) }
    ensures err { IfErr result (SoundFails xml.old.source xml.new.source) }
{
    match read_values(xml, path, name, asked, header_row) {
        Ok(range) => Ok(Some(range)),
        Err(error) => {
            if ends_listing(&error) {
                return Err(error);
            }
            Ok(None)
        }
    }
}

/// Puts a range behind others, with this name, where there is one.
fn put_behind(
    alloc: Global,
    listed: &mut Vec<(String, Range<Data>)>,
    name: &str,
    range: Option<Range<Data>>,
) -> Result<(), AllocError>
    ensures { OnOk result (MatchOption range (listed.new.items ≡ listed.old.items)
        (IsPutBehind name.now listed.old.items listed.new.items)) }
{
    if let Some(range) = range {
        listed.push((String::from_str(alloc, name)?, range))?;
    }
    Ok(())
}

/// The ranges of values of these sheets, each by the first sheet of its name.
fn ranges_listed<P: Package>(
    xml: &mut XlReader<P>,
    sheets: &[Sheet],
    paths: &[PartPath],
    asked: Asked<'_>,
    header_row: HeaderRow,
) -> Result<Vec<(String, Range<Data>)>, XlsxError>
    requires { asked.wants ≡ values_alone }
    ensures uses { let place = λ (name : List ℕ). path_listed name sheets.now paths.now in
        Uses (listed_events place xml.old.source.parts sheets.now) Io result xml.old.source
        xml.new.source }
    ensures to_end { let old = xml.old.source in
        let place = λ (name : List ℕ). path_listed name sheets.now paths.now in
        old.is_visible ≡ true → IfOk result (λ listed.
        CountsAtLeast (listed_data place old.parts listed.items) old.taken xml.new.source.taken) }
    ensures lists { let place = λ (name : List ℕ). path_listed name sheets.now paths.now in
        xml.old.source.is_visible ≡ true →
        IfOk result (λ listed. AreListed (context_of asked.entry.book)
        header_row place xml.old.source.parts sheets.now listed.items) }
    ensures err { IfErr result (SoundFails xml.old.source xml.new.source) }
{
    let alloc = xml.alloc();
    let firsts = first_paths(alloc, sheets, paths)?;
    let mut listed = Vec::new(alloc);
    'sheets: for sheet in sheets {
        let name = sheet.name.as_str();
        let path = kept_path(&firsts, name);
        let range = range_or_none(xml, path, name, asked, header_row)?;
        put_behind(alloc, &mut listed, name, range)?;
    }
    Ok(listed)
}

/// Reading all worksheets of an open workbook.
impl<P: Package> Xlsx<P> {
    /// For each sheet in order its name, and what `worksheet_range` answers for that name. Two
    /// sheets of one name both have the range of the first. A sheet whose range is refused is left
    /// out, but a fault of the package (`Io`) and want of memory are answered.
    ///
    /// # Examples
    ///
    /// Whether the values of all sheets are read, so that none is left out:
    ///
    /// ```
    /// let sheets = xlsx.worksheets()?;
    /// Ok(sheets.len() == xlsx.metadata().sheets.len())
    /// ```
    pub fn worksheets(&mut self) -> Result<Vec<(String, Range<Data>)>, XlsxError>
        ensures uses { let sheets = self.old.workbook.metadata.sheets.items in
            Uses (listed_events (path_of self.old) self.old.xml.source.parts sheets) Io result
            self.old.xml.source self.new.xml.source }
        ensures to_end { let old = self.old.xml.source in
            old.is_visible ≡ true → IfOk result (λ listed. let place = path_of self.old in
            CountsAtLeast (listed_data place old.parts listed.items) old.taken
            self.new.xml.source.taken) }
        ensures rest { KeepsWorkbook self.old self.new }
        ensures lists { self.old.xml.source.is_visible ≡ true →
            IfOk result (λ listed. AreListed (context_of_book self.old)
            self.old.workbook.header_row (path_of self.old) self.old.xml.source.parts
            self.old.workbook.metadata.sheets.items
            listed.items) }
        ensures err { IfErr result (SoundFails self.old.xml.source self.new.xml.source) }
    {
        let asked = asked_of(&self.workbook.shared, self.workbook.is_1904, Wants::VALUES);
        ranges_listed(
            &mut self.xml,
            &self.workbook.metadata.sheets,
            &self.workbook.paths,
            asked,
            self.workbook.header_row,
        )
    }
}
