ghost use Rattle.std.specs.Prelude.{◌≡◌, [], map, true, false, unwrap_or, string_bytes, IfOk, OnOk};
ghost use Rattle.std.specs.Prelude.{IfErr};
ghost use Rattle.std.specs.Arc.{arc_str_bytes};
ghost use Rattle.part_events.specs.Words.{Uses, CountsUp};
ghost use Rattle.xlsx_error.specs.declared.error.XlsxError.TheVariants.{Io};
ghost use Rattle.xlsx_workbook.specs.Words.{workbook_part, relationships_part};
ghost use Rattle.xlsx_open.specs.Opening.{Opening, HoldsOpening, OpensAs, IsOpeningError};
ghost use Rattle.xlsx_open.specs.Opening.{OpensPackage, WorkbookOpens, WorkbookFails, BookOpens};
ghost use Rattle.xlsx_open.specs.Opening.{BookFails, OpeningFails, workbook_events, book_events};
ghost use Rattle.xlsx_open.specs.Opening.{workbook_sections, TakesBook, LiesIn, scopes_at};
ghost use Rattle.xlsx_open.specs.Opening.{HasScopes};
ghost use Rattle.xlsx_relationships.specs.Words.{folder_of};
ghost use Rattle.xlsx_open.specs.SharedParts.{shared_said};

use crate::shared_parts::{SharedParts, read_shared};
use part_events::{Package, XlReader};
use std::alloc::{AllocError, Global};
use std::sync::ArcStr;
use xlsx_error::XlsxError;
use xlsx_relationships::{folder_of, joined, read_path, read_relationships};
use xlsx_workbook::{
    Metadata, NameScope, PartPath, SheetPlaces, WorkbookContents, file_of, read_contents,
};

fn workbook_part(alloc: Global, path: &str) -> Result<String, AllocError>
    ensures { IfOk result (λ part. string_bytes part ≡ workbook_part path.now) }
{
    joined(alloc, folder_of(path), file_of(path))
}

fn relationships_part(alloc: Global, path: &str) -> Result<String, AllocError>
    ensures { IfOk result (λ part. string_bytes part ≡ relationships_part path.now) }
{
    let mut part = joined(alloc, folder_of(path), "_rels/")?;
    part.push_str(file_of(path))?;
    part.push_str(".rels")?;
    Ok(part)
}

/// A workbook that was opened.
#[derive(Debug, Drop)]
pub struct Opened {
    pub metadata: Metadata,
    /// The scope of each defined name, in the order of the names.
    pub scopes: Vec<NameScope>,
    /// The path of the part of each sheet, in the order of the sheets.
    pub paths: Vec<PartPath>,
    /// The folder of the workbook's part, with the slash at its end.
    pub folder: ArcStr,
    /// The shared strings, the theme and the styles.
    pub shared: SharedParts,
    pub is_1904: bool,
}

fn from_contents(
    alloc: Global,
    contents: WorkbookContents,
    folder: ArcStr,
    shared: SharedParts,
) -> Result<Opened, AllocError>
    ensures sheets { IfOk result (λ o.
        o.metadata.sheets.items ≡ map (λ entry. entry.sheet) contents.entries.items) }
    ensures paths { IfOk result (λ o.
        o.paths.items ≡ map (λ entry. entry.path) contents.entries.items) }
    ensures names { IfOk result (λ o. o.metadata.names.items ≡ contents.names.items) }
    ensures scopes { IfOk result (λ o. o.scopes.items ≡ contents.scopes.items) }
    ensures folder { IfOk result (λ o. o.folder ≡ folder) }
    ensures shared { IfOk result (λ o. o.shared ≡ shared) }
    ensures epoch { IfOk result (λ o. o.is_1904 ≡ unwrap_or contents.epoch false) }
{
    let mut sheets = Vec::new(alloc);
    let mut paths = Vec::new(alloc);
    for entry in contents.entries {
        sheets.push(entry.sheet)?;
        paths.push(entry.path)?;
    }
    Ok(Opened {
        metadata: Metadata {
            sheets,
            names: contents.names,
        },
        scopes: contents.scopes,
        paths,
        folder,
        shared,
        is_1904: contents.epoch.unwrap_or(false),
    })
}

/// What a workbook without a part of its own opens as.
fn nothing_opened(alloc: Global, folder: ArcStr, shared: SharedParts) -> Opened
    ensures opened { HoldsOpening result.metadata result.paths.items result.shared result.is_1904
        (record { sheets = []; names = []; shared = shared_said shared; is_1904 = false }) }
    ensures scopes { result.scopes.items ≡ [] }
    ensures folder { result.folder ≡ folder }
{
    Opened {
        metadata: Metadata {
            sheets: Vec::new(alloc),
            names: Vec::new(alloc),
        },
        scopes: Vec::new(alloc),
        paths: Vec::new(alloc),
        folder,
        shared,
        is_1904: false,
    }
}

/// The workbook at this path, whose sheets share this.
fn open_workbook<P: Package>(
    xml: &mut XlReader<P>,
    path: &str,
    shared: SharedParts,
) -> Result<Opened, XlsxError>
    ensures uses { Uses (workbook_events xml.old.source.parts path.now) Io result xml.old.source
        xml.new.source }
    ensures to_end { let old = xml.old.source in
        let count = workbook_sections old.parts path.now in
        old.is_visible ≡ true → OnOk result (CountsUp count old.taken xml.new.source.taken) }
    ensures opened { xml.old.source.is_visible ≡ true → IfOk result (λ o. (opening : Opening)
        × HoldsOpening o.metadata o.paths.items o.shared o.is_1904 opening
        × (opening.shared ≡ shared_said shared)
        × WorkbookOpens xml.old.source.parts path.now opening) }
    ensures scopes { let old = xml.old.source in
        old.is_visible ≡ true → IfOk result (λ o.
        o.scopes.items ≡ scopes_at old.parts (workbook_part path.now)) }
    ensures folder { IfOk result (λ o. arc_str_bytes o.folder ≡ folder_of path.now) }
    ensures err { IfErr result (WorkbookFails path.now xml.old.source xml.new.source) }
    ensures kind { IfErr result IsOpeningError }
{
    let alloc = xml.alloc();
    let part = relationships_part(alloc, path)?;
    let relationships = read_relationships(xml, part.as_str())?;
    let part = workbook_part(alloc, path)?;
    let folder = ArcStr::from_str(alloc, folder_of(path))?;
    let places = SheetPlaces {
        folder: &folder,
        relationships: &relationships,
    };
    match read_contents(xml, part.as_str(), places)? {
        Some(contents) => Ok(from_contents(alloc, contents, folder, shared)?),
        None => Ok(nothing_opened(alloc, folder, shared)),
    }
}

/// The workbook at this path, with what its sheets share.
fn open_at<P: Package>(xml: &mut XlReader<P>, path: &str) -> Result<Opened, XlsxError>
    ensures uses { Uses (book_events xml.old.source.parts path.now) Io result xml.old.source
        xml.new.source }
    ensures to_end { let old = xml.old.source in
        old.is_visible ≡ true →
        OnOk result (TakesBook old.parts path.now old.taken xml.new.source.taken) }
    ensures opened { xml.old.source.is_visible ≡ true → IfOk result (λ o. (opening : Opening)
        × HoldsOpening o.metadata o.paths.items o.shared o.is_1904 opening
        × BookOpens xml.old.source.parts path.now opening) }
    ensures scopes { let old = xml.old.source in
        old.is_visible ≡ true → IfOk result (λ o.
        o.scopes.items ≡ scopes_at old.parts (workbook_part path.now)) }
    ensures folder { IfOk result (λ o. arc_str_bytes o.folder ≡ folder_of path.now) }
    ensures err { IfErr result (BookFails path.now xml.old.source xml.new.source) }
    ensures kind { IfErr result IsOpeningError }
{
    let shared = read_shared(xml, path)?;
    open_workbook(xml, path, shared)
}

/// The workbook of a package.
///
/// The package's relationships lead to it, the last one to an office document with a target being
/// taken. Relationships of the workbook are by Id, of which the last stands. Each section is read
/// to its end and no further. (ECMA-376 part 2, section 9.3, and part 1, sections 18.2, 18.4 and
/// 18.8.)
///
/// The shared strings are read first, then the theme and the styles, each of which may be absent.
/// They stand in the folder of the workbook. The default theme stands for a faulty one.
///
/// Fails with `FileNotFound` where the package's relationships or the workbook's have no part.
/// Fails with `RelationshipNotFound` where no relationship leads to a workbook or to one of its
/// sheets, and with `Unrecognized` where the state or the type of a sheet is none. Else a part that
/// can't be read gives the refusal, which is `Xml`, `XmlAttr` or `XmlEof`.
pub fn open<P: Package>(xml: &mut XlReader<P>) -> Result<Opened, XlsxError>
    ensures uses { OpensPackage Io result xml.old.source xml.new.source }
    ensures opens { xml.old.source.is_visible ≡ true → IfOk result (λ o. (opening : Opening)
        × HoldsOpening o.metadata o.paths.items o.shared o.is_1904 opening
        × OpensAs xml.old.source.parts opening) }
    ensures folder { xml.old.source.is_visible ≡ true →
        IfOk result (λ o. LiesIn xml.old.source.parts (arc_str_bytes o.folder)) }
    ensures scopes { xml.old.source.is_visible ≡ true →
        IfOk result (λ o. HasScopes xml.old.source.parts o.scopes.items) }
    ensures err { IfErr result (OpeningFails xml.old.source xml.new.source) }
    ensures kind { IfErr result IsOpeningError }
{
    let path = read_path(xml, "_rels/.rels")?;
    open_at(xml, path.as_str())
}
