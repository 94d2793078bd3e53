ghost use Rattle.std.specs.Prelude.{◌≡◌, true, None, map, option_map, slice_get, string_bytes};
ghost use Rattle.std.specs.Prelude.{MatchResult, IfOk, IfErr};
ghost use Rattle.std.specs.Arc.{arc_str_bytes};
ghost use Rattle.xlsx_error.specs.declared.error.XlsxError.TheVariants.{Io};
ghost use Rattle.xlsx_open.specs.Words.{OpensSoundly, IsOpeningError, OpensFrom, FailsToOpen};
ghost use Rattle.xlsx_open.specs.Words.{OpeningFails, LiesIn, TellsScopes};
ghost use Rattle.xlsx_sections.specs.Words.{SoundFails};
ghost use Rattle.xlsx_core.specs.Apart.{OpensInto};

use crate::lists::Lists;
use crate::workbook::Workbook;
use cell_data::HeaderRow;
use cell_styles::Style;
use part_events::{Package, XlReader};
use std::alloc::Global;
use xlsx_error::XlsxError;
use xlsx_open::{Metadata, NameScope, open};

/// An open workbook, and the package that it is read from.
#[derive(Drop)]
pub struct Xlsx<P: Package> {
    pub(crate) xml: XlReader<P>,
    pub(crate) workbook: Workbook,
}

/// Why a workbook could not be opened, with the package that was handed in.
#[derive(Drop)]
pub struct OpenFailure<P: Package> {
    pub error: XlsxError,
    pub package: P,
}

impl<P: Package> Xlsx<P> {
    ghost use Rattle.cell_data.specs.declared.value.HeaderRow.TheVariants.{FirstNonEmptyRow};
    ghost use Rattle.xlsx_core.specs.Worksheets.{SetsHeaderRow};

    /// Opens the workbook of a package, as ECMA-376 part 2, section 9.3 (relationships) and part 1,
    /// section 18.2 (workbook) have it. A refusal hands the package back, with the same parts.
    ///
    /// The package's relationships lead to the workbook, the last one to an office document with a
    /// target being taken. Relationships of the workbook are by Id, of which the last stands. Each
    /// section is read to its end and no further.
    ///
    /// The shared strings are read first, then the theme and the styles (sections 18.4, 20.1.6 and
    /// 18.8), each of which may be absent. A faulty theme refuses nothing.
    ///
    /// Fails with `FileNotFound` where the package's relationships or the workbook's have no part.
    /// Fails with `RelationshipNotFound` where no relationship leads to a workbook or to one of its
    /// sheets, and with `Unrecognized` where the state or the type of a sheet is none. Else a part
    /// that can't be read gives the refusal, which is `Xml`, `XmlAttr` or `XmlEof`.
    ///
    /// # Examples
    ///
    /// An open workbook whose ranges of values begin with a row, counted from 0:
    ///
    /// ```
    /// let mut xlsx = Xlsx::new(alloc, package)?;
    /// xlsx.with_header_row(HeaderRow::Row(row));
    /// Ok(xlsx)
    /// ```
    pub fn new(alloc: Global, package: P) -> Result<Xlsx<P>, OpenFailure<P>>
        ensures uses { MatchResult result (λ xlsx. OpensFrom (P.state «package») xlsx.xml.source)
            (λ failure. FailsToOpen Io (P.state «package») (P.state failure.package) failure.error) }
        ensures opens { let old = P.state «package» in
            old.is_visible ≡ true → IfOk result (λ xlsx. OpensInto old.parts xlsx.workbook) }
        ensures folder { let old = P.state «package» in
            old.is_visible ≡ true → IfOk result (λ xlsx.
            LiesIn old.parts (arc_str_bytes xlsx.workbook.folder)) }
        ensures scopes { IfOk result (λ xlsx. TellsScopes (P.state «package»)
            xlsx.workbook.scopes.items) }
        ensures header_row { IfOk result (λ xlsx. xlsx.workbook.header_row ≡ FirstNonEmptyRow) }
        ensures regions { IfOk result (λ xlsx. xlsx.workbook.lists.regions ≡ None) }
        ensures properties { IfOk result (λ xlsx. xlsx.workbook.lists.properties ≡ None) }
        ensures tables { IfOk result (λ xlsx. xlsx.workbook.lists.tables ≡ None) }
        ensures err { IfErr result (λ failure.
            OpeningFails (P.state «package») (P.state failure.package) failure.error) }
        ensures kind { IfErr result (λ failure. IsOpeningError failure.error) }
        ensures sound { let old = P.state «package» in
            old.is_visible ≡ true → OpensSoundly old.parts → IfErr result (λ failure.
            SoundFails old (P.state failure.package) failure.error) }
    {
        let mut xml = XlReader::new(alloc, package);
        match open(&mut xml) {
            Ok(opened) => Ok(Xlsx {
                xml,
                workbook: Workbook {
                    metadata: opened.metadata,
                    scopes: opened.scopes,
                    paths: opened.paths,
                    folder: opened.folder,
                    shared: opened.shared,
                    is_1904: opened.is_1904,
                    header_row: HeaderRow::FirstNonEmptyRow,
                    lists: Lists::new(),
                },
            }),
            Err(error) => Err(OpenFailure {
                error,
                package: xml.into_package(),
            }),
        }
    }

    /// Sets where ranges of values begin: with their first row that has a value, as after opening,
    /// or with a row counted from 0.
    ///
    /// # Examples
    ///
    /// A workbook that was just opened, whose ranges begin with a row, counted from 0:
    ///
    /// ```
    /// let mut xlsx = Xlsx::new(alloc, package)?;
    /// xlsx.with_header_row(HeaderRow::Row(row));
    /// Ok(xlsx)
    /// ```
    pub fn with_header_row(&mut self, header_row: HeaderRow) -> &mut Self
        ensures same_reference { result.ghost_name ≡ self.entry.ghost_name }
        ensures sets { SetsHeaderRow header_row self.old result.now }
    {
        self.workbook.header_row = header_row;
        self
    }

    /// The package, as it is now.
    pub fn into_package(self) -> P
        ensures { P.state result ≡ self.xml.source }
    {
        let Xlsx { xml, workbook: _ } = self;
        xml.into_package()
    }

    /// The reader of the package, and what is known of the workbook beside it.
    ///
    /// # Examples
    ///
    /// A sheet is read by a reader that borrows the workbook, and then a table of the same
    /// workbook:
    ///
    /// ```
    /// let (mut xml, workbook) = xlsx.into_parts();
    /// let place = first_place(&mut xml, &workbook, sheet_name);
    /// let mut xlsx = Xlsx::from_parts(xml, workbook);
    /// let table = xlsx.table_by_name(table_name);
    /// ```
    pub fn into_parts(self) -> (XlReader<P>, Workbook)
        ensures kept { result.0 ≡ self.xml }
        ensures workbook { result.1 ≡ self.workbook }
    {
        let Xlsx { xml, workbook } = self;
        (xml, workbook)
    }

    /// The workbook of which this is known, over the package of this reader.
    pub fn from_parts(xml: XlReader<P>, workbook: Workbook) -> Xlsx<P>
        ensures kept { result.xml ≡ xml }
        ensures workbook { result.workbook ≡ workbook }
    {
        Xlsx { xml, workbook }
    }

    /// How often a call of the package failed.
    pub fn faults(&self) -> u64
        ensures { result ≡ self.now.xml.source.faults }
    {
        self.xml.faults()
    }

    /// The shared string at this index, counted from 0.
    pub fn shared_string(&self, index: usize) -> Option<&str>
        ensures { option_map (λ text. text.now) result
            ≡ slice_get (map string_bytes self.now.workbook.shared.strings.items) index }
    {
        Some(self.workbook.shared.strings.get(index)?.as_str())
    }

    /// The styles that the style ids of cells name, by these ids.
    pub fn styles(&self) -> &[Style]
        ensures { result.now ≡ self.now.workbook.shared.style_sheet.styles.items }
    {
        &self.workbook.shared.style_sheet.styles
    }

    /// Whether the styles name their colors by the default theme, because the workbook's theme is
    /// absent or faulty, or has fewer than four colors.
    pub fn theme_defaulted(&self) -> bool
        ensures { result ≡ self.now.workbook.shared.theme_defaulted }
    {
        self.workbook.shared.theme_defaulted
    }

    /// Whether dates count from 1904, and not from 1900.
    pub fn has_1904_epoch(&self) -> bool
        ensures { result ≡ self.now.workbook.is_1904 }
    {
        self.workbook.is_1904
    }

    /// The sheets, in order, and the defined names.
    ///
    /// # Examples
    ///
    /// Whether the values of all sheets are read:
    ///
    /// ```
    /// let sheets = xlsx.worksheets()?;
    /// Ok(sheets.len() == xlsx.metadata().sheets.len())
    /// ```
    pub fn metadata(&self) -> &Metadata
        ensures { result.now ≡ self.now.workbook.metadata }
    {
        &self.workbook.metadata
    }

    /// Which sheets see each defined name, in the order of the names (ECMA-376 part 1, section
    /// 18.2.5).
    pub fn name_scopes(&self) -> &[NameScope]
        ensures { result.now ≡ self.now.workbook.scopes.items }
    {
        &self.workbook.scopes
    }
}
