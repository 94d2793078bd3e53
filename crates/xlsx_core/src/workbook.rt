ghost use Rattle.std.specs.Prelude.{◌≡◌, IfOk, IfErr};
ghost use Rattle.part_events.specs.Words.{LentFails, Uses};
ghost use Rattle.xlsx_error.specs.declared.error.XlsxError.TheVariants.{Io};
ghost use Rattle.xlsx_cells.specs.Words.{area_held, context_by, reference_of, stream_by};
ghost use Rattle.xlsx_cells.specs.Words.{styles_held, stream, IsStreaming};
ghost use Rattle.xlsx_core.specs.Apart.{first_sheet_path, context_in, palette_in};
ghost use Rattle.xlsx_core.specs.SheetReading.{placed_events, PlacedHeadFails, IsPlacedHeadError};
ghost use Rattle.xlsx_core.specs.Worksheets.{EntersSheet, ReaderFails};

use crate::lists::Lists;
use crate::placed_sheet::{open_placed, path_named};
use cell_data::HeaderRow;
use cell_refs::Dimensions;
use part_events::{Package, XlReader};
use std::sync::ArcStr;
use xlsx_cells::{SheetCursor, XlsxCellReader};
use xlsx_error::XlsxError;
use xlsx_open::{Metadata, NameScope, PartPath, SharedParts};

/// What is known of an open workbook beside its package: what it was opened as, the header row that
/// was set, and the lists that were loaded.
///
/// A reader of cells borrows it and may change nothing of it. So whoever has to know what the
/// workbook is once the reader is gone takes it apart (`Xlsx::into_parts`), reads, and puts it
/// together again (`Xlsx::from_parts`).
#[derive(Drop)]
pub struct Workbook {
    pub(crate) metadata: Metadata,
    pub(crate) scopes: Vec<NameScope>,
    pub(crate) paths: Vec<PartPath>,
    pub(crate) folder: ArcStr,
    pub(crate) shared: SharedParts,
    pub(crate) is_1904: bool,
    pub(crate) header_row: HeaderRow,
    pub(crate) lists: Lists,
}

/// Reading the cells of a worksheet by a reader that is lent beside the workbook.
impl Workbook {
    /// Enters the data of the first sheet of this name (ECMA-376 part 1, 18.3.1.80), and answers
    /// where reading stands behind their start, and the sheet's dimensions. The reader is lent for
    /// this call alone, so its clauses say what a refusal leaves. `resume_worksheet` goes on from
    /// there.
    ///
    /// Fails with `WorksheetNotFound` where no sheet has the name or the first such sheet has no
    /// part, with `NotAWorksheet` where its part is none, and else as `XlsxCellReader::new`.
    pub fn enter_worksheet<P: Package>(
        &self,
        xml: &mut XlReader<P>,
        name: &str,
    ) -> Result<(SheetCursor, Dimensions), XlsxError>
        ensures uses { Uses (placed_events (first_sheet_path self.now name.now)
            xml.old.source.parts)
            Io result xml.old.source xml.new.source }
        ensures enters { IfOk result (λ entered. EntersSheet (first_sheet_path self.now name.now)
            entered.1
            xml.old.source (stream xml.new entered.0)) }
        ensures err { IfErr result (PlacedHeadFails name.now (first_sheet_path self.now name.now)
            xml.old.source xml.new.source) }
        ensures kind { IfErr result (IsPlacedHeadError name.now) }
    {
        let path = path_named(&self.metadata.sheets, &self.paths, name);
        open_placed(xml, path, name)
    }

    /// A reader of the cells of a sheet of this workbook with these dimensions, that goes on where
    /// reading stands, by this very reader.
    pub fn resume_worksheet<'a, P: Package>(
        &'a self,
        xml: &'a mut XlReader<P>,
        sheet: SheetCursor,
        dimensions: Dimensions,
    ) -> XlsxCellReader<'a, P>
        requires { IsStreaming (stream xml.old sheet) }
        ensures same_reference { reference_of result ≡ xml.entry.ghost_name }
        ensures same { result.xml.now ≡ xml.old }
        ensures context { context_by result ≡ context_in self.now }
        ensures styles { styles_held result ≡ palette_in self.now }
        ensures dimensions { area_held result ≡ dimensions }
        ensures stream { stream_by result ≡ stream xml.old sheet }
    {
        XlsxCellReader::resume(
            xml,
            &self.shared.strings,
            &self.shared.style_sheet.formats,
            &self.shared.style_sheet.styles,
            self.is_1904,
            sheet,
            dimensions,
        )
    }

    /// A reader of the cells of the first sheet of this name, which stands behind the start of its
    /// data and has taken nothing of them: `enter_worksheet` and then `resume_worksheet`. Whoever
    /// has to know what a refusal leaves makes these two calls.
    ///
    /// It is refused as `enter_worksheet` is.
    pub fn worksheet_cells_reader<'a, P: Package>(
        &'a self,
        xml: &'a mut XlReader<P>,
        name: &str,
    ) -> Result<XlsxCellReader<'a, P>, XlsxError>
        ensures same_reference { IfOk result (λ reader.
            reference_of reader ≡ xml.entry.ghost_name) }
        ensures enters { IfOk result (λ reader. EntersSheet (first_sheet_path self.now name.now)
            (area_held reader) xml.old.source (stream_by reader)) }
        ensures context { IfOk result (λ reader. context_by reader ≡ context_in self.now) }
        ensures styles { IfOk result (λ reader. styles_held reader ≡ palette_in self.now) }
        ensures err { IfErr result (ReaderFails name.now (first_sheet_path self.now name.now)
            xml.old.source) }
        ensures fault { IfErr result (LentFails Io P.state xml.old.source) }
        ensures kind { IfErr result (IsPlacedHeadError name.now) }
    {
        match self.enter_worksheet(xml, name) {
            Ok((sheet, dimensions)) => Ok(self.resume_worksheet(xml, sheet, dimensions)),
            Err(error) => {
                xml.holds_package();
                Err(error)
            }
        }
    }
}
