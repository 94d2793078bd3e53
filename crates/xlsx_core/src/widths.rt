ghost use Rattle.xlsx_sections.specs.Words.{Answers};
ghost use Rattle.xlsx_widths.specs.Widths.{IsWidthsError, sheet_widths_look, widths_kept};
ghost use Rattle.xlsx_core.specs.NamedSheet.{named_sheet_ask};
ghost use Rattle.xlsx_core.specs.Worksheets.{path_of, KeepsWorkbook};

use crate::xlsx::Xlsx;
use part_events::Package;
use xlsx_error::XlsxError;
use xlsx_widths::{Widths, read_sheet_widths};

/// The widths of columns of an open workbook.
impl<P: Package> Xlsx<P> {
    /// How wide the columns of the first sheet of this name are, and which of its columns and rows
    /// are hidden (ECMA-376 part 1, sections 18.3.1.13, 18.3.1.17 and 18.3.1.73), as
    /// `read_sheet_widths` reads them in its part.
    ///
    /// Fails with `WorksheetNotFound` where no sheet has the name, and else as
    /// `read_sheet_widths`.
    pub fn widths_by_sheet_name(&mut self, name: &str) -> Result<Widths, XlsxError>
        ensures answers { let ask = named_sheet_ask IsWidthsError sheet_widths_look name.now
            (path_of self.old name.now) in
            Answers ask widths_kept result self.old.xml.source self.new.xml.source }
        ensures rest { KeepsWorkbook self.old self.new }
    {
        let path = self.worksheet_path(name)?;
        read_sheet_widths(&mut self.xml, path.as_str())
    }
}
