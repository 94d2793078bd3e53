ghost use Rattle.std.specs.Prelude.{map};
ghost use Rattle.xlsx_comments.specs.CommentParts.{comments_kept};
ghost use Rattle.xlsx_comments.specs.Comments.{AreSheetCommentsError, sheet_comments_look};
ghost use Rattle.xlsx_sections.specs.Words.{Answers};
ghost use Rattle.xlsx_core.specs.NamedSheet.{named_sheet_ask};
ghost use Rattle.xlsx_core.specs.Worksheets.{path_of, KeepsWorkbook};

use crate::xlsx::Xlsx;
use part_events::Package;
use xlsx_comments::{Comments, read_sheet_comments};
use xlsx_error::XlsxError;

/// The comments of an open workbook.
impl<P: Package> Xlsx<P> {
    /// The comments of the first sheet of this name (ECMA-376 part 1, section 18.7), as
    /// `read_sheet_comments` reads them beside its part: for each part that the sheet's
    /// relationships lead to its comments, in order, and the names of their authors. A sheet that
    /// names no such part has none.
    ///
    /// Fails with `WorksheetNotFound` where no sheet has the name, and else as
    /// `read_sheet_comments`. Whether the package has the part of the sheet isn't asked.
    ///
    /// # Examples
    ///
    /// The texts of the comments, part by part:
    ///
    /// ```
    /// let mut texts = Vec::new(alloc);
    /// let parts = xlsx.comments_by_sheet_name(name)?;
    /// for part in &parts {
    ///     for comment in part.comments() {
    ///         texts.push(String::from_str(alloc, comment.text())?)?;
    ///     }
    /// }
    /// Ok(texts)
    /// ```
    pub fn comments_by_sheet_name(&mut self, name: &str) -> Result<Vec<Comments>, XlsxError>
        ensures answers { let ask = named_sheet_ask AreSheetCommentsError sheet_comments_look
            name.now (path_of self.old name.now) in
            Answers ask (λ all. map comments_kept all.items) result self.old.xml.source
            self.new.xml.source }
        ensures rest { KeepsWorkbook self.old self.new }
    {
        let path = self.worksheet_path(name)?;
        read_sheet_comments(&mut self.xml, path.as_str())
    }
}
