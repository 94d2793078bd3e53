ghost use Rattle.std.specs.Prelude.{◌≡◌, None, OnErr, IfOk, IfErr, IfSome, IsSomeAnd};
ghost use Rattle.part_events.specs.Words.{SameParts};
ghost use Rattle.xlsx_error.specs.declared.error.XlsxError.TheVariants.{OutOfMemory};
ghost use Rattle.xlsx_sections.specs.Words.{Answers, FailsBy};
ghost use Rattle.looks.specs.Words.{look_ask};
ghost use Rattle.xlsx_properties.specs.Errors.{IsPropertyError};
ghost use Rattle.xlsx_properties.specs.Kept.{AreSame, properties_kept};
ghost use Rattle.xlsx_properties.specs.Parts.{PropertiesCause, properties_look};
ghost use Rattle.xlsx_core.specs.Worksheets.{KeepsBook, KeepsWorkbook};

use crate::xlsx::Xlsx;
use part_events::Package;
use xlsx_error::XlsxError;
use xlsx_properties::{WorkbookProperties, read_properties};

/// The properties of an open workbook.
impl<P: Package> Xlsx<P> {
    /// The properties of the workbook, as `read_properties` reads them. They are read once and then
    /// kept, and each call answers a copy. A refusal keeps none.
    ///
    /// # Examples
    ///
    /// The title of the workbook, where it has one:
    ///
    /// ```
    /// let properties = xlsx.workbook_properties()?;
    /// match properties.get(Property::Title) {
    ///     Some(title) => Ok(Some(String::from_str(alloc, title)?)),
    ///     None => Ok(None),
    /// }
    /// ```
    pub fn workbook_properties(&mut self) -> Result<WorkbookProperties, XlsxError>
        ensures keeps { SameParts self.old.xml.source self.new.xml.source }
        ensures book { KeepsBook self.old self.new }
        ensures regions { self.new.workbook.lists.regions ≡ self.old.workbook.lists.regions }
        ensures tables { self.new.workbook.lists.tables ≡ self.old.workbook.lists.tables }
        ensures unchanged { OnErr result (KeepsWorkbook self.old self.new) }
        ensures kept { IfOk result (λ properties.
            IsSomeAnd self.new.workbook.lists.properties (AreSame properties)) }
        ensures again { IfSome self.old.workbook.lists.properties
            (λ kept. KeepsWorkbook self.old self.new
            × (self.new.xml.source ≡ self.old.xml.source)
            × IfOk result (AreSame kept) × IfErr result (λ error. error ≡ OutOfMemory)) }
        ensures answers { self.old.workbook.lists.properties ≡ None →
            Answers (look_ask IsPropertyError properties_look) properties_kept result
            self.old.xml.source self.new.xml.source }
        ensures err { IfErr result
            (FailsBy (PropertiesCause self.old.xml.source.parts) self.old.xml.source
            self.new.xml.source) }
        ensures kind { IfErr result IsPropertyError }
    {
        if let Some(kept) = &self.workbook.lists.properties {
            return Ok(kept.clone_in(self.xml.alloc())?);
        }
        let properties = read_properties(&mut self.xml)?;
        let copy = properties.clone_in(self.xml.alloc())?;
        self.workbook.lists.properties = Some(properties);
        Ok(copy)
    }
}
