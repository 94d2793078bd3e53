ghost use Rattle.xlsx_sections.specs.Words.{Answers};
ghost use Rattle.looks.specs.Words.{look_ask};
ghost use Rattle.xlsx_properties.specs.Errors.{IsPropertyError};
ghost use Rattle.xlsx_properties.specs.Kept.{properties_kept};
ghost use Rattle.xlsx_properties.specs.Parts.{properties_look};

use crate::keeping_texts::keep_part;
use crate::open_custom::CustomKeeper;
use crate::open_property::{PropertyKeeper, PropertyPart};
use crate::workbook_properties::WorkbookProperties;
use part_events::{Package, XlReader};
use xlsx_error::XlsxError;

/// The properties of a workbook: of `docProps/core.xml` those of all names, then of
/// `docProps/app.xml` the program's, of each the last text that isn't empty, and of
/// `docProps/custom.xml` those that users named. Each part may be absent, and is read to its end.
///
/// A part whose nesting breaks is `Xml(Break)` with the number of the event that breaks it, a
/// reference without a character in a text or in a user's name `Xml(Entity)` with the number of its
/// event, counted from 0, and a lookup of such a name that is refused `XmlAttr`.
pub fn read_properties<P: Package>(xml: &mut XlReader<P>) -> Result<WorkbookProperties, XlsxError>
    ensures answers { Answers (look_ask IsPropertyError properties_look) properties_kept result
        xml.old.source xml.new.source }
{
    let alloc = xml.alloc();
    let none = WorkbookProperties::new(alloc);
    let mut core = PropertyKeeper::new(alloc, PropertyPart::Core, none);
    keep_part(xml, "docProps/core.xml", &mut core)?;
    let mut program = PropertyKeeper::new(alloc, PropertyPart::Program, core.properties);
    keep_part(xml, "docProps/app.xml", &mut program)?;
    let mut custom = CustomKeeper::new(alloc, program.properties);
    keep_part(xml, "docProps/custom.xml", &mut custom)?;
    Ok(custom.properties)
}
