ghost use Rattle.std.specs.Prelude.{◌≡◌, true, Ok, Some, codes, option_map, IfOk, IfErr};
ghost use Rattle.part_events.specs.Words.{IsReadingElement, ReadsElement, ahead, content};
ghost use Rattle.cell_data.specs.Words.{value_of_data_ref};
ghost use Rattle.xlsx_error.specs.declared.error.XlsxError.TheVariants.{Io};
ghost use Rattle.xlsx_sections.specs.Words.{ElementReadFails, always};
ghost use Rattle.xlsx_strings.specs.Strings.{end_in_string, IsStringError};
ghost use Rattle.xlsx_values.specs.ValueContext.{kind_of, context_of, IsValueError};
ghost use Rattle.xlsx_values.specs.Value.{first_event_value, joined_value, value_element};
ghost use Rattle.xlsx_values.specs.Value.{inline_value, end_in_first, end_in_value};

use crate::context::ValueContext;
use crate::text_value::{value_of_event, value_of_joined};
use crate::types::CellType;
use cell_data::{CellFormat, DataRef};
use part_events::{Package, Step, XlReader};
use xlsx_error::XlsxError;
use xlsx_sections::{read_element_text, read_to_end, skip_element_in};
use xlsx_strings::read_string;

/// The value of the `v` at whose start the reader stands, by its first event. Reads to its end.
#[tactic(auto, using(crate::proofs::ValuesRead::value_errors))]
fn read_first<P: Package>(
    xml: &mut XlReader<P>,
    book: ValueContext<'_>,
    format: CellFormat,
    typ: &CellType,
) -> Result<DataRef, XlsxError>
    requires element { IsReadingElement xml.old }
    ensures reads { ReadsElement Io result xml.old xml.new }
    ensures value { let context = context_of book.entry in
        let answer = first_event_value context format (kind_of typ.now) in
        xml.old.source.is_visible ≡ true → IfOk result (λ own.
        answer (content 0 (ahead xml.old)) ≡ Ok (value_of_data_ref own)) }
    ensures err { let answer = first_event_value (context_of book.entry) format (kind_of typ.now) in
        IfErr result (ElementReadFails end_in_first answer xml.old xml.new) }
    ensures kind { IfErr result IsValueError }
{
    let depth = xml.depth();
    match xml.next_inside(depth)? {
        Step::Found => {}
        Step::Closed => return Ok(DataRef::Empty),
        Step::Ended => return Err(XlsxError::XmlEof("v")),
    }
    let value = value_of_event(xml.alloc(), book, format, typ, xml.event())?;
    read_to_end(xml, depth, None)?;
    Ok(value)
}

/// The value of the `v` at whose start the reader stands, by its joined text. Reads to its end.
#[tactic(auto, using(crate::proofs::ValuesRead::value_errors))]
fn read_joined<P: Package>(xml: &mut XlReader<P>, typ: &CellType) -> Result<DataRef, XlsxError>
    requires element { IsReadingElement xml.old }
    ensures reads { ReadsElement Io result xml.old xml.new }
    ensures value { xml.old.source.is_visible ≡ true → IfOk result (λ own.
        joined_value (kind_of typ.now) (content 0 (ahead xml.old)) ≡ Ok (value_of_data_ref own)) }
    ensures err { IfErr result
        (ElementReadFails (always (codes "v")) (joined_value (kind_of typ.now)) xml.old xml.new) }
    ensures kind { IfErr result IsValueError }
{
    let alloc = xml.alloc();
    let mut text = String::new(alloc);
    read_element_text(xml, &mut text, false, "v")?;
    value_of_joined(alloc, typ, text)
}

/// The value of the `v` at whose start the reader stands, in a cell of this type, whose style has
/// this format (ECMA-376 part 1, section 18.3.1.96). There is none under an inline type. Reads to
/// its end.
///
/// # Errors
///
/// The text is none of the type (`Unexpected` for the place of a shared string, `Unrecognized`,
/// `CellError`, `ParseFloat`), or the type is unknown (`CellTAttribute`); a reference in it has no
/// character, its nesting breaks, or the part ends in it (`Xml`, `XmlEof`); the package fails
/// (`Io`); and want of memory.
#[tactic(auto, using(crate::proofs::ValuesRead::value_errors))]
pub fn read_value<P: Package>(
    xml: &mut XlReader<P>,
    book: ValueContext<'_>,
    format: CellFormat,
    typ: &CellType,
) -> Result<Option<DataRef>, XlsxError>
    requires element { IsReadingElement xml.old }
    ensures reads { ReadsElement Io result xml.old xml.new }
    ensures value { let answer = value_element (context_of book.entry) format (kind_of typ.now) in
        xml.old.source.is_visible ≡ true → IfOk result (λ found.
        answer (content 0 (ahead xml.old)) ≡ Ok (option_map value_of_data_ref found)) }
    ensures err { let kind = kind_of typ.now in
        let answer = value_element (context_of book.entry) format kind in
        IfErr result (ElementReadFails (end_in_value kind) answer xml.old xml.new) }
    ensures kind { IfErr result IsValueError }
{
    match typ {
        CellType::Inline => {
            skip_element_in(xml, None)?;
            Ok(None)
        }
        CellType::Text | CellType::Date | CellType::Unknown(_) => {
            Ok(Some(read_joined(xml, typ)?))
        }
        CellType::Untyped
        | CellType::Number
        | CellType::Shared
        | CellType::Truth
        | CellType::Error => { Ok(Some(read_first(xml, book, format, typ)?)) }
    }
}

/// The value of the `is` at whose start the reader stands, which is its text (ECMA-376 part 1,
/// section 18.3.1.53). Reads to its end.
///
/// # Errors
///
/// A lookup of its attributes is refused (`XmlAttr`), a reference in it has no character, its
/// nesting breaks, or the part ends in it (`Xml`, `XmlEof`); the package fails (`Io`); and want of
/// memory.
pub fn read_inline<P: Package>(xml: &mut XlReader<P>) -> Result<DataRef, XlsxError>
    requires element { IsReadingElement xml.old }
    ensures reads { ReadsElement Io result xml.old xml.new }
    ensures value { xml.old.source.is_visible ≡ true → IfOk result (λ own.
        inline_value (content 0 (ahead xml.old)) ≡ Ok (value_of_data_ref own)) }
    ensures err { IfErr result (ElementReadFails end_in_string inline_value xml.old xml.new) }
    ensures kind { IfErr result IsStringError }
{
    let alloc = xml.alloc();
    let mut text = String::new(alloc);
    let mut scratch = String::new(alloc);
    read_string(xml, &mut text, &mut scratch)?;
    Ok(DataRef::String(text))
}
