ghost use Rattle.std.specs.Prelude.{◌≡◌, ◌<◌, length, true, Some, None, Ok, IfOk, OnOk, IfErr};
ghost use Rattle.std.specs.Option.{option_or};
ghost use Rattle.part_events.specs.Words.{tag_of, event_of, IsReading, IsAtElement, ReadsPart};
ghost use Rattle.part_events.specs.Words.{ahead, events_of, behind_start};
ghost use Rattle.xlsx_error.specs.declared.error.XlsxError.TheVariants.{Io};
ghost use Rattle.xlsx_sections.specs.Words.{or_earlier};
ghost use Rattle.xlsx_cells.specs.Counting.{IsRefused};
ghost use Rattle.xlsx_cells.specs.Head.{is_sheet_data, starts_data, dimension_area, dimensions_by};
ghost use Rattle.xlsx_cells.specs.Head.{dimensions_at, AreDimensions, other_by, other_at};
ghost use Rattle.xlsx_cells.specs.Head.{other_name, IsHeadStartRefused, LacksData, HeadFails};
ghost use Rattle.xlsx_cells.specs.Head.{IsHeadError, IfNoWorksheet};

use attr_text::RawAttributes;
use cell_refs::{Dimensions, get_dimension};
use part_events::{Package, PartEvent, StartTag, XlReader};
use std::alloc::Global;
use xlsx_error::XlsxError;

/// Whether an event is the start of a sheet's data.
fn starts_data(event: PartEvent<'_>) -> bool
    ensures { result ≡ starts_data (event_of event.entry) }
{
    match event {
        PartEvent::Start(tag) => tag.local_name() == "sheetData",
        _ => false,
    }
}

/// The area that the start of dimensions names.
fn area_of(tag: StartTag<'_>) -> Result<Dimensions, XlsxError>
    ensures ok { IfOk result (λ area. dimension_area (tag_of tag.entry) ≡ Ok (Some area)) }
    ensures err { IfErr result (IsRefused (λ refusal.
        dimension_area (tag_of tag.entry) ≡ Err refusal)) }
    ensures kind { IfErr result IsHeadError }
{
    match tag.raw_attr("ref")? {
        Some(text) => Ok(get_dimension(text)?),
        None => Err(XlsxError::UnexpectedNode("dimension")),
    }
}

/// What the starts before a sheet's data say.
#[derive(Debug, Drop)]
struct Head {
    dimensions: Option<Dimensions>,
    /// The local name of the first start that is no dimension.
    other: Option<String>,
}

impl Head {
    fn new() -> Head
        ensures dimensions { result.dimensions ≡ None }
        ensures other { other_name result ≡ None }
    {
        Head {
            dimensions: None,
            other: None,
        }
    }

    /// Takes a start that stands before the data.
    fn take_start(&mut self, alloc: Global, tag: StartTag<'_>) -> Result<(), XlsxError>
        ensures dimensions { let own = dimensions_by (tag_of tag.entry) in
            OnOk result (or_earlier self.old.dimensions own ≡ Ok self.new.dimensions) }
        ensures other { let own = other_by (tag_of tag.entry) in
            OnOk result (other_name self.new ≡ option_or (other_name self.old) own) }
        ensures err { IfErr result (IsHeadStartRefused (dimensions_by (tag_of tag.entry))) }
        ensures kind { IfErr result IsHeadError }
    {
        if tag.local_name() == "dimension" {
            self.dimensions = Some(area_of(tag)?);
        } else if self.other.is_none() {
            self.other = Some(String::from_str(alloc, tag.local_name())?);
        }
        Ok(())
    }

    /// Takes an event that stands before the data.
    fn take(&mut self, alloc: Global, event: PartEvent<'_>) -> Result<(), XlsxError>
        ensures dimensions { let own = dimensions_at (event_of event.entry) in
            OnOk result (or_earlier self.old.dimensions own ≡ Ok self.new.dimensions) }
        ensures other { let own = other_at (event_of event.entry) in
            OnOk result (other_name self.new ≡ option_or (other_name self.old) own) }
        ensures err { IfErr result (IsHeadStartRefused (dimensions_at (event_of event.entry))) }
        ensures kind { IfErr result IsHeadError }
    {
        match event {
            PartEvent::Start(tag) => self.take_start(alloc, tag),
            PartEvent::End(_)
            | PartEvent::Text(_)
            | PartEvent::CharData(_)
            | PartEvent::EntityRef(_)
            | PartEvent::Flaw(_)
            | PartEvent::Other => Ok(()),
        }
    }

    /// The refusal of a part that ends before the data.
    fn lacks_data(self) -> XlsxError
        ensures { LacksData (other_name self) result }
    {
        match self.other {
            Some(name) => XlsxError::NotAWorksheet(name),
            None => XlsxError::XmlEof("worksheet"),
        }
    }
}

/// Reads on behind the first start of a sheet's data (ECMA-376 part 1, 18.3.1.80), and answers the
/// sheet's dimensions: the area of the last `dimension` (18.3.1.35) before the data, and without
/// one both ends at row 0 and column 0.
///
/// A `dimension` without `ref` is refused as `UnexpectedNode`, one whose `ref` names no area by the
/// fault of that text, and one whose attributes end in a fault and have no `ref` as `XmlAttr`.
/// Where the part ends before the data, the refusal is `NotAWorksheet` with the local name of the
/// part's first start that is no `dimension`, and `XmlEof` where there is none. Where the nesting
/// breaks before, or a flaw stands there, it is `Xml(Break)` with the number of that event, counted
/// from 0.
pub fn enter_data<P: Package>(xml: &mut XlReader<P>) -> Result<Dimensions, XlsxError>
    requires reading { IsReading xml.old }
    ensures reads { ReadsPart Io result xml.old xml.new }
    ensures element { OnOk result (IsAtElement xml.new) }
    ensures deep { OnOk result (0 < length xml.new.names) }
    ensures found { xml.old.source.is_visible ≡ true →
        OnOk result (behind_start is_sheet_data (ahead xml.old) ≡ Some (ahead xml.new)) }
    ensures dimensions { xml.old.source.is_visible ≡ true →
        IfOk result (AreDimensions (ahead xml.old)) }
    ensures err { IfErr result (HeadFails xml.old xml.new) }
    ensures lacks { xml.old.source.is_visible ≡ true →
        IfErr result (IfNoWorksheet (xml.new.at ≡ length (events_of xml.old))) }
    ensures kind { IfErr result IsHeadError }
{
    let alloc = xml.alloc();
    let mut head = Head::new();
    'events: while xml.next()? {
        let event = xml.event();
        if starts_data(event) {
            return Ok(head.dimensions.unwrap_or_default());
        }
        head.take(alloc, event)?;
    }
    Err(head.lacks_data())
}
