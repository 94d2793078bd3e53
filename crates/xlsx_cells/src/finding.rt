ghost use Rattle.std.specs.Prelude.{◌≡◌, ◌≤◌, ℕ, List, length, true, Option, option_map, IfOk};
ghost use Rattle.std.specs.Prelude.{OnOk, IfErr};
ghost use Rattle.part_events.specs.Words.{tag_of, event_of, IsReading, ReadsPart, Element};
ghost use Rattle.xlsx_error.specs.declared.error.XlsxError.TheVariants.{Io};
ghost use Rattle.xlsx_cells.specs.Counting.{AreKept, IsRefused, IsRowRefused, IsPositionError};
ghost use Rattle.xlsx_cells.specs.CellErrors.{IsFindError};
ghost use Rattle.xlsx_cells.specs.Finding.{Finds, FindsCellElement, StandsAtCell, FindFails};
ghost use Rattle.xlsx_cells.specs.Finding.{IsCutOff};
ghost use Rattle.xlsx_cells.specs.Marks.{Mark, cell_start, marks_of, behind_marks};
ghost use Rattle.xlsx_cells.specs.Position.{PassesMarks, NoCell};

use crate::counters::Counters;
use attr_text::local_name;
use part_events::{Package, PartEvent, StartTag, Step, XlReader};
use xlsx_error::XlsxError;

/// The start of a cell that an event is.
fn cell_start(event: PartEvent<'_>) -> Option<StartTag<'_>>
    ensures { option_map tag_of result ≡ cell_start (event_of event.entry) }
{
    match event {
        PartEvent::Start(tag) if tag.local_name() == "c" => Some(tag),
        _ => None,
    }
}

/// Passes an event that starts no cell.
fn pass(counters: &mut Counters, event: PartEvent<'_>) -> Result<(), XlsxError>
    ensures kept { OnOk result ((before : List Mark) → AreKept before counters.old →
        AreKept (behind_marks (marks_of (event_of event.entry)) before) counters.new) }
    ensures rows { OnOk result ((before : List Mark) →
        PassesMarks NoCell before (marks_of (event_of event.entry))) }
    ensures err { IfErr result (IsRefused (IsRowRefused (event_of event.entry))) }
    ensures kind { IfErr result IsPositionError }
{
    match event {
        PartEvent::Start(tag) => {
            if tag.local_name() == "row" {
                counters.start_row(tag)?;
            }
        }
        PartEvent::End(name) => {
            if local_name(name) == "row" {
                counters.end_row();
            }
        }
        PartEvent::Text(_)
        | PartEvent::CharData(_)
        | PartEvent::EntityRef(_)
        | PartEvent::Flaw(_)
        | PartEvent::Other => {}
    }
    Ok(())
}

/// Reads on to the start of the next cell of a sheet's data, whose element is number `base` of the
/// open ones, counted from 1. Answers the cell's position, its row and column counted from 0, and
/// None at the end of the data.
pub fn find_cell<P: Package>(
    xml: &mut XlReader<P>,
    base: usize,
    counters: &mut Counters,
) -> Result<Option<(u32, u32)>, XlsxError>
    requires reading { IsReading xml.old }
    requires within { base ≤ length xml.old.names }
    ensures reads { ReadsPart Io result xml.old xml.new }
    ensures stands { IfOk result (λ found. StandsAtCell base found xml.old xml.new) }
    ensures element { xml.old.source.is_visible ≡ true →
        IfOk result (λ found. FindsCellElement base found xml.old xml.new) }
    ensures finds { xml.old.source.is_visible ≡ true → (before : List Mark) →
        AreKept before counters.old →
        IfOk result (λ found. Finds before found base xml.old xml.new counters.new) }
    ensures err { IfErr result (λ error. (inner : Element → Option (List ℕ)) →
        FindFails inner counters.old base xml.old xml.new error) }
    ensures cut { IfErr result (IsCutOff NoCell counters.old base xml.old) }
    ensures kind { IfErr result IsFindError }
{
    'events: loop {
        match xml.next_inside(base)? {
            Step::Found => {}
            Step::Closed => return Ok(None),
            Step::Ended => return Err(XlsxError::XmlEof("sheetData")),
        }
        let event = xml.event();
        if let Some(tag) = cell_start(event) {
            return Ok(Some(counters.place(tag)?));
        }
        pass(counters, event)?;
    }
}
