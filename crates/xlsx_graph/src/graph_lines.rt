//! The lines of a workbook's graph (docs/FORMAT.md).
ghost use Rattle.std.specs.Prelude.{◌≡◌, ◌<◌, ◌≤◌, ◌++◌, [], List, length, map, string_bytes, OnOk};
ghost use Rattle.std.specs.Prelude.{OnErr, Some};
ghost use Rattle.std.specs.List.{flat_map, slice_get, slice_index_or};
ghost use Rattle.escaped_text.specs.Escaped.{AddsBehind, escaped};
ghost use Rattle.list_lines.specs.Fields.{next_field};
ghost use Rattle.xlsx_graph.specs.Graph.{GraphFormula};
ghost use Rattle.xlsx_graph.specs.GraphLines.{book_area_field, cause_text, cell_text, doubled};
ghost use Rattle.xlsx_graph.specs.GraphLines.{graph_line, graph_lines, open_field, sheet_text};
ghost use Rattle.xlsx_graph.specs.GraphLines.{sheets_text};
ghost use Rattle.xlsx_graph.specs.Told.{open_told};

use crate::named::{BookArea, Cause, OpenWord, Standing};
use crate::reference::{push_corners, push_position};
use crate::word::split_first;
use crate::workbook_graph::WorkbookGraph;
use book_names::BookNames;
use escaped_text::{or_cut_back, push_escaped};
use std::alloc::AllocError;

/// Appends a text, escaped, with its apostrophes doubled.
fn push_doubled(out: &mut String, text: &str) -> Result<(), AllocError>
    ensures ok { OnOk result
        (string_bytes out.new ≡ string_bytes out.old ++ escaped (doubled text.now)) }
    ensures err { OnErr result (AddsBehind (string_bytes out.old) (string_bytes out.new)) }
{
    let mut rest = text;
    'parts: while let Some((before, behind)) = split_first(rest) {
        push_escaped(out, before)?;
        out.push_str("''")?;
        rest = behind;
    }
    push_escaped(out, rest)
}

/// The name of the sheet of a number, or nothing where there is none.
fn sheet_name(book: &BookNames, sheet: usize) -> &str
    ensures { result.now ≡ slice_index_or book.now.sheets sheet [] }
{
    match book.sheet_names().get(sheet) {
        Some(name) => name.as_str(),
        None => "",
    }
}

/// Appends the name of a sheet in apostrophes.
fn push_sheet(out: &mut String, book: &BookNames, sheet: usize) -> Result<(), AllocError>
    ensures ok { OnOk result
        (string_bytes out.new ≡ string_bytes out.old ++ sheet_text book.now sheet) }
    ensures err { OnErr result (AddsBehind (string_bytes out.old) (string_bytes out.new)) }
{
    out.push_str("'")?;
    push_doubled(out, sheet_name(book, sheet))?;
    out.push_str("'")
}

/// Appends a cell of a sheet.
pub(crate) fn push_cell(
    out: &mut String,
    book: &BookNames,
    cell: Standing,
) -> Result<(), AllocError>
    ensures ok { OnOk result
        (string_bytes out.new ≡ string_bytes out.old ++ cell_text book.now cell) }
    ensures err { OnErr result (AddsBehind (string_bytes out.old) (string_bytes out.new)) }
{
    push_sheet(out, book, cell.sheet)?;
    out.push_str("!")?;
    push_position(out, cell.row, cell.column)
}

/// Appends the sheets of an area.
fn push_sheets(out: &mut String, book: &BookNames, area: BookArea) -> Result<(), AllocError>
    ensures ok { OnOk result
        (string_bytes out.new ≡ string_bytes out.old ++ sheets_text book.now area) }
    ensures err { OnErr result (AddsBehind (string_bytes out.old) (string_bytes out.new)) }
{
    if area.first == area.last {
        return push_sheet(out, book, area.first);
    }
    push_sheet(out, book, area.first)?;
    out.push_str(":")?;
    push_sheet(out, book, area.last)
}

/// Appends an area on its sheets, behind a mark where its place alone is asked for.
fn push_area(out: &mut String, book: &BookNames, area: BookArea) -> Result<(), AllocError>
    ensures ok { OnOk result
        (string_bytes out.new ≡ string_bytes out.old ++ book_area_field book.now area) }
    ensures err { OnErr result (AddsBehind (string_bytes out.old) (string_bytes out.new)) }
{
    out.push_str(if area.is_valued { "" } else { "~" })?;
    push_sheets(out, book, area)?;
    out.push_str("!")?;
    push_corners(out, area.area)
}

/// Appends areas, each behind a tab.
fn push_areas(out: &mut String, book: &BookNames, areas: &[BookArea]) -> Result<(), AllocError>
    ensures ok { OnOk result (string_bytes out.new ≡ string_bytes out.old
        ++ flat_map (λ a. next_field (book_area_field book.now a)) areas.now) }
    ensures err { OnErr result (AddsBehind (string_bytes out.old) (string_bytes out.new)) }
{
    for area in areas {
        out.push_str("\t")?;
        push_area(out, book, *area)?;
    }
    Ok(())
}

/// Why a word is left open.
fn cause_text(cause: Cause) -> &'static str
    ensures { result.now ≡ cause_text cause }
{
    match cause {
        Cause::Computed => "computed",
        Cause::External => "external",
        Cause::Gone => "gone",
        Cause::NoSheet => "sheet",
        Cause::NoName => "name",
        Cause::NoTable => "table",
        Cause::NoColumn => "column",
        Cause::Endless => "endless",
        Cause::NoRange => "range",
        Cause::NotRead => "text",
    }
}

/// Appends a word that is left open, behind its cause.
fn push_open(out: &mut String, word: &OpenWord) -> Result<(), AllocError>
    ensures ok { OnOk result
        (string_bytes out.new ≡ string_bytes out.old ++ open_field (open_told word.now)) }
    ensures err { OnErr result (AddsBehind (string_bytes out.old) (string_bytes out.new)) }
{
    out.push_str("?")?;
    out.push_str(cause_text(word.cause))?;
    out.push_str(" ")?;
    push_escaped(out, word.text.as_str())
}

/// Appends words that are left open, each behind a tab.
fn push_words(out: &mut String, words: &[OpenWord]) -> Result<(), AllocError>
    ensures ok { OnOk result (string_bytes out.new ≡ string_bytes out.old
        ++ flat_map (λ o. next_field (open_field o)) (map open_told words.now)) }
    ensures err { OnErr result (AddsBehind (string_bytes out.old) (string_bytes out.new)) }
{
    for word in words {
        out.push_str("\t")?;
        push_open(out, word)?;
    }
    Ok(())
}

/// Appends the line of a formula: its cell, and what it names.
fn push_formula(
    out: &mut String,
    book: &BookNames,
    graph: &WorkbookGraph,
    number: usize,
) -> Result<(), AllocError>
    requires { number < length graph.now.formulas }
    ensures ok { OnOk result ((f : GraphFormula) → slice_get graph.now.formulas number ≡ Some f →
        string_bytes out.new ≡ string_bytes out.old ++ graph_line book.now f) }
    ensures err { OnErr result (AddsBehind (string_bytes out.old) (string_bytes out.new)) }
{
    let (areas, words) = graph.named(number);
    push_cell(out, book, graph.cell(number))?;
    push_areas(out, book, areas)?;
    push_words(out, words)?;
    out.push_str("\n")
}

/// Appends those lines. A refusal may leave a front of them behind.
fn push_formulas(
    out: &mut String,
    book: &BookNames,
    graph: &WorkbookGraph,
) -> Result<(), AllocError>
    ensures ok { OnOk result (string_bytes out.new
        ≡ string_bytes out.old ++ graph_lines book.now graph.now.formulas) }
    ensures err { OnErr result (AddsBehind (string_bytes out.old) (string_bytes out.new)) }
{
    for number in 0..graph.len() {
        push_formula(out, book, graph, number)?;
    }
    Ok(())
}

/// Appends a line for each formula, sheet by sheet and row by row: its cell, each area that it
/// names, and each word that is left open behind its cause, all behind a tab. A refusal leaves the
/// text as it was.
#[tactic(auto, using(escaped_text::proofs::Extending::cut_back))]
pub fn push_graph(
    out: &mut String,
    book: &BookNames,
    graph: &WorkbookGraph,
) -> Result<(), AllocError>
    ensures ok { OnOk result (string_bytes out.new
        ≡ string_bytes out.old ++ graph_lines book.now graph.now.formulas) }
    ensures err { OnErr result (string_bytes out.new ≡ string_bytes out.old) }
{
    let len = out.len();
    let appended = push_formulas(out, book, graph);
    or_cut_back(out, len, appended)
}
