//! What formulas name in all of a workbook.
ghost use Rattle.std.specs.Prelude.{◌≡◌, ◌++◌, map, string_bytes, true, IfOk, IfErr, OnOk};
ghost use Rattle.graph_reading.specs.BookRead.{GraphCause, NamesTooMuch};
ghost use Rattle.graph_reading.specs.GraphRead.{IsGraph};
ghost use Rattle.xlsx_core.specs.Words.{sheets_of_book};
ghost use Rattle.xlsx_commands.specs.GraphLists.{AreAllDependents, AreGraphLines, HasLargeBook};
ghost use Rattle.xlsx_commands.specs.GraphLists.{HasLargeDependents, ListedGraphCause};
ghost use Rattle.xlsx_commands.specs.GraphLists.{NamedDependentsCause, graph_list_lines};
ghost use Rattle.xlsx_commands.specs.GraphLists.{sheet_called};
ghost use Rattle.xlsx_commands.specs.Outputs.{GraphListFails};

use crate::command::GraphList;
use crate::error::ToolError;
use graph_reading::{BookGraph, read_graph};
use input_package::InputPackage;
use std::alloc::{AllocError, Global};
use xlsx_core::{Sheet, Xlsx};
use xlsx_error::XlsxError;
use xlsx_graph::{Standing, push_cycles, push_dependents_at, push_graph, push_order};

/// The graph of a workbook that opened, whose package is needed no more.
fn graph_of(alloc: Global, xlsx: Xlsx<InputPackage>) -> Result<BookGraph, ToolError>
    ensures ok { xlsx.xml.source.is_visible ≡ true →
        IfOk result (IsGraph xlsx xlsx.xml.source.parts) }
    ensures err { let parts = xlsx.xml.source.parts in
        xlsx.xml.source.is_visible ≡ true →
        IfErr result (GraphListFails (GraphCause parts (sheets_of_book xlsx))
        (NamesTooMuch xlsx parts)) }
{
    let mut xlsx = xlsx;
    let read = read_graph(alloc, &mut xlsx);
    drop(xlsx.into_package());
    Ok(read?)
}

/// Appends the lines of a list of all formulas.
fn push_list(out: &mut String, list: GraphList, own: &BookGraph) -> Result<(), AllocError>
    ensures { OnOk result (string_bytes out.new ≡ string_bytes out.old
        ++ graph_list_lines list own.now.book own.now.graph.formulas) }
{
    match list {
        GraphList::Graph => push_graph(out, &own.book, &own.graph),
        GraphList::Order => push_order(out, &own.book, &own.graph),
        GraphList::Cycles => push_cycles(out, &own.book, &own.graph),
    }
}

/// The lines of a list of all formulas of the workbook: a line for each formula with what it names,
/// one for each in the order in which they can be computed, or one for each cycle.
pub fn graph_lines(
    alloc: Global,
    package: InputPackage,
    list: GraphList,
) -> Result<Vec<u8>, ToolError>
    ensures ok { IfOk result (λ output. AreGraphLines list «package».parts output.items) }
    ensures err { let parts = «package».parts in
        IfErr result (GraphListFails (ListedGraphCause parts) (HasLargeBook parts)) }
{
    let xlsx = Xlsx::new(alloc, package)?;
    let own = graph_of(alloc, xlsx)?;
    let mut out = String::new(alloc);
    push_list(&mut out, list, &own)?;
    Ok(out.into_bytes())
}

/// The number of the first sheet of this name, counted from 0.
fn sheet_called(sheets: &[Sheet], name: &str) -> Option<usize>
    ensures { result ≡ sheet_called name.now (map (λ sheet. string_bytes sheet.name) sheets.now) }
{
    sheets.iter().position(|sheet| sheet.name.as_str() == name)
}

/// A line for each formula of the workbook that needs the cell at a position of the first sheet of
/// this name, itself or through others; a row and a column counted from 0.
pub fn all_dependents(
    alloc: Global,
    package: InputPackage,
    name: &str,
    position: (u32, u32),
) -> Result<Vec<u8>, ToolError>
    ensures ok { IfOk result (λ output.
        AreAllDependents «package».parts name.now position output.items) }
    ensures err { let parts = «package».parts in
        IfErr result (GraphListFails (NamedDependentsCause parts name.now)
        (HasLargeDependents parts name.now)) }
{
    let xlsx = Xlsx::new(alloc, package)?;
    let Some(sheet) = sheet_called(&xlsx.metadata().sheets, name) else {
        drop(xlsx.into_package());
        let asked = String::from_str(alloc, name)?;
        return Err(ToolError::Workbook(XlsxError::WorksheetNotFound(asked)));
    };
    let own = graph_of(alloc, xlsx)?;
    let mut out = String::new(alloc);
    let cell = Standing {
        sheet,
        row: position.0,
        column: position.1,
    };
    push_dependents_at(&mut out, &own.book, &own.graph, cell)?;
    Ok(out.into_bytes())
}
