//! The graph of an open workbook.
ghost use Rattle.std.specs.Prelude.{◌≡◌, ◌++◌, ◌∷◌, [], List, length, map, true, false, IfOk};
ghost use Rattle.std.specs.Prelude.{IfErr, OnOk};
ghost use Rattle.part_events.specs.Words.{Uses};
ghost use Rattle.xlsx_error.specs.declared.error.XlsxError.TheVariants.{Io};
ghost use Rattle.xlsx_tables.specs.Tables.{loaded_of};
ghost use Rattle.xlsx_core.specs.Words.{formula_read, sheets_of_book, TakesExactly, KeepsWorkbook};
ghost use Rattle.xlsx_graph.specs.Words.{IsMeasured, is_too_large, GraphFormula, WhenTooLarge};
ghost use Rattle.graph_reading.specs.BookRead.{book_of};
ghost use Rattle.graph_reading.specs.GraphRead.{GraphFails, IsGraph, IsGraphError, graph_events};
ghost use Rattle.graph_reading.specs.GraphRead.{graph_sections, named_formulas};
ghost use Rattle.graph_reading.specs.declared.error.GraphError.TheVariants.{Workbook};

use crate::book::book_of;
use crate::error::GraphError;
use book_names::BookNames;
use part_events::Package;
use std::alloc::Global;
use xlsx_core::{SheetFormula, Xlsx};
use xlsx_graph::{NamingError, Standing, WorkbookGraph};
use xlsx_tables::LoadedTable;

/// The graph of a workbook, and the names in which the words of its formulas are looked up.
#[derive(Debug, Drop)]
pub struct BookGraph {
    pub book: BookNames,
    pub graph: WorkbookGraph,
}

/// Appends a formula, where its sheet is one of the workbook's.
fn push_formula(
    graph: &mut WorkbookGraph,
    book: &BookNames,
    formula: &SheetFormula,
) -> Result<(), NamingError>
    requires names { graph.old.names ≡ length book.now.names }
    requires measured { IsMeasured graph.old }
    ensures names { graph.new.names ≡ graph.old.names }
    ensures ok { OnOk result (graph.new.formulas ≡ graph.old.formulas
        ++ named_formulas book.now (formula_read formula.now ∷ [])) }
    ensures measured { OnOk result (IsMeasured graph.new) }
    ensures large { let own = named_formulas book.now (formula_read formula.now ∷ []) in
        IfErr result (λ e. (rest : List GraphFormula) →
        WhenTooLarge e (is_too_large (graph.old.formulas ++ (own ++ rest)) ≡ true)) }
{
    if formula.sheet >= book.sheet_names().len() {
        return Ok(());
    }
    let cell = Standing {
        sheet: formula.sheet,
        row: formula.position.0,
        column: formula.position.1,
    };
    graph.push(book, cell, formula.covers, formula.text.as_str())
}

/// Appends formulas, those whose sheets are the workbook's.
fn push_formulas(
    graph: &mut WorkbookGraph,
    book: &BookNames,
    formulas: &[SheetFormula],
) -> Result<(), NamingError>
    requires names { graph.old.names ≡ length book.now.names }
    requires measured { IsMeasured graph.old }
    ensures ok { OnOk result (graph.new.formulas ≡ graph.old.formulas
        ++ named_formulas book.now (map formula_read formulas.now)) }
    ensures measured { OnOk result (IsMeasured graph.new) }
    ensures large { let own = named_formulas book.now (map formula_read formulas.now) in
        IfErr result (λ e. WhenTooLarge e (is_too_large (graph.old.formulas ++ own) ≡ true)) }
{
    for formula in formulas {
        push_formula(graph, book, formula)?;
    }
    Ok(())
}

/// The graph of these formulas, whose words are looked up among the names of the workbook and these
/// tables.
fn graph_of<P: Package>(
    alloc: Global,
    xlsx: &Xlsx<P>,
    tables: &[LoadedTable],
    formulas: &[SheetFormula],
) -> Result<BookGraph, NamingError>
    ensures book { IfOk result (λ own. own.book ≡ book_of xlsx.now (map loaded_of tables.now)) }
    ensures formulas { IfOk result (λ own.
        own.graph.formulas ≡ named_formulas own.book (map formula_read formulas.now)) }
    ensures fits { IfOk result (λ own. is_too_large own.graph.formulas ≡ false) }
    ensures large { let book = book_of xlsx.now (map loaded_of tables.now) in
        let own = named_formulas book (map formula_read formulas.now) in
        IfErr result (λ e. WhenTooLarge e (is_too_large own ≡ true)) }
{
    let book = book_of(alloc, xlsx, tables)?;
    let mut graph = WorkbookGraph::new(alloc, &book)?;
    push_formulas(&mut graph, &book, formulas)?;
    Ok(BookGraph { book, graph })
}

/// The formulas of all worksheets of an open workbook, sheet by sheet and row by row, with what
/// each names: the tables of all sheets are read, and then the formulas. Sheets, rows and columns
/// are counted from 0. Nothing is kept in the workbook.
///
/// # Errors
///
/// `Workbook` where a table can't be read, as `Xlsx::load_tables` says it, or else a formula of the
/// first sheet that is refused, as `Xlsx::read_formulas` does. `TooLarge` exactly where the
/// formulas name more, or cover more cells, than there is room for (`WorkbookGraph::push`).
pub fn read_graph<P: Package>(alloc: Global, xlsx: &mut Xlsx<P>) -> Result<BookGraph, GraphError>
    ensures uses { let most = graph_events xlsx.old.xml.source.parts (sheets_of_book xlsx.old) in
        Uses most (Workbook Io) result xlsx.old.xml.source xlsx.new.xml.source }
    ensures to_end { let count =
        graph_sections xlsx.old.xml.source.parts (sheets_of_book xlsx.old) in
        TakesExactly count result xlsx.old.xml.source xlsx.new.xml.source }
    ensures rest { KeepsWorkbook xlsx.old xlsx.new }
    ensures reads { xlsx.old.xml.source.is_visible ≡ true →
        IfOk result (IsGraph xlsx.old xlsx.old.xml.source.parts) }
    ensures err { IfErr result
        (GraphFails xlsx.old xlsx.old.xml.source xlsx.new.xml.source) }
    ensures kind { IfErr result IsGraphError }
{
    let tables = xlsx.read_tables()?;
    let formulas = xlsx.read_formulas()?;
    Ok(graph_of(alloc, xlsx, &tables, &formulas)?)
}
