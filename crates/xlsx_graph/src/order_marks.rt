//! What the lines of an order tell of formulas but their cells.
ghost use Rattle.std.specs.Prelude.{◌≡◌, ◌<◌, ℕ, List, length, true, false, IfOk};
ghost use Rattle.std.specs.List.{list_any, slice_index_or};
ghost use Rattle.calculation_order.specs.Edges.{firsts_of, is_number_of};
ghost use Rattle.calculation_order.specs.OrderLaws.{are_within};
ghost use Rattle.xlsx_graph.specs.GraphLines.{is_hiding, is_open, left_mark, may_name};
ghost use Rattle.xlsx_graph.specs.GraphLines.{mark_of_open};
ghost use Rattle.xlsx_graph.specs.Told.{open_told};

use crate::named::{Cause, OpenWord};
use crate::workbook_graph::WorkbookGraph;
use calculation_order::Cycles;
use std::alloc::{AllocError, Global};

/// Whether a cause may hide cells of the workbook: all but a lost reference and another file.
fn is_hiding(cause: Cause) -> bool
    ensures { result ≡ is_hiding cause }
{
    !matches!(cause, Cause::External | Cause::Gone)
}

/// Whether one of these words may name cells of the workbook.
fn may_name(words: &[OpenWord]) -> bool
    ensures { result ≡ list_any (λ word. may_name (open_told word)) words.now }
{
    words.iter().any(|word| is_hiding(word.cause))
}

/// Whether the formula of a number may name more cells than are known; false where there is none.
fn is_open(graph: &WorkbookGraph, number: usize) -> bool
    ensures { result ≡ is_open graph.now.formulas number }
{
    if number >= graph.len() {
        return false;
    }
    may_name(graph.named(number).1)
}

/// The mark of such a formula; nothing for others.
pub(crate) fn open_mark(graph: &WorkbookGraph, number: usize) -> &'static str
    ensures { result.now ≡ mark_of_open graph.now.formulas number }
{
    if is_open(graph, number) { "\topen" } else { "" }
}

/// The mark of a formula that has no place in the order: whether it is on a cycle, or behind one.
pub(crate) fn left_mark(cycles: &Cycles, number: usize) -> &'static str
    ensures { (edges : List (List ℕ)) → are_within edges ≡ true → cycles.now ≡ firsts_of edges →
        result.now ≡ left_mark edges number }
{
    if cycles.is_on_cycle(number) {
        "\tcycle"
    } else {
        "\tbehind"
    }
}

/// For each of so many formulas whether it stands in an order.
pub(crate) fn are_in_order(
    alloc: Global,
    count: usize,
    order: &[usize],
) -> Result<Vec<bool>, AllocError>
    ensures size { IfOk result (λ marks. length marks.items ≡ count) }
    ensures told { IfOk result (λ marks. (n : ℕ) → n < count →
        slice_index_or marks.items n false ≡ is_number_of order.now n) }
{
    let mut in_order = vec![in alloc; false; count]?;
    for number in order {
        if *number < in_order.len() {
            in_order[*number] = true;
        }
    }
    Ok(in_order)
}
