//! The lines of an order, of cycles and of dependents (docs/FORMAT.md).
ghost use Rattle.std.specs.Prelude.{◌≡◌, ◌++◌, ◌<◌, [], ℕ, length, filter, map, not, string_bytes};
ghost use Rattle.std.specs.Prelude.{OnErr, OnOk, false, if◌then◌else◌};
ghost use Rattle.std.specs.List.{flat_map, slice_index_or};
ghost use Rattle.calculation_order.specs.Edges.{firsts_of, is_number_of, numbers_below};
ghost use Rattle.escaped_text.specs.Escaped.{AddsBehind};
ghost use Rattle.list_lines.specs.Fields.{next_field};
ghost use Rattle.xlsx_graph.specs.Graph.{needed};
ghost use Rattle.xlsx_graph.specs.GraphLines.{cell_numbered, cycle_line, cycles_lines};
ghost use Rattle.xlsx_graph.specs.GraphLines.{all_dependents_lines, left_line, numbered_line};
ghost use Rattle.xlsx_graph.specs.GraphLines.{order_line, order_lines, order_lines_by};

use crate::graph_lines::push_cell;
use crate::named::Standing;
use crate::order_marks::{are_in_order, left_mark, open_mark};
use crate::workbook_graph::WorkbookGraph;
use book_names::BookNames;
use calculation_order::Cycles;
use escaped_text::or_cut_back;
use std::alloc::AllocError;

/// Appends the cell of the formula of a number; nothing where there is no such formula.
fn push_numbered(
    out: &mut String,
    book: &BookNames,
    graph: &WorkbookGraph,
    number: usize,
) -> Result<(), AllocError>
    ensures ok { OnOk result (string_bytes out.new
        ≡ string_bytes out.old ++ cell_numbered book.now graph.now.formulas number) }
    ensures err { OnErr result (AddsBehind (string_bytes out.old) (string_bytes out.new)) }
{
    if number >= graph.len() {
        return Ok(());
    }
    push_cell(out, book, graph.cell(number))
}

/// Appends a line for each of these formulas: its cell. A refusal may leave a front of them behind.
fn push_numbers(
    out: &mut String,
    book: &BookNames,
    graph: &WorkbookGraph,
    numbers: &[usize],
) -> Result<(), AllocError>
    ensures ok { OnOk result (string_bytes out.new ≡ string_bytes out.old
        ++ flat_map (numbered_line book.now graph.now.formulas) numbers.now) }
    ensures err { OnErr result (AddsBehind (string_bytes out.old) (string_bytes out.new)) }
{
    for number in numbers {
        push_numbered(out, book, graph, *number)?;
        out.push_str("\n")?;
    }
    Ok(())
}

/// Appends a line for each formula that needs the value of a cell, itself or through others: its
/// cell. A refusal leaves the text as it was.
#[tactic(auto, using(escaped_text::proofs::Extending::cut_back), unfolding(crate::specs::GraphLines::all_dependents_lines))]
pub fn push_dependents_at(
    out: &mut String,
    book: &BookNames,
    graph: &WorkbookGraph,
    cell: Standing,
) -> Result<(), AllocError>
    ensures ok { OnOk result (string_bytes out.new
        ≡ string_bytes out.old ++ all_dependents_lines book.now graph.now.formulas cell) }
    ensures err { OnErr result (string_bytes out.new ≡ string_bytes out.old) }
{
    let numbers = graph.dependents(*out.allocator(), cell)?;
    let len = out.len();
    let appended = push_numbers(out, book, graph, &numbers);
    or_cut_back(out, len, appended)
}

/// Appends cells of formulas, each behind a tab.
fn push_further(
    out: &mut String,
    book: &BookNames,
    graph: &WorkbookGraph,
    numbers: &[usize],
) -> Result<(), AllocError>
    ensures ok { OnOk result (string_bytes out.new ≡ string_bytes out.old
        ++ flat_map (λ n. next_field (cell_numbered book.now graph.now.formulas n))
        numbers.now) }
    ensures err { OnErr result (AddsBehind (string_bytes out.old) (string_bytes out.new)) }
{
    for number in numbers {
        out.push_str("\t")?;
        push_numbered(out, book, graph, *number)?;
    }
    Ok(())
}

/// Appends the line of a cycle: its cells, with tabs between them.
fn push_cycle(
    out: &mut String,
    book: &BookNames,
    graph: &WorkbookGraph,
    numbers: &[usize],
) -> Result<(), AllocError>
    ensures ok { OnOk result (string_bytes out.new
        ≡ string_bytes out.old ++ cycle_line book.now graph.now.formulas numbers.now) }
    ensures err { OnErr result (AddsBehind (string_bytes out.old) (string_bytes out.new)) }
{
    match numbers {
        [first, others @ ..] => {
            push_numbered(out, book, graph, *first)?;
            push_further(out, book, graph, others)?;
            out.push_str("\n")
        }
        [] => Ok(()),
    }
}

/// Appends a line for each of these cycles. A refusal may leave a front of them behind.
fn push_lists(
    out: &mut String,
    book: &BookNames,
    graph: &WorkbookGraph,
    lists: &[Vec<usize>],
) -> Result<(), AllocError>
    ensures ok { OnOk result (string_bytes out.new ≡ string_bytes out.old
        ++ flat_map (cycle_line book.now graph.now.formulas)
        (map (λ list. list.items) lists.now)) }
    ensures err { OnErr result (AddsBehind (string_bytes out.old) (string_bytes out.new)) }
{
    for list in lists {
        push_cycle(out, book, graph, list)?;
    }
    Ok(())
}

/// Appends a line for each cycle, by its first formula: its cells, with tabs between them. A
/// refusal leaves the text as it was.
#[tactic(auto, using(escaped_text::proofs::Extending::cut_back), unfolding(crate::specs::GraphLines::cycles_lines))]
pub fn push_cycles(
    out: &mut String,
    book: &BookNames,
    graph: &WorkbookGraph,
) -> Result<(), AllocError>
    ensures ok { OnOk result (string_bytes out.new
        ≡ string_bytes out.old ++ cycles_lines book.now graph.now.formulas) }
    ensures err { OnErr result (string_bytes out.new ≡ string_bytes out.old) }
{
    let cycles = graph.cycle_lists(*out.allocator())?;
    let len = out.len();
    let appended = push_lists(out, book, graph, &cycles);
    or_cut_back(out, len, appended)
}

/// Appends the line of a formula: its cell, this mark, and perhaps that it is open.
fn push_order_line(
    out: &mut String,
    book: &BookNames,
    graph: &WorkbookGraph,
    mark: &str,
    number: usize,
) -> Result<(), AllocError>
    ensures ok { OnOk result (string_bytes out.new
        ≡ string_bytes out.old ++ order_line book.now graph.now.formulas mark.now number) }
    ensures err { OnErr result (AddsBehind (string_bytes out.old) (string_bytes out.new)) }
{
    push_numbered(out, book, graph, number)?;
    out.push_str(mark)?;
    out.push_str(open_mark(graph, number))?;
    out.push_str("\n")
}

/// Appends the lines of an order. A refusal may leave a front of them behind.
fn push_ordered(
    out: &mut String,
    book: &BookNames,
    graph: &WorkbookGraph,
    order: &[usize],
) -> Result<(), AllocError>
    ensures ok { OnOk result (string_bytes out.new ≡ string_bytes out.old
        ++ flat_map (order_line book.now graph.now.formulas []) order.now) }
    ensures err { OnErr result (AddsBehind (string_bytes out.old) (string_bytes out.new)) }
{
    for number in order {
        push_order_line(out, book, graph, "", *number)?;
    }
    Ok(())
}

/// Appends the line of a formula that has no place in the order; nothing for one that has.
fn push_if_left(
    out: &mut String,
    book: &BookNames,
    graph: &WorkbookGraph,
    in_order: &[bool],
    cycles: &Cycles,
    number: usize,
) -> Result<(), AllocError>
    requires within { number < length in_order.now }
    requires cycles { cycles.now ≡ firsts_of (needed graph.now.formulas) }
    ensures ok { OnOk result (string_bytes out.new ≡ string_bytes out.old
        ++ (if slice_index_or in_order.now number false then []
        else left_line book.now graph.now.formulas (needed graph.now.formulas) number)) }
    ensures err { OnErr result (AddsBehind (string_bytes out.old) (string_bytes out.new)) }
{
    if in_order[number] {
        return Ok(());
    }
    push_order_line(out, book, graph, left_mark(cycles, number), number)
}

/// Appends the lines of the formulas that have no place in the order. A refusal may leave a front
/// of them behind.
fn push_left(
    out: &mut String,
    book: &BookNames,
    graph: &WorkbookGraph,
    in_order: &[bool],
    cycles: &Cycles,
) -> Result<(), AllocError>
    requires size { length in_order.now ≡ length graph.now.formulas }
    requires cycles { cycles.now ≡ firsts_of (needed graph.now.formulas) }
    ensures ok { OnOk result (string_bytes out.new ≡ string_bytes out.old
        ++ flat_map (left_line book.now graph.now.formulas (needed graph.now.formulas))
        (filter (λ n. not (slice_index_or in_order.now n false))
        (numbers_below (length graph.now.formulas)))) }
    ensures err { OnErr result (AddsBehind (string_bytes out.old) (string_bytes out.new)) }
{
    for number in 0..graph.len() {
        push_if_left(out, book, graph, in_order, cycles, number)?;
    }
    Ok(())
}

/// Appends the lines of an order, and those of the others. A refusal may leave a front of them
/// behind.
fn push_both(
    out: &mut String,
    book: &BookNames,
    graph: &WorkbookGraph,
    order: &[usize],
    in_order: &[bool],
    cycles: &Cycles,
) -> Result<(), AllocError>
    requires size { length in_order.now ≡ length graph.now.formulas }
    requires told { (n : ℕ) → n < length graph.now.formulas →
        slice_index_or in_order.now n false ≡ is_number_of order.now n }
    requires cycles { cycles.now ≡ firsts_of (needed graph.now.formulas) }
    ensures ok { OnOk result (string_bytes out.new ≡ string_bytes out.old
        ++ order_lines_by book.now graph.now.formulas (needed graph.now.formulas) order.now) }
    ensures err { OnErr result (AddsBehind (string_bytes out.old) (string_bytes out.new)) }
{
    push_ordered(out, book, graph, order)?;
    push_left(out, book, graph, in_order, cycles)
}

/// Appends a line for each formula: those that can be computed, in an order in which all that a
/// formula needs stands before it, round by round and in each round by their numbers; then the
/// others by their numbers, each marked `cycle` where it needs itself, at once or through others,
/// and `behind` where it needs one that does. Each that may name more cells than are known is
/// marked `open`. A refusal leaves the text as it was.
///
/// The links of the formulas are made once, and it takes time by them and by the lines.
#[tactic(auto, using(escaped_text::proofs::Extending::cut_back), unfolding(crate::specs::GraphLines::order_lines))]
pub fn push_order(
    out: &mut String,
    book: &BookNames,
    graph: &WorkbookGraph,
) -> Result<(), AllocError>
    ensures ok { OnOk result (string_bytes out.new
        ≡ string_bytes out.old ++ order_lines book.now graph.now.formulas) }
    ensures err { OnErr result (string_bytes out.new ≡ string_bytes out.old) }
{
    let alloc = *out.allocator();
    let links = graph.links(alloc)?;
    let order = links.order(alloc)?;
    let cycles = links.cycles(alloc)?;
    let in_order = are_in_order(alloc, graph.len(), &order)?;
    let len = out.len();
    let appended = push_both(out, book, graph, &order, &in_order, &cycles);
    or_cut_back(out, len, appended)
}
