use book_names::BookNames;
use cell_refs::{Dimensions, get_row_column};
use std::alloc::{AllocError, Global};
use std::test::Fail;
use test_tables::{assert_text, cases, cut};
use xlsx_graph::{
    NamingError, Standing, WorkbookGraph, push_cycles, push_dependents_at, push_graph, push_order,
};

/// Formulas of two sheets, sheet by sheet and row by row, each by the number of its sheet, its cell
/// and its text. That of F1 is an array's.
const FORMULAS: &str = r#"
0 A1
= B1+1

0 B1
= T!A1

0 C1
= SUM(A:A)

0 D1
= D1

0 E1
= D1+A1

0 F1:F2
= 7

0 A2
= F2

0 A3
= ROWS(A$1:A3)

1 A1
= 2

1 B1
= INDIRECT("A1")

1 C1
= #REF!+[1]S!A1

1 A2
= A3

1 A3
= A2+S!A1
"#;

/// The lines of what they name.
const GRAPH: &str = "\
'S'!A1\t'S'!B1:B1
'S'!B1\t'T'!A1:A1
'S'!C1\t'S'!A1:A1048576
'S'!D1\t'S'!D1:D1
'S'!E1\t'S'!D1:D1\t'S'!A1:A1
'S'!F1
'S'!A2\t'S'!F2:F2
'S'!A3\t~'S'!A1:A3
'T'!A1
'T'!B1\t?computed INDIRECT
'T'!C1\t?gone #REF!\t?external [1]S
'T'!A2\t'T'!A3:A3
'T'!A3\t'T'!A2:A2\t'S'!A1:A1
";

/// The lines of their order: four rounds of those that can be computed, and the others.
const ORDER: &str = "\
'S'!F1
'S'!A3
'T'!A1
'T'!B1\topen
'T'!C1
'S'!B1
'S'!A2
'S'!A1
'S'!C1
'S'!D1\tcycle
'S'!E1\tbehind
'T'!A2\tcycle
'T'!A3\tcycle
";

fn book(alloc: Global) -> Result<BookNames, AllocError> {
    let mut sheets = Vec::new(alloc);
    sheets.push(String::from_str(alloc, "S")?)?;
    sheets.push(String::from_str(alloc, "T")?)?;
    BookNames::new(alloc, sheets, Vec::new(alloc), Vec::new(alloc))
}

/// The two corners of an area, which may be one cell.
fn covered(text: &str) -> Dimensions {
    let (first, last) = text.split_once(':').unwrap_or((text, text));
    Dimensions {
        start: get_row_column(first).unwrap_or((0, 0)),
        end: get_row_column(last).unwrap_or((0, 0)),
    }
}

/// The formulas of a table.
fn graph_of(alloc: Global, book: &BookNames, table: &str) -> Result<WorkbookGraph, NamingError> {
    let mut graph = WorkbookGraph::new(alloc, book)?;
    for case in cases(table) {
        let (place, formula) = cut(case);
        let (sheet, area) = place.split_once(' ').unwrap_or(("0", place));
        let covers = covered(area);
        let cell = Standing {
            sheet: if sheet == "1" { 1 } else { 0 },
            row: covers.start.0,
            column: covers.start.1,
        };
        if cell.sheet < book.sheet_names().len() {
            graph.push(book, cell, covers, formula)?;
        }
    }
    Ok(graph)
}

/// Appends the numbers of formulas, a blank behind each.
fn push_numbers(out: &mut String, numbers: &[usize], alloc: Global) -> Result<(), AllocError> {
    for number in numbers {
        let text = format!(in alloc; "{number} ")?;
        out.push_str(text.as_str())?;
    }
    Ok(())
}

fn assert_numbers(alloc: Global, numbers: &[usize], wanted: &str) -> Result<(), Fail> {
    let mut out = String::new(alloc);
    push_numbers(&mut out, numbers, alloc)?;
    assert_text(out.as_str(), wanted, "the numbers")
}

#[test]
fn lines_tell_what_each_formula_names(rt: HostRuntime) -> Result<(), Fail> {
    let alloc = rt.alloc();
    let book = book(alloc)?;
    let graph = graph_of(alloc, &book, FORMULAS)?;
    let mut out = String::new(alloc);
    push_graph(&mut out, &book, &graph)?;
    assert_text(out.as_str(), GRAPH, "the graph")
}

#[test]
fn formulas_stand_behind_all_that_they_need(rt: HostRuntime) -> Result<(), Fail> {
    let alloc = rt.alloc();
    let book = book(alloc)?;
    let graph = graph_of(alloc, &book, FORMULAS)?;
    let order = graph.order(alloc)?;
    assert_numbers(alloc, &order, "5 7 8 9 10 1 6 0 2 ")
}

#[test]
fn lines_tell_the_order_and_what_is_left(rt: HostRuntime) -> Result<(), Fail> {
    let alloc = rt.alloc();
    let book = book(alloc)?;
    let graph = graph_of(alloc, &book, FORMULAS)?;
    let mut out = String::new(alloc);
    push_order(&mut out, &book, &graph)?;
    assert_text(out.as_str(), ORDER, "the order")
}

#[test]
fn dependents_are_found_through_others(rt: HostRuntime) -> Result<(), Fail> {
    let alloc = rt.alloc();
    let book = book(alloc)?;
    let graph = graph_of(alloc, &book, FORMULAS)?;
    let cell = Standing {
        sheet: 0,
        row: 0,
        column: 1,
    };
    assert_numbers(alloc, &graph.dependents(alloc, cell)?, "0 2 4 11 12 ")?;
    let first = Standing {
        sheet: 1,
        row: 0,
        column: 0,
    };
    assert_numbers(alloc, &graph.dependents(alloc, first)?, "0 1 2 4 11 12 ")?;
    let other = Standing {
        sheet: 0,
        row: 1,
        column: 3,
    };
    assert_numbers(alloc, &graph.dependents(alloc, other)?, "")
}

#[test]
fn lines_tell_cycles_and_dependents(rt: HostRuntime) -> Result<(), Fail> {
    let alloc = rt.alloc();
    let book = book(alloc)?;
    let graph = graph_of(alloc, &book, FORMULAS)?;
    let mut out = String::new(alloc);
    push_cycles(&mut out, &book, &graph)?;
    assert_text(out.as_str(), "'S'!D1\n'T'!A2\t'T'!A3\n", "the cycles")?;
    let cell = Standing {
        sheet: 0,
        row: 0,
        column: 1,
    };
    let mut found = String::new(alloc);
    push_dependents_at(&mut found, &book, &graph, cell)?;
    let wanted = "'S'!A1\n'S'!C1\n'S'!E1\n'T'!A2\n'T'!A3\n";
    assert_text(found.as_str(), wanted, "the dependents")
}

/// An array over all rows of so many columns, by its first cell.
fn columns_of(count: u32) -> Dimensions {
    Dimensions {
        start: (0, 0),
        end: (1_048_575, count.saturating_sub(1)),
    }
}

#[test]
fn an_array_over_too_many_cells_is_too_large(rt: HostRuntime) -> Result<(), Fail> {
    let alloc = rt.alloc();
    let book = book(alloc)?;
    let cell = Standing {
        sheet: 0,
        row: 0,
        column: 0,
    };
    assert!(rt; cell.sheet < book.sheet_names().len());
    let mut graph = WorkbookGraph::new(alloc, &book)?;
    graph.push(&book, cell, columns_of(1_024), "1")?;
    assert_eq!(rt; graph.len(), 1);
    let more = graph.push(&book, cell, columns_of(1), "1");
    assert!(rt; matches!(more, Err(NamingError::TooLarge)));
    assert_eq!(rt; graph.len(), 1);
    Ok(())
}

/// So many arrays over the first two cells, of which each names the first one.
fn overlapping(
    alloc: Global,
    book: &BookNames,
    count: usize,
) -> Result<WorkbookGraph, NamingError> {
    let covers = Dimensions {
        start: (0, 0),
        end: (0, 1),
    };
    let cell = Standing {
        sheet: 0,
        row: 0,
        column: 0,
    };
    let mut graph = WorkbookGraph::new(alloc, book)?;
    if !book.sheet_names().is_empty() {
        for _ in 0..count {
            graph.push(book, cell, covers, "A1")?;
        }
    }
    Ok(graph)
}

#[test]
fn arrays_that_overlap_are_one_cycle(rt: HostRuntime) -> Result<(), Fail> {
    let alloc = rt.alloc();
    let graph = overlapping(alloc, &book(alloc)?, 20_000)?;
    let cycles = graph.cycle_lists(alloc)?;
    let sizes: Option<&Vec<usize>> = cycles.first();
    assert!(rt; cycles.len() == 1 && sizes.is_some_and(|cycle| cycle.len() == 20_000));
    Ok(())
}
