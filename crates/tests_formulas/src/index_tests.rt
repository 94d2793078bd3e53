//! The formulas that name a cell.

use crate::counted_search::counted_dependents;
use crate::formula_sheets::{areas_in, position_of, sheet, told_areas, told_cells};
use cell_data::Range;
use std::alloc::{AllocError, Global};
use std::test::Fail;
use test_tables::{assert_text, cases, cut};
use xlsx_precedents::{DependencyIndex, areas_of, push_dependents, push_precedents};

/// Two formulas of a sheet.
const TWO: &str = "A1 SUM(B1:C2)+$D$4+Other!E5\nB1 A:A";

/// A cell, the areas that its formula names, and the cells whose formulas name it.
const ASKED: &str = "
A1
= B1:C2 D4
= B1

B1
= A1:A1048576
= A1

C2
=
= A1

D4
=
= A1

A7
=
= B1

E5
=
=
";

#[test]
fn a_sheet_is_asked_both_ways(rt: HostRuntime) -> Result<(), Fail> {
    let alloc = rt.alloc();
    let index = DependencyIndex::build(alloc, &sheet(alloc, TWO)?)?;
    for case in cases(ASKED) {
        let (cell, rest) = cut(case);
        let (areas, cells) = cut(rest);
        let pos = position_of(cell)?;
        let named = told_areas(alloc, index.precedents(pos))?;
        let wanted = told_areas(alloc, &areas_in(alloc, areas)?)?;
        assert_text(&named, &wanted, case)?;
        let mut wanted = Vec::new(alloc);
        for area in &areas_in(alloc, cells)? {
            wanted.push(area.start)?;
        }
        let wanted = told_cells(alloc, &wanted)?;
        let found = told_cells(alloc, &index.dependents(alloc, pos)?)?;
        assert_text(&found, &wanted, case)?;
        let counted = told_cells(alloc, &counted_dependents(alloc, &index, pos)?)?;
        assert_text(&counted, &wanted, case)?;
    }
    Ok(())
}

/// Formulas whose areas end at the limits of blocks and of worksheets, and around them.
const LIMITS: &str = "A1 A1:A16384+A1:A16385\nB1 A1024:A16384+B1024:A1025\nC1 A1024:A16385\n\
    D1 C:C+C3\nA2 2:2+A2\nB2 XFD1048576+A1048576\nC2 A1047552:B1047553\nD2 D2+D2+B1024\n\
    A3 A1025:A17408\nB3 A1025:A17409\nC3 1025:1025\nD3 A16385:B16385+Other!A1\nA4 1\nB4 A1:D4";

const ROWS: [u32; 20] = [
    0, 1, 2, 3, 4, 1022, 1023, 1024, 1025, 16383, 16384, 16385, 17407, 17408, 1047550, 1047551,
    1047552, 1048575, 1048576, 4294967295,
];

const COLUMNS: [u32; 6] = [0, 1, 2, 3, 16383, 16384];

/// The cells whose formulas name a cell, by a look at all areas.
fn by_all_areas(
    alloc: Global,
    formulas: &Range<String>,
    pos: (u32, u32),
) -> Result<Vec<(u32, u32)>, AllocError> {
    let mut found = Vec::new(alloc);
    for (cell, formula) in formulas.used() {
        let areas = areas_of(alloc, formula)?;
        if areas.iter().any(|area| area.contains(pos.0, pos.1)) {
            found.push(cell)?;
        }
    }
    Ok(found)
}

#[test]
fn an_index_finds_what_all_areas_give(rt: HostRuntime) -> Result<(), Fail> {
    let alloc = rt.alloc();
    let formulas = sheet(alloc, LIMITS)?;
    let index = DependencyIndex::build(alloc, &formulas)?;
    for row in ROWS {
        for column in COLUMNS {
            let pos = (row, column);
            let found = told_cells(alloc, &index.dependents(alloc, pos)?)?;
            let wanted = told_cells(alloc, &by_all_areas(alloc, &formulas, pos)?)?;
            assert_text(&found, &wanted, &wanted)?;
        }
    }
    Ok(())
}

#[test]
fn lines_tell_what_formulas_name(rt: HostRuntime) -> Result<(), Fail> {
    let alloc = rt.alloc();
    let formulas = sheet(alloc, "B2 1+1\nA1 SUM(B1:C2)+$D$4+Other!E5\nB1 A:A")?;
    let mut out = String::from_str(alloc, "lines:\n")?;
    push_precedents(&mut out, &formulas)?;
    push_dependents(&mut out, &formulas, (6, 0))?;
    push_dependents(&mut out, &formulas, (4, 4))?;
    push_dependents(&mut out, &formulas, (0, 1))?;
    let wanted = "lines:\nA1\tB1:C2\tD4:D4\nB1\tA1:A1048576\nB2\nB1\nA1\n";
    assert_text(&out, wanted, "three formulas")
}

#[test]
fn no_formulas_name_no_cell(rt: HostRuntime) -> Result<(), Fail> {
    let alloc = rt.alloc();
    let none: Range<String> = Range::from_sparse(alloc, Vec::new(alloc), String::new(alloc))?;
    let index = DependencyIndex::build(alloc, &none)?;
    assert!(rt; index.precedents((0, 0)).is_empty());
    assert!(rt; index.dependents(alloc, (0, 0))?.is_empty());
    let index = DependencyIndex::build(alloc, &sheet(alloc, "A1 ")?)?;
    assert!(rt; index.precedents((0, 0)).is_empty());
    Ok(())
}
