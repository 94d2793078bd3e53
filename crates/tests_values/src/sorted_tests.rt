//! Cells kept by rows.

use sorted_cells::{PlacedCells, SortedCells};
use std::alloc::{AllocError, Global};
use std::test::Fail;
use test_tables::assert_text;

/// A2 = 1, C2 = 2, B4 = 3, A5 = 4, C5 = 5, and what comes before one of these is left out.
fn three_rows(alloc: Global) -> Result<SortedCells<u8>, AllocError> {
    let cells = [
        ((1, 0), 1),
        ((1, 2), 2),
        ((1, 1), 9),
        ((3, 1), 3),
        ((4, 0), 4),
        ((4, 0), 9),
        ((4, 2), 5),
        ((3, 3), 9),
    ];
    let mut kept = SortedCells::new(alloc);
    for (pos, val) in cells {
        if kept.comes_last(pos) {
            kept.push(pos, val)?;
        }
    }
    Ok(kept)
}

/// The cells, how many there are, and the last position.
fn shown(alloc: Global, cells: &SortedCells<u8>) -> Result<String, AllocError> {
    let mut out = String::new(alloc);
    for ((row, column), value) in cells.iter() {
        write!(out, "{row} {column} {value};")?;
    }
    write!(out, " {}", cells.len())?;
    if let Some((row, column)) = cells.last_position() {
        write!(out, " {row} {column}")?;
    }
    Ok(out)
}

/// The cells, each handed out.
fn handed_out(alloc: Global, cells: SortedCells<u8>) -> Result<String, AllocError> {
    let mut out = String::new(alloc);
    for ((row, column), value) in cells.into_iter() {
        write!(out, "{row} {column} {value};")?;
    }
    Ok(out)
}

#[test]
fn cells_are_kept_by_rows(rt: HostRuntime) -> Result<(), Fail> {
    let alloc = rt.alloc();
    let cells = three_rows(alloc)?;
    let told = shown(alloc, &cells)?;
    assert_text(&told, "1 0 1;1 2 2;3 1 3;4 0 4;4 2 5; 5 4 2", "three rows")?;
    let mut found = String::new(alloc);
    for row in 0..6 {
        for column in 0..4 {
            if let Some(value) = cells.get((row, column)) {
                write!(found, "{row} {column} {value};")?;
            }
        }
    }
    assert_text(&found, "1 0 1;1 2 2;3 1 3;4 0 4;4 2 5;", "each position")?;
    let handed = handed_out(alloc, cells)?;
    assert_text(&handed, "1 0 1;1 2 2;3 1 3;4 0 4;4 2 5;", "handed out")?;
    let none: SortedCells<u8> = SortedCells::new(alloc);
    assert!(rt; none.is_empty());
    assert!(rt; none.get((0, 0)) == None);
    Ok(())
}

#[test]
fn an_area_keeps_its_cells(rt: HostRuntime) -> Result<(), Fail> {
    let alloc = rt.alloc();
    let areas = [
        ((0, 0), (9, 9), "1 0 1;1 2 2;3 1 3;4 0 4;4 2 5; 5 4 2"),
        ((1, 2), (4, 2), "1 2 2;4 2 5; 2 4 2"),
        ((2, 0), (3, 9), "3 1 3; 1 3 1"),
        ((3, 0), (4, 0), "4 0 4; 1 4 0"),
        ((2, 0), (2, 9), " 0"),
    ];
    for (start, end, wanted) in areas {
        let left = three_rows(alloc)?.keep_area(start, end);
        let told = shown(alloc, &left)?;
        assert_text(&told, wanted, wanted)?;
    }
    let mut left = three_rows(alloc)?.keep_area((0, 0), (3, 0));
    if left.comes_last((2, 1)) {
        left.push((2, 1), 6)?;
    }
    let told = shown(alloc, &left)?;
    assert_text(
        &told,
        "1 0 1;2 1 6; 2 2 1",
        "a cell behind those of an area",
    )?;
    Ok(())
}

#[test]
fn the_cells_of_an_area_are_lent(rt: HostRuntime) -> Result<(), Fail> {
    let alloc = rt.alloc();
    let cells = three_rows(alloc)?;
    let areas = [
        ((0, 0), (9, 9), "1 0 1;1 2 2;3 1 3;4 0 4;4 2 5;"),
        ((1, 2), (4, 2), "1 2 2;4 2 5;"),
        ((1, 1), (4, 1), "3 1 3;"),
        ((2, 0), (3, 9), "3 1 3;"),
        ((2, 0), (2, 9), ""),
        ((4, 2), (1, 0), ""),
    ];
    for (start, end, wanted) in areas {
        let mut told = String::new(alloc);
        for ((row, column), value) in cells.cells_in(start, end) {
            write!(told, "{row} {column} {value};")?;
        }
        assert_text(&told, wanted, wanted)?;
    }
    Ok(())
}

/// What is found at each position where a next cell may stand, in the order of positions.
fn stepped(alloc: Global, mut left: PlacedCells<'_, u8>) -> Result<String, AllocError> {
    let mut out = String::new(alloc);
    for row in 1..5 {
        for column in 0..2 {
            if let Some(value) = left.next_at((row, column)) {
                write!(out, "{value};")?;
            }
        }
        if let Some((row, column)) = left.next_position() {
            write!(out, "{row} {column},")?;
        }
        if let Some((_, value)) = left.next() {
            write!(out, "{value};")?;
        }
    }
    Ok(out)
}

#[test]
fn the_next_cell_is_taken_where_it_stands(rt: HostRuntime) -> Result<(), Fail> {
    let alloc = rt.alloc();
    let cells = three_rows(alloc)?;
    let told = stepped(alloc, cells.iter())?;
    assert_text(&told, "1;1 2,2;3 1,3;4 0,4;4 2,5;", "steps")?;
    Ok(())
}
