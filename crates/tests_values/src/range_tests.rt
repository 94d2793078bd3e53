//! Ranges of cells.

use cell_data::{Cell, GatheredCells, Range, least_area};
use cell_refs::Dimensions;
use std::alloc::{AllocError, Global};
use std::test::Fail;
use test_tables::assert_text;

/// The area of a range, and the values of its rows.
fn shown(alloc: Global, range: &Range<u8>) -> Result<String, AllocError> {
    let mut out = String::new(alloc);
    if let (Some(start), Some(end)) = (range.start(), range.end()) {
        write!(out, "{} {} {} {}:", start.0, start.1, end.0, end.1)?;
    }
    for row in range.rows() {
        for value in row {
            write!(out, " {value}")?;
        }
        write!(out, ";")?;
    }
    Ok(out)
}

/// A2 = 1, B4 = 2, in this order or turned.
fn two_cells(alloc: Global, turned: bool) -> Result<Range<u8>, AllocError> {
    let first = Cell::new((1, 0), 1);
    let second = Cell::new((3, 1), 2);
    let cells = if turned {
        Vec::from_array(alloc, [second, first])?
    } else {
        Vec::from_array(alloc, [first, second])?
    };
    Range::from_sparse(alloc, cells, 0)
}

#[test]
fn an_area_has_all_cells(rt: HostRuntime) -> Result<(), Fail> {
    let alloc = rt.alloc();
    for turned in [false, true] {
        let range = two_cells(alloc, turned)?;
        let told = shown(alloc, &range)?;
        assert_text(&told, "1 0 3 1: 1 0; 0 0; 0 2;", "two cells")?;
        assert!(rt; range.get_size() == (3, 2));
        assert!(rt; range.get_value((3, 1)) == Some(&2));
        assert!(rt; range.get_value((0, 0)) == None);
        assert!(rt; range.get((2, 0)) == Some(&0));
        assert!(rt; range.get((3, 0)) == None);
    }
    Ok(())
}

#[test]
fn a_range_begins_at_a_row(rt: HostRuntime) -> Result<(), Fail> {
    let alloc = rt.alloc();
    let whole = two_cells(alloc, false)?.range((0, 0), (3, 1));
    let told = shown(alloc, &whole)?;
    assert_text(&told, "0 0 3 1: 0 0; 1 0; 0 0; 0 2;", "from row 0")?;
    let below = two_cells(alloc, false)?.range((2, 1), (3, 1));
    let told = shown(alloc, &below)?;
    assert_text(&told, "2 1 3 1: 0; 2;", "from row 2")?;
    Ok(())
}

#[test]
fn the_last_cell_of_a_position_stands(rt: HostRuntime) -> Result<(), Fail> {
    let alloc = rt.alloc();
    let cells = [
        Cell::new((5, 5), 1),
        Cell::new((0, 9), 2),
        Cell::new((5, 5), 3),
        Cell::new((0, 9), 4),
    ];
    let range: Range<u8> = Range::from_sparse(alloc, Vec::from_array(alloc, cells)?, 0)?;
    let mut out = String::new(alloc);
    for (row, column, value) in range.used_cells() {
        write!(out, "{row} {column} {value};")?;
    }
    assert_text(&out, "0 4 4;5 0 3;", "used cells")?;
    assert!(rt; range.cells().count() == 30);
    Ok(())
}

#[test]
fn cells_are_gathered_as_they_come(rt: HostRuntime) -> Result<(), Fail> {
    let alloc = rt.alloc();
    let mut cells: GatheredCells<u8> = GatheredCells::new(alloc);
    cells.push((0, 3), 1)?;
    cells.push((4, 1), 2)?;
    cells.push((0, 3), 3)?;
    cells.push((2, 7), 4)?;
    let sorted = cells.into_sorted(alloc)?;
    let mut out = String::new(alloc);
    for (pos, value) in sorted.iter() {
        write!(out, "{} {} {value};", pos.0, pos.1)?;
    }
    assert_text(&out, "0 3 3;2 7 4;4 1 2;", "gathered cells")?;
    let area = Dimensions {
        start: (0, 1),
        end: (4, 7),
    };
    assert!(rt; least_area(&sorted) == Some(area));
    Ok(())
}

#[test]
fn two_far_cells_are_two_cells(rt: HostRuntime) -> Result<(), Fail> {
    let alloc = rt.alloc();
    let ends = [Cell::new((0, 0), 1), Cell::new((1_048_575, 16_383), 2)];
    let range: Range<u8> = Range::from_sparse(alloc, Vec::from_array(alloc, ends)?, 0)?;
    assert!(rt; range.used_count() == 2);
    assert!(rt; range.used_cells().count() == 2);
    assert!(rt; range.get_size() == (1_048_576, 16_384));
    assert!(rt; range.get((1_048_575, 16_383)) == Some(&2));
    assert!(rt; range.used_value((1_048_575, 16_383)) == Some(&2));
    assert!(rt; range.used_value((1, 0)) == None);
    Ok(())
}

#[test]
fn no_cells_have_no_area(rt: HostRuntime) -> Result<(), Fail> {
    let alloc = rt.alloc();
    let range: Range<u8> = Range::from_sparse(alloc, Vec::new(alloc), 0)?;
    assert!(rt; range.is_empty());
    assert!(rt; range.start() == None);
    assert!(rt; range.width() == 0);
    assert!(rt; range.height() == 0);
    assert!(rt; range.cells().count() == 0);
    Ok(())
}
