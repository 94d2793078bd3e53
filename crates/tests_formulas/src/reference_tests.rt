use cell_refs::{
    Dimensions, MAX_COLUMNS, RefError, column_number_to_name, get_dimension, get_row,
    get_row_column, push_column_name, push_reference, push_row_reference,
};
use std::test::Fail;

#[test]
fn texts_name_positions_or_are_refused(rt: HostRuntime) {
    let texts = [
        ("A1", Ok((0, 0))),
        ("C107", Ok((106, 2))),
        ("a01", Ok((0, 0))),
        ("XFD1048576", Ok((1_048_575, 16_383))),
        ("XFE1", Err(RefError::ColumnNumberOverflow)),
        ("A1048577", Err(RefError::RowNumberOverflow)),
        ("A4294967297", Err(RefError::RowNumberOverflow)),
        ("E0", Err(RefError::RangeWithoutRowComponent)),
        ("", Err(RefError::RangeWithoutRowComponent)),
        ("XFE", Err(RefError::RangeWithoutRowComponent)),
        ("7", Err(RefError::RangeWithoutColumnComponent)),
        ("A1B1", Err(RefError::Alphanumeric(b'B'))),
        ("$A1", Err(RefError::Alphanumeric(b'$'))),
    ];
    for (text, want) in texts {
        assert!(rt; get_row_column(text) == want, "of {text:?}");
    }
    assert!(rt; get_row("7") == Ok(6));
    assert!(rt; get_row("XFE7") == Ok(6));
    assert!(rt; get_row("A") == Err(RefError::RangeWithoutRowComponent));
}

#[test]
fn texts_name_areas_or_are_refused(rt: HostRuntime) {
    let area = |start, end| Ok(Dimensions { start, end });
    let texts = [
        ("C2:D35", area((1, 2), (34, 3))),
        ("D35:C2", area((34, 3), (1, 2))),
        ("A1:XFD1048576", area((0, 0), (1_048_575, 16_383))),
        ("B3", area((2, 1), (2, 1))),
        ("A1:B2:C3", Err(RefError::DimensionCount(3))),
        ("A1:", Err(RefError::RangeWithoutRowComponent)),
        ("A1:B2:?", Err(RefError::Alphanumeric(b'?'))),
    ];
    for (text, want) in texts {
        assert!(rt; get_dimension(text) == want, "of {text:?}");
    }
}

#[test]
fn areas_count_their_cells(rt: HostRuntime) -> Result<(), Fail> {
    let counts = [
        ("A1:Z99", 2_574),
        ("A1:XFD1048576", 17_179_869_184),
        ("D35:C2", 0),
    ];
    for (text, want) in counts {
        assert!(rt; get_dimension(text)?.len() == want, "of {text:?}");
    }
    let all = Dimensions {
        start: (0, 0),
        end: (u32::MAX, u32::MAX),
    };
    assert!(rt; all.len() == u64::MAX);
    let area = get_dimension("C2:D35")?;
    assert!(rt; area.contains(34, 3) && !area.contains(35, 3) && !area.contains(34, 1));
    assert!(rt; area != get_dimension("C2:D36")?);
    assert!(rt; area != get_dimension("C3:D35")?);
    let origin = Dimensions {
        start: (0, 0),
        end: (0, 0),
    };
    assert!(rt; Dimensions::default() == origin);
    Ok(())
}

#[test]
fn columns_have_names(rt: HostRuntime) -> Result<(), Fail> {
    let names = [(0, "A"), (25, "Z"), (26, "AA"), (27, "AB"), (16_383, "XFD")];
    for (num, want) in names {
        assert!(rt; column_number_to_name(num)?.as_str() == want, "of {num}");
    }
    assert!(rt; column_number_to_name(MAX_COLUMNS).is_err());
    Ok(())
}

#[test]
fn refusals_have_texts(rt: HostRuntime) -> Result<(), Fail> {
    let texts = [
        (
            RefError::Alphanumeric(b':'),
            "Expecting alphanumeric character, got 3A",
        ),
        (
            RefError::RangeWithoutColumnComponent,
            "Range is missing the expected column component.",
        ),
        (
            RefError::RangeWithoutRowComponent,
            "Range is missing the expected row component.",
        ),
        (RefError::ColumnNumberOverflow, "column number overflow"),
        (RefError::RowNumberOverflow, "row number overflow"),
        (
            RefError::DimensionCount(3),
            "Range dimension must be lower than 2. Got 3",
        ),
    ];
    for (error, want) in texts {
        assert!(rt; error.to_string(rt.alloc())?.as_str() == want, "{want}");
    }
    Ok(())
}

#[test]
fn references_are_appended(rt: HostRuntime) -> Result<(), Fail> {
    let mut out = String::new(rt.alloc());
    push_reference(&mut out, 0, 0)?;
    push_reference(&mut out, 34, 27)?;
    push_reference(&mut out, 1_048_575, 16_383)?;
    push_row_reference(&mut out, 0)?;
    push_row_reference(&mut out, 1_048_575)?;
    push_column_name(&mut out, 16_383)?;
    assert!(rt; out.as_str() == "A1AB35XFD104857611048576XFD");
    Ok(())
}
