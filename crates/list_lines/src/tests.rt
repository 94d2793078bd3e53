use crate::{
    LineForm, push_area_line, push_comment_line, push_custom_line, push_link_line, push_name_line,
    push_position_areas_line, push_position_line, push_property_line, push_sheet_line,
    push_table_line, push_text_line,
};
use cell_refs::Dimensions;
use std::test::Fail;

#[test]
fn lists_have_their_lines(rt: HostRuntime) -> Result<(), Fail> {
    let mut out = String::from_str(rt.alloc(), "lists:\n")?;
    for (name, typ, state) in [
        ("S", "worksheet", "hidden"),
        ("tab\there\\", "chartsheet", "visible"),
        ("", "dialogsheet", "veryHidden"),
    ] {
        push_sheet_line(&mut out, LineForm::Text, name, typ, state)?;
    }
    for (name, text) in [("Q", "S!$A$1"), ("two\nlines", "\r"), ("", "")] {
        push_name_line(&mut out, LineForm::Text, name, text)?;
    }
    let wanted = "lists:\nS\tworksheet\thidden\ntab\\there\\\\\tchartsheet\tvisible\n\
        \tdialogsheet\tveryHidden\nQ\tS!$A$1\ntwo\\nlines\t\\r\n\t\n";
    assert_eq!(rt; out.as_str(), wanted);
    Ok(())
}

const ONE_CELL: Dimensions = Dimensions {
    start: (0, 3),
    end: (0, 3),
};

const TURNED: Dimensions = Dimensions {
    start: (1_048_575, 16_383),
    end: (0, 0),
};

#[test]
fn areas_and_links_have_their_lines(rt: HostRuntime) -> Result<(), Fail> {
    let mut out = String::from_str(rt.alloc(), "lists:\n")?;
    push_area_line(&mut out, LineForm::Text, ONE_CELL)?;
    push_area_line(&mut out, LineForm::Text, TURNED)?;
    for (target, tooltip) in [
        (Some("https://example.com"), Some("a&b")),
        (None, Some("")),
        (Some("tab\there"), None),
    ] {
        push_link_line(
            &mut out,
            LineForm::Text,
            ONE_CELL,
            target,
            None,
            Some("back\\"),
            tooltip,
        )?;
    }
    let wanted = "lists:\nD1:D1\nXFD1048576:A1\n\
        D1:D1\t=https://example.com\t-\t=back\\\\\t=a&b\n\
        D1:D1\t-\t-\t=back\\\\\t=\n\
        D1:D1\t=tab\\there\t-\t=back\\\\\t-\n";
    assert_eq!(rt; out.as_str(), wanted);
    Ok(())
}

#[test]
fn comments_have_their_lines(rt: HostRuntime) -> Result<(), Fail> {
    let mut out = String::from_str(rt.alloc(), "lists:\n")?;
    for (author, text) in [(Some("Ann"), "two\nlines"), (Some(""), ""), (None, "-")] {
        push_comment_line(&mut out, LineForm::Text, (1_048_575, 16_383), author, text)?;
    }
    let wanted = "lists:\nXFD1048576\t=Ann\t=two\\nlines\nXFD1048576\t=\t=\n\
        XFD1048576\t-\t=-\n";
    assert_eq!(rt; out.as_str(), wanted);
    Ok(())
}

#[test]
fn properties_have_their_lines(rt: HostRuntime) -> Result<(), Fail> {
    let mut out = String::from_str(rt.alloc(), "lists:\n")?;
    push_property_line(&mut out, LineForm::Text, "creator", "Ann & Bo")?;
    for (name, text) in [("Checked", "true"), ("two\nlines", "\r"), ("", "")] {
        push_custom_line(&mut out, LineForm::Text, name, text)?;
    }
    let wanted = "lists:\ncreator\t=Ann & Bo\ncustom:Checked\t=true\n\
        custom:two\\nlines\t=\\r\ncustom:\t=\n";
    assert_eq!(rt; out.as_str(), wanted);
    Ok(())
}

#[test]
fn tables_have_their_lines(rt: HostRuntime) -> Result<(), Fail> {
    let mut out = String::from_str(rt.alloc(), "lists:\n")?;
    let mut columns = Vec::new(rt.alloc());
    push_table_line(&mut out, LineForm::Text, "T1", "S", None, &columns)?;
    for name in ["Name", "two\nlines", ""] {
        columns.push(String::from_str(rt.alloc(), name)?)?;
    }
    push_table_line(
        &mut out,
        LineForm::Text,
        "tab\there",
        "back\\",
        Some(ONE_CELL),
        &columns,
    )?;
    let wanted = "lists:\nT1\tS\t-\ntab\\there\tback\\\\\tD1:D1\tName\ttwo\\nlines\t\n";
    assert_eq!(rt; out.as_str(), wanted);
    Ok(())
}

const COLUMN: Dimensions = Dimensions {
    start: (0, 2),
    end: (1_048_575, 2),
};

#[test]
fn positions_have_their_lines(rt: HostRuntime) -> Result<(), Fail> {
    let mut out = String::from_str(rt.alloc(), "lists:\n")?;
    push_position_line(&mut out, (6, 27))?;
    push_position_areas_line(&mut out, (1_048_575, 16_383), &[])?;
    push_position_areas_line(&mut out, (0, 0), &[COLUMN, ONE_CELL])?;
    let wanted = "lists:\nAB7\nXFD1048576\nA1\tC1:C1048576\tD1:D1\n";
    assert_eq!(rt; out.as_str(), wanted);
    Ok(())
}

#[test]
fn a_text_alone_has_its_line(rt: HostRuntime) -> Result<(), Fail> {
    let mut out = String::from_str(rt.alloc(), "lists:\n")?;
    push_text_line(&mut out, "xl/worksheets/a\tb.xml")?;
    push_text_line(&mut out, "")?;
    assert_eq!(rt; out.as_str(), "lists:\nxl/worksheets/a\\tb.xml\n\n");
    Ok(())
}
