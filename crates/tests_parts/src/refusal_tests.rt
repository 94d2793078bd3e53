use attr_text::AttrFault;
use part_events::{BreakCause, Flaw, XmlFault};
use std::alloc::{AllocError, Global};
use std::test::Fail;
use test_tables::assert_text;
use xlsx_error::XlsxError;

/// The texts of refusals, a line each.
const TEXTS: &str = "out of memory
the reader has failed before
I/O error
Xml error: end tag mismatch at 7
Xml error: malformed markup at 7
Xml error: wrong checksum at 7
Xml error: unclosed element at 7
Xml error: unknown entity at 7
Xml attribute error: expected '=' at 2
Xml attribute error: unquoted value at 13
Unexpected end of xml, expecting '</c>'
Expecting 'dimension' node
Relationship not found
Expecting alphanumeric character, got C3
Range is missing the expected column component.
Range is missing the expected row component.
column number overflow
row number overflow
Range dimension must be lower than 2. Got 3
no name for pivot table
";

#[test]
fn each_refusal_has_its_text(rt: HostRuntime) -> Result<(), Fail> {
    let at = 7;
    let mut told = String::new(rt.alloc());
    for refusal in [
        XlsxError::OutOfMemory,
        XlsxError::Failed,
        XlsxError::Io,
        XlsxError::Xml(XmlFault::Break {
            at,
            why: BreakCause::EndMismatch,
        }),
        XlsxError::Xml(XmlFault::Break {
            at,
            why: BreakCause::Flawed(Flaw::Malformed),
        }),
        XlsxError::Xml(XmlFault::Break {
            at,
            why: BreakCause::Flawed(Flaw::WrongChecksum),
        }),
        XlsxError::Xml(XmlFault::Unclosed { at }),
        XlsxError::Xml(XmlFault::Entity { at }),
        XlsxError::XmlAttr(AttrFault::ExpectedEq(2)),
        XlsxError::XmlAttr(AttrFault::UnquotedValue(13)),
        XlsxError::XmlEof("c"),
        XlsxError::UnexpectedNode("dimension"),
        XlsxError::RelationshipNotFound,
        XlsxError::Alphanumeric(0xC3),
        XlsxError::RangeWithoutColumnComponent,
        XlsxError::RangeWithoutRowComponent,
        XlsxError::ColumnNumberOverflow,
        XlsxError::RowNumberOverflow,
        XlsxError::DimensionCount(3),
        XlsxError::Unexpected("no name for pivot table"),
    ] {
        write!(told, "{refusal}\n")?;
    }
    assert_text(&told, TEXTS, "each refusal")?;
    Ok(())
}

/// The ten refusals that have a text of their own, by their numbers.
fn refusal_with(alloc: Global, number: usize) -> Result<XlsxError, AllocError> {
    let text = String::from_str(alloc, "a b")?;
    Ok(match number {
        0 => XlsxError::ParseFloat(text),
        1 => XlsxError::ParseInt(text),
        2 => XlsxError::FileNotFound(text),
        3 => XlsxError::CellTAttribute(text),
        4 => XlsxError::Unrecognized {
            typ: "sheet:state",
            val: text,
        },
        5 => XlsxError::CellError(text),
        6 => XlsxError::WorksheetNotFound(text),
        7 => XlsxError::TableNotFound(text),
        8 => XlsxError::NotAWorksheet(text),
        _ => XlsxError::PivotTableNotFound(text),
    })
}

/// Their texts, a line each.
const TOLD_TEXTS: &str = r#"Parse float error: a b
Parse integer error: a b
File not found 'a b'
Unknown cell 't' attribute: "a b"
Unrecognized sheet:state: a b
Unsupported cell error value 'a b'
Worksheet 'a b' not found
Table 'a b' not found
Expecting a worksheet, got a b
Pivot Table 'a b' was not found on worksheet
"#;

#[test]
fn refusals_tell_the_text_that_they_have(rt: HostRuntime) -> Result<(), Fail> {
    let mut told = String::new(rt.alloc());
    for number in 0..10 {
        let refusal = refusal_with(rt.alloc(), number)?;
        write!(told, "{refusal}\n")?;
    }
    assert_text(&told, TOLD_TEXTS, "each refusal")?;
    Ok(())
}
