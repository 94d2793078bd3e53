//! What is read of parts that are held as text, through the whole reading: parts whose bytes are no
//! text, and markup that ends in a flaw (docs/FORMAT.md, "A flaw").
use std::alloc::Global;
use std::test::Fail;
use test_tables::assert_text;
use text_package::TextPackage;
use xlsx_core::{SheetAnswer, read_sheet};

const ROOT: &[u8] = b"<Relationships><Relationship Id=\"a\" Target=\"xl/workbook.xml\" \
    Type=\"http://schemas.openxmlformats.org/officeDocument/2006/relationships/officeDocument\"/>\
    </Relationships>";

const RELATED: &[u8] = b"<Relationships><Relationship Id=\"a\" Target=\"worksheets/sheet1.xml\" \
    Type=\"http://schemas.openxmlformats.org/officeDocument/2006/relationships/worksheet\"/>\
    </Relationships>";

const BOOK: &[u8] = b"<workbook><sheets><sheet name=\"S\" r:id=\"a\"/></sheets></workbook>";

const CELL: &[u8] =
    b"<worksheet><sheetData><row><c r=\"A1\"><v>1</v></c></row></sheetData></worksheet>";

const SHEET: &str = "xl/worksheets/sheet1.xml";

/// The smallest workbook behind a part that stands in place of its own of that name.
fn book_with(alloc: Global, name: &str, bytes: &[u8]) -> Result<TextPackage, Fail> {
    let mut package = TextPackage::new(alloc);
    package.add_part(name, Vec::from_slice(alloc, bytes)?)?;
    for (own, held) in [
        ("_rels/.rels", ROOT),
        ("xl/_rels/workbook.xml.rels", RELATED),
        ("xl/workbook.xml", BOOK),
        (SHEET, CELL),
    ] {
        package.add_part(own, Vec::from_slice(alloc, held)?)?;
    }
    Ok(package)
}

/// How many values the sheet has, or why it is refused.
fn told(alloc: Global, name: &str, bytes: &[u8]) -> Result<String, Fail> {
    let package = book_with(alloc, name, bytes)?;
    let SheetAnswer { result, package } = read_sheet(alloc, package, "S");
    drop(package);
    let mut out = String::new(alloc);
    match result {
        Ok(reading) => write!(out, "{}", reading.values.used_cells().count())?,
        Err(error) => write!(out, "{error}")?,
    }
    Ok(out)
}

/// Bytes of the sheet's part that are no text, or whose markup ends in a flaw, and what is told.
const SHEETS: [(&[u8], &str); 30] = [
    (CELL, "1"),
    (b"\xef\xbb\xbf<worksheet><sheetData/></worksheet>", "0"),
    (
        b"\xff<worksheet><sheetData/></worksheet>",
        "Xml error: not a text in UTF-8 at 0",
    ),
    (
        b"<worksheet><sheetData/></worksheet>\xff",
        "Xml error: not a text in UTF-8 at 0",
    ),
    (
        b"<worksheet><sheetData/></worksheet>\0",
        "Xml error: not a text in UTF-8 at 0",
    ),
    (
        b"\xff\xfe<\0a\0/\0>\0",
        "Xml error: not a text in UTF-8 at 0",
    ),
    (b"<\0a\0/\0>\0", "Xml error: not a text in UTF-8 at 0"),
    (
        b"<?xml version='1.0' encoding='ISO-8859-1'?><worksheet><sheetData/></worksheet>",
        "Xml error: not a text in UTF-8 at 0",
    ),
    (
        b"<?xml version='1.0' encoding='utf-16'?><worksheet><sheetData/></worksheet>",
        "0",
    ),
    (b"", "Unexpected end of xml, expecting '</worksheet>'"),
    (b"<worksheet><sheetData/><a", "0"),
    (b"<worksheet><sheetData/>a & b", "0"),
    (b"<worksheet><sheetData/><", "0"),
    (
        b"<worksheet><sheetData><row><c r=\"A1\"><v>1</v></c><",
        "Xml error: malformed markup at 8",
    ),
    (
        b"<worksheet><sheetData><row></c><",
        "Xml error: end tag mismatch at 3",
    ),
    (
        b"<worksheet><!-- <sheetData/>",
        "Xml error: malformed markup at 1",
    ),
    (b"<worksheet><!-->", "Xml error: malformed markup at 1"),
    (
        b"<worksheet><?x <sheetData/>",
        "Xml error: malformed markup at 1",
    ),
    (
        b"<worksheet><![CDATA[<sheetData/>",
        "Xml error: malformed markup at 1",
    ),
    (
        b"<!DOCTYPE worksheet [<worksheet>",
        "Xml error: malformed markup at 0",
    ),
    (
        b"<worksheet a='><sheetData/>",
        "Xml error: malformed markup at 0",
    ),
    (
        b"<worksheet><a b=\"><sheetData/>",
        "Xml error: malformed markup at 1",
    ),
    (
        b"<worksheet><sheetData><c><v>a & b</v></c></sheetData>",
        "Xml error: malformed markup at 5",
    ),
    (
        b"<worksheet><a'b'/><sheetData/>",
        "Xml error: malformed markup at 1",
    ),
    (
        b"<worksheet><a\"/><sheetData/>",
        "Xml error: malformed markup at 1",
    ),
    (
        b"<worksheet>< a/><sheetData/>",
        "Xml error: malformed markup at 1",
    ),
    (
        b"<worksheet></><sheetData/>",
        "Xml error: malformed markup at 1",
    ),
    (
        b"<worksheet><a/b><sheetData/>",
        "Xml error: malformed markup at 1",
    ),
    (
        b"<worksheet><!a><sheetData/>",
        "Xml error: malformed markup at 1",
    ),
    (b"<", "Xml error: malformed markup at 0"),
];

#[test]
fn sheets_are_read_up_to_their_flaw(rt: HostRuntime) -> Result<(), Fail> {
    let alloc = rt.alloc();
    for (bytes, wanted) in SHEETS {
        let shown = String::from_utf8_lossy(alloc, bytes)?;
        assert_text(&told(alloc, SHEET, bytes)?, wanted, shown.as_str())?;
    }
    Ok(())
}

/// Other parts with a flaw, and what is told of the sheet.
const OTHERS: [(&str, &[u8], &str); 11] = [
    ("xl/theme/theme1.xml", b"<", "1"),
    ("xl/theme/theme1.xml", b"\xff", "1"),
    ("docProps/core.xml", b"<", "1"),
    (
        "xl/styles.xml",
        b"<styleSheet>\xff</styleSheet>",
        "Xml error: not a text in UTF-8 at 0",
    ),
    (
        "xl/styles.xml",
        b"<styleSheet><",
        "Xml error: malformed markup at 1",
    ),
    ("xl/styles.xml", b"<styleSheet></styleSheet><", "1"),
    (
        "xl/sharedStrings.xml",
        b"<sst><si><t>a & b",
        "Xml error: malformed markup at 4",
    ),
    (
        "_rels/.rels",
        b"<Relationships>&",
        "Xml error: malformed markup at 1",
    ),
    (
        "xl/_rels/workbook.xml.rels",
        b"\0",
        "Xml error: not a text in UTF-8 at 0",
    ),
    (
        "xl/workbook.xml",
        b"<workbook><a",
        "Xml error: malformed markup at 1",
    ),
    (
        "xl/workbook.xml",
        b"<workbook><sheet name=\"S\" r:id=\"a\"/></workbook>a & b",
        "1",
    ),
];

#[test]
fn a_flaw_refuses_what_needs_more_of_its_part(rt: HostRuntime) -> Result<(), Fail> {
    let alloc = rt.alloc();
    for (name, bytes, wanted) in OTHERS {
        assert_text(&told(alloc, name, bytes)?, wanted, name)?;
    }
    Ok(())
}
