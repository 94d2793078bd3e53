//! The package of a sample, written as markup.

use part_events::{MemoryPackage, Package, PartEvent};
use std::alloc::{AllocError, Global};
use std::test::Fail;
use xlsx_sample::sample_package;

fn push_markup(out: &mut String, event: PartEvent<'_>) -> Result<(), AllocError> {
    match event {
        PartEvent::Start(tag) => write!(out, "<{}{}>", tag.name, tag.attributes),
        PartEvent::End(name) => write!(out, "</{name}>"),
        PartEvent::Text(content) => out.push_str(content),
        _ => out.push_str("<!>"),
    }
}

/// The first hundred events of the part of this name as markup.
fn markup_of(package: &mut MemoryPackage, alloc: Global, name: &str) -> Result<String, AllocError> {
    let mut out = String::new(alloc);
    let _ = package.open(name);
    for _ in 0..100 {
        if let Ok(true) = package.advance() {
            push_markup(&mut out, package.event())?;
        }
    }
    Ok(out)
}

const PARTS: [(&str, &str); 6] = [
    (
        "_rels/.rels",
        "<Relationships><Relationship Id=\"rId1\" Type=\
        \"http://schemas.openxmlformats.org/officeDocument/2006/relationships/officeDocument\" \
        Target=\"xl/workbook.xml\"></Relationship></Relationships>",
    ),
    (
        "xl/_rels/workbook.xml.rels",
        "<Relationships><Relationship Id=\"rId1\" \
        Type=\"http://schemas.openxmlformats.org/officeDocument/2006/relationships/worksheet\" \
        Target=\"worksheets/sheet1.xml\"></Relationship></Relationships>",
    ),
    (
        "xl/workbook.xml",
        "<workbook><sheets>\
        <sheet name=\"Sample\" sheetId=\"1\" r:id=\"rId1\"></sheet></sheets></workbook>",
    ),
    (
        "xl/worksheets/sheet1.xml",
        "<worksheet><sheetData><row r=\"1\"><c r=\"A1\"><v>1</v></c>\
        <c r=\"B1\"><f t=\"shared\" ref=\"B1:B3\" si=\"0\">A1*2</f><v>2</v></c>\
        <c r=\"C1\" s=\"1\" t=\"s\"><v>1</v></c></row><row r=\"2\"><c r=\"A2\"><v>2</v></c>\
        <c r=\"B2\"><f t=\"shared\" si=\"0\"></f><v>4</v></c>\
        <c r=\"C2\" t=\"s\"><v>2</v></c></row><row r=\"3\"><c r=\"A3\"><v>3</v></c>\
        <c r=\"B3\"><f t=\"shared\" si=\"0\"></f><v>6</v></c>\
        <c r=\"C3\" s=\"1\" t=\"s\"><v>0</v></c></row></sheetData></worksheet>",
    ),
    (
        "xl/sharedStrings.xml",
        r#"<sst><si><t>red</t></si><si><t>green</t></si><si><t>blue</t></si></sst>"#,
    ),
    (
        "xl/styles.xml",
        "<styleSheet><fills><fill><patternFill patternType=\"none\"></patternFill></fill>\
        <fill><patternFill patternType=\"gray125\"></patternFill></fill>\
        <fill><patternFill patternType=\"solid\"><fgColor rgb=\"FFFFFF00\"></fgColor>\
        </patternFill></fill></fills>\
        <cellXfs><xf fillId=\"0\"></xf><xf fillId=\"2\"></xf></cellXfs></styleSheet>",
    ),
];

#[test]
fn a_sample_has_its_parts(rt: HostRuntime) -> Result<(), Fail> {
    let mut package = sample_package(rt.alloc(), 3)?;
    assert!(rt; package.part_count() == 6);
    for (name, wanted) in PARTS {
        let found = markup_of(&mut package, rt.alloc(), name)?;
        assert!(rt; found.as_str() == wanted, "{name}: {found}");
    }
    Ok(())
}
