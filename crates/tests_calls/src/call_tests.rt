use crate::{
    all_are_read, comment_texts, count_of_formulas, fill_color_at, first_cell,
    first_place_and_table, first_row, formula_count, formula_total, full_cells, link_count,
    opened_from_row, size_of_values, table_total, title,
};
use cell_data::CellFormat;
use cell_refs::Dimensions;
use part_events::XlReader;
use std::test::Fail;
use test_packages::{Part, SHEET_NAME, package_of, package_with, sheet_part};
use xlsx_core::{Xlsx, XlsxError};
use xlsx_formulas::XlsxFormulaMetadata;
use xlsx_values::ValueContext;

#[test]
fn formulas_are_counted_by_their_positions(rt: HostRuntime) -> Result<(), Fail> {
    let alloc = rt.alloc();
    for (data, want) in [
        (r#"<row r="1"><c r="A1"><v>2</v></c></row>"#, 0),
        (
            r#"<row r="1"><c r="A1"><f>B1</f></c><c r="A1"><f>C1</f></c><c><f>D1</f></c></row>"#,
            2,
        ),
    ] {
        let sheet = sheet_part(alloc, data)?;
        let package = package_with(alloc, (SHEET_NAME, sheet.as_str()))?;
        assert_eq!(rt; formula_count(alloc, package, "S")?, want);
    }
    Ok(())
}

#[test]
fn full_cells_are_counted_in_one_pass(rt: HostRuntime) -> Result<(), Fail> {
    let alloc = rt.alloc();
    let data = "<c s=\"1\"><f>B1</f><v>1</v></c><c s=\"1\"><f>B1</f></c><c s=\"1\"><v>1</v></c>\
        <c><f>B1</f><v>1</v></c>";
    let sheet = sheet_part(alloc, data)?;
    let package = package_with(alloc, (SHEET_NAME, sheet.as_str()))?;
    let mut xml = XlReader::new(alloc, package);
    let book = ValueContext {
        strings: &[],
        formats: &[CellFormat::Other, CellFormat::Other],
        is_1904: false,
    };
    assert_eq!(rt; full_cells(&mut xml, SHEET_NAME, book)?, 1);
    assert_eq!(rt; full_cells(&mut xml, "none", book)?, 0);
    Ok(())
}

#[test]
fn formulas_tell_their_group_and_equal_their_copies(rt: HostRuntime) -> Result<(), Fail> {
    let alloc = rt.alloc();
    let own = XlsxFormulaMetadata::Normal {
        formula: String::from_str(alloc, "B1")?,
    };
    let master = XlsxFormulaMetadata::Shared {
        shared_index: 7,
        range: Some(Dimensions::default()),
        formula: String::from_str(alloc, "B1")?,
    };
    let derived = XlsxFormulaMetadata::SharedDerived { shared_index: 8 };
    let other = XlsxFormulaMetadata::SharedDerived { shared_index: 7 };
    for (formula, group) in [(own, None), (master, Some(7)), (derived, Some(8))] {
        assert!(rt; formula.shared_index() == group);
        assert!(rt; formula.clone_in(alloc)? == formula);
        assert!(rt; formula != other);
    }
    Ok(())
}

/// The relationships of a package, which lead to its workbook.
const ROOT: Part<'static> = (
    "_rels/.rels",
    "<Relationships><Relationship \
    Type=\"http://schemas.openxmlformats.org/officeDocument/2006/relationships/officeDocument\" \
    Target=\"xl/workbook.xml\"></Relationship></Relationships>",
);

/// Those of the workbook, which lead to its sheet.
const RELATED: Part<'static> = (
    "xl/_rels/workbook.xml.rels",
    "<Relationships><Relationship Id=\"a\" \
    Type=\"http://schemas.openxmlformats.org/officeDocument/2006/relationships/worksheet\" \
    Target=\"s.xml\"></Relationship></Relationships>",
);

/// The workbook, whose sheet is named `S`.
const WORKBOOK: Part<'static> = (
    "xl/workbook.xml",
    r#"<workbook><sheets><sheet name="S" r:id="a"></sheet></sheets></workbook>"#,
);

/// A workbook of one sheet with a table over A1 and A2.
const WITH_TABLE: [Part<'static>; 6] = [
    ROOT,
    RELATED,
    WORKBOOK,
    (
        "xl/s.xml",
        "<worksheet><sheetData><row r=\"1\"><c r=\"B1\"><v>7</v></c></row>\
        <row r=\"2\"><c r=\"A2\"><v>8</v></c></row></sheetData></worksheet>",
    ),
    (
        "xl/_rels/s.xml.rels",
        "<Relationships><Relationship \
        Type=\"http://schemas.openxmlformats.org/officeDocument/2006/relationships/table\" \
        Target=\"xl/t.xml\"></Relationship></Relationships>",
    ),
    (
        "xl/t.xml",
        "<table displayName=\"T\" ref=\"A1:A2\">\
        <tableColumns><tableColumn name=\"N\"></tableColumn></tableColumns></table>",
    ),
];

#[test]
fn a_table_is_read_behind_a_reader(rt: HostRuntime) -> Result<(), Fail> {
    let alloc = rt.alloc();
    let Ok(mut xlsx) = Xlsx::new(alloc, package_of(alloc, &WITH_TABLE)?) else {
        return Err(XlsxError::Failed.into());
    };
    assert_eq!(rt; table_total(&mut xlsx)?, 1);
    xlsx.load_tables()?;
    let (_, read) = first_place_and_table(xlsx, "S", "T");
    let (place, table) = read?;
    assert!(rt; place == Some((0, 1)));
    assert_eq!(rt; table.name(), "T");
    Ok(())
}

/// A workbook of one sheet, with a cell, a link, a comment, a pivot table and a title.
const SHOWN: [Part<'static>; 13] = [
    ROOT,
    RELATED,
    WORKBOOK,
    (
        "xl/styles.xml",
        "<styleSheet><fills><fill></fill><fill><patternFill patternType=\"solid\">\
        <fgColor rgb=\"FF00FF00\"></fgColor></patternFill></fill></fills><cellXfs><xf></xf>\
        <xf fillId=\"1\"></xf></cellXfs></styleSheet>",
    ),
    (
        "xl/s.xml",
        "<worksheet><sheetData><row r=\"2\"><c r=\"B2\" s=\"1\"><f>3+4</f><v>7</v></c></row>\
        </sheetData><hyperlinks><hyperlink ref=\"B2\" r:id=\"l\"></hyperlink></hyperlinks>\
        </worksheet>",
    ),
    (
        "xl/_rels/s.xml.rels",
        "<Relationships><Relationship Id=\"l\" \
        Type=\"http://schemas.openxmlformats.org/officeDocument/2006/relationships/hyperlink\" \
        Target=\"page\"></Relationship><Relationship \
        Type=\"http://schemas.openxmlformats.org/officeDocument/2006/relationships/comments\" \
        Target=\"/xl/c.xml\"></Relationship><Relationship \
        Type=\"http://schemas.openxmlformats.org/officeDocument/2006/relationships/pivotTable\" \
        Target=\"/xl/pivotTables/p.xml\"></Relationship></Relationships>",
    ),
    (
        "xl/c.xml",
        "<comments><commentList><comment ref=\"B2\"><text><t>late</t></text></comment>\
        </commentList></comments>",
    ),
    ("docProps/core.xml", "<a><title>Sales</title></a>"),
    (
        "xl/pivotTables/p.xml",
        r#"<pivotTableDefinition name="P"></pivotTableDefinition>"#,
    ),
    (
        "xl/pivotTables/_rels/p.xml.rels",
        "<Relationships><Relationship \
        Type=\"http://schemas.openxmlformats.org/officeDocument/2006/relationships/\
        pivotCacheDefinition\" \
        Target=\"../pivotCache/d.xml\"></Relationship></Relationships>",
    ),
    (
        "xl/pivotCache/_rels/d.xml.rels",
        "<Relationships><Relationship \
        Type=\"http://schemas.openxmlformats.org/officeDocument/2006/relationships/\
        pivotCacheRecords\" \
        Target=\"r.xml\"></Relationship></Relationships>",
    ),
    (
        "xl/pivotCache/d.xml",
        "<pivotCacheDefinition><cacheFields><cacheField name=\"Qty\"><sharedItems></sharedItems>\
        </cacheField></cacheFields></pivotCacheDefinition>",
    ),
    (
        "xl/pivotCache/r.xml",
        r#"<pivotCacheRecords><r><n v="3"></n></r></pivotCacheRecords>"#,
    ),
];

#[test]
fn short_calls_answer_of_an_open_workbook(rt: HostRuntime) -> Result<(), Fail> {
    let alloc = rt.alloc();
    let Ok(mut xlsx) = opened_from_row(alloc, package_of(alloc, &SHOWN)?, 0) else {
        return Err(XlsxError::Failed.into());
    };
    assert!(rt; size_of_values(&mut xlsx, "S")? == (2, 1));
    assert_eq!(rt; count_of_formulas(&mut xlsx, "S")?, 1);
    assert_eq!(rt; formula_total(&mut xlsx)?, 1);
    assert_eq!(rt; table_total(&mut xlsx)?, 0);
    assert!(rt; fill_color_at(&mut xlsx, "S", (1, 1))?.is_some());
    assert!(rt; all_are_read(&mut xlsx)?);
    let Some(cell) = first_cell(&mut xlsx, "S")? else {
        return Err(XlsxError::Failed.into());
    };
    assert!(rt; cell.pos == (1, 1));
    Ok(())
}

#[test]
fn short_calls_answer_of_parts_beside_a_sheet(rt: HostRuntime) -> Result<(), Fail> {
    let alloc = rt.alloc();
    let Ok(mut xlsx) = opened_from_row(alloc, package_of(alloc, &SHOWN)?, 0) else {
        return Err(XlsxError::Failed.into());
    };
    let texts = comment_texts(alloc, &mut xlsx, "S")?;
    assert!(rt; texts.len() == 1 && texts[0].as_str() == "late");
    assert!(rt; link_count(&mut xlsx, "S")? == 1);
    let Some(title) = title(alloc, &mut xlsx)? else {
        return Err(XlsxError::Failed.into());
    };
    assert_eq!(rt; title.as_str(), "Sales");
    let Some(row) = first_row(&mut xlsx, "S", "P")? else {
        return Err(XlsxError::Failed.into());
    };
    assert!(rt; row.len() == 1);
    Ok(())
}
