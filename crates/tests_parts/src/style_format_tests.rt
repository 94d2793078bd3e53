//! Number formats and cell formats.

use cell_data::CellFormat;
use cell_styles::{Borders, Fill, FillPattern, Font, HorizontalAlignment};
use part_events::{XlReader, XmlFault};
use std::alloc::{AllocError, Global};
use std::test::Fail;
use test_packages::package_of;
use test_tables::assert_text;
use xlsx_error::XlsxError;
use xlsx_formats::{FormatCodes, Formatting, NamedLists, read_format, read_number_formats};
use xlsx_sections::enter;

/// Keeps the codes that the number formats of this markup write.
fn keep_codes(alloc: Global, markup: &str, kept: &mut FormatCodes) -> Result<(), XlsxError> {
    let mut xml = XlReader::new(alloc, package_of(alloc, &[("part", markup)])?);
    if !xml.open("part")? {
        return Err(XlsxError::FileNotFound(String::from_str(alloc, "part")?));
    }
    enter(&mut xml, "numFmts")?;
    read_number_formats(&mut xml, kept)
}

/// What the cell format of this markup makes of a number, and its style.
fn formatting_in(
    alloc: Global,
    markup: &str,
    lists: &NamedLists<'_>,
) -> Result<Formatting, XlsxError> {
    let mut xml = XlReader::new(alloc, package_of(alloc, &[("part", markup)])?);
    if !xml.open("part")? {
        return Err(XlsxError::FileNotFound(String::from_str(alloc, "part")?));
    }
    enter(&mut xml, "xf")?;
    read_format(&mut xml, lists)
}

/// The codes of three ids, of which one is built in.
fn known_codes(alloc: Global) -> Result<FormatCodes, AllocError> {
    let mut kept = FormatCodes::new(alloc);
    for (id, code) in [("164", "[hH]:mm"), ("20", "0.0"), ("x", "d")] {
        kept.keep(String::from_str(alloc, id)?, String::from_str(alloc, code)?)?;
    }
    Ok(kept)
}

const FIRST_CODES: &str = r#"
    <numFmts count="99999999999">
        <numFmt numFmtId="164" formatCode="0&quot;a&quot;"/>
        <extLst>
            <x:numFmt formatCode="@" numFmtId="0164"/>
        </extLst>
        <numFmt numFmtId="5"/>
    </numFmts>"#;

const SECOND_CODES: &str = r#"
    <numFmts>
        <numFmt numFmtId="164" formatCode="[h]&lt;"/>
    </numFmts>"#;

#[test]
fn codes_stand_for_their_ids_as_written(rt: HostRuntime) -> Result<(), Fail> {
    let alloc = rt.alloc();
    let mut kept = FormatCodes::new(alloc);
    keep_codes(alloc, FIRST_CODES, &mut kept)?;
    assert!(rt; kept.code("164") == Some("0\"a\""));
    keep_codes(alloc, SECOND_CODES, &mut kept)?;
    for (id, want) in [("164", Some("[h]<")), ("0164", Some("@")), ("5", None)] {
        assert!(rt; kept.code(id) == want, "at {id}");
    }
    Ok(())
}

#[test]
fn faults_of_number_formats_are_told(rt: HostRuntime) -> Result<(), Fail> {
    let alloc = rt.alloc();
    let mut kept = FormatCodes::new(alloc);
    let Err(XlsxError::XmlEof(name)) = keep_codes(alloc, "<numFmts><numFmt>", &mut kept) else {
        return Err("not refused")?;
    };
    assert_text(name, "numFmts", "the end")?;
    let faulty = r#"<numFmts><numFmt numFmtId="1" formatCode="&a">"#;
    let Err(XlsxError::Xml(XmlFault::Entity { at })) = keep_codes(alloc, faulty, &mut kept) else {
        return Err("not refused")?;
    };
    assert!(rt; at == 1);
    Ok(())
}

#[test]
fn number_formats_go_by_their_ids(rt: HostRuntime) -> Result<(), Fail> {
    let alloc = rt.alloc();
    let kept = known_codes(alloc)?;
    let lists = NamedLists {
        codes: &kept,
        fonts: &[],
        fills: &[],
        borders: &[],
    };
    for (attributes, format, number) in [
        ("", CellFormat::Other, None),
        (" numFmtId=\"0\"", CellFormat::Other, Some((0, "General"))),
        (
            " numFmtId=\"14\"",
            CellFormat::DateTime,
            Some((14, "mm-dd-yy")),
        ),
        (
            " numFmtId=\"46\"",
            CellFormat::TimeDelta,
            Some((46, "[h]:mm:ss")),
        ),
        (" numFmtId=\"50\"", CellFormat::Other, Some((50, "General"))),
        (
            " numFmtId=\"014\"",
            CellFormat::Other,
            Some((14, "mm-dd-yy")),
        ),
        (" numFmtId=\"20\"", CellFormat::Other, Some((20, "0.0"))),
        (
            " numFmtId=\"164\"",
            CellFormat::TimeDelta,
            Some((164, "[hH]:mm")),
        ),
        (" numFmtId=\"x\"", CellFormat::DateTime, None),
        (" numFmtId=\"4294967296\"", CellFormat::Other, None),
    ] {
        let markup = format!(in alloc; "<xf{attributes}/>")?;
        let formatting = formatting_in(alloc, markup.as_str(), &lists)?;
        assert!(rt; formatting.format == format, "at {attributes}");
        match (formatting.style.number_format.as_ref(), number) {
            (None, None) => {}
            (Some(named), Some((id, code))) => {
                assert!(rt; named.format_id == Some(id), "at {attributes}");
                assert_text(&named.format_code, code, attributes)?;
            }
            _ => return Err("another number format")?,
        }
    }
    Ok(())
}

#[test]
fn fonts_fills_and_borders_go_by_their_numbers(rt: HostRuntime) -> Result<(), Fail> {
    let alloc = rt.alloc();
    let kept = FormatCodes::new(alloc);
    let solid = Fill {
        pattern: FillPattern::Solid,
        foreground_color: None,
        background_color: None,
    };
    let fonts = [Font::default()];
    let fills = [Fill::default(), solid];
    let borders = [Borders::default()];
    let lists = NamedLists {
        codes: &kept,
        fonts: &fonts,
        fills: &fills,
        borders: &borders,
    };
    for (attributes, font, fill, bordered) in [
        (
            " fontId=\"0\" fillId=\"01\" borderId=\"0\"",
            true,
            true,
            true,
        ),
        (
            " fontId=\"1\" fillId=\"2\" borderId=\"1\"",
            false,
            false,
            false,
        ),
        (" fontId=\"+0\" fillId=\"-1\"", false, false, false),
    ] {
        let markup = format!(in alloc; "<xf{attributes}/>")?;
        let style = formatting_in(alloc, markup.as_str(), &lists)?.style;
        assert!(rt; style.font.is_some() == font, "at {attributes}");
        assert!(rt; style.borders.is_some() == bordered, "at {attributes}");
        match style.fill {
            Some(found) => assert!(rt; fill && found.pattern == FillPattern::Solid),
            None => assert!(rt; !fill, "at {attributes}"),
        }
    }
    Ok(())
}

const SETTINGS: &str = r#"
    <xf>
        <alignment horizontal="left" wrapText="1">
            <protection hidden="1"/>
        </alignment>
        <alignment horizontal="right"/>
    </xf>"#;

const OPEN_SETTINGS: &str = r#"
    <xf>
        <alignment horizontal="left" wrapText="1">
            <protection hidden="1">"#;

#[test]
fn the_last_alignment_and_protection_count(rt: HostRuntime) -> Result<(), Fail> {
    let alloc = rt.alloc();
    let kept = FormatCodes::new(alloc);
    let lists = NamedLists {
        codes: &kept,
        fonts: &[],
        fills: &[],
        borders: &[],
    };
    let style = formatting_in(alloc, SETTINGS, &lists)?.style;
    let (Some(alignment), Some(protection)) = (style.alignment, style.protection) else {
        return Err("not set")?;
    };
    assert!(rt; alignment.horizontal == HorizontalAlignment::Right);
    assert!(rt; !alignment.wrap_text);
    assert!(rt; protection.locked && protection.hidden);
    let Err(XlsxError::XmlEof(name)) = formatting_in(alloc, OPEN_SETTINGS, &lists) else {
        return Err("not refused")?;
    };
    assert_text(name, "xf", "the end")?;
    Ok(())
}
