//! The styles part of a workbook.

use cell_data::CellFormat;
use cell_styles::{BorderStyle, Color, FillPattern};
use part_events::{BreakCause, MemoryPackage, XlReader, XmlFault};
use std::alloc::Global;
use std::test::Fail;
use test_packages::{events_of, package_front};
use xlsx_error::XlsxError;
use xlsx_styles::default_theme_colors;
use xlsx_stylesheet::{StyleSheet, read_styles};

const STYLES_NAME: &str = "xl/styles.xml";

/// What the first events of this markup say of styles.
fn styles_of(alloc: Global, markup: &str, count: usize) -> Result<StyleSheet, XlsxError> {
    let package = package_front(alloc, (STYLES_NAME, markup), count)?;
    let mut xml = XlReader::new(alloc, package);
    read_styles(&mut xml, STYLES_NAME, &default_theme_colors())
}

/// Two sections of fonts, and cell formats before the other lists and behind them: 44 events.
const PART_IN_TWO_GOES: &str = r#"
    <styleSheet>
        <cellXfs count="18446744073709551615">
            <xf numFmtId="14" fontId="0" fillId="0"/>
        </cellXfs>
        <numFmts>
            <numFmt numFmtId="164" formatCode="[h]:mm"/>
        </numFmts>
        <x:fonts count="4294967295">
            <font>
                <b/>
            </font>
        </x:fonts>
        <fills>
            <fill>
                <patternFill patternType="solid">
                    <fgColor rgb="FFFFFF00"/>
                </patternFill>
            </fill>
        </fills>
        <borders>
            <border diagonalUp="1" diagonalDown="false">
                <diagonal style="dashed"/>
            </border>
        </borders>
        <fonts>
            <font>
                <i/>
            </font>
        </fonts>
        <cellXfs>
            <xf numFmtId="164" fontId="1" fillId="0" borderId="0"/>
            <xf fontId="2"/>
        </cellXfs>
        <extLst/>
    </styleSheet>"#;

#[test]
fn cell_formats_name_what_stands_before_them(rt: HostRuntime) -> Result<(), Fail> {
    let alloc = rt.alloc();
    let sheet = styles_of(alloc, PART_IN_TWO_GOES, 44)?;
    assert!(rt; sheet.formats.len() == 3);
    assert!(rt; sheet.styles.len() == 3);
    let wanted = [
        CellFormat::DateTime,
        CellFormat::TimeDelta,
        CellFormat::Other,
    ];
    for (place, want) in wanted.into_iter().enumerate() {
        assert!(rt; sheet.formats.get(place) == Some(&want), "format {place}");
    }
    let Some(first) = sheet.styles.get(0) else {
        return Err("no style")?;
    };
    assert!(rt; first.font.is_none());
    assert!(rt; first.fill.is_none());
    assert!(rt;
        first.number_format.as_ref().is_some_and(|format| {
            format.format_code.as_str() == "mm-dd-yy" && format.format_id == Some(14)
        })
    );
    let Some(second) = sheet.styles.get(1) else {
        return Err("no style")?;
    };
    assert!(rt;
        second
            .font
            .as_ref()
            .is_some_and(|font| font.is_italic() && !font.is_bold())
    );
    assert!(rt;
        second.fill.as_ref().is_some_and(|fill| {
            fill.pattern == FillPattern::Solid
                && fill.foreground_color == Some(Color::rgb(0xFF, 0xFF, 0))
        })
    );
    assert!(rt;
        second.borders.as_ref().is_some_and(|borders| {
            borders.diagonal_up.style == BorderStyle::Dashed
                && borders.diagonal_down.style == BorderStyle::None
        })
    );
    assert!(rt;
        second.number_format.as_ref().is_some_and(|format| {
            format.format_code.as_str() == "[h]:mm" && format.format_id == Some(164)
        })
    );
    let Some(third) = sheet.styles.get(2) else {
        return Err("no style")?;
    };
    assert!(rt; third.is_empty());
    Ok(())
}

#[test]
fn the_innermost_open_element_is_told(rt: HostRuntime) -> Result<(), Fail> {
    let alloc = rt.alloc();
    assert!(rt; events_of(alloc, PART_IN_TWO_GOES)?.len() == 44);
    for taken in 0..44 {
        let answer = styles_of(alloc, PART_IN_TWO_GOES, taken);
        assert!(rt;
            matches!(&answer, Err(XlsxError::XmlEof(_))),
            "{taken} events"
        );
    }
    for (taken, name) in [
        (0, "styleSheet"),
        (1, "styleSheet"),
        (2, "cellXfs"),
        (3, "xf"),
        (4, "cellXfs"),
        (5, "styleSheet"),
        (7, "numFmts"),
        (10, "fonts"),
        (12, "font"),
        (16, "fills"),
        (19, "fill"),
        (24, "borders"),
        (25, "border"),
        (26, "border side"),
        (27, "border"),
        (42, "styleSheet"),
    ] {
        let answer = styles_of(alloc, PART_IN_TWO_GOES, taken);
        assert!(rt;
            matches!(&answer, Err(XlsxError::XmlEof(end)) if *end == name),
            "{taken} events"
        );
    }
    Ok(())
}

const NESTED: &str = r#"
    <styleSheet>
        <fonts>
            <cellXfs>
                <xf/>
            </cellXfs>
        </fonts>
    </styleSheet>"#;

const UNKNOWN_CHARACTER: &str = r#"
    <styleSheet>
        <numFmts>
            <numFmt numFmtId="164" formatCode="&nbsp;">"#;

#[test]
fn styles_are_absent_nested_or_refused(rt: HostRuntime) -> Result<(), Fail> {
    let alloc = rt.alloc();
    let mut xml = XlReader::new(alloc, MemoryPackage::new(alloc));
    let theme = default_theme_colors();
    let absent = read_styles(&mut xml, STYLES_NAME, &theme)?;
    assert!(rt; absent.formats.is_empty() && absent.styles.is_empty());
    let sheet = styles_of(alloc, NESTED, 8)?;
    assert!(rt; sheet.formats.is_empty() && sheet.styles.is_empty());
    let answer = styles_of(alloc, "<styleSheet><fonts></fills>", 3);
    assert!(rt;
        matches!(
            &answer,
            Err(XlsxError::Xml(XmlFault::Break {
                at: 2,
                why: BreakCause::EndMismatch
            }))
        )
    );
    let answer = styles_of(alloc, "<styleSheet><borders><border diagonalUp=1>", 3);
    assert!(rt; matches!(&answer, Err(XlsxError::XmlAttr(_))));
    let answer = styles_of(alloc, UNKNOWN_CHARACTER, 3);
    assert!(rt; matches!(&answer, Err(XlsxError::Xml(XmlFault::Entity { at: 2 }))));
    Ok(())
}
