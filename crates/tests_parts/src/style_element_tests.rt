//! The elements of the styles part: colors, alignments, protections, fills, fonts and borders.

use cell_styles::{
    BorderStyle, Borders, Color, Fill, FillPattern, Font, FontStyle, FontWeight,
    HorizontalAlignment, TextRotation, UnderlineStyle, VerticalAlignment,
};
use decimals::Decimal;
use part_events::{PartEvent, StartTag, XlReader, XmlFault};
use std::alloc::Global;
use std::test::Fail;
use test_packages::package_of;
use test_tables::assert_text;
use xlsx_error::XlsxError;
use xlsx_styles::{
    default_theme_colors, parse_alignment, parse_border, parse_color, parse_fill, parse_font,
    parse_protection,
};

/// The fill of this markup, which begins with its start.
fn fill_in(alloc: Global, markup: &str) -> Result<Option<Fill>, XlsxError> {
    let mut xml = XlReader::new(alloc, package_of(alloc, &[("part", markup)])?);
    if !xml.open("part")? {
        return Ok(None);
    }
    if xml.next()? {
        if let PartEvent::Start(_) = xml.event() {
            return Ok(Some(parse_fill(&mut xml, &default_theme_colors())?));
        }
    }
    Ok(None)
}

/// The font of this markup, which begins with its start.
fn font_in(alloc: Global, markup: &str) -> Result<Option<Font>, XlsxError> {
    let mut xml = XlReader::new(alloc, package_of(alloc, &[("part", markup)])?);
    if !xml.open("part")? {
        return Ok(None);
    }
    if xml.next()? {
        if let PartEvent::Start(_) = xml.event() {
            return Ok(Some(parse_font(&mut xml, &default_theme_colors())?));
        }
    }
    Ok(None)
}

/// The borders of this markup, which begins with its start.
fn borders_in(
    alloc: Global,
    markup: &str,
    down: bool,
    up: bool,
) -> Result<Option<Borders>, XlsxError> {
    let mut xml = XlReader::new(alloc, package_of(alloc, &[("part", markup)])?);
    if !xml.open("part")? {
        return Ok(None);
    }
    if xml.next()? {
        if let PartEvent::Start(_) = xml.event() {
            return Ok(Some(parse_border(&mut xml, down, up, &default_theme_colors())?));
        }
    }
    Ok(None)
}

#[test]
fn colors_are_named_by_the_first_key_that_is_there(rt: HostRuntime) -> Result<(), Fail> {
    let rows = [
        (" rgb=\"1F497D\"", Some(0xFF1F497D)),
        (" rgb=\"801f497d\"", Some(0x801F497D)),
        (" rgb=\"+12345\" theme=\"1\"", None),
        (" rgb=\"12345\"", None),
        (" theme=\"3\" indexed=\"2\"", Some(0xFF1F497D)),
        (
            " theme=\"2\" tint=\"-0.0999786370433668\"",
            Some(0xFFDDD9C3),
        ),
        (" theme=\"3\" tint=\"inf\"", Some(0xFF1F497D)),
        (" theme=\"12\"", Some(0xFF000000)),
        (" theme=\"256\" indexed=\"2\"", None),
        (" indexed=\"063\"", Some(0xFF333333)),
        (" indexed=\"64\"", Some(0xFF000000)),
        (" indexed=\"65\"", Some(0xFFFFFFFF)),
        (" indexed=\"66\"", Some(0xFF000000)),
        (" auto=\"1\"", None),
    ];
    for (attributes, argb) in rows {
        let tag = StartTag {
            name: "color",
            attributes,
        };
        let Ok(color) = parse_color(&tag, &default_theme_colors()) else {
            return Err("refused")?;
        };
        let wanted = match argb {
            Some(argb) => Some(Color::from_argb(argb)),
            None => None,
        };
        assert!(rt; color == wanted, "at {attributes}");
    }
    Ok(())
}

#[test]
fn a_fault_behind_the_wanted_keys_refuses_a_color(rt: HostRuntime) {
    let tag = StartTag {
        name: "color",
        attributes: " rgb=\"000000\" x",
    };
    assert!(rt; parse_color(&tag, &default_theme_colors()).is_err());
}

#[test]
fn alignments_and_protections_are_read(rt: HostRuntime) -> Result<(), Fail> {
    let tag = StartTag {
        name: "alignment",
        attributes: " horizontal=\"centerContinuous\" vertical=\"middle\" wrapText=\"yes\" \
            textRotation=\"255\" indent=\"256\" shrinkToFit=\"false\"",
    };
    let Ok(alignment) = parse_alignment(&tag) else {
        return Err("refused")?;
    };
    assert!(rt; alignment.horizontal == HorizontalAlignment::CenterContinuous);
    assert!(rt; alignment.vertical == VerticalAlignment::Bottom);
    assert!(rt; alignment.text_rotation == TextRotation::Stacked);
    assert!(rt; alignment.wrap_text);
    assert!(rt; alignment.indent.is_none());
    assert!(rt; !alignment.shrink_to_fit);
    let Ok(protection) = parse_protection(&tag) else {
        return Err("refused")?;
    };
    assert!(rt; protection.locked);
    assert!(rt; !protection.hidden);
    Ok(())
}

const FILL: &str = r#"
    <fill>
        <x:patternFill patternType="solid">
            <fgColor theme="2" tint="-0.0999786370433668"/>
            <bgColor indexed="64"/>
            <fgColor rgb="none"/>
        </x:patternFill>
    </fill>"#;

#[test]
fn fills_are_read(rt: HostRuntime) -> Result<(), Fail> {
    let alloc = rt.alloc();
    let Ok(Some(fill)) = fill_in(alloc, FILL) else {
        return Err("no fill")?;
    };
    assert!(rt; fill.pattern == FillPattern::Solid);
    assert!(rt; fill.foreground_color == Some(Color::from_argb(0xFFDDD9C3)));
    assert!(rt; fill.background_color == Some(Color::from_argb(0xFF000000)));
    let Err(XlsxError::XmlEof(name)) = fill_in(alloc, "<fill><patternFill>") else {
        return Err("not refused")?;
    };
    assert_text(name, "fill", "the end")?;
    Ok(())
}

const FONT: &str = r#"
    <font>
        <sz val="11"/>
        <color theme="1"/>
        <name val="A&amp;B"/>
        <family val="2"/>
        <sz val="big"/>
        <b val="600"/>
        <i/>
        <u val="doubleAccounting"/>
        <strike val="0"/>
    </font>"#;

#[test]
fn fonts_are_read(rt: HostRuntime) -> Result<(), Fail> {
    let alloc = rt.alloc();
    let Ok(Some(font)) = font_in(alloc, FONT) else {
        return Err("no font")?;
    };
    assert!(rt; font.size == Decimal::parse("11"));
    assert!(rt; font.color == Some(Color::from_argb(0xFF000000)));
    assert!(rt; font.family == Some(2));
    assert!(rt; font.weight == FontWeight::Bold);
    assert!(rt; font.style == FontStyle::Italic);
    assert!(rt; font.underline == UnderlineStyle::DoubleAccounting);
    assert!(rt; !font.strikethrough);
    let Some(name) = font.name else {
        return Err("no name")?;
    };
    assert_text(&name, "A&B", "told")?;
    let faulty = r#"<font><name val="A&B"/></font>"#;
    let Err(XlsxError::Xml(XmlFault::Entity { at })) = font_in(alloc, faulty) else {
        return Err("not refused")?;
    };
    assert!(rt; at == 1);
    Ok(())
}

const PLAIN_FONT: &str = r#"
    <font>
        <b/>
        <i val="1"/>
        <u/>
        <strike/>
        <sz val="12.5"/>
        <name val="Arial"/>
        <color rgb="FF00FF00"/>
    </font>"#;

#[test]
fn elements_without_a_value_hold(rt: HostRuntime) -> Result<(), Fail> {
    let Ok(Some(font)) = font_in(rt.alloc(), PLAIN_FONT) else {
        return Err("no font")?;
    };
    assert!(rt; font.is_bold());
    assert!(rt; font.is_italic());
    assert!(rt; font.underline == UnderlineStyle::Single);
    assert!(rt; font.strikethrough);
    assert!(rt; font.size == Decimal::parse("12.5"));
    assert!(rt; font.color == Some(Color::from_argb(0xFF00FF00)));
    let Some(name) = font.name else {
        return Err("no name")?;
    };
    assert_text(&name, "Arial", "told")?;
    Ok(())
}

#[test]
fn a_weight_is_bold_from_600_on(rt: HostRuntime) -> Result<(), Fail> {
    for (markup, weight) in [
        ("<font><b val=\"599\"/></font>", FontWeight::Normal),
        ("<font><b val=\"600\"/></font>", FontWeight::Bold),
    ] {
        let Ok(Some(font)) = font_in(rt.alloc(), markup) else {
            return Err("no font")?;
        };
        assert!(rt; font.weight == weight, "of {markup}");
    }
    Ok(())
}

const BORDERS: &str = r#"
    <border>
        <left style="thin">
            <color indexed="10"/>
            <right style="thick"/>
        </left>
        <diagonal style="slantDashDot"/>
    </border>"#;

#[test]
fn borders_are_read(rt: HostRuntime) -> Result<(), Fail> {
    let alloc = rt.alloc();
    let Ok(Some(borders)) = borders_in(alloc, BORDERS, true, false) else {
        return Err("no borders")?;
    };
    assert!(rt; borders.left.style == BorderStyle::Thin);
    assert!(rt; borders.left.color == Some(Color::from_argb(0xFFFF0000)));
    assert!(rt; borders.right.style == BorderStyle::None);
    assert!(rt; borders.diagonal_down.style == BorderStyle::SlantDashDot);
    assert!(rt; borders.diagonal_up.style == BorderStyle::None);
    Ok(())
}

#[test]
fn a_part_that_ends_in_borders_tells_where(rt: HostRuntime) -> Result<(), Fail> {
    let alloc = rt.alloc();
    for (markup, wanted) in [
        ("<border><left><color>", "border side"),
        ("<border><left/>", "border"),
    ] {
        let Err(XlsxError::XmlEof(name)) = borders_in(alloc, markup, true, true) else {
            return Err("not refused")?;
        };
        assert_text(name, wanted, "the end")?;
    }
    Ok(())
}

const DIAGONAL: &str = r#"
    <border>
        <left style="thin">
            <color rgb="FFFF0000"/>
        </left>
        <diagonal style="dashed"/>
    </border>"#;

#[test]
fn a_diagonal_goes_up_alone(rt: HostRuntime) -> Result<(), Fail> {
    let Ok(Some(borders)) = borders_in(rt.alloc(), DIAGONAL, false, true) else {
        return Err("no borders")?;
    };
    assert!(rt; borders.left.style == BorderStyle::Thin);
    assert!(rt; borders.left.color == Some(Color::from_argb(0xFFFF0000)));
    assert!(rt; borders.diagonal_up.style == BorderStyle::Dashed);
    assert!(rt; borders.diagonal_down.style == BorderStyle::None);
    Ok(())
}

#[test]
fn a_text_is_stacked_and_indented(rt: HostRuntime) -> Result<(), Fail> {
    let tag = StartTag {
        name: "alignment",
        attributes: " textRotation=\"255\" indent=\"2\"",
    };
    let Ok(alignment) = parse_alignment(&tag) else {
        return Err("refused")?;
    };
    assert!(rt; alignment.text_rotation == TextRotation::Stacked);
    assert!(rt; alignment.indent == Some(2));
    Ok(())
}
