//! Styles, and which style each cell of a worksheet has.

use cell_styles::{
    Alignment, Color, Font, FontStyle, FontWeight, NumberFormat, Protection, Style, StyleRange,
    TextRotation, UnderlineStyle,
};
use std::alloc::{AllocError, Global};
use std::test::Fail;
use test_tables::assert_text;

fn locked() -> Style {
    Style {
        protection: Some(Protection {
            locked: true,
            hidden: false,
        }),
        ..Style::default()
    }
}

fn hidden() -> Style {
    Style {
        protection: Some(Protection {
            locked: false,
            hidden: true,
        }),
        ..Style::default()
    }
}

/// Entry 0 names nothing, entry 1 is locked, entry 2 hidden.
fn palette(alloc: Global) -> Result<Vec<Style>, AllocError> {
    let mut styles = Vec::new(alloc);
    styles.push(Style::default())?;
    styles.push(locked())?;
    styles.push(hidden())?;
    Ok(styles)
}

/// The corners of a range, its height and width, and how many runs it has.
fn area_told(alloc: Global, range: &StyleRange) -> Result<String, AllocError> {
    let mut out = String::new(alloc);
    if let (Some(start), Some(end)) = (range.start(), range.end()) {
        write!(out, "{},{} to {},{}: ", start.0, start.1, end.0, end.1)?;
    }
    let (height, width, runs) = (range.height(), range.width(), range.run_count());
    write!(out, "{height} by {width} in {runs}")?;
    Ok(out)
}

/// How many cells a range has, and its positions with an id above 0.
fn cells_told(alloc: Global, range: &StyleRange) -> Result<String, AllocError> {
    let mut count = 0usize;
    for _ in range.cells() {
        count = count.saturating_add(1);
    }
    let mut out = String::new(alloc);
    write!(out, "{count}:")?;
    for (row, column, id) in range.styled() {
        write!(out, " {row},{column} {id}")?;
    }
    Ok(out)
}

/// Which style of the palette the range has at a position.
fn style_at(range: &StyleRange, position: (u32, u32)) -> &'static str {
    let Some(style) = range.get(position) else {
        return "outside";
    };
    if *style == locked() {
        "locked"
    } else if *style == hidden() {
        "hidden"
    } else if *style == Style::default() {
        "plain"
    } else {
        "another"
    }
}

#[test]
fn far_corners_give_three_runs(rt: HostRuntime) -> Result<(), Fail> {
    let alloc = rt.alloc();
    let cells = vec![in alloc; (0, 0, 1), (999_999, 16_383, 2)]?;
    let range = StyleRange::from_style_ids(alloc, cells, palette(alloc)?)?;
    let told = area_told(alloc, &range)?;
    assert_text(&told, "0,0 to 999999,16383: 1000000 by 16384 in 3", "told")?;
    assert_text(style_at(&range, (500_000, 8_000)), "plain", "between")?;
    Ok(())
}

#[test]
fn unsorted_entries_give_their_styles(rt: HostRuntime) -> Result<(), Fail> {
    let alloc = rt.alloc();
    let cells = vec![in alloc; (3, 1, 2), (1, 3, 1), (1, 1, 1)]?;
    let range = StyleRange::from_style_ids(alloc, cells, palette(alloc)?)?;
    let told = area_told(alloc, &range)?;
    assert_text(&told, "1,1 to 3,3: 3 by 3 in 6", "told")?;
    let copy = range.clone_in(alloc)?;
    for (position, style) in [
        ((1, 3), "locked"),
        ((3, 1), "hidden"),
        ((2, 2), "plain"),
        ((4, 1), "outside"),
    ] {
        assert_text(style_at(&copy, position), style, style)?;
    }
    Ok(())
}

#[test]
fn ids_past_the_palette_are_left_out(rt: HostRuntime) -> Result<(), Fail> {
    let alloc = rt.alloc();
    let cells = vec![in alloc; (0, 0, 0), (0, 1, 99), (5, 5, 1)]?;
    let range = StyleRange::from_style_ids(alloc, cells, palette(alloc)?)?;
    let told = area_told(alloc, &range)?;
    assert_text(&told, "5,5 to 5,5: 1 by 1 in 1", "told")?;
    let told = cells_told(alloc, &range)?;
    assert_text(&told, "1: 5,5 1", "told")?;
    Ok(())
}

#[test]
fn an_id_past_the_palette_alone_gives_no_area(rt: HostRuntime) -> Result<(), Fail> {
    let alloc = rt.alloc();
    let cells = vec![in alloc; (0, 0, 3)]?;
    let range = StyleRange::from_style_ids(alloc, cells, palette(alloc)?)?;
    assert!(rt; range.is_empty());
    let told = cells_told(alloc, &range)?;
    assert_text(&told, "0:", "told")?;
    Ok(())
}

#[test]
fn colors_are_written_and_read(rt: HostRuntime) -> Result<(), Fail> {
    let alloc = rt.alloc();
    let pink = Color::rgb(255, 0, 128);
    let told = pink.to_string(alloc)?;
    assert_text(&told, "#FF0080", "pink")?;
    assert!(rt; pink.to_argb() == 0xFFFF_0080);
    assert!(rt; Color::from_argb(0x0102_0304) == Color::new(1, 2, 3, 4));
    assert!(rt; Color::from_argb(0x1200_0000).is_black());
    assert!(rt; Color::rgb(255, 255, 255).is_white());
    Ok(())
}

#[test]
fn questions_of_a_font(rt: HostRuntime) -> Result<(), Fail> {
    let alloc = rt.alloc();
    let font = Font {
        name: Some(String::from_str(alloc, "Arial")?),
        weight: FontWeight::Bold,
        style: FontStyle::Italic,
        underline: UnderlineStyle::Single,
        strikethrough: true,
        ..Font::default()
    };
    let copy = font.clone_in(alloc)?;
    assert!(rt; copy == font);
    assert!(rt; copy.is_bold());
    assert!(rt; copy.is_italic());
    assert!(rt; copy.has_underline());
    assert!(rt; copy.has_strikethrough());
    let plain = Font::default();
    assert!(rt; !plain.is_bold());
    assert!(rt; !plain.has_underline());
    assert!(rt; plain != font);
    Ok(())
}

#[test]
fn general_numbers_have_no_id(rt: HostRuntime) -> Result<(), Fail> {
    let format = NumberFormat::general(rt.alloc())?;
    assert_text(&format.format_code, "General", "general")?;
    assert!(rt; format.format_id == None);
    let copy = format.clone_in(rt.alloc())?;
    assert!(rt; copy == format);
    Ok(())
}

#[test]
fn what_can_be_seen_of_a_style(rt: HostRuntime) -> Result<(), Fail> {
    let turned = Style {
        alignment: Some(Alignment {
            text_rotation: TextRotation::Degrees(0),
            ..Alignment::default()
        }),
        ..Style::default()
    };
    assert!(rt; turned.has_visible_properties());
    assert!(rt; !turned.is_empty());
    assert!(rt; Style::default().is_empty());
    assert!(rt; !locked().has_visible_properties());
    let copy = turned.clone_in(rt.alloc())?;
    assert!(rt; copy == turned);
    Ok(())
}
