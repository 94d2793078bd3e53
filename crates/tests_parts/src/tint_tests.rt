//! Tints, and the colors of the default theme.

use cell_styles::Color;
use decimals::Decimal;
use std::test::Fail;
use xlsx_styles::{apply_tint, default_theme_colors};

#[test]
fn tints_of_single_colors(rt: HostRuntime) -> Result<(), Fail> {
    let rows = [
        (0x000000, "0.5", 0x808080),
        (0xFFFFFF, "-0.25", 0xBFBFBF),
        (0xFFFFFF, "-0.5", 0x808080),
        (0xEEECE1, "-0.0999786370433668", 0xDDD9C3),
        (0x1F497D, "0.399975585192419", 0x558ED5),
        (0x1F497D, "0", 0x1F497D),
        (0x123456, "7E3", 0xFFFFFF),
        (0x123456, "-1", 0x000000),
    ];
    for (before, text, after) in rows {
        let tint = Decimal::parse(text).ok_or("no decimal")?;
        let tinted = apply_tint(Color::from_argb(before), &tint);
        assert!(rt; tinted == Color::from_argb(after));
    }
    Ok(())
}

#[test]
fn grays_at_the_limits(rt: HostRuntime) -> Result<(), Fail> {
    let lightest = Decimal::parse("1").ok_or("no decimal")?;
    let darkest = Decimal::parse("-1").ok_or("no decimal")?;
    for gray in 0..=255u8 {
        let color = Color::rgb(gray, gray, gray);
        assert!(rt; apply_tint(color, &lightest) == Color::rgb(255, 255, 255));
        assert!(rt; apply_tint(color, &darkest) == Color::rgb(0, 0, 0));
    }
    Ok(())
}

#[test]
fn the_default_theme(rt: HostRuntime) {
    let colors = default_theme_colors();
    assert!(rt; colors[0] == Color::rgb(0xFF, 0xFF, 0xFF));
    assert!(rt; colors[3] == Color::rgb(0x1F, 0x49, 0x7D));
    assert!(rt; colors[11] == Color::rgb(0x80, 0x00, 0x80));
}
