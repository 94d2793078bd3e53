ghost use Rattle.std.specs.Prelude.{◌≡◌, Ok, Err, MatchResult};
ghost use Rattle.std.specs.Option.{option_copied};
ghost use Rattle.part_events.specs.Words.{tag_of};
ghost use Rattle.xlsx_sections.specs.Words.{changed_with};
ghost use Rattle.xlsx_styles.specs.Colors.{color_of};
ghost use Rattle.xlsx_styles.specs.Fonts.{said_of, weight_by, weight_named, font_style_named};
ghost use Rattle.xlsx_styles.specs.Fonts.{underline_named, with_size, with_family, with_weight};
ghost use Rattle.xlsx_styles.specs.Fonts.{with_style, with_underline, with_strike, with_color};
ghost use Rattle.xlsx_styles.specs.Fonts.{with_value, value_changed};

use crate::color_text::parse_color;
use crate::texts::{byte_text, short_text, truth_or};
use attr_text::{AttrFault, RawAttributes};
use cell_styles::{Color, Font, FontStyle, FontWeight, UnderlineStyle};
use decimals::Decimal;
use part_events::StartTag;

fn weight_by(number: Option<u16>) -> FontWeight
    ensures { result ≡ weight_by number }
{
    match number {
        Some(number) if number >= 600 => FontWeight::Bold,
        _ => FontWeight::Normal,
    }
}

#[tactic(auto, unfolding(crate::specs::Fonts::weight_named))]
fn weight_named(text: &str) -> FontWeight
    ensures { result ≡ weight_named text.now }
{
    match text {
        "bold" | "700" | "1" | "true" => FontWeight::Bold,
        "normal" | "400" | "0" | "false" => FontWeight::Normal,
        _ => weight_by(short_text(text)),
    }
}

#[tactic(auto, unfolding(crate::specs::Fonts::font_style_named))]
fn style_named(text: &str) -> FontStyle
    ensures { result ≡ font_style_named text.now }
{
    match text {
        "italic" | "oblique" | "1" | "true" => FontStyle::Italic,
        _ => FontStyle::Normal,
    }
}

#[tactic(auto, unfolding(crate::specs::Fonts::underline_named))]
fn underline_named(text: &str) -> UnderlineStyle
    ensures { result ≡ underline_named text.now }
{
    match text {
        "single" => UnderlineStyle::Single,
        "double" => UnderlineStyle::Double,
        "singleAccounting" => UnderlineStyle::SingleAccounting,
        "doubleAccounting" => UnderlineStyle::DoubleAccounting,
        _ => UnderlineStyle::None,
    }
}

#[tactic(auto, using(crate::proofs::Sizes::size_kept))]
fn set_size(font: &mut Font, text: Option<&str>)
    ensures { said_of font.new ≡ with_size (said_of font.old) (option_copied text.entry) }
{
    if let Some(text) = text {
        font.size = Decimal::parse(text).or(font.size);
    }
}

fn set_family(font: &mut Font, text: Option<&str>)
    ensures { said_of font.new ≡ with_family (said_of font.old) (option_copied text.entry) }
{
    if let Some(text) = text {
        font.family = byte_text(text).or(font.family);
    }
}

fn set_weight(font: &mut Font, text: Option<&str>)
    ensures { said_of font.new ≡ with_weight (said_of font.old) (option_copied text.entry) }
{
    font.weight = match text {
        Some(text) => weight_named(text),
        None => FontWeight::Bold,
    };
}

fn set_style(font: &mut Font, text: Option<&str>)
    ensures { said_of font.new ≡ with_style (said_of font.old) (option_copied text.entry) }
{
    font.style = match text {
        Some(text) => style_named(text),
        None => FontStyle::Italic,
    };
}

fn set_underline(font: &mut Font, text: Option<&str>)
    ensures { said_of font.new ≡ with_underline (said_of font.old) (option_copied text.entry) }
{
    font.underline = match text {
        Some(text) => underline_named(text),
        None => UnderlineStyle::Single,
    };
}

fn set_strike(font: &mut Font, text: Option<&str>)
    ensures { said_of font.new ≡ with_strike (said_of font.old) (option_copied text.entry) }
{
    font.strikethrough = truth_or(text, true);
}

fn set_value(font: &mut Font, name: &str, text: Option<&str>)
    ensures { said_of font.new
        ≡ with_value name.now (said_of font.old) (option_copied text.entry) }
{
    match name {
        "sz" => set_size(font, text),
        "b" => set_weight(font, text),
        "i" => set_style(font, text),
        "u" => set_underline(font, text),
        "strike" => set_strike(font, text),
        _ => set_family(font, text),
    }
}

/// Changes the font by a start whose `val` is no name.
#[tactic(auto, unfolding(crate::specs::Fonts::value_changed))]
pub fn change_value(font: &mut Font, tag: StartTag<'_>) -> Result<(), AttrFault>
    ensures { let changed = value_changed (tag_of tag.entry) (said_of font.old) in
        MatchResult result (λ _. changed ≡ Ok (said_of font.new)) (λ fault. changed ≡ Err fault) }
{
    set_value(font, tag.local_name(), tag.raw_attr("val")?);
    Ok(())
}

fn set_color(font: &mut Font, color: Option<Color>)
    ensures { said_of font.new ≡ with_color (said_of font.old) color }
{
    font.color = color.or(font.color);
}

/// Changes the font by the start of a color.
pub fn change_color(
    font: &mut Font,
    tag: StartTag<'_>,
    theme_colors: &[Color],
) -> Result<(), AttrFault>
    ensures { let color = color_of theme_colors.now (tag_of tag.entry) in
        MatchResult result
        (λ _. changed_with with_color (said_of font.old) color ≡ Ok (said_of font.new))
        (λ fault. changed_with with_color (said_of font.old) color ≡ Err fault) }
{
    set_color(font, parse_color(&tag, theme_colors)?);
    Ok(())
}
