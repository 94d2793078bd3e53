ghost use Rattle.attr_text.specs.Words.{lookup, all_digits};
ghost use Rattle.cell_styles.specs.Words.{color_of_argb};
ghost use Rattle.std.specs.Prelude.{◌≡◌, ◌≤◌, ◌<◌, ◌^◌, [], ◌∷◌, length, map, true, false};
ghost use Rattle.std.specs.Prelude.{MatchOption, MatchResult, Ok, Err};
ghost use Rattle.std.specs.Option.{option_copied};
ghost use Rattle.std.specs.Str.Parse.{digits_value};
ghost use Rattle.part_events.specs.Words.{tag_of};
ghost use Rattle.xlsx_styles.specs.Colors.{hex_color, color_at, indexed_colors, indexed_color};
ghost use Rattle.xlsx_styles.specs.Colors.{plain_color, tint_of, tinted_if, color_keys, color_of};

use crate::texts::byte_text;
use crate::tint::apply_tint;
use attr_text::{AttrFault, AttrValue, RawAttributes, four_values};
use cell_styles::Color;
use decimals::Decimal;
use part_events::StartTag;

const INDEXED: [u32; 66] = [
    0xFF000000, 0xFFFFFFFF, 0xFFFF0000, 0xFF00FF00, 0xFF0000FF, 0xFFFFFF00, 0xFFFF00FF, 0xFF00FFFF,
    0xFF000000, 0xFFFFFFFF, 0xFFFF0000, 0xFF00FF00, 0xFF0000FF, 0xFFFFFF00, 0xFFFF00FF, 0xFF00FFFF,
    0xFF800000, 0xFF008000, 0xFF000080, 0xFF808000, 0xFF800080, 0xFF008080, 0xFFC0C0C0, 0xFF808080,
    0xFF9999FF, 0xFF993366, 0xFFFFFFCC, 0xFFCCFFFF, 0xFF660066, 0xFFFF8080, 0xFF0066CC, 0xFFCCCCFF,
    0xFF000080, 0xFFFF00FF, 0xFFFFFF00, 0xFF00FFFF, 0xFF800080, 0xFF800000, 0xFF008080, 0xFF0000FF,
    0xFF00CCFF, 0xFFCCFFFF, 0xFFCCFFCC, 0xFFFFFF99, 0xFF99CCFF, 0xFFFF99CC, 0xFFCC99FF, 0xFFFFCC99,
    0xFF3366FF, 0xFF33CCCC, 0xFF99CC00, 0xFFFFCC00, 0xFFFF9900, 0xFFFF6600, 0xFF666699, 0xFF969696,
    0xFF003366, 0xFF339966, 0xFF003300, 0xFF333300, 0xFF993300, 0xFF993366, 0xFF333399, 0xFF333333,
    0xFF000000, 0xFFFFFFFF,
];

/// The number that up to eight hexadecimal digits write.
fn hex_number(digits: &[u8]) -> Option<u32>
    requires { length digits.now ≤ 8 }
    ensures value { MatchOption result (all_digits 16 digits.now ≡ false)
        (λ n. (all_digits 16 digits.now ≡ true) × (n ≡ digits_value 16 digits.now)) }
    ensures bound { MatchOption result Unit (λ n. n < 16 ^ length digits.now) }
{
    let mut number = 0u32;
    for digit in digits {
        let value = char::from(*digit).to_digit(16)?;
        number = number * 16 + value;
    }
    Some(number)
}

/// The color of six hexadecimal digits, red, green and blue, or of eight, alpha before them, and
/// None of another text (ECMA-376 part 1, section 18.8.3).
pub fn hex_color(text: &str) -> Option<Color>
    ensures { result ≡ hex_color text.now }
{
    let digits = text.as_bytes();
    match digits.len() {
        6 => Some(Color::from_argb(0xFF00_0000 + hex_number(digits)?)),
        8 => Some(Color::from_argb(hex_number(digits)?)),
        _ => None,
    }
}

fn color_at(colors: &[Color], number: u8) -> Color
    ensures { result ≡ color_at colors.now number }
{
    match colors.get(usize::from(number)) {
        Some(color) => *color,
        None => Color::rgb(0, 0, 0),
    }
}

fn argb_at(argbs: &[u32], number: u8) -> Color
    ensures { result ≡ color_at (map color_of_argb argbs.now) number }
{
    match argbs.get(usize::from(number)) {
        Some(argb) => Color::from_argb(*argb),
        None => Color::rgb(0, 0, 0),
    }
}

fn indexed_color(number: u8) -> Color
    ensures { result ≡ color_at indexed_colors number }
{
    argb_at(&INDEXED, number)
}

/// The color of the first of the three texts that is there.
fn plain_color(
    theme_colors: &[Color],
    rgb: Option<&str>,
    theme: Option<&str>,
    indexed: Option<&str>,
) -> Option<Color>
    ensures { result ≡ plain_color theme_colors.now (option_copied rgb.entry)
        (option_copied theme.entry) (option_copied indexed.entry) }
{
    if let Some(rgb) = rgb {
        return hex_color(rgb);
    }
    if let Some(theme) = theme {
        return Some(color_at(theme_colors, byte_text(theme)?));
    }
    Some(indexed_color(byte_text(indexed?)?))
}

#[tactic(auto, using(crate::proofs::Nearest::nearest_is))]
fn tinted(color: Color, tint: Option<&str>) -> Color
    ensures { result ≡ tinted_if (tint_of (option_copied tint.entry)) color }
{
    let Some(text) = tint else {
        return color;
    };
    let Some(tint) = Decimal::parse(text) else {
        return color;
    };
    if tint.mantissa().unsigned_abs() == 0 {
        return color;
    }
    apply_tint(color, &tint)
}

/// The texts of `rgb`, `theme`, `indexed` and `tint`.
fn color_texts<'a>(
    e: &'a StartTag<'_>,
) -> Result<(AttrValue<'a>, AttrValue<'a>, AttrValue<'a>, AttrValue<'a>), AttrFault>
    ensures { let texts = lookup color_keys (tag_of e.now).attributes in
        MatchResult result
        (λ p. texts ≡ Ok (option_copied p.0 ∷ option_copied p.1
        ∷ option_copied p.2 ∷ option_copied p.3 ∷ []))
        (λ fault. texts ≡ Err fault) }
{
    four_values(e.attributes_raw(), "rgb", "theme", "indexed", "tint")
}

/// The color that a start names by its attributes `rgb`, `theme`, `indexed` and `tint`, and None
/// where the text of the first key that is there is no color's (ECMA-376 part 1, section 18.8.3).
/// It is refused only where the attributes end in a fault and one of these keys has no pair.
pub fn parse_color(e: &StartTag<'_>, theme_colors: &[Color]) -> Result<Option<Color>, AttrFault>
    ensures { color_of theme_colors.now (tag_of e.now) ≡ result }
{
    let (rgb, theme, indexed, tint) = color_texts(e)?;
    match plain_color(theme_colors, rgb, theme, indexed) {
        Some(color) => Ok(Some(tinted(color, tint))),
        None => Ok(None),
    }
}
