ghost use Rattle.std.specs.Prelude.{◌≡◌};
ghost use Rattle.xlsx_styles.specs.Theme.{default_theme};

use cell_styles::Color;

/// The theme of a workbook that has none, by the number in an attribute `theme` (ECMA-376, 18.8.3):
/// light 1, dark 1, light 2, dark 2, the six accents, links and followed links.
pub fn default_theme_colors() -> [Color; 12]
    ensures { result ≡ default_theme }
{
    [
        Color::rgb(0xFF, 0xFF, 0xFF),
        Color::rgb(0x00, 0x00, 0x00),
        Color::rgb(0xEE, 0xEC, 0xE1),
        Color::rgb(0x1F, 0x49, 0x7D),
        Color::rgb(0x4F, 0x81, 0xBD),
        Color::rgb(0xC0, 0x50, 0x4D),
        Color::rgb(0x9B, 0xBB, 0x59),
        Color::rgb(0x80, 0x64, 0xA2),
        Color::rgb(0x4B, 0xAC, 0xC6),
        Color::rgb(0xF7, 0x96, 0x46),
        Color::rgb(0x00, 0x00, 0xFF),
        Color::rgb(0x80, 0x00, 0x80),
    ]
}
