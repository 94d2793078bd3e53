ghost use Rattle.std.specs.Prelude.{◌≡◌};
ghost use Rattle.std.specs.Option.{option_copied};
ghost use Rattle.xlsx_values.specs.Value.{format_of, style_number};

use cell_data::CellFormat;
use xlsx_sections::number_text;

/// What the values of a workbook's cells rest on.
#[derive(Clone, Copy)]
pub struct ValueContext<'a> {
    /// The shared strings, by their places.
    pub strings: &'a [String],
    /// What the number formats of the styles make of numbers, by the numbers of the styles.
    pub formats: &'a [CellFormat],
    /// Whether dates count from 1904.
    pub is_1904: bool,
}

/// The number of a cell's style, by the text of the cell's `s`, where it has one. A text that is no
/// number is that of the first style.
pub fn style_number(style: Option<&str>) -> Option<usize>
    ensures { result ≡ style_number (option_copied style.entry) }
{
    let style = style?;
    Some(number_text(style).unwrap_or(0) as usize)
}

/// What the number format of a cell's style makes of a number, by the text of the cell's `s`.
/// Without a text, and past the styles, a number stays one.
pub fn format_of_style(formats: &[CellFormat], style: Option<&str>) -> CellFormat
    ensures { result ≡ format_of formats.now (option_copied style.entry) }
{
    let Some(number) = style_number(style) else {
        return CellFormat::Other;
    };
    match formats.get(number) {
        Some(format) => *format,
        None => CellFormat::Other,
    }
}
