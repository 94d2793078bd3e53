ghost use Rattle.std.specs.Prelude.{◌≡◌};
ghost use Rattle.std.specs.Option.{option_copied};
ghost use Rattle.xlsx_sections.specs.Words.{number_below};
ghost use Rattle.xlsx_styles.specs.Texts.{is_boolean_true, truth_or};

use xlsx_sections::number_text;

fn is_truth(text: &str) -> bool
    ensures { result ≡ is_boolean_true text.now }
{
    !(text == "0" || text == "false")
}

/// The boolean of a text, which is false exactly for `0` and `false`, or another one where
/// there is no text.
pub fn truth_or(text: Option<&str>, other: bool) -> bool
    ensures { result ≡ truth_or other (option_copied text.entry) }
{
    match text {
        Some(text) => is_truth(text),
        None => other,
    }
}

/// The number of 8 bits that a text of digits alone writes.
pub fn byte_text(text: &str) -> Option<u8>
    ensures { result ≡ number_below 256 text.now }
{
    match number_text(text)? {
        number if number < 256 => Some(number as u8),
        _ => None,
    }
}

/// The number of 16 bits that a text of digits alone writes.
pub fn short_text(text: &str) -> Option<u16>
    ensures { result ≡ number_below 65536 text.now }
{
    match number_text(text)? {
        number if number < 65536 => Some(number as u16),
        _ => None,
    }
}
