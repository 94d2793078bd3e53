ghost use Rattle.std.specs.Prelude.{◌≡◌};
ghost use Rattle.std.specs.Char.{is_ascii_digit};
ghost use Rattle.std.specs.List.{list_all};
ghost use Rattle.xlsx_sections.specs.NumberText.{number_text};

fn are_digits(text: &[u8]) -> bool
    ensures { result ≡ list_all is_ascii_digit text.now }
{
    text.iter().all(|b| b.is_ascii_digit())
}

/// The number that a text of digits alone writes, where it fits 64 bits. Leading zeros are
/// accepted.
pub fn number_text(text: &str) -> Option<u64>
    ensures { result ≡ number_text text.now }
{
    if text.is_empty() {
        return None;
    }
    if !are_digits(text.as_bytes()) {
        return None;
    }
    match text.parse::<u64>() {
        Ok(number) => Some(number),
        Err(_) => None,
    }
}
