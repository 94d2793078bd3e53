//! Groups in brackets: a time that has passed, a currency and a language, a condition, a color.
ghost use Rattle.std.specs.Prelude.{◌≡◌, ◌++◌, ◌∷◌, [], IfOk, Some};
ghost use Rattle.std.specs.Option.{option_map};
ghost use Rattle.format_codes.specs.Groups.{literal_pieces, passed_unit, passed_piece};
ghost use Rattle.format_codes.specs.Groups.{condition_by, comparison_in_front, condition_of_group};
ghost use Rattle.format_codes.specs.Groups.{is_color_group, all_are, is_color_name};
ghost use Rattle.format_codes.specs.Groups.{is_numbered_color, size_of_comparison, is_color_number};
ghost use Rattle.format_codes.specs.Groups.{is_usual, is_english_number, is_english_name};
ghost use Rattle.format_codes.specs.Groups.{language_pieces, currency_pieces, color_pieces};
ghost use Rattle.format_codes.specs.Groups.{untimed_pieces, group_pieces, foreign_unless};
ghost use Rattle.std.specs.Char.{is_ascii_digit};
ghost use Rattle.std.specs.List.{list_all};

use crate::piece::{CodePiece, Comparison, Condition, TimeUnit};
use crate::text::{around_first, begins, behind_ascii, behind_word, is_word};
use decimals::Decimal;
use std::alloc::AllocError;

/// A text that stands for itself: its characters, or one piece where it has none.
pub fn push_literal(found: &mut Vec<CodePiece>, text: &str) -> Result<(), AllocError>
    ensures { IfOk result (λ _. found.new.items ≡ found.old.items ++ literal_pieces text.now) }
{
    if text.is_empty() {
        found.push(CodePiece::EmptyLiteral)?;
        return Ok(());
    }
    let mut characters = text.chars();
    while let Some(character) = characters.next() {
        found.push(CodePiece::Literal(character))?;
    }
    Ok(())
}

/// The unit of the small letter of a time that has passed.
fn passed_unit(letter: u8) -> Option<TimeUnit>
    ensures { result ≡ passed_unit letter }
{
    match letter {
        b'h' => Some(TimeUnit::Hour),
        b'm' => Some(TimeUnit::Minute),
        b's' => Some(TimeUnit::Second),
        _ => None,
    }
}

/// Whether each byte is this small letter, in either case.
fn all_are(letter: u8, text: &[u8]) -> bool
    ensures { result ≡ all_are letter text.now }
{
    text.iter().all(|b| b.to_ascii_lowercase() == letter)
}

/// A time that has passed, by a content that is its letter once or repeated, in either case.
fn passed_piece(content: &[u8]) -> Option<CodePiece>
    ensures { result ≡ passed_piece content.now }
{
    let (first, others) = content.split_first()?;
    let letter = first.to_ascii_lowercase();
    if !all_are(letter, others) {
        return None;
    }
    let unit = passed_unit(letter)?;
    Some(CodePiece::Passed(unit, content.len()))
}

/// How the condition compares that these two bytes begin.
fn comparison_in_front(first: u8, second: u8) -> Comparison
    ensures { result ≡ comparison_in_front first second }
{
    match (first, second) {
        (b'<', b'=') => Comparison::UpTo,
        (b'>', b'=') => Comparison::From,
        (b'<', b'>') => Comparison::Unequal,
        (b'<', _) => Comparison::Below,
        (b'>', _) => Comparison::Above,
        _ => Comparison::Equal,
    }
}

/// A condition by how it compares and its text, which isn't supported where it is no number.
fn condition_by(comparison: Comparison, text: &str) -> CodePiece
    ensures { result ≡ condition_by comparison text.now }
{
    match Decimal::parse(text.trim()) {
        Some(number) => CodePiece::Condition(Condition {
            comparison,
            number: (number.mantissa(), number.exponent()),
        }),
        None => CodePiece::Unknown,
    }
}

/// The condition in brackets that this byte begins, by what stands behind it.
fn condition_of_group(first: u8, behind: &str) -> CodePiece
    ensures { result ≡ condition_of_group first behind.now }
{
    let second = behind.as_bytes().first().copied().unwrap_or(0);
    let comparison = comparison_in_front(first, second);
    let text = match comparison {
        Comparison::UpTo | Comparison::From | Comparison::Unequal => behind_ascii(behind, 0),
        _ => behind,
    };
    condition_by(comparison, text)
}

/// Whether the text is the name of a color.
fn is_color_name(text: &[u8]) -> bool
    ensures { result ≡ is_color_name text.now }
{
    is_word(text, b"black")
        || is_word(text, b"blue")
        || is_word(text, b"cyan")
        || is_word(text, b"green")
        || is_word(text, b"magenta")
        || is_word(text, b"red")
        || is_word(text, b"white")
        || is_word(text, b"yellow")
}

/// Whether each byte is a digit.
fn all_digits(text: &[u8]) -> bool
    ensures { result ≡ list_all is_ascii_digit text.now }
{
    text.iter().all(|b| b.is_ascii_digit())
}

/// Whether the text is the number of a color.
fn is_color_number(text: &[u8]) -> bool
    ensures { result ≡ is_color_number text.now }
{
    !text.is_empty() && all_digits(text)
}

/// Whether the text is the word Color with the number of a color.
fn is_numbered_color(text: &str) -> bool
    ensures { result ≡ is_numbered_color text.now }
{
    match behind_word(text, b"color") {
        Some(number) => is_color_number(number.trim().as_bytes()),
        None => false,
    }
}

/// Whether the content of a group is a color, which shows nothing.
fn is_color(content: &str) -> bool
    ensures { result ≡ is_color_group content.now }
{
    is_color_name(content.as_bytes()) || is_numbered_color(content)
}

/// What may stand before the four digits of a language: the usual digits and the usual calendar.
fn is_usual(front: &[u8]) -> bool
    ensures { result ≡ is_usual front.now }
{
    matches!(front, b"" | b"0" | b"1" | b"00" | b"01")
}

/// Whether a language's number is none, one of English, or that of the system's date or time.
fn is_english_number(tag: &[u8]) -> bool
    ensures { result ≡ is_english_number tag.now }
{
    tag.is_empty()
        || tag.split_at(tag.len().saturating_sub(2)).1 == b"09".as_slice()
        || is_word(tag, b"f800")
        || is_word(tag, b"f400")
}

/// Whether a language's name is English, or the system's for a date or a time.
fn is_english_name(tag: &[u8]) -> bool
    ensures { result ≡ is_english_name tag.now }
{
    begins(tag, b"en-") || begins(tag, b"x-sys")
}

/// A language other than English is pushed.
fn push_foreign(found: &mut Vec<CodePiece>, is_english: bool) -> Result<(), AllocError>
    ensures { IfOk result (λ _. found.new.items ≡ found.old.items ++ foreign_unless is_english) }
{
    if !is_english {
        found.push(CodePiece::Foreign)?;
    }
    Ok(())
}

/// Pushes a language by its name, or by its number behind those of its digits and its calendar.
fn push_language(found: &mut Vec<CodePiece>, tag: &[u8]) -> Result<(), AllocError>
    ensures { IfOk result (λ _. found.new.items ≡ found.old.items ++ language_pieces tag.now) }
{
    if tag.contains(&b'-') {
        return push_foreign(found, is_english_name(tag));
    }
    let (front, _) = tag.split_at(tag.len().saturating_sub(4));
    if is_usual(front) {
        return push_foreign(found, is_english_number(tag));
    }
    found.push(CodePiece::Unknown)?;
    Ok(())
}

/// Pushes a currency, and the language behind the first `-`.
fn push_currency(found: &mut Vec<CodePiece>, text: &str) -> Result<(), AllocError>
    ensures { IfOk result (λ _. found.new.items ≡ found.old.items ++ currency_pieces text.now) }
{
    let (currency, tag) = around_first(text, '-');
    push_literal(found, currency)?;
    push_language(found, tag.as_bytes())
}

/// Pushes what a group in brackets is that is no time, by its content.
fn push_untimed(found: &mut Vec<CodePiece>, content: &str) -> Result<(), AllocError>
    ensures { IfOk result (λ _. found.new.items ≡ found.old.items ++ untimed_pieces content.now) }
{
    match content.as_bytes().first() {
        Some(b'$') => return push_currency(found, behind_ascii(content, 0)),
        Some(first @ (b'<' | b'=' | b'>')) => {
            found.push(condition_of_group(*first, behind_ascii(content, 0)))?;
        }
        Some(_) if is_color(content) => {}
        _ => found.push(CodePiece::Unknown)?,
    }
    Ok(())
}

/// Pushes what a group in brackets is, by its content.
pub fn push_group(found: &mut Vec<CodePiece>, content: &str) -> Result<(), AllocError>
    ensures { IfOk result (λ _. found.new.items ≡ found.old.items ++ group_pieces content.now) }
{
    match passed_piece(content.as_bytes()) {
        Some(passed) => {
            found.push(passed)?;
            Ok(())
        }
        None => push_untimed(found, content),
    }
}
