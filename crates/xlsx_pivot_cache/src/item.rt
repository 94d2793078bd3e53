ghost use Rattle.std.specs.Prelude.{◌≡◌, ◌≢◌, ◌==◌, ◌^◌, ◌+◌, ℕ, List, ◌∷◌, Ok, pos, neg_ℤ};
ghost use Rattle.std.specs.Prelude.{option_map, MatchOption, IfOk, IfErr};
ghost use Rattle.std.specs.List.{list_any};
ghost use Rattle.part_events.specs.Words.{tag_of};
ghost use Rattle.cell_data.specs.Words.{value_of_data};
ghost use Rattle.xlsx_sections.specs.Words.{number_below, ElementFails};
ghost use Rattle.xlsx_pivot_cache.specs.CacheErrors.{IsItemError};
ghost use Rattle.xlsx_pivot_cache.specs.CacheItems.{item_kind_named, item_kind, whole_number};
ghost use Rattle.xlsx_pivot_cache.specs.CacheItems.{item_number, item_truth, value_as};
ghost use Rattle.xlsx_pivot_cache.specs.CacheItems.{item_of_start};

use attr_text::RawAttributes;
use cell_data::{CellErrorType, Data, Decimal};
use part_events::StartTag;
use std::alloc::{AllocError, Global};
use xlsx_error::XlsxError;
use xlsx_sections::number_text;

/// What an element of a cache is an item of.
#[derive(Clone, Copy, Debug)]
pub enum ItemKind {
    Text,
    Number,
    Missing,
    Failure,
    Truth,
    Date,
}

/// The kind of the items of this name.
fn kind_named(name: &str) -> Option<ItemKind>
    ensures { result ≡ item_kind_named name.now }
{
    match name {
        "s" => Some(ItemKind::Text),
        "n" => Some(ItemKind::Number),
        "m" => Some(ItemKind::Missing),
        "e" => Some(ItemKind::Failure),
        "b" => Some(ItemKind::Truth),
        "d" => Some(ItemKind::Date),
        _ => None,
    }
}

/// The kind of the item of a start. None where the element is no item.
pub(crate) fn item_kind(tag: StartTag<'_>) -> Option<ItemKind>
    ensures { result ≡ item_kind (tag_of tag.entry) }
{
    kind_named(tag.local_name())
}

/// What follows a minus at the front of a text.
fn behind_minus(text: &str) -> Option<&str>
    ensures { MatchOption result ((rest : List ℕ) → text.now ≢ 45 ∷ rest)
        (λ digits. text.now ≡ 45 ∷ digits.now) }
{
    text.strip_prefix('-')
}

/// The whole number of 64 bits that a minus and these digits write.
fn below_zero(digits: &str) -> Option<i64>
    ensures { result
        ≡ option_map (λ n. neg_ℤ (pos n)) (number_below (2 ^ 63 + 1) digits.now) }
{
    let number = number_text(digits)?;
    0i64.checked_sub_unsigned(number)
}

/// The whole number of 64 bits that these digits write.
fn above_zero(digits: &str) -> Option<i64>
    ensures { result ≡ option_map (λ n. pos n) (number_below (2 ^ 63) digits.now) }
{
    let number = number_text(digits)?;
    0i64.checked_add_unsigned(number)
}

/// The whole number of 64 bits that a text writes: digits alone, before which a minus may stand.
fn whole_number(text: &str) -> Option<i64>
    ensures { result ≡ whole_number text.now }
{
    match behind_minus(text) {
        Some(digits) => below_zero(digits),
        None => above_zero(text),
    }
}

/// Whether a text has a point.
fn has_point(text: &[u8]) -> bool
    ensures { result ≡ list_any (λ byte. byte == 46) text.now }
{
    text.iter().any(|byte| *byte == b'.')
}

/// The value of the text of a number: a decimal where it has a point, and a whole number otherwise.
fn number_value(text: &str) -> Data
    ensures { value_of_data result ≡ item_number text.now }
{
    if has_point(text.as_bytes()) {
        return match Decimal::parse(text) {
            Some(number) => Data::Decimal(number),
            None => Data::Error(CellErrorType::GettingData),
        };
    }
    match whole_number(text) {
        Some(number) => Data::Int(number),
        None => Data::Error(CellErrorType::GettingData),
    }
}

/// The value of the text of a boolean.
fn truth_value(text: &str) -> Data
    ensures { value_of_data result ≡ item_truth text.now }
{
    match text {
        "0" => Data::Bool(false),
        "1" => Data::Bool(true),
        "false" => Data::Bool(false),
        "true" => Data::Bool(true),
        _ => Data::Error(CellErrorType::GettingData),
    }
}

/// The value of a text in an item of a kind.
fn value_as(alloc: Global, kind: ItemKind, text: &str) -> Result<Data, AllocError>
    ensures { IfOk result (λ own. value_of_data own ≡ value_as kind text.now) }
{
    Ok(match kind {
        ItemKind::Text => Data::String(String::from_str(alloc, text)?),
        ItemKind::Number => number_value(text),
        ItemKind::Missing => Data::Empty,
        ItemKind::Failure => Data::Error(CellErrorType::Ref),
        ItemKind::Truth => truth_value(text),
        ItemKind::Date => Data::DateTimeIso(String::from_str(alloc, text)?),
    })
}

/// The item of this kind that a start says by its `v`, whose text isn't decoded. Without `v` it is
/// empty.
pub(crate) fn item_of(alloc: Global, kind: ItemKind, tag: StartTag<'_>) -> Result<Data, XlsxError>
    ensures ok { IfOk result
        (λ own. item_of_start kind (tag_of tag.entry) ≡ Ok (value_of_data own)) }
    ensures err { IfErr result (λ error. (at behind : ℕ) →
        ElementFails (item_of_start kind (tag_of tag.entry)) at behind error) }
    ensures kind { IfErr result IsItemError }
{
    match tag.raw_attr("v")? {
        Some(text) => Ok(value_as(alloc, kind, text)?),
        None => Ok(Data::Empty),
    }
}
