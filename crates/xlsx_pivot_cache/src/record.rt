ghost use Rattle.std.specs.Prelude.{◌≡◌, ◌++◌, ℕ, true, Ok, Some, option_map, option_to_list, IfOk};
ghost use Rattle.std.specs.Prelude.{OnOk, IfErr, slice_get, length};
ghost use Rattle.std.specs.Option.{option_copied};
ghost use Rattle.part_events.specs.Words.{tag_of, ahead, IsReadingElement, ReadsElement, content};
ghost use Rattle.cell_data.specs.Words.{value_of_data};
ghost use Rattle.xlsx_error.specs.declared.error.XlsxError.TheVariants.{Io};
ghost use Rattle.xlsx_sections.specs.Words.{ElementReadFails, always, ElementFails, plain_told};
ghost use Rattle.xlsx_pivot_cache.specs.CacheErrors.{IsFaultError, IsRecordValueError, IsRowError};
ghost use Rattle.xlsx_pivot_cache.specs.CacheFields.{field_kept, fields_kept};
ghost use Rattle.xlsx_pivot_cache.specs.CacheRecords.{is_reference, referred_item, value_said};
ghost use Rattle.xlsx_pivot_cache.specs.CacheRecords.{records_name, row_in, row_kept};
ghost use Rattle.xlsx_pivot_cache.specs.ReferenceFaults.{refusal_of};

use crate::field::CacheField;
use crate::item::{item_kind, item_of};
use attr_text::RawAttributes;
use cell_data::Data;
use part_events::{Package, StartTag, XlReader};
use std::alloc::{AllocError, Global};
use xlsx_error::XlsxError;
use xlsx_sections::{next_child_in, number_text, skip_element_in, start_tag};

/// Why a record refers to no item.
#[derive(Clone, Copy, Debug)]
pub enum ReferenceFault {
    /// Its text is no number of 64 bits.
    Number,
    /// No field stands at its place.
    Field,
    /// The field has no item of this number.
    Item,
}

impl ReferenceFault {
    /// The refusal that tells of it.
    fn error(self) -> XlsxError
        ensures told { plain_told result ≡ Some (refusal_of self) }
        ensures kind { IsFaultError result }
    {
        match self {
            ReferenceFault::Number => {
                XlsxError::Unexpected("pivot cache x:v attribute must be a number")
            }
            ReferenceFault::Field => {
                XlsxError::Unexpected("pivot cache field index out of range")
            }
            ReferenceFault::Item => { XlsxError::Unexpected("pivot cache item index out of range") }
        }
    }
}

fn is_reference(tag: StartTag<'_>) -> bool
    ensures { result ≡ is_reference (tag_of tag.entry) }
{
    tag.local_name() == "x"
}

/// The item that an `x` refers to, at whose place this field stands.
#[tactic(auto, using(crate::proofs::CacheErrors::fault_error))]
fn referred_item(
    alloc: Global,
    field: Option<&CacheField>,
    tag: StartTag<'_>,
) -> Result<Data, XlsxError>
    ensures ok { let said = option_map field_kept (option_copied field.entry) in
        IfOk result (λ own. referred_item said (tag_of tag.entry) ≡ Ok (value_of_data own)) }
    ensures err { let said = option_map field_kept (option_copied field.entry) in
        IfErr result (λ error. (at behind : ℕ) →
        ElementFails (referred_item said (tag_of tag.entry)) at behind error) }
    ensures kind { IfErr result IsRecordValueError }
{
    let Some(text) = tag.raw_attr("v")? else {
        return Ok(Data::Empty);
    };
    let Some(number) = number_text(text) else {
        return Err(ReferenceFault::Number.error());
    };
    let Some(field) = field else {
        return Err(ReferenceFault::Field.error());
    };
    match field.items.get(number as usize) {
        Some(item) => Ok(item.clone_in(alloc)?),
        None => Err(ReferenceFault::Item.error()),
    }
}

/// What an element of a record says, at whose place this field stands. None where it takes no
/// place.
#[tactic(auto, using(crate::proofs::CacheErrors::item_value))]
fn value_said(
    alloc: Global,
    field: Option<&CacheField>,
    tag: StartTag<'_>,
) -> Result<Option<Data>, XlsxError>
    ensures ok { let said = option_map field_kept (option_copied field.entry) in
        IfOk result (λ own.
        value_said said (tag_of tag.entry) ≡ Ok (option_map value_of_data own)) }
    ensures err { let said = option_map field_kept (option_copied field.entry) in
        IfErr result (λ error. (at behind : ℕ) →
        ElementFails (value_said said (tag_of tag.entry)) at behind error) }
    ensures kind { IfErr result IsRecordValueError }
{
    if is_reference(tag) {
        return Ok(Some(referred_item(alloc, field, tag)?));
    }
    match item_kind(tag) {
        Some(kind) => Ok(Some(item_of(alloc, kind, tag)?)),
        None => Ok(None),
    }
}

/// The field at whose place the next value of a row stands.
fn field_at<'a>(fields: &'a [CacheField], row: &[Data]) -> Option<&'a CacheField>
    ensures { option_map field_kept (option_copied result)
        ≡ slice_get (fields_kept fields.now) (length (row_kept row.now)) }
{
    fields.get(row.len())
}

/// Appends a value, where there is one.
fn push_value(row: &mut Vec<Data>, value: Option<Data>) -> Result<(), AllocError>
    ensures { OnOk result (row_kept row.new.items
        ≡ row_kept row.old.items ++ option_to_list (option_map value_of_data value)) }
{
    if let Some(value) = value {
        row.push(value)?;
    }
    Ok(())
}

/// Reads the record at whose start the reader stands, to its end: the value of each child that is
/// an `x` or an item, in order. An `x` is the item that its `v` numbers of the field at its place,
/// and empty without `v`.
#[tactic(auto, using(crate::proofs::CacheErrors::row_errors))]
pub(crate) fn read_record<P: Package>(
    xml: &mut XlReader<P>,
    fields: &[CacheField],
) -> Result<Vec<Data>, XlsxError>
    requires element { IsReadingElement xml.old }
    ensures reads { ReadsElement Io result xml.old xml.new }
    ensures row { xml.old.source.is_visible ≡ true → IfOk result (λ row.
        row_in (fields_kept fields.now) (content 0 (ahead xml.old)) ≡ Ok (row_kept row.items)) }
    ensures err { IfErr result
        (ElementReadFails (always records_name) (row_in (fields_kept fields.now)) xml.old xml.new) }
    ensures kind { IfErr result IsRowError }
{
    let alloc = xml.alloc();
    let base = xml.depth();
    let mut row = Vec::new(alloc);
    'values: while let Some(_at) = next_child_in(xml, base, "pivotCacheRecords")? {
        let value = value_said(alloc, field_at(fields, &row), start_tag(xml))?;
        push_value(&mut row, value)?;
        skip_element_in(xml, Some("pivotCacheRecords"))?;
    }
    Ok(row)
}
