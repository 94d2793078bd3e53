ghost use Rattle.std.specs.Prelude.{◌≡◌, ◌++◌, map, length, true, Some, option_map, option_to_list};
ghost use Rattle.std.specs.Prelude.{IfOk, OnOk, IfErr};
ghost use Rattle.part_events.specs.Words.{Uses, CountsUp, event_count, events_of, IsReading};
ghost use Rattle.part_events.specs.Words.{ReadsPart};
ghost use Rattle.xlsx_error.specs.declared.error.XlsxError.TheVariants.{Io};
ghost use Rattle.xlsx_sections.specs.Words.{FailsBy};
ghost use Rattle.xlsx_pivot_cache.specs.CacheErrors.{IsFieldsError, IsCacheFieldsError};
ghost use Rattle.xlsx_pivot_cache.specs.CacheFields.{field_kept, fields_kept, fields_said};
ghost use Rattle.xlsx_pivot_cache.specs.CacheFields.{FieldsCause, fields_at, FieldsAtCause};

use crate::field::{CacheField, read_field};
use part_events::{Package, XlReader};
use std::alloc::AllocError;
use xlsx_error::XlsxError;
use xlsx_parts::{next_element_of_part, open_part};

/// Appends a field, where there is one.
fn push_field(fields: &mut Vec<CacheField>, field: Option<CacheField>) -> Result<(), AllocError>
    ensures { OnOk result (map field_kept fields.new.items
        ≡ map field_kept fields.old.items ++ option_to_list (option_map field_kept field)) }
{
    if let Some(field) = field {
        fields.push(field)?;
    }
    Ok(())
}

/// The fields of a part of which nothing was taken, which is read to its end.
#[tactic(auto, using(crate::proofs::CacheErrors::break_error))]
fn fields_in<P: Package>(xml: &mut XlReader<P>) -> Result<Vec<CacheField>, XlsxError>
    requires reading { IsReading xml.old }
    requires first { xml.old.at ≡ 0 }
    ensures reads { ReadsPart Io result xml.old xml.new }
    ensures ends { xml.old.source.is_visible ≡ true →
        OnOk result (xml.new.at ≡ length (events_of xml.old)) }
    ensures fields { xml.old.source.is_visible ≡ true → IfOk result (λ fields.
        fields_said (events_of xml.old) ≡ Some (fields_kept fields.items)) }
    ensures err { IfErr result
        (FailsBy (FieldsCause (events_of xml.old)) xml.old.source xml.new.source) }
    ensures kind { IfErr result IsFieldsError }
{
    let mut fields = Vec::new(xml.alloc());
    'fields: while let Some(at) = next_element_of_part(xml, "cacheField")? {
        let field = read_field(xml, at)?;
        push_field(&mut fields, field)?;
    }
    Ok(fields)
}

/// The fields of a pivot table's cache, whose definitions are the part at this path (ECMA-376 part
/// 1, section 18.10.1.3), in order. The part is read to its end.
///
/// Each outermost `cacheField` that has a name, decoded, and no `formula`, and that holds no
/// `groupItems`, is a field. Its items are the children `s`, `n`, `m`, `e`, `b` and `d` of the
/// first `sharedItems` in it.
///
/// A part that is absent is `FileNotFound` of its path, one that ends in a `cacheField` is
/// `XmlEof("cacheField")`, and an end that breaks the nesting, or a flaw, is `Xml(Break)` with its
/// number in the part, counted from 0. A name with a reference without a character is `Xml(Entity)`
/// with the number of its start, also where the element is no field. Attributes that end in a fault
/// before what is looked up in them are `XmlAttr`.
pub fn read_fields<P: Package>(
    xml: &mut XlReader<P>,
    path: &str,
) -> Result<Vec<CacheField>, XlsxError>
    ensures uses { Uses (event_count xml.old.source.parts path.now) Io result
        xml.old.source xml.new.source }
    ensures to_end { let old = xml.old.source in
        old.is_visible ≡ true →
        OnOk result (CountsUp (event_count old.parts path.now) old.taken xml.new.source.taken) }
    ensures fields { xml.old.source.is_visible ≡ true → IfOk result (λ fields.
        fields_at xml.old.source.parts path.now ≡ Some (fields_kept fields.items)) }
    ensures err { IfErr result
        (FailsBy (FieldsAtCause xml.old.source.parts path.now) xml.old.source xml.new.source) }
    ensures kind { IfErr result IsCacheFieldsError }
{
    if !open_part(xml, path)? {
        return Err(XlsxError::FileNotFound(String::from_str(xml.alloc(), path)?));
    }
    fields_in(xml)
}
