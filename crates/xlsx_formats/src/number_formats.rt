ghost use Rattle.std.specs.Prelude.{◌≡◌, ◌⊎◌, ◌++◌, List, ℕ, codes, true, Some, Ok, OnOk, OnErr};
ghost use Rattle.std.specs.Prelude.{IfErr, IsOkAnd};
ghost use Rattle.attr_text.specs.Words.{lookup};
ghost use Rattle.part_events.specs.Words.{tag_of, IsReadingElement, ReadsElement, ahead, content};
ghost use Rattle.part_events.specs.Words.{starts_by};
ghost use Rattle.xlsx_error.specs.declared.error.XlsxError.TheVariants.{Io};
ghost use Rattle.xlsx_sections.specs.Words.{ElementReadFails, always, ElementFails, IsDecodeError};
ghost use Rattle.xlsx_sections.specs.Words.{placed_at};
ghost use Rattle.xlsx_styles.specs.Words.{IsPlainError};
ghost use Rattle.xlsx_formats.specs.FormatCodes.{WrittenFormat, written_format, formats_written};
ghost use Rattle.xlsx_formats.specs.FormatCodes.{with_written, is_number_format, AreCodes};
ghost use Rattle.xlsx_formats.specs.FormatCodes.{KeepsFront};

use crate::format_codes::FormatCodes;
use attr_text::{RawAttributes, get_attrs};
use part_events::{Package, StartTag, XlReader};
use std::alloc::Global;
use xlsx_error::XlsxError;
use xlsx_sections::{decode_at, next_start_in, start_tag};

/// Keeps the code of the format that a start writes, which is event number `at` of its part.
fn keep_format(
    alloc: Global,
    kept: &mut FormatCodes,
    tag: StartTag<'_>,
    at: u64,
) -> Result<(), XlsxError>
    ensures ok { OnOk result ((behind : ℕ) →
        IsOkAnd (written_format (placed_at (tag_of tag.entry) behind)) (λ found.
        (earlier : List WrittenFormat) → AreCodes earlier kept.old →
        AreCodes (with_written earlier found) kept.new)) }
    ensures err { IfErr result (λ error. (behind : ℕ) →
        ElementFails (written_format (placed_at (tag_of tag.entry) behind)) at behind error) }
    ensures unchanged { OnErr result ((earlier : List WrittenFormat) → AreCodes earlier kept.old →
        AreCodes earlier kept.new) }
    ensures kind { IfErr result (λ error.
        IsPlainError (codes "numFmts") error ⊎ IsDecodeError error) }
{
    let (id, code) = get_attrs!(tag, "numFmtId" => id, "formatCode" => code)?;
    if let (Some(id), Some(code)) = (id, code) {
        let code = decode_at(alloc, code, at)?;
        kept.keep(String::from_str(alloc, id)?, code)?;
    }
    Ok(())
}

/// Reads the number formats at the start of whose element the reader stands, to its end (ECMA-376
/// part 1, section 18.8.31), and keeps the code of each `numFmt` start in it that has an id and a
/// code, at any depth, in place of an earlier one of its id. What was kept before stays.
///
/// A part that ends before is `XmlEof("numFmts")`, and a code with a reference without a character
/// is `Xml(Entity)` with the number of its start, counted from 0. A lookup in a `numFmt` that is
/// refused is `XmlAttr`. After a refusal the codes are kept of some of the first starts.
pub fn read_number_formats<P: Package>(
    xml: &mut XlReader<P>,
    kept: &mut FormatCodes,
) -> Result<(), XlsxError>
    requires element { IsReadingElement xml.old }
    ensures reads { ReadsElement Io result xml.old xml.new }
    ensures formats { xml.old.source.is_visible ≡ true → OnOk result
        (IsOkAnd (formats_written (content 0 (ahead xml.old))) (λ formats.
        (earlier : List WrittenFormat) → AreCodes earlier kept.old →
        AreCodes (earlier ++ formats) kept.new)) }
    ensures front { let starts = starts_by is_number_format (content 0 (ahead xml.old)) in
        xml.old.source.is_visible ≡ true → OnErr result (KeepsFront starts kept.old kept.new) }
    ensures err { IfErr result
        (ElementReadFails (always (codes "numFmts")) formats_written xml.old xml.new) }
    ensures kind { IfErr result (λ error.
        IsPlainError (codes "numFmts") error ⊎ IsDecodeError error) }
{
    let alloc = xml.alloc();
    let base = xml.depth();
    'starts: while let Some(at) = next_start_in(xml, base, "numFmt", "numFmts")? {
        keep_format(alloc, kept, start_tag(xml), at)?;
    }
    Ok(())
}
