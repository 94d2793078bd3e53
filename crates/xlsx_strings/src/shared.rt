ghost use Rattle.std.specs.Prelude.{◌≡◌, ◌≤◌, [], ◌∷◌, ◌++◌, codes, suc, length, map, true, Ok};
ghost use Rattle.std.specs.Prelude.{string_bytes, IfOk, OnOk, IfErr};
ghost use Rattle.part_events.specs.Words.{Uses, event_count, IsReading, ReadsPart, section_ahead};
ghost use Rattle.part_events.specs.Words.{is_closed_ahead, section_end};
ghost use Rattle.xlsx_error.specs.declared.error.XlsxError.TheVariants.{Io};
ghost use Rattle.xlsx_sections.specs.Words.{IsInsideRefused, SectionFails, OptionalPartFails};
ghost use Rattle.xlsx_sections.specs.Words.{ReadsToEnd};
ghost use Rattle.xlsx_strings.specs.Strings.{strings_in, end_in_strings, HasStrings};
ghost use Rattle.xlsx_strings.specs.Strings.{AreStringsError};

use crate::string_element::read_string;
use part_events::{Package, XlReader};
use std::alloc::{AllocError, Global};
use xlsx_error::XlsxError;
use xlsx_sections::{enter_part, next_element_in};

/// Appends a text as a string that takes its bytes alone.
fn push_text(alloc: Global, strings: &mut Vec<String>, text: &str) -> Result<(), AllocError>
    ensures { OnOk result (map string_bytes strings.new.items
        ≡ map string_bytes strings.old.items ++ text.now ∷ []) }
{
    strings.push(String::from_str(alloc, text)?)?;
    Ok(())
}

/// The strings of a section of shared strings whose element is number `base` of the open ones.
fn strings_in<P: Package>(xml: &mut XlReader<P>, base: usize) -> Result<Vec<String>, XlsxError>
    requires reading { IsReading xml.old }
    requires within { base ≤ length xml.old.names }
    ensures reads { ReadsPart Io result xml.old xml.new }
    ensures closed { xml.old.source.is_visible ≡ true →
        OnOk result (is_closed_ahead base xml.old ≡ true) }
    ensures ends { xml.old.source.is_visible ≡ true →
        OnOk result (xml.new.at ≡ suc (section_end base xml.old)) }
    ensures strings { xml.old.source.is_visible ≡ true → IfOk result (λ strings.
        strings_in (section_ahead base xml.old) ≡ Ok (map string_bytes strings.items)) }
    ensures err { IfErr result
        (SectionFails end_in_strings (IsInsideRefused strings_in) base xml.old xml.new) }
    ensures kind { IfErr result AreStringsError }
{
    let alloc = xml.alloc();
    let mut strings = Vec::new(alloc);
    let mut text = String::new(alloc);
    let mut scratch = String::new(alloc);
    'strings: while let Some(_at) = next_element_in(xml, base, &["si"], "sst")? {
        text.clear();
        read_string(xml, &mut text, &mut scratch)?;
        push_text(alloc, &mut strings, text.as_str())?;
    }
    Ok(strings)
}

/// The shared strings in the part at this path, in order. A part that is absent has none. Each
/// string takes the bytes of its text, and nothing is kept by the counts that the part tells.
/// (ECMA-376 part 1, section 18.4.9.)
///
/// A part that has no section `sst`, or ends in it outside its strings, is `XmlEof("sst")`. One
/// that ends in a string is refused as by `read_string`. A reference without a character in a text
/// that is read is `Xml(Entity)` with its number in the part, counted from 0.
pub fn read_shared_strings<P: Package>(
    xml: &mut XlReader<P>,
    path: &str,
) -> Result<Vec<String>, XlsxError>
    ensures uses { Uses (event_count xml.old.source.parts path.now) Io result
        xml.old.source xml.new.source }
    ensures to_end { ReadsToEnd (codes "sst") path.now result xml.old.source xml.new.source }
    ensures strings { xml.old.source.is_visible ≡ true → IfOk result (λ strings.
        HasStrings xml.old.source.parts path.now (map string_bytes strings.items)) }
    ensures err { let refused = IsInsideRefused strings_in in
        IfErr result (OptionalPartFails (codes "sst") end_in_strings refused path.now
        xml.old.source xml.new.source) }
    ensures kind { IfErr result AreStringsError }
{
    if !enter_part(xml, path, "sst")? {
        return Ok(Vec::new(xml.alloc()));
    }
    let base = xml.depth();
    strings_in(xml, base)
}
