ghost use Rattle.std.specs.Prelude.{◌≡◌, ◌++◌, List, ℕ, true, Ok, string_bytes, OnOk, OnErr, IfErr};
ghost use Rattle.attr_text.specs.Words.{unescaped};
ghost use Rattle.part_events.specs.Words.{Tag, start, tag_of, IsFrontOf, IsReadingElement};
ghost use Rattle.part_events.specs.Words.{ReadsElement, ahead, content};
ghost use Rattle.xlsx_error.specs.declared.error.XlsxError.TheVariants.{Io};
ghost use Rattle.xlsx_sections.specs.Words.{ElementReadFails};
ghost use Rattle.xlsx_strings.specs.Strings.{blanks_kept, spaced, piece_of, string_of};
ghost use Rattle.xlsx_strings.specs.Strings.{end_in_piece, end_in_string, IsStringError};

use crate::trim::trimmed;
use attr_text::{AttrFault, RawAttributes, push_unescaped};
use part_events::{Package, StartTag, XlReader};
use std::alloc::{AllocError, Global};
use xlsx_error::XlsxError;
use xlsx_sections::{next_element_in, read_element_text, skip_element_in, start_tag};

/// Whether a text of this start keeps the blanks at its ends.
fn keeps_blanks(tag: StartTag<'_>) -> Result<bool, AttrFault>
    ensures { blanks_kept (tag_of tag.entry) ≡ result }
{
    match tag.raw_attr("xml:space")? {
        Some(space) => Ok(space == "preserve"),
        None => Ok(false),
    }
}

/// Appends what is written in a text, without the blanks at its ends where they aren't kept, and
/// without escapes.
fn push_spaced(alloc: Global, out: &mut String, written: &str, kept: bool) -> Result<(), AllocError>
    ensures ok { OnOk result (string_bytes out.new
        ≡ string_bytes out.old ++ unescaped (spaced kept written.now)) }
    ensures unchanged { OnErr result (string_bytes out.new ≡ string_bytes out.old) }
{
    if kept {
        push_unescaped(alloc, out, written)
    } else {
        push_unescaped(alloc, out, trimmed(written))
    }
}

/// Appends what the element at whose start the reader stands adds to its string, and reads to its
/// end: a text is read, and what is said of the pronunciation is passed.
fn read_piece<P: Package>(
    xml: &mut XlReader<P>,
    out: &mut String,
    scratch: &mut String,
) -> Result<(), XlsxError>
    requires element { IsReadingElement xml.old }
    ensures reads { ReadsElement Io result xml.old xml.new }
    ensures text { xml.old.source.is_visible ≡ true →
        OnOk result ((tag : Tag) → start tag ≡ xml.old.source.current →
        (text : List ℕ) × (piece_of tag (content 0 (ahead xml.old)) ≡ Ok text)
        × (string_bytes out.new ≡ string_bytes out.old ++ text)) }
    ensures front { IsFrontOf (string_bytes out.old) (string_bytes out.new) }
    ensures err { IfErr result (λ error. (tag : Tag) → start tag ≡ xml.old.source.current →
        ElementReadFails (end_in_piece tag) (piece_of tag) xml.old xml.new error) }
    ensures kind { IfErr result IsStringError }
{
    if start_tag(xml).local_name() != "t" {
        return skip_element_in(xml, Some(""));
    }
    let kept = keeps_blanks(start_tag(xml))?;
    scratch.clear();
    read_element_text(xml, scratch, true, "t")?;
    push_spaced(xml.alloc(), out, scratch.as_str(), kept)?;
    Ok(())
}

/// Appends the text of the string element, an `si` or an `is`, at whose start the reader stands,
/// and reads to its end. The texts of its elements `t` are joined, those of its pronunciation left
/// aside. `scratch` is overwritten: a caller that reads many strings lends one text to all.
/// (ECMA-376 part 1, section 18.4.8.)
///
/// A part that ends in a `t` is `XmlEof("t")`, and one that ends elsewhere in the string
/// `XmlEof("")`. After a refusal the text begins with what it was.
pub fn read_string<P: Package>(
    xml: &mut XlReader<P>,
    out: &mut String,
    scratch: &mut String,
) -> Result<(), XlsxError>
    requires element { IsReadingElement xml.old }
    ensures reads { ReadsElement Io result xml.old xml.new }
    ensures text { xml.old.source.is_visible ≡ true → OnOk result ((text : List ℕ)
        × (string_of (content 0 (ahead xml.old)) ≡ Ok text)
        × (string_bytes out.new ≡ string_bytes out.old ++ text)) }
    ensures front { IsFrontOf (string_bytes out.old) (string_bytes out.new) }
    ensures err { IfErr result (ElementReadFails end_in_string string_of xml.old xml.new) }
    ensures kind { IfErr result IsStringError }
{
    let base = xml.depth();
    'pieces: while let Some(_at) = next_element_in(xml, base, &["t", "rPh"], "")? {
        read_piece(xml, out, scratch)?;
    }
    Ok(())
}
