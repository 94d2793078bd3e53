ghost use Rattle.std.specs.Prelude.{◌≡◌, ◌^◌, List, [], ◌∷◌, codes, true, Result, Ok, Err, IfOk};
ghost use Rattle.std.specs.Prelude.{IfErr, MatchResult, IsOkAnd};
ghost use Rattle.std.specs.Option.{option_copied, option_or, unwrap_or};
ghost use Rattle.attr_text.specs.Words.{lookup};
ghost use Rattle.part_events.specs.Words.{Tag, start, tag_of, IsReadingElement, ReadsElement};
ghost use Rattle.part_events.specs.Words.{ahead, content};
ghost use Rattle.cell_data.specs.Words.{builtin_code};
ghost use Rattle.xlsx_error.specs.declared.error.XlsxError.TheVariants.{Io};
ghost use Rattle.xlsx_sections.specs.Words.{ElementReadFails, always, Refusal, ElementFails};
ghost use Rattle.xlsx_sections.specs.Words.{number_below};
ghost use Rattle.xlsx_styles.specs.Words.{IsPlainError};
ghost use Rattle.xlsx_formats.specs.FormatCodes.{WrittenFormat, code_kept, AreCodes};
ghost use Rattle.xlsx_formats.specs.Formattings.{NamedSaid, numbered, format_named};
ghost use Rattle.xlsx_formats.specs.Formattings.{number_format_named, formatting_keys};
ghost use Rattle.xlsx_formats.specs.Formattings.{formatting_named, no_settings, formatting_by};
ghost use Rattle.xlsx_formats.specs.Formattings.{formatting_of, formatting_said, named_said};

use crate::format_codes::FormatCodes;
use crate::settings::{Settings, read_settings};
use attr_text::{AttrFault, AttrValue, RawAttributes, four_values};
use cell_data::{CellFormat, builtin_format_by_id, builtin_format_code_by_id};
use cell_styles::{Borders, Fill, Font, NumberFormat, Style};
use part_events::{Package, StartTag, XlReader};
use std::alloc::{AllocError, Global};
use xlsx_error::XlsxError;
use xlsx_sections::{number_text, start_tag};

/// What cell formats name: number formats by the texts of their ids, and fonts, fills and borders
/// by their numbers, counted from 0.
#[derive(Clone, Copy)]
pub struct NamedLists<'a> {
    pub codes: &'a FormatCodes,
    pub fonts: &'a [Font],
    pub fills: &'a [Fill],
    pub borders: &'a [Borders],
}

/// What a cell format makes of a number, and its style.
#[derive(Debug, Drop)]
pub struct Formatting {
    pub format: CellFormat,
    pub style: Style,
}

type FormattingTexts<'a> = (AttrValue<'a>, AttrValue<'a>, AttrValue<'a>, AttrValue<'a>);

/// The texts of a start's attributes, in the order of the keys.
fn formatting_texts<'a>(tag: &'a StartTag<'_>) -> Result<FormattingTexts<'a>, AttrFault>
    ensures { let texts = lookup formatting_keys (tag_of tag.now).attributes in
        MatchResult result
        (λ p. texts ≡ Ok (option_copied p.0 ∷ option_copied p.1
        ∷ option_copied p.2 ∷ option_copied p.3 ∷ []))
        (λ fault. texts ≡ Err fault) }
{
    four_values(
        tag.attributes_raw(),
        "numFmtId",
        "fontId",
        "fillId",
        "borderId",
    )
}

/// What stands in a list at the number that a text writes.
fn numbered<'a, T>(list: &'a [T], text: Option<&str>) -> Option<&'a T>
    ensures { option_copied result ≡ numbered list.now (option_copied text.entry) }
{
    list.get(number_text(text?)? as usize)
}

fn numbered_font(
    alloc: Global,
    fonts: &[Font],
    text: Option<&str>,
) -> Result<Option<Font>, AllocError>
    ensures { IfOk result (λ font. font ≡ numbered fonts.now (option_copied text.entry)) }
{
    match numbered(fonts, text) {
        Some(font) => Ok(Some(font.clone_in(alloc)?)),
        None => Ok(None),
    }
}

/// What the number format of an id makes of a number.
fn format_named(kept: &FormatCodes, id: Option<&str>) -> CellFormat
    ensures { result ≡ format_named (code_kept kept.now) (option_copied id.entry) }
{
    let Some(id) = id else {
        return CellFormat::Other;
    };
    match kept.get(id) {
        Some(code) => code.format,
        None => builtin_format_by_id(id),
    }
}

/// The number of 32 bits that a text of digits alone writes.
fn id_number(id: &str) -> Option<u32>
    ensures { result ≡ number_below (2 ^ 32) id.now }
{
    match number_text(id)? {
        number if number < 1 << 32 => Some(number as u32),
        _ => None,
    }
}

/// The code that is kept for an id, else that of the built-in format of its number.
fn code_or_builtin<'a>(kept: Option<&'a str>, number: u32) -> &'a str
    ensures { result.now ≡ unwrap_or (option_or (option_copied kept.entry) (builtin_code number))
        (codes "General") }
{
    match kept {
        Some(code) => code,
        None => builtin_format_code_by_id(number).unwrap_or("General"),
    }
}

fn number_format_named(
    alloc: Global,
    kept: &FormatCodes,
    id: Option<&str>,
) -> Result<Option<NumberFormat>, AllocError>
    ensures { IfOk result (λ format.
        format ≡ number_format_named (code_kept kept.now) (option_copied id.entry)) }
{
    let Some(id) = id else {
        return Ok(None);
    };
    let Some(number) = id_number(id) else {
        return Ok(None);
    };
    let code = code_or_builtin(kept.code(id), number);
    Ok(Some(NumberFormat {
        format_code: String::from_str(alloc, code)?,
        format_id: Some(number),
    }))
}

/// What a start names, of which nothing is set yet.
fn formatting_named(
    alloc: Global,
    tag: StartTag<'_>,
    lists: &NamedLists<'_>,
) -> Result<Formatting, XlsxError>
    ensures ok { IfOk result (λ formatting. (formats : List WrittenFormat) →
        IsOkAnd (lookup formatting_keys (tag_of tag.entry).attributes) (λ texts.
        formatting_said formatting ≡ formatting_named (code_kept lists.now.codes.now)
        (named_said formats lists.now) texts no_settings)) }
    ensures err { IfErr result (λ error. (said : NamedSaid) (settings : Result Settings Refusal) →
        ElementFails (formatting_by said settings
        (lookup formatting_keys (tag_of tag.entry).attributes)) 0 0 error) }
    ensures kind { IfErr result (IsPlainError (codes "xf")) }
{
    let (id, font, fill, borders) = formatting_texts(&tag)?;
    Ok(Formatting {
        format: format_named(lists.codes, id),
        style: Style {
            font: numbered_font(alloc, lists.fonts, font)?,
            fill: numbered(lists.fills, fill).copied(),
            borders: numbered(lists.borders, borders).copied(),
            alignment: None,
            number_format: number_format_named(alloc, lists.codes, id)?,
            protection: None,
        },
    })
}

/// Reads the cell format at whose start the reader stands, to its end (ECMA-376 part 1, section
/// 18.8.45). Its font, fill and borders are those of `lists` at the numbers that it names; a number
/// that is none, or past the end, names nothing. Its number format has the code that is kept for
/// its id as written, else that of the built-in format, else `General`. Of the alignments and the
/// protections that start in it, at any depth, the last counts.
///
/// A part that ends before is `XmlEof("xf")`. A lookup in a start that is refused is `XmlAttr`.
pub fn read_format<P: Package>(
    xml: &mut XlReader<P>,
    lists: &NamedLists<'_>,
) -> Result<Formatting, XlsxError>
    requires element { IsReadingElement xml.old }
    ensures reads { ReadsElement Io result xml.old xml.new }
    ensures formatting { xml.old.source.is_visible ≡ true → IfOk result (λ formatting.
        (tag : Tag) (formats : List WrittenFormat) → start tag ≡ xml.old.source.current →
        AreCodes formats lists.now.codes.now →
        formatting_of (named_said formats lists.now) tag (content 0 (ahead xml.old))
        ≡ Ok (formatting_said formatting)) }
    ensures err { IfErr result (λ error. (tag : Tag) (said : NamedSaid) →
        start tag ≡ xml.old.source.current →
        ElementReadFails (always (codes "xf")) (formatting_of said tag) xml.old xml.new error) }
    ensures kind { IfErr result (IsPlainError (codes "xf")) }
{
    let alloc = xml.alloc();
    let mut formatting = formatting_named(alloc, start_tag(xml), lists)?;
    let Settings {
        alignment,
        protection,
    } = read_settings(xml)?;
    formatting.style.alignment = alignment;
    formatting.style.protection = protection;
    Ok(formatting)
}
