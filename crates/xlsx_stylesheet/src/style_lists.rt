ghost use Rattle.std.specs.Prelude.{◌≡◌, ◌≤◌, List, [], codes, length, true, Ok, IfOk, OnOk, IfErr};
ghost use Rattle.part_events.specs.Words.{tag_of, IsReading, IsReadingElement, ReadsElement};
ghost use Rattle.part_events.specs.Words.{ReadsPart, section_ahead};
ghost use Rattle.xlsx_error.specs.declared.error.XlsxError.TheVariants.{Io};
ghost use Rattle.xlsx_sections.specs.Words.{IsInsideRefused, ReachesEnd, SectionFails};
ghost use Rattle.xlsx_formats.specs.FormatCodes.{WrittenFormat, AreCodes};
ghost use Rattle.xlsx_stylesheet.specs.StyleSheet.{list_named, list_of, no_lists, lists_in};
ghost use Rattle.xlsx_stylesheet.specs.StyleSheet.{lists_said, end_in_styles, ReadsList, ListFails};
ghost use Rattle.xlsx_stylesheet.specs.StylesErrors.{AreStylesError};

use crate::lists::{read_borders, read_fills, read_fonts, read_formats};
use attr_text::RawAttributes;
use cell_styles::{Borders, Color, Fill, Font};
use part_events::{Package, StartTag, XlReader};
use std::alloc::Global;
use xlsx_error::XlsxError;
use xlsx_formats::{FormatCodes, Formatting, NamedLists, read_number_formats};
use xlsx_sections::{next_element_in, start_tag};

/// A list of the section of styles, by the name of its element.
#[derive(Clone, Copy)]
pub enum StyleList {
    NumberFormats,
    Fonts,
    Fills,
    Borders,
    Formats,
}

/// What was read of the section of styles.
#[derive(Debug, Drop)]
pub struct StyleLists {
    pub codes: FormatCodes,
    pub fonts: Vec<Font>,
    pub fills: Vec<Fill>,
    pub borders: Vec<Borders>,
    pub formattings: Vec<Formatting>,
}

impl StyleLists {
    fn new(alloc: Global) -> StyleLists
        ensures codes { AreCodes [] result.codes }
        ensures none { lists_said [] result ≡ no_lists }
    {
        StyleLists {
            codes: FormatCodes::new(alloc),
            fonts: Vec::new(alloc),
            fills: Vec::new(alloc),
            borders: Vec::new(alloc),
            formattings: Vec::new(alloc),
        }
    }
}

fn list_named(name: &str) -> StyleList
    ensures { result ≡ list_named name.now }
{
    match name {
        "numFmts" => StyleList::NumberFormats,
        "fonts" => StyleList::Fonts,
        "fills" => StyleList::Fills,
        "borders" => StyleList::Borders,
        _ => StyleList::Formats,
    }
}

fn list_of(tag: StartTag<'_>) -> StyleList
    ensures { result ≡ list_of (tag_of tag.entry) }
{
    list_named(tag.local_name())
}

/// Appends what the element at whose start the reader stands says to its list, and reads to its
/// end.
fn read_list<P: Package>(
    xml: &mut XlReader<P>,
    theme_colors: &[Color],
    lists: &mut StyleLists,
) -> Result<(), XlsxError>
    requires element { IsReadingElement xml.old }
    ensures reads { ReadsElement Io result xml.old xml.new }
    ensures lists { xml.old.source.is_visible ≡ true →
        OnOk result (ReadsList theme_colors.now lists.old lists.new xml.old) }
    ensures err { IfErr result (ListFails theme_colors.now lists.old xml.old xml.new) }
    ensures kind { IfErr result AreStylesError }
{
    match list_of(start_tag(xml)) {
        StyleList::NumberFormats => { read_number_formats(xml, &mut lists.codes) }
        StyleList::Fonts => read_fonts(xml, theme_colors, &mut lists.fonts),
        StyleList::Fills => read_fills(xml, theme_colors, &mut lists.fills),
        StyleList::Borders => read_borders(xml, theme_colors, &mut lists.borders),
        StyleList::Formats => {
            let named = NamedLists {
                codes: &lists.codes,
                fonts: lists.fonts.as_slice(),
                fills: lists.fills.as_slice(),
                borders: lists.borders.as_slice(),
            };
            read_formats(xml, &named, &mut lists.formattings)
        }
    }
}

/// The lists of a section of styles whose element is number `base` of the open ones.
pub fn lists_in<P: Package>(
    xml: &mut XlReader<P>,
    base: usize,
    theme_colors: &[Color],
) -> Result<StyleLists, XlsxError>
    requires reading { IsReading xml.old }
    requires within { base ≤ length xml.old.names }
    ensures reads { ReadsPart Io result xml.old xml.new }
    ensures reaches { xml.old.source.is_visible ≡ true →
        OnOk result (ReachesEnd base xml.old xml.new) }
    ensures lists { xml.old.source.is_visible ≡ true →
        IfOk result (λ lists. (formats : List WrittenFormat)
        × AreCodes formats lists.codes
        × (lists_in theme_colors.now (section_ahead base xml.old)
        ≡ Ok (lists_said formats lists))) }
    ensures err { let refused = IsInsideRefused (lists_in theme_colors.now) in
        IfErr result (SectionFails end_in_styles refused base xml.old xml.new) }
    ensures kind { IfErr result AreStylesError }
{
    let alloc = xml.alloc();
    let mut lists = StyleLists::new(alloc);
    'lists: while let Some(_at) = next_element_in(
        xml,
        base,
        &["numFmts", "fonts", "fills", "borders", "cellXfs"],
        "styleSheet",
    )? {
        read_list(xml, theme_colors, &mut lists)?;
    }
    Ok(lists)
}
