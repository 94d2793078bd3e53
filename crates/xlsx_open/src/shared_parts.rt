ghost use Rattle.std.specs.Prelude.{◌≡◌, ℕ, codes, map, string_bytes, true, IfOk, OnOk, IfErr};
ghost use Rattle.part_events.specs.Words.{Uses, CountsUp, event_count};
ghost use Rattle.xlsx_error.specs.declared.error.XlsxError.TheVariants.{Io};
ghost use Rattle.xlsx_sections.specs.Words.{IsInsideRefused, SoundFails, OptionalPartFails};
ghost use Rattle.xlsx_sections.specs.Words.{ReadsToEnd};
ghost use Rattle.xlsx_formats.specs.Formattings.{style_said};
ghost use Rattle.xlsx_theme.specs.ThemePart.{HasTheme, TakesTheme};
ghost use Rattle.xlsx_stylesheet.specs.StyleSheet.{cell_formats_in, end_in_styles, HasStyles};
ghost use Rattle.xlsx_strings.specs.Strings.{strings_in, end_in_strings, HasStrings};
ghost use Rattle.xlsx_workbook.specs.Words.{strings_part, theme_part, styles_part};
ghost use Rattle.xlsx_open.specs.Opening.{IsOpeningError};
ghost use Rattle.xlsx_open.specs.SharedParts.{shared_said, HasShared, SharedFails, shared_events};
ghost use Rattle.xlsx_open.specs.SharedParts.{TakesShared};

use cell_styles::Color;
use part_events::{Package, XlReader};
use std::alloc::{AllocError, Global};
use xlsx_error::XlsxError;
use xlsx_relationships::{folder_of, joined};
use xlsx_strings::read_shared_strings;
use xlsx_stylesheet::{StyleSheet, read_styles};
use xlsx_theme::{ThemeColors, read_theme};

fn strings_part(alloc: Global, path: &str) -> Result<String, AllocError>
    ensures { IfOk result (λ part. string_bytes part ≡ strings_part path.now) }
{
    joined(alloc, folder_of(path), "sharedStrings.xml")
}

fn theme_part(alloc: Global, path: &str) -> Result<String, AllocError>
    ensures { IfOk result (λ part. string_bytes part ≡ theme_part path.now) }
{
    joined(alloc, folder_of(path), "theme/theme1.xml")
}

fn styles_part(alloc: Global, path: &str) -> Result<String, AllocError>
    ensures { IfOk result (λ part. string_bytes part ≡ styles_part path.now) }
{
    joined(alloc, folder_of(path), "styles.xml")
}

/// The shared strings of the workbook at this path.
fn read_strings<P: Package>(xml: &mut XlReader<P>, path: &str) -> Result<Vec<String>, XlsxError>
    ensures uses { Uses (event_count xml.old.source.parts (strings_part path.now)) Io result
        xml.old.source xml.new.source }
    ensures to_end { ReadsToEnd (codes "sst") (strings_part path.now) result
        xml.old.source xml.new.source }
    ensures strings { xml.old.source.is_visible ≡ true → IfOk result (λ strings.
        HasStrings xml.old.source.parts (strings_part path.now) (map string_bytes strings.items)) }
    ensures err { IfErr result
        (OptionalPartFails (codes "sst") end_in_strings (IsInsideRefused strings_in)
        (strings_part path.now) xml.old.source xml.new.source) }
    ensures kind { IfErr result IsOpeningError }
{
    let alloc = xml.alloc();
    let part = strings_part(alloc, path)?;
    read_shared_strings(xml, part.as_str())
}

/// The colors of the theme of the workbook at this path.
fn read_colors<P: Package>(xml: &mut XlReader<P>, path: &str) -> Result<ThemeColors, XlsxError>
    ensures uses { Uses (event_count xml.old.source.parts (theme_part path.now)) Io result
        xml.old.source xml.new.source }
    ensures to_end { let old = xml.old.source in
        old.is_visible ≡ true → OnOk result ((count : ℕ)
        × TakesTheme old.parts (theme_part path.now) count
        × CountsUp count old.taken xml.new.source.taken) }
    ensures theme { xml.old.source.is_visible ≡ true →
        IfOk result (HasTheme xml.old.source.parts (theme_part path.now)) }
    ensures err { IfErr result (SoundFails xml.old.source xml.new.source) }
{
    let alloc = xml.alloc();
    let part = theme_part(alloc, path)?;
    read_theme(xml, part.as_str())
}

/// The cell formats of the workbook at this path.
fn read_style_sheet<P: Package>(
    xml: &mut XlReader<P>,
    path: &str,
    theme_colors: &[Color],
) -> Result<StyleSheet, XlsxError>
    ensures uses { Uses (event_count xml.old.source.parts (styles_part path.now)) Io result
        xml.old.source xml.new.source }
    ensures to_end { ReadsToEnd (codes "styleSheet") (styles_part path.now) result
        xml.old.source xml.new.source }
    ensures styles { xml.old.source.is_visible ≡ true → IfOk result (λ sheet.
        HasStyles theme_colors.now xml.old.source.parts (styles_part path.now) sheet.formats.items
        (map style_said sheet.styles.items)) }
    ensures err { let refused = IsInsideRefused (cell_formats_in theme_colors.now) in
        IfErr result (OptionalPartFails (codes "styleSheet") end_in_styles refused
        (styles_part path.now) xml.old.source xml.new.source) }
    ensures kind { IfErr result IsOpeningError }
{
    let alloc = xml.alloc();
    let part = styles_part(alloc, path)?;
    read_styles(xml, part.as_str(), theme_colors)
}

/// What the sheets of a workbook share, each with a part of its own.
#[derive(Debug, Drop)]
pub struct SharedParts {
    /// The shared strings, by their indices from 0 on.
    pub strings: Vec<String>,
    /// Whether the styles name their colors by the default theme.
    pub theme_defaulted: bool,
    /// The cell formats, by the numbers that cells give, from 0 on.
    pub style_sheet: StyleSheet,
}

/// What the sheets of the workbook at this path share: first the strings are read, then the theme,
/// then the styles, which name their colors by the theme.
pub fn read_shared<P: Package>(xml: &mut XlReader<P>, path: &str) -> Result<SharedParts, XlsxError>
    ensures uses { Uses (shared_events xml.old.source.parts path.now) Io result xml.old.source
        xml.new.source }
    ensures to_end { let old = xml.old.source in
        old.is_visible ≡ true →
        OnOk result (TakesShared old.parts path.now old.taken xml.new.source.taken) }
    ensures shared { xml.old.source.is_visible ≡ true → IfOk result (λ shared.
        HasShared xml.old.source.parts path.now (shared_said shared)) }
    ensures err { IfErr result (SharedFails path.now xml.old.source xml.new.source) }
    ensures kind { IfErr result IsOpeningError }
{
    let strings = read_strings(xml, path)?;
    let theme = read_colors(xml, path)?;
    let style_sheet = read_style_sheet(xml, path, theme.colors.as_slice())?;
    Ok(SharedParts {
        strings,
        theme_defaulted: theme.defaulted,
        style_sheet,
    })
}
