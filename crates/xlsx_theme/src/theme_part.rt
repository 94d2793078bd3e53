ghost use Rattle.std.specs.Prelude.{◌≡◌, ℕ, None, codes, true, IfOk, OnOk, IfErr};
ghost use Rattle.part_events.specs.Words.{Uses, CountsUp, event_count, IsReading, ReadsPart, ahead};
ghost use Rattle.part_events.specs.Words.{events_of};
ghost use Rattle.xlsx_error.specs.declared.error.XlsxError.TheVariants.{Io};
ghost use Rattle.xlsx_sections.specs.Words.{SoundFails, section_events};
ghost use Rattle.xlsx_theme.specs.ColorScheme.{numbered_colors, IsSchemeError};
ghost use Rattle.xlsx_theme.specs.ThemePart.{IsThemeOf, IsTheme, HasTheme, SaysTheme};
ghost use Rattle.xlsx_theme.specs.ThemePart.{behind_scheme, ReadThemeFails, TakesTheme};

use crate::color_scheme::{numbered, read_slots};
use cell_styles::Color;
use part_events::{Package, Step, XlReader};
use std::alloc::{AllocError, Global};
use xlsx_error::XlsxError;
use xlsx_styles::default_theme_colors;

/// The colors of a theme, by the numbers of an attribute `theme` (ECMA-376 part 1, section 18.8.3).
#[derive(Debug, Drop)]
pub struct ThemeColors {
    pub colors: Vec<Color>,
    /// Whether these are the default theme's, because the workbook's part says none.
    pub defaulted: bool,
}

fn default_theme(alloc: Global) -> Result<ThemeColors, AllocError>
    ensures theme { IfOk result (IsThemeOf None) }
    ensures form { IfOk result IsTheme }
{
    Ok(ThemeColors {
        colors: Vec::from_array(alloc, default_theme_colors())?,
        defaulted: true,
    })
}

/// The theme of a scheme with these slots: their colors by number, or the default theme.
fn theme_of(alloc: Global, slots: Vec<Color>) -> Result<ThemeColors, AllocError>
    ensures theme { IfOk result (IsThemeOf (numbered_colors slots.items)) }
    ensures form { IfOk result IsTheme }
{
    match numbered(slots) {
        Some(colors) => Ok(ThemeColors {
            colors,
            defaulted: false,
        }),
        None => default_theme(alloc),
    }
}

/// The colors of the theme in the part of which the reader has taken nothing yet (ECMA-376 part 1,
/// section 20.1.6.2). Of the part's first color scheme each outermost slot counts, in order; the
/// first two are swapped, and the next two. The default theme stands where there is no scheme, or
/// one of fewer than four slots. Reads to the end of the scheme, and of a part that has none.
///
/// A part that ends in its scheme is `Xml(Unclosed)` with the number of the part's events. An end
/// that breaks the nesting, or a flaw, before the scheme's end is `Xml(Break)` with its number,
/// counted from 0. A lookup in a slot that is refused is `XmlAttr`.
pub fn read_theme_colors<P: Package>(xml: &mut XlReader<P>) -> Result<ThemeColors, XlsxError>
    requires reading { IsReading xml.old }
    requires first { xml.old.at ≡ 0 }
    ensures reads { ReadsPart Io result xml.old xml.new }
    ensures behind { xml.old.source.is_visible ≡ true →
        OnOk result (ahead xml.new ≡ behind_scheme (ahead xml.old)) }
    ensures ends { let count = section_events (codes "clrScheme") (events_of xml.old) in
        xml.old.source.is_visible ≡ true → OnOk result (xml.new.at ≡ count) }
    ensures theme { xml.old.source.is_visible ≡ true → IfOk result (SaysTheme (events_of xml.old)) }
    ensures form { IfOk result IsTheme }
    ensures err { IfErr result (ReadThemeFails xml.old xml.new) }
    ensures kind { IfErr result IsSchemeError }
{
    let alloc = xml.alloc();
    match xml.next_start(0, &["clrScheme"])? {
        Step::Found => {
            let base = xml.depth();
            let slots = read_slots(xml, base)?;
            Ok(theme_of(alloc, slots)?)
        }
        Step::Ended => Ok(default_theme(alloc)?),
        Step::Closed => unreachable!(),
    }
}

/// The colors of the theme whose part is at this path. The default theme stands also where the part
/// is absent, and where its reading is refused as `Xml` or `XmlAttr`. So this call is refused only
/// for want of memory, and by a fault of the package.
pub fn read_theme<P: Package>(xml: &mut XlReader<P>, path: &str) -> Result<ThemeColors, XlsxError>
    ensures uses { Uses (event_count xml.old.source.parts path.now) Io result xml.old.source
        xml.new.source }
    ensures to_end { let old = xml.old.source in
        old.is_visible ≡ true → OnOk result ((count : ℕ)
        × TakesTheme old.parts path.now count × CountsUp count old.taken xml.new.source.taken) }
    ensures theme { xml.old.source.is_visible ≡ true →
        IfOk result (HasTheme xml.old.source.parts path.now) }
    ensures form { IfOk result IsTheme }
    ensures err { IfErr result (SoundFails xml.old.source xml.new.source) }
{
    let alloc = xml.alloc();
    if !xml.open(path)? {
        return Ok(default_theme(alloc)?);
    }
    match read_theme_colors(xml) {
        Err(XlsxError::Xml(_)) => Ok(default_theme(alloc)?),
        Err(XlsxError::XmlAttr(_)) => Ok(default_theme(alloc)?),
        answer => answer,
    }
}
