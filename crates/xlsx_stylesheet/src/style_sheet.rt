ghost use Rattle.std.specs.Prelude.{◌≡◌, codes, length, map, true, IfOk, IfErr};
ghost use Rattle.part_events.specs.Words.{Uses, event_count};
ghost use Rattle.xlsx_error.specs.declared.error.XlsxError.TheVariants.{Io};
ghost use Rattle.xlsx_sections.specs.Words.{IsInsideRefused, OptionalPartFails, ReadsToEnd};
ghost use Rattle.xlsx_formats.specs.Formattings.{formatting_said, style_said};
ghost use Rattle.xlsx_stylesheet.specs.StyleSheet.{cell_formats_in, end_in_styles, AreStyles};
ghost use Rattle.xlsx_stylesheet.specs.StyleSheet.{HasStyles};
ghost use Rattle.xlsx_stylesheet.specs.StylesErrors.{AreStylesError};

use crate::style_lists::lists_in;
use cell_data::CellFormat;
use cell_styles::{Color, Style};
use part_events::{Package, XlReader};
use std::alloc::{AllocError, Global};
use xlsx_error::XlsxError;
use xlsx_formats::Formatting;
use xlsx_sections::enter_part;

/// The cell formats of a workbook: what each makes of numbers, and its style. Cells name both by
/// one number, counted from 0.
#[derive(Debug, Drop)]
pub struct StyleSheet {
    pub formats: Vec<CellFormat>,
    pub styles: Vec<Style>,
}

fn from_formattings(alloc: Global, formattings: Vec<Formatting>) -> Result<StyleSheet, AllocError>
    ensures styles { IfOk result (λ found.
        AreStyles found.formats.items (map style_said found.styles.items)
        (map formatting_said formattings.items)) }
    ensures lengths { IfOk result (λ found.
        length found.formats.items ≡ length found.styles.items) }
{
    let mut formats = Vec::new(alloc);
    let mut styles = Vec::new(alloc);
    for formatting in formattings {
        formats.push(formatting.format)?;
        styles.push(formatting.style)?;
    }
    Ok(StyleSheet { formats, styles })
}

/// The formats and the styles of the styles part at this path, one of each for each `xf` of its
/// cell formats, in order (ECMA-376 part 1, section 18.8.39). A part that is absent has none. Each
/// cell format names what stands before it in the part, and colors are named by the colors of the
/// theme. Nothing is kept by the counts that the part tells.
///
/// A part that ends before its section of styles does is `XmlEof` with the name of the innermost
/// list, element of a list or side of a border that is open, else `XmlEof("styleSheet")`.
pub fn read_styles<P: Package>(
    xml: &mut XlReader<P>,
    path: &str,
    theme_colors: &[Color],
) -> Result<StyleSheet, XlsxError>
    ensures uses { Uses (event_count xml.old.source.parts path.now) Io result xml.old.source
        xml.new.source }
    ensures to_end { ReadsToEnd (codes "styleSheet") path.now result xml.old.source xml.new.source }
    ensures styles { xml.old.source.is_visible ≡ true → IfOk result (λ found.
        HasStyles theme_colors.now xml.old.source.parts path.now found.formats.items
        (map style_said found.styles.items)) }
    ensures lengths { IfOk result (λ found.
        length found.formats.items ≡ length found.styles.items) }
    ensures err { let refused = IsInsideRefused (cell_formats_in theme_colors.now) in
        IfErr result (OptionalPartFails (codes "styleSheet") end_in_styles refused path.now
        xml.old.source xml.new.source) }
    ensures kind { IfErr result AreStylesError }
{
    let alloc = xml.alloc();
    if !enter_part(xml, path, "styleSheet")? {
        return Ok(StyleSheet {
            formats: Vec::new(alloc),
            styles: Vec::new(alloc),
        });
    }
    let base = xml.depth();
    let lists = lists_in(xml, base, theme_colors)?;
    Ok(from_formattings(alloc, lists.formattings)?)
}
