ghost use Rattle.std.proofs.Common.{rules};
ghost use Rattle.std.specs.Prelude.{◌≡◌, ◌∷◌, [], codes, map, Ok, Err, MatchResult};
ghost use Rattle.std.specs.Option.{option_copied};
ghost use Rattle.attr_text.specs.Words.{lookup};
ghost use Rattle.part_events.specs.Words.{tag_of, IsReadingElement};
ghost use Rattle.cell_styles.specs.declared.border.Borders.{Borders};
ghost use Rattle.cell_styles.specs.declared.fill.Fill.{Fill};
ghost use Rattle.xlsx_sections.specs.Words.{always};
ghost use Rattle.xlsx_styles.specs.Words.{end_in_border, IsBorderError, FontSaid, said_of};
ghost use Rattle.xlsx_styles.specs.Words.{ReadsWithStart};
ghost use Rattle.xlsx_formats.specs.Formattings.{FormattingSaid, formatting_of, formatting_said};
ghost use Rattle.xlsx_formats.specs.Formattings.{named_kept};
ghost use Rattle.xlsx_stylesheet.specs.Lists.{formattings_in, end_in_formats, fonts_in};
ghost use Rattle.xlsx_stylesheet.specs.Lists.{end_in_fonts, fills_in, end_in_fills, diagonal_keys};
ghost use Rattle.xlsx_stylesheet.specs.Lists.{diagonals_of, border_said, borders_in};
ghost use Rattle.xlsx_stylesheet.specs.Lists.{end_in_borders, font_said, fill_said};
ghost use Rattle.xlsx_stylesheet.specs.ReadLists.{ReadsBehind};
ghost use Rattle.xlsx_stylesheet.specs.StylesErrors.{AreStylesError};

use attr_text::{AttrFault, AttrValue, RawAttributes, two_values};
use cell_styles::{Borders, Color, Fill, Font};
use part_events::{Package, StartTag, XlReader};
use std::alloc::Global;
use xlsx_error::XlsxError;
use xlsx_formats::{Formatting, NamedLists, read_format};
use xlsx_sections::{ReadsEach, keep_elements, start_tag};
use xlsx_styles::{parse_border, parse_fill, parse_font, truth_or};

/// Reads fonts.
#[derive(Drop)]
struct FontReader<'a> {
    alloc: Global,
    theme_colors: &'a [Color],
}

impl ReadsEach for FontReader<'_> {
    type Item = Font;

    ghost Kept = { FontSaid };

    ghost said = { λ font. said_of font };

    ghost meaning = { λ r. font_said r.theme_colors.now };

    ghost ending = { λ tag. always (codes "font") };

    ghost section = { codes "fonts" };

    ghost Kind = { AreStylesError };

    ghost kinds = { Prim.search rules };

    fn read<P: Package>(&self, xml: &mut XlReader<P>) -> Result<Font, XlsxError> {
        parse_font(xml, self.theme_colors)
    }
}

/// Appends the fonts of the element at whose start the reader stands, which is read to its end
/// (ECMA-376 part 1, section 18.8.23).
pub fn read_fonts<P: Package>(
    xml: &mut XlReader<P>,
    theme_colors: &[Color],
    fonts: &mut Vec<Font>,
) -> Result<(), XlsxError>
    requires element { IsReadingElement xml.old }
    ensures { ReadsBehind (fonts_in theme_colors.now) (map said_of) end_in_fonts result
        fonts.old.items fonts.new.items xml.old xml.new }
{
    let alloc = xml.alloc();
    let by = FontReader {
        alloc,
        theme_colors,
    };
    keep_elements(xml, &["font"], "fonts", &by, fonts)
}

/// Reads fills.
#[derive(Drop)]
struct FillReader<'a> {
    theme_colors: &'a [Color],
}

impl ReadsEach for FillReader<'_> {
    type Item = Fill;

    ghost Kept = { Fill };

    ghost said = { λ fill. fill };

    ghost meaning = { λ r. fill_said r.theme_colors.now };

    ghost ending = { λ tag. always (codes "fill") };

    ghost section = { codes "fills" };

    ghost Kind = { AreStylesError };

    ghost kinds = { Prim.search rules };

    fn read<P: Package>(&self, xml: &mut XlReader<P>) -> Result<Fill, XlsxError> {
        parse_fill(xml, self.theme_colors)
    }
}

/// Appends the fills of the element at whose start the reader stands, which is read to its end
/// (ECMA-376 part 1, section 18.8.21).
#[tactic(auto, using(xlsx_sections::proofs::StartsKept::own_items))]
pub fn read_fills<P: Package>(
    xml: &mut XlReader<P>,
    theme_colors: &[Color],
    fills: &mut Vec<Fill>,
) -> Result<(), XlsxError>
    requires element { IsReadingElement xml.old }
    ensures { ReadsBehind (fills_in theme_colors.now) (λ fills. fills) end_in_fills result
        fills.old.items fills.new.items xml.old xml.new }
{
    let by = FillReader { theme_colors };
    keep_elements(xml, &["fill"], "fills", &by, fills)
}

/// The texts of a start's attributes: which ways the diagonal goes.
fn diagonal_texts<'a>(tag: &'a StartTag<'_>) -> Result<(AttrValue<'a>, AttrValue<'a>), AttrFault>
    ensures { let texts = lookup diagonal_keys (tag_of tag.now).attributes in
        MatchResult result
        (λ p. texts ≡ Ok (option_copied p.0 ∷ option_copied p.1 ∷ []))
        (λ fault. texts ≡ Err fault) }
{
    two_values(tag.attributes_raw(), "diagonalDown", "diagonalUp")
}

/// Whether the diagonal of the borders of a start goes down, and whether it goes up.
fn diagonals_of(tag: &StartTag<'_>) -> Result<(bool, bool), AttrFault>
    ensures { diagonals_of (tag_of tag.now) ≡ result }
{
    let (down, up) = diagonal_texts(tag)?;
    Ok((truth_or(down, false), truth_or(up, false)))
}

/// The borders at whose start the reader stands, which is read to its end. Its start says which
/// ways the diagonal goes.
fn read_one_border<P: Package>(
    xml: &mut XlReader<P>,
    theme_colors: &[Color],
) -> Result<Borders, XlsxError>
    requires element { IsReadingElement xml.old }
    ensures { ReadsWithStart (border_said theme_colors.now) (λ borders. borders)
        end_in_border IsBorderError result xml.old xml.new }
{
    let (down, up) = diagonals_of(&start_tag(xml))?;
    parse_border(xml, down, up, theme_colors)
}

/// Reads borders.
#[derive(Drop)]
struct BorderReader<'a> {
    theme_colors: &'a [Color],
}

impl ReadsEach for BorderReader<'_> {
    type Item = Borders;

    ghost Kept = { Borders };

    ghost said = { λ borders. borders };

    ghost meaning = { λ r. border_said r.theme_colors.now };

    ghost ending = { λ tag. end_in_border };

    ghost section = { codes "borders" };

    ghost Kind = { AreStylesError };

    ghost kinds = { Prim.search rules };

    fn read<P: Package>(&self, xml: &mut XlReader<P>) -> Result<Borders, XlsxError> {
        read_one_border(xml, self.theme_colors)
    }
}

/// Appends the borders of the element at whose start the reader stands, which is read to its end
/// (ECMA-376 part 1, section 18.8.5).
#[tactic(auto, using(xlsx_sections::proofs::StartsKept::own_items))]
pub fn read_borders<P: Package>(
    xml: &mut XlReader<P>,
    theme_colors: &[Color],
    borders: &mut Vec<Borders>,
) -> Result<(), XlsxError>
    requires element { IsReadingElement xml.old }
    ensures { ReadsBehind (borders_in theme_colors.now) (λ borders. borders)
        end_in_borders result borders.old.items borders.new.items xml.old xml.new }
{
    let by = BorderReader { theme_colors };
    keep_elements(xml, &["border"], "borders", &by, borders)
}

/// Reads cell formats.
#[derive(Drop)]
struct FormatReader<'a> {
    alloc: Global,
    lists: &'a NamedLists<'a>,
}

impl ReadsEach for FormatReader<'_> {
    type Item = Formatting;

    ghost Kept = { FormattingSaid };

    ghost said = { λ formatting. formatting_said formatting };

    ghost meaning = { λ r. formatting_of (named_kept r.lists.now) };

    ghost ending = { λ tag. always (codes "xf") };

    ghost section = { codes "cellXfs" };

    ghost Kind = { AreStylesError };

    ghost kinds = { Prim.search rules };

    fn read<P: Package>(&self, xml: &mut XlReader<P>) -> Result<Formatting, XlsxError> {
        read_format(xml, self.lists)
    }
}

/// Appends the cell formats of the element at whose start the reader stands, which is read to its
/// end (ECMA-376 part 1, section 18.8.10). They name what was read before.
pub fn read_formats<P: Package>(
    xml: &mut XlReader<P>,
    lists: &NamedLists<'_>,
    formattings: &mut Vec<Formatting>,
) -> Result<(), XlsxError>
    requires element { IsReadingElement xml.old }
    ensures { ReadsBehind (formattings_in (named_kept lists.now)) (map formatting_said)
        end_in_formats result formattings.old.items formattings.new.items xml.old xml.new }
{
    let alloc = xml.alloc();
    let by = FormatReader { alloc, lists };
    keep_elements(xml, &["xf"], "cellXfs", &by, formattings)
}
