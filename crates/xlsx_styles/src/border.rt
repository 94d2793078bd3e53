ghost use Rattle.std.proofs.Common.{rules};
ghost use Rattle.std.specs.Prelude.{◌≡◌, codes};
ghost use Rattle.std.specs.Option.{option_copied};
ghost use Rattle.attr_text.specs.Words.{local_name_of};
ghost use Rattle.part_events.specs.Words.{tag_of, IsReadingElement};
ghost use Rattle.cell_styles.specs.declared.color.Color.{Color};
ghost use Rattle.xlsx_sections.specs.Words.{always};
ghost use Rattle.xlsx_styles.specs.Borders.{line_named, border_line, side_line, side_color};
ghost use Rattle.xlsx_styles.specs.Borders.{color_in, side_of, side_named, with_side, border_of};
ghost use Rattle.xlsx_styles.specs.Borders.{end_in_border};
ghost use Rattle.xlsx_styles.specs.Errors.{IsPlainError, IsBorderError};
ghost use Rattle.xlsx_styles.specs.ReadElements.{ReadsInside, ReadsWithStart};

use crate::color_text::parse_color;
use attr_text::{AttrFault, RawAttributes};
use cell_styles::{Border, BorderStyle, Borders, Color};
use part_events::{Package, StartTag, XlReader};
use xlsx_error::XlsxError;
use xlsx_sections::{Reads, keep_last, next_element_in, start_tag};

/// A side of a border, by the name of its element.
#[derive(Clone, Copy)]
pub enum Side {
    Left,
    Right,
    Top,
    Bottom,
    Diagonal,
}

fn side_named(name: &str) -> Side
    ensures { result ≡ side_named name.now }
{
    match name {
        "left" => Side::Left,
        "right" => Side::Right,
        "top" => Side::Top,
        "bottom" => Side::Bottom,
        _ => Side::Diagonal,
    }
}

fn side_of(tag: StartTag<'_>) -> Side
    ensures { result ≡ side_named (local_name_of (tag_of tag.entry).name) }
{
    side_named(tag.local_name())
}

#[tactic(auto, unfolding(crate::specs::Borders::line_named))]
fn line_named(text: &str) -> BorderStyle
    ensures { result ≡ line_named text.now }
{
    match text {
        "thin" => BorderStyle::Thin,
        "medium" => BorderStyle::Medium,
        "thick" => BorderStyle::Thick,
        "double" => BorderStyle::Double,
        "hair" => BorderStyle::Hair,
        "dashed" => BorderStyle::Dashed,
        "dotted" => BorderStyle::Dotted,
        "mediumDashed" => BorderStyle::MediumDashed,
        "dashDot" => BorderStyle::DashDot,
        "mediumDashDot" => BorderStyle::MediumDashDot,
        "dashDotDot" => BorderStyle::DashDotDot,
        "mediumDashDotDot" => BorderStyle::MediumDashDotDot,
        "slantDashDot" => BorderStyle::SlantDashDot,
        _ => BorderStyle::None,
    }
}

fn border_line(text: Option<&str>) -> BorderStyle
    ensures { result ≡ border_line (option_copied text.entry) }
{
    match text {
        Some(text) => line_named(text),
        None => BorderStyle::None,
    }
}

fn side_line(tag: StartTag<'_>) -> Result<BorderStyle, AttrFault>
    ensures { side_line (tag_of tag.entry) ≡ result }
{
    Ok(border_line(tag.raw_attr("style")?))
}

/// Reads the color that a start names, where it names one.
#[derive(Drop)]
struct SideColors<'a> {
    theme_colors: &'a [Color],
}

impl Reads for SideColors<'_> {
    type Item = Color;

    ghost Kept = { Color };

    ghost said = { λ color. color };

    ghost meaning = { λ r. side_color r.theme_colors.now };

    ghost section = { codes "border side" };

    ghost Kind = { IsPlainError (codes "border side") };

    ghost kinds = { Prim.search rules };

    fn read(&self, tag: StartTag<'_>, _at: u64) -> Result<Option<Color>, XlsxError> {
        Ok(parse_color(&tag, self.theme_colors)?)
    }
}

/// The color of the side at whose start the reader stands, which is read to its end.
fn read_side_color<P: Package>(
    xml: &mut XlReader<P>,
    theme_colors: &[Color],
) -> Result<Option<Color>, XlsxError>
    requires element { IsReadingElement xml.old }
    ensures { ReadsInside (color_in theme_colors.now) (λ color. color)
        (always (codes "border side")) (IsPlainError (codes "border side")) result xml.old xml.new }
{
    let base = xml.depth();
    let by = SideColors { theme_colors };
    keep_last(xml, base, &["color"], "border side", by)
}

/// The side at whose start the reader stands, which is read to its end.
#[tactic(auto, using(crate::proofs::StepErrors::side_step, crate::proofs::Sides::side_fails))]
fn read_side<P: Package>(xml: &mut XlReader<P>, theme_colors: &[Color]) -> Result<Border, XlsxError>
    requires element { IsReadingElement xml.old }
    ensures { ReadsWithStart (side_of theme_colors.now) (λ side. side)
        (always (codes "border side")) IsBorderError result xml.old xml.new }
{
    let style = side_line(start_tag(xml))?;
    let color = read_side_color(xml, theme_colors)?;
    Ok(Border { style, color })
}

/// Places a side: a diagonal goes down, up, both ways or none.
fn place_side(borders: &mut Borders, side: Side, border: Border, down: bool, up: bool)
    ensures { borders.new ≡ with_side down up side borders.old border }
{
    match side {
        Side::Left => borders.left = border,
        Side::Right => borders.right = border,
        Side::Top => borders.top = border,
        Side::Bottom => borders.bottom = border,
        Side::Diagonal => {
            let Border { style, color } = border;
            if down {
                borders.diagonal_down = Border { style, color };
            }
            if up {
                borders.diagonal_up = Border { style, color };
            }
        }
    }
}

/// Reads the borders at whose start the reader stands, to its matching end (ECMA-376 part 1,
/// section 18.8.4). The last outermost side of each kind counts; the diagonal is that of each
/// direction that is asked for. A number in `theme` names one of `theme_colors`.
///
/// A part that ends in a side is `XmlEof("border side")`, and one that ends elsewhere in the
/// element `XmlEof("border")`.
#[tactic(auto, using(crate::proofs::StepErrors::border_step))]
pub fn parse_border<P: Package>(
    xml: &mut XlReader<P>,
    diagonal_down: bool,
    diagonal_up: bool,
    theme_colors: &[Color],
) -> Result<Borders, XlsxError>
    requires element { IsReadingElement xml.old }
    ensures borders { ReadsInside (border_of theme_colors.now diagonal_down diagonal_up)
        (λ borders. borders) end_in_border IsBorderError result xml.old xml.new }
{
    let base = xml.depth();
    let mut borders = Borders::default();
    'sides: while let Some(_at) = next_element_in(
        xml,
        base,
        &["left", "right", "top", "bottom", "diagonal"],
        "border",
    )? {
        let side = side_of(start_tag(xml));
        let border = read_side(xml, theme_colors)?;
        place_side(&mut borders, side, border, diagonal_down, diagonal_up);
    }
    Ok(borders)
}
