ghost use Rattle.std.proofs.Common.{rules};
ghost use Rattle.std.specs.Prelude.{◌≡◌, ⊤, codes, Ok, Err, MatchResult};
ghost use Rattle.std.specs.Option.{option_copied};
ghost use Rattle.attr_text.specs.Words.{value_of};
ghost use Rattle.part_events.specs.Words.{tag_of, IsReadingElement};
ghost use Rattle.xlsx_sections.specs.Words.{always, changed_with};
ghost use Rattle.xlsx_styles.specs.Errors.{IsPlainError};
ghost use Rattle.xlsx_styles.specs.Fills.{pattern_named, with_pattern, with_foreground};
ghost use Rattle.xlsx_styles.specs.Fills.{with_background, fill_changed, fill_change, fill_of};
ghost use Rattle.xlsx_styles.specs.ReadElements.{ReadsInside};
ghost use Rattle.cell_styles.specs.declared.fill.Fill.{Fill};

use crate::color_text::parse_color;
use attr_text::{AttrFault, RawAttributes};
use cell_styles::{Color, Fill, FillPattern};
use part_events::{Package, StartTag, XlReader};
use xlsx_error::XlsxError;
use xlsx_sections::{Keeps, keep_in_element};

#[tactic(auto, unfolding(crate::specs::Fills::pattern_named))]
fn pattern_named(text: &str) -> FillPattern
    ensures { result ≡ pattern_named text.now }
{
    match text {
        "solid" => FillPattern::Solid,
        "darkGray" => FillPattern::DarkGray,
        "mediumGray" => FillPattern::MediumGray,
        "lightGray" => FillPattern::LightGray,
        "gray125" => FillPattern::Gray125,
        "gray0625" => FillPattern::Gray0625,
        "darkHorizontal" => FillPattern::DarkHorizontal,
        "darkVertical" => FillPattern::DarkVertical,
        "darkDown" => FillPattern::DarkDown,
        "darkUp" => FillPattern::DarkUp,
        "darkGrid" => FillPattern::DarkGrid,
        "darkTrellis" => FillPattern::DarkTrellis,
        "lightHorizontal" => FillPattern::LightHorizontal,
        "lightVertical" => FillPattern::LightVertical,
        "lightDown" => FillPattern::LightDown,
        "lightUp" => FillPattern::LightUp,
        "lightGrid" => FillPattern::LightGrid,
        "lightTrellis" => FillPattern::LightTrellis,
        _ => FillPattern::None,
    }
}

fn keep_pattern(fill: &mut Fill, text: Option<&str>)
    ensures { fill.new ≡ with_pattern fill.old (option_copied text.entry) }
{
    if let Some(text) = text {
        fill.pattern = pattern_named(text);
    }
}

fn change_pattern(fill: &mut Fill, tag: StartTag<'_>) -> Result<(), AttrFault>
    ensures { let text = value_of (codes "patternType") (tag_of tag.entry).attributes in
        MatchResult result
        (λ _. changed_with with_pattern fill.old text ≡ Ok fill.new)
        (λ fault. changed_with with_pattern fill.old text ≡ Err fault) }
{
    keep_pattern(fill, tag.raw_attr("patternType")?);
    Ok(())
}

fn keep_foreground(fill: &mut Fill, color: Option<Color>)
    ensures { fill.new ≡ with_foreground fill.old color }
{
    if color.is_some() {
        fill.foreground_color = color;
    }
}

fn keep_background(fill: &mut Fill, color: Option<Color>)
    ensures { fill.new ≡ with_background fill.old color }
{
    if color.is_some() {
        fill.background_color = color;
    }
}

/// Changes the fill by a start that stands in its element.
fn change_fill(fill: &mut Fill, tag: StartTag<'_>, theme_colors: &[Color]) -> Result<(), AttrFault>
    ensures { MatchResult result
        (λ _. fill_changed theme_colors.now (tag_of tag.entry) fill.old ≡ Ok fill.new)
        (λ fault. fill_changed theme_colors.now (tag_of tag.entry) fill.old ≡ Err fault) }
{
    match tag.local_name() {
        "patternFill" => change_pattern(fill, tag)?,
        "fgColor" => keep_foreground(fill, parse_color(&tag, theme_colors)?),
        _ => keep_background(fill, parse_color(&tag, theme_colors)?),
    }
    Ok(())
}

/// Makes a fill of the starts in its element.
#[derive(Drop)]
struct FillKeeper<'a> {
    theme_colors: &'a [Color],
    fill: Fill,
}

impl Keeps for FillKeeper<'_> {
    ghost Index = { ⊤ };

    ghost Held = { Fill };

    ghost held = { λ k i. k.fill };

    ghost change = { λ k i. fill_change k.theme_colors.now };

    ghost section = { codes "fill" };

    ghost Kind = { IsPlainError (codes "fill") };

    ghost kinds = { Prim.search rules };

    fn take(&mut self, tag: StartTag<'_>, _at: u64) -> Result<(), XlsxError> {
        change_fill(&mut self.fill, tag, self.theme_colors)?;
        Ok(())
    }
}

/// Reads the fill at whose start the reader stands, to its matching end (ECMA-376 part 1, section
/// 18.8.20). Of each kind the last start in it counts that says something. A number in `theme`
/// names one of `theme_colors`. A part that ends before is `XmlEof("fill")`.
pub fn parse_fill<P: Package>(
    xml: &mut XlReader<P>,
    theme_colors: &[Color],
) -> Result<Fill, XlsxError>
    requires element { IsReadingElement xml.old }
    ensures fill { ReadsInside (fill_of theme_colors.now) (λ fill. fill) (always (codes "fill"))
        (IsPlainError (codes "fill")) result xml.old xml.new }
{
    let fill = Fill::default();
    let mut keeper = FillKeeper { theme_colors, fill };
    keep_in_element(
        xml,
        &["patternFill", "fgColor", "bgColor"],
        "fill",
        &mut keeper,
    )?;
    Ok(keeper.fill)
}
