ghost use Rattle.std.specs.Prelude.{◌≡◌, ◌≤◌, ℕ, length, true, None, Ok, Err, IfOk, IfErr};
ghost use Rattle.std.specs.Prelude.{MatchResult, option_and_then};
ghost use Rattle.std.specs.Option.{option_copied};
ghost use Rattle.part_events.specs.Words.{tag_of, Reading, IsReading, IsReadingElement, ReadsPart};
ghost use Rattle.xlsx_error.specs.declared.error.XlsxError.TheVariants.{Io};
ghost use Rattle.xlsx_sections.specs.Words.{IsEndError, KeepsStarts, named_end, Never};
ghost use Rattle.xlsx_sections.specs.Words.{SectionFails, StandsAtStart, FindsStartIn, plain};
ghost use Rattle.xlsx_sections.specs.Words.{lookup_fault, placed_at, StepsToStart};
ghost use Rattle.xlsx_styles.specs.Words.{hex_color, ReadsInside};
ghost use Rattle.xlsx_theme.specs.ColorScheme.{is_color_model, model_color, model_answer};
ghost use Rattle.xlsx_theme.specs.ColorScheme.{unless_given, slot_color, IsSchemeError};

use attr_text::{AttrFault, RawAttributes, get_attrs};
use cell_styles::Color;
use part_events::{Package, StartTag, Step, XlReader, XmlFault};
use xlsx_error::XlsxError;
use xlsx_sections::start_tag;
use xlsx_styles::hex_color;

fn color_in_text(text: Option<&str>) -> Option<Color>
    ensures { result ≡ option_and_then hex_color (option_copied text.entry) }
{
    hex_color(text?)
}

fn model_color(tag: StartTag<'_>) -> Result<Option<Color>, AttrFault>
    ensures { model_color (tag_of tag.entry) ≡ result }
{
    let (val, last) = get_attrs!(tag, "val" => val, "lastClr" => last)?;
    Ok(color_in_text(last).or(color_in_text(val)))
}

/// Keeps the color that a start says, where none was kept before.
fn keep_first(kept: &mut Option<Color>, tag: StartTag<'_>) -> Result<(), AttrFault>
    ensures { let tag = tag_of tag.entry in
        MatchResult result
        (λ _. (behind : ℕ) →
        unless_given kept.old (model_answer (placed_at tag behind)) ≡ Ok kept.new)
        (λ fault. (behind : ℕ) →
        unless_given kept.old (model_answer (placed_at tag behind))
        ≡ Err (plain (lookup_fault fault))) }
{
    if kept.is_none() {
        *kept = model_color(tag)?;
    }
    Ok(())
}

/// Reads on to the next start that may say a color, in the slot that is number `base` of the open
/// elements, counted from 1. Answers the number of the start in its part, counted from 0, and None
/// at the slot's end.
fn next_model<P: Package>(xml: &mut XlReader<P>, base: usize) -> Result<Option<u64>, XlsxError>
    requires reading { IsReading xml.old }
    requires within { base ≤ length xml.old.names }
    ensures reads { ReadsPart Io result xml.old xml.new }
    ensures stands { IfOk result (λ found.
        StandsAtStart is_color_model base found xml.old xml.new) }
    ensures found { xml.old.source.is_visible ≡ true →
        IfOk result (λ found. FindsStartIn is_color_model base found xml.old xml.new) }
    ensures step { IfOk result (λ found. (first : Reading) → KeepsStarts base first xml.old →
        StepsToStart is_color_model base found first xml.old xml.new) }
    ensures refused { IfErr result (λ error. (first : Reading) → KeepsStarts base first xml.old →
        SectionFails (named_end None) Never base first xml.new error) }
    ensures kind { IfErr result (IsEndError None) }
{
    match xml.next_start(base, &["srgbClr", "sysClr"])? {
        Step::Found => Ok(Some(xml.at() - 1)),
        Step::Closed => Ok(None),
        Step::Ended => Err(XlsxError::Xml(XmlFault::Unclosed { at: xml.at() })),
    }
}

/// Reads the slot at whose start the reader stands, to its end. Its color is that of the first
/// start in it that says one, and black where none does; starts behind that one aren't looked up.
///
/// A part that ends in the slot is `Xml(Unclosed)`.
#[tactic(auto, using(crate::proofs::SchemeRead::step_kind))]
pub(crate) fn read_slot<P: Package>(xml: &mut XlReader<P>) -> Result<Color, XlsxError>
    requires element { IsReadingElement xml.old }
    ensures { ReadsInside slot_color (λ color. color) (named_end None) IsSchemeError result xml.old
        xml.new }
{
    let base = xml.depth();
    let mut color = None;
    'models: while let Some(_at) = next_model(xml, base)? {
        keep_first(&mut color, start_tag(xml))?;
    }
    Ok(color.unwrap_or(Color::rgb(0, 0, 0)))
}
