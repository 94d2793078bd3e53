ghost use Rattle.std.specs.Prelude.{◌≡◌, ◌≤◌, length, true, None, Ok, IfOk, OnOk, IfErr};
ghost use Rattle.std.specs.Prelude.{option_map, IfSome};
ghost use Rattle.part_events.specs.Words.{Reading, IsReading, ReadsPart, section_ahead};
ghost use Rattle.xlsx_error.specs.declared.error.XlsxError.TheVariants.{Io};
ghost use Rattle.xlsx_sections.specs.Words.{IsInsideRefused, IsEndError, ReachesEnd};
ghost use Rattle.xlsx_sections.specs.Words.{FindsElementIn, KeepsElements, named_end, Never};
ghost use Rattle.xlsx_sections.specs.Words.{SectionFails, StandsAtStart, StepsToElement};
ghost use Rattle.xlsx_theme.specs.ColorScheme.{is_slot, slot_colors, numbered_colors};
ghost use Rattle.xlsx_theme.specs.ColorScheme.{IsSchemeError};

use crate::slot::read_slot;
use cell_styles::Color;
use part_events::{Package, Step, XlReader, XmlFault};
use xlsx_error::XlsxError;

/// Reads on to the next slot of a scheme, whose element is number `base` of the open ones, counted
/// from 1. Answers the number of the slot's start in its part, counted from 0, and None at the
/// scheme's end.
fn next_slot<P: Package>(xml: &mut XlReader<P>, base: usize) -> Result<Option<u64>, XlsxError>
    requires reading { IsReading xml.old }
    requires within { base ≤ length xml.old.names }
    ensures reads { ReadsPart Io result xml.old xml.new }
    ensures stands { IfOk result (λ found. StandsAtStart is_slot base found xml.old xml.new) }
    ensures found { xml.old.source.is_visible ≡ true →
        IfOk result (λ found. FindsElementIn is_slot base found xml.old xml.new) }
    ensures step { IfOk result (λ found. (first : Reading) →
        KeepsElements is_slot base first xml.old →
        StepsToElement is_slot base found first xml.old xml.new) }
    ensures refused { IfErr result (λ error. (first : Reading) →
        KeepsElements is_slot base first xml.old →
        SectionFails (named_end None) Never base first xml.new error) }
    ensures kind { IfErr result (IsEndError None) }
{
    let names = [
        "dk1", "lt1", "dk2", "lt2", "accent1", "accent2", "accent3", "accent4", "accent5",
        "accent6", "hlink", "folHlink",
    ];
    match xml.next_element(base, &names)? {
        Step::Found => Ok(Some(xml.at() - 1)),
        Step::Closed => Ok(None),
        Step::Ended => Err(XlsxError::Xml(XmlFault::Unclosed { at: xml.at() })),
    }
}

/// The colors of the slots of a scheme, in order, whose element is number `base` of the open ones.
/// Reads to the scheme's end. A part that ends in it is `Xml(Unclosed)`.
#[tactic(auto, using(crate::proofs::SchemeRead::step_kind))]
pub(crate) fn read_slots<P: Package>(
    xml: &mut XlReader<P>,
    base: usize,
) -> Result<Vec<Color>, XlsxError>
    requires reading { IsReading xml.old }
    requires within { base ≤ length xml.old.names }
    ensures reads { ReadsPart Io result xml.old xml.new }
    ensures reaches { xml.old.source.is_visible ≡ true →
        OnOk result (ReachesEnd base xml.old xml.new) }
    ensures colors { xml.old.source.is_visible ≡ true →
        IfOk result (λ colors. slot_colors (section_ahead base xml.old) ≡ Ok colors.items) }
    ensures err { IfErr result
        (SectionFails (named_end None) (IsInsideRefused slot_colors) base xml.old xml.new) }
    ensures kind { IfErr result IsSchemeError }
{
    let alloc = xml.alloc();
    let mut colors = Vec::new(alloc);
    'slots: while let Some(_at) = next_slot(xml, base)? {
        colors.push(read_slot(xml)?)?;
    }
    Ok(colors)
}

/// The colors of slots by the numbers of an attribute `theme`: the first two change places, and so
/// do the next two. None of fewer than four.
pub(crate) fn numbered(slots: Vec<Color>) -> Option<Vec<Color>>
    ensures colors { option_map (λ colors. colors.items) result ≡ numbered_colors slots.items }
    ensures length { IfSome result (λ colors. 4 ≤ length colors.items) }
{
    let mut colors = slots;
    if colors.len() < 4 {
        return None;
    }
    colors.swap(0, 1);
    colors.swap(2, 3);
    Some(colors)
}
