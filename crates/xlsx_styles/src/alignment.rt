ghost use Rattle.std.specs.Prelude.{◌≡◌, [], ◌∷◌, MatchResult, Ok, Err};
ghost use Rattle.std.specs.Option.{option_copied};
ghost use Rattle.attr_text.specs.Words.{lookup};
ghost use Rattle.part_events.specs.Words.{tag_of};
ghost use Rattle.xlsx_styles.specs.Alignments.{horizontal_named, vertical_named, rotation_of};
ghost use Rattle.xlsx_styles.specs.Alignments.{indent_of, alignment_keys, alignment_of};
ghost use Rattle.xlsx_styles.specs.Alignments.{protection_of};

use crate::texts::{byte_text, short_text, truth_or};
use attr_text::{AttrFault, AttrValue, RawAttributes, get_attrs, six_values};
use cell_styles::{Alignment, HorizontalAlignment, Protection, TextRotation, VerticalAlignment};
use part_events::StartTag;

type AlignmentTexts<'a> = (
    AttrValue<'a>,
    AttrValue<'a>,
    AttrValue<'a>,
    AttrValue<'a>,
    AttrValue<'a>,
    AttrValue<'a>,
);

fn horizontal_named(text: Option<&str>) -> HorizontalAlignment
    ensures { result ≡ horizontal_named (option_copied text.entry) }
{
    let Some(text) = text else {
        return HorizontalAlignment::General;
    };
    match text {
        "left" => HorizontalAlignment::Left,
        "center" => HorizontalAlignment::Center,
        "centerContinuous" => HorizontalAlignment::CenterContinuous,
        "right" => HorizontalAlignment::Right,
        "justify" => HorizontalAlignment::Justify,
        "distributed" => HorizontalAlignment::Distributed,
        "fill" => HorizontalAlignment::Fill,
        _ => HorizontalAlignment::General,
    }
}

fn vertical_named(text: Option<&str>) -> VerticalAlignment
    ensures { result ≡ vertical_named (option_copied text.entry) }
{
    let Some(text) = text else {
        return VerticalAlignment::Bottom;
    };
    match text {
        "top" => VerticalAlignment::Top,
        "center" => VerticalAlignment::Center,
        "justify" => VerticalAlignment::Justify,
        "distributed" => VerticalAlignment::Distributed,
        _ => VerticalAlignment::Bottom,
    }
}

fn rotation_of(text: Option<&str>) -> TextRotation
    ensures { result ≡ rotation_of (option_copied text.entry) }
{
    let Some(text) = text else {
        return TextRotation::None;
    };
    match short_text(text) {
        Some(255) => TextRotation::Stacked,
        Some(degrees) => TextRotation::Degrees(degrees),
        None => TextRotation::None,
    }
}

fn indent_of(text: Option<&str>) -> Option<u8>
    ensures { result ≡ indent_of (option_copied text.entry) }
{
    byte_text(text?)
}

/// The texts of a start's attributes, in the order of the keys.
fn alignment_texts<'a>(e: &'a StartTag<'_>) -> Result<AlignmentTexts<'a>, AttrFault>
    ensures { let texts = lookup alignment_keys (tag_of e.now).attributes in
        MatchResult result
        (λ p. texts ≡ Ok (option_copied p.0 ∷ option_copied p.1 ∷ option_copied p.2
        ∷ option_copied p.3 ∷ option_copied p.4 ∷ option_copied p.5 ∷ []))
        (λ fault. texts ≡ Err fault) }
{
    six_values(
        e.attributes_raw(),
        "horizontal",
        "vertical",
        "wrapText",
        "textRotation",
        "indent",
        "shrinkToFit",
    )
}

/// The alignment that a start says by its attributes (ECMA-376 part 1, section 18.8.1). Texts that
/// name nothing count as absent. It is refused only where the attributes end in a fault and some
/// key of an alignment has no pair.
pub fn parse_alignment(e: &StartTag<'_>) -> Result<Alignment, AttrFault>
    ensures { alignment_of (tag_of e.now) ≡ result }
{
    let (horizontal, vertical, wrap, rotation, indent, shrink) = alignment_texts(e)?;
    Ok(Alignment {
        horizontal: horizontal_named(horizontal),
        vertical: vertical_named(vertical),
        text_rotation: rotation_of(rotation),
        wrap_text: truth_or(wrap, false),
        indent: indent_of(indent),
        shrink_to_fit: truth_or(shrink, false),
    })
}

/// The protection that a start says by its attributes (ECMA-376 part 1, section 18.8.33): what
/// names nothing is locked and not hidden. It is refused only where the attributes end in a fault
/// and `locked` or `hidden` has no pair.
pub fn parse_protection(e: &StartTag<'_>) -> Result<Protection, AttrFault>
    ensures { protection_of (tag_of e.now) ≡ result }
{
    let (locked, hidden) = get_attrs!(e, "locked" => locked, "hidden" => hidden)?;
    Ok(Protection {
        locked: truth_or(locked, true),
        hidden: truth_or(hidden, false),
    })
}
