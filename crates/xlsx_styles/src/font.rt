ghost use Rattle.std.proofs.Common.{rules};
ghost use Rattle.std.specs.Prelude.{◌≡◌, ⊤, ℕ, codes, Ok, OnOk, IfErr};
ghost use Rattle.attr_text.specs.Words.{value_of};
ghost use Rattle.part_events.specs.Words.{tag_of, IsReadingElement};
ghost use Rattle.xlsx_sections.specs.Words.{always, ElementFails, placed_at};
ghost use Rattle.xlsx_styles.specs.Errors.{IsFontError};
ghost use Rattle.xlsx_styles.specs.Fonts.{FontSaid, said_of, name_changed, font_change, font_of};
ghost use Rattle.xlsx_styles.specs.ReadElements.{ReadsInside};

use crate::font_parts::{change_color, change_value};
use attr_text::RawAttributes;
use cell_styles::{Color, Font};
use part_events::{Package, StartTag, XlReader};
use std::alloc::Global;
use xlsx_error::XlsxError;
use xlsx_sections::{Keeps, decode_at, keep_in_element};

/// Names the font by a start, which is event number `at` of its part.
#[tactic(auto, using(crate::proofs::FontErrors::decode_step))]
fn change_name(alloc: Global, font: &mut Font, tag: StartTag<'_>, at: u64) -> Result<(), XlsxError>
    ensures ok { let name = value_of (codes "val") (tag_of tag.entry).attributes in
        OnOk result ((behind : ℕ) →
        name_changed behind (said_of font.old) name ≡ Ok (said_of font.new)) }
    ensures err { let name = value_of (codes "val") (tag_of tag.entry).attributes in
        IfErr result (λ error. (behind : ℕ) →
        ElementFails (name_changed behind (said_of font.old) name) at behind error) }
    ensures kind { IfErr result IsFontError }
{
    if let Some(name) = tag.raw_attr("val")? {
        font.name = Some(decode_at(alloc, name, at)?);
    }
    Ok(())
}

/// Changes the font by a start that stands in its element, event number `at` of its part.
fn change_font(
    alloc: Global,
    font: &mut Font,
    tag: StartTag<'_>,
    at: u64,
    theme_colors: &[Color],
) -> Result<(), XlsxError>
    ensures ok { OnOk result ((behind : ℕ) →
        font_change theme_colors.now (placed_at (tag_of tag.entry) behind) (said_of font.old)
        ≡ Ok (said_of font.new)) }
    ensures err { IfErr result (λ error. (behind : ℕ) → ElementFails
        (font_change theme_colors.now (placed_at (tag_of tag.entry) behind) (said_of font.old))
        at behind error) }
    ensures kind { IfErr result IsFontError }
{
    match tag.local_name() {
        "name" => change_name(alloc, font, tag, at)?,
        "color" => change_color(font, tag, theme_colors)?,
        _ => change_value(font, tag)?,
    }
    Ok(())
}

/// Makes a font of the starts in its element.
#[derive(Drop)]
struct FontKeeper<'a> {
    alloc: Global,
    theme_colors: &'a [Color],
    font: Font,
}

impl Keeps for FontKeeper<'_> {
    ghost Index = { ⊤ };

    ghost Held = { FontSaid };

    ghost held = { λ k i. said_of k.font };

    ghost change = { λ k i. font_change k.theme_colors.now };

    ghost section = { codes "font" };

    ghost Kind = { IsFontError };

    ghost kinds = { Prim.search rules };

    fn take(&mut self, tag: StartTag<'_>, at: u64) -> Result<(), XlsxError> {
        change_font(self.alloc, &mut self.font, tag, at, self.theme_colors)
    }
}

/// Reads the font at whose start the reader stands, to its matching end (ECMA-376 part 1, section
/// 18.8.22). Of each kind the last start in it counts that says something. A number in `theme`
/// names one of `theme_colors`.
///
/// A part that ends before is `XmlEof("font")`, and a name with a reference without a character is
/// `Xml(Entity)` with the number of its start, counted from 0.
pub fn parse_font<P: Package>(
    xml: &mut XlReader<P>,
    theme_colors: &[Color],
) -> Result<Font, XlsxError>
    requires element { IsReadingElement xml.old }
    ensures font { ReadsInside (font_of theme_colors.now) said_of (always (codes "font"))
        IsFontError result xml.old xml.new }
{
    let alloc = xml.alloc();
    let mut keeper = FontKeeper {
        alloc,
        theme_colors,
        font: Font::default(),
    };
    keep_in_element(
        xml,
        &["name", "sz", "family", "b", "i", "u", "strike", "color"],
        "font",
        &mut keeper,
    )?;
    Ok(keeper.font)
}
