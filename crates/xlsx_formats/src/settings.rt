ghost use Rattle.std.proofs.Common.{rules};
ghost use Rattle.std.specs.Prelude.{◌≡◌, ⊤, ℕ, codes, Ok, MatchResult, Err};
ghost use Rattle.part_events.specs.Words.{tag_of, IsReadingElement};
ghost use Rattle.xlsx_sections.specs.Words.{always, plain, lookup_fault, placed_at};
ghost use Rattle.xlsx_styles.specs.Words.{IsPlainError, ReadsInside};
ghost use Rattle.xlsx_formats.specs.Formattings.{setting_change, settings_of};
ghost use Rattle.xlsx_formats.specs.declared.settings.Settings.{Settings};

use attr_text::{AttrFault, RawAttributes};
use cell_styles::{Alignment, Protection};
use part_events::{Package, StartTag, XlReader};
use xlsx_error::XlsxError;
use xlsx_sections::{Keeps, keep_in_element};
use xlsx_styles::{parse_alignment, parse_protection};

/// What the elements in a cell format set.
#[derive(Debug, Drop)]
pub struct Settings {
    pub alignment: Option<Alignment>,
    pub protection: Option<Protection>,
}

/// Sets what a start says, in place of an earlier one.
fn change_setting(settings: &mut Settings, tag: StartTag<'_>) -> Result<(), AttrFault>
    ensures { MatchResult result
        (λ _. (behind : ℕ) →
        setting_change (placed_at (tag_of tag.entry) behind) settings.old ≡ Ok settings.new)
        (λ fault. (behind : ℕ) →
        setting_change (placed_at (tag_of tag.entry) behind) settings.old
        ≡ Err (plain (lookup_fault fault))) }
{
    match tag.local_name() {
        "alignment" => settings.alignment = Some(parse_alignment(&tag)?),
        _ => settings.protection = Some(parse_protection(&tag)?),
    }
    Ok(())
}

impl Keeps for Settings {
    ghost Index = { ⊤ };

    ghost Held = { Settings };

    ghost held = { λ k i. k };

    ghost change = { λ k i. setting_change };

    ghost section = { codes "xf" };

    ghost Kind = { IsPlainError (codes "xf") };

    ghost kinds = { Prim.search rules };

    fn take(&mut self, tag: StartTag<'_>, _at: u64) -> Result<(), XlsxError> {
        change_setting(self, tag)?;
        Ok(())
    }
}

/// Reads the cell format at whose start the reader stands, to its end, for what is set in it.
pub fn read_settings<P: Package>(xml: &mut XlReader<P>) -> Result<Settings, XlsxError>
    requires element { IsReadingElement xml.old }
    ensures { ReadsInside settings_of (λ settings. settings) (always (codes "xf"))
        (IsPlainError (codes "xf")) result xml.old xml.new }
{
    let mut settings = Settings {
        alignment: None,
        protection: None,
    };
    keep_in_element(xml, &["alignment", "protection"], "xf", &mut settings)?;
    Ok(settings)
}
