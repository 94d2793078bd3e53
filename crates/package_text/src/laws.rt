//! Laws of package texts in version 2.
ghost use Rattle.package_text.specs.WrittenPackage.{SpellsItsParts, TextReadsBack, SplitsNone};

/// The value that is written of a package spells that package.
#[tactic(auto, using(crate::proofs::SpellsBack::spells_its_parts))]
pub fn written_values_spell_their_parts()
    ensures { SpellsItsParts }
{}

/// The text that is written of a package is read as that package.
#[tactic(auto, using(crate::proofs::ReadsBack::is_read_back))]
pub fn written_packages_are_read_back()
    ensures { TextReadsBack }
{}

/// In no list of events that is written stands a start before the end of its name.
#[tactic(auto, using(crate::proofs::SplitsNone::splits_none))]
pub fn no_written_start_stands_before_its_end()
    ensures { SplitsNone }
{}
