//! Laws of sections.
ghost use Rattle.std.specs.Prelude.{List, ℕ};
ghost use Rattle.format_codes.specs.Laws.{TextsWantASection};

/// A code of fewer than four sections and without `@` has no section for texts, so that texts are
/// shown as they are.
#[tactic(auto, using(crate::proofs::WithoutTexts::no_section))]
pub fn texts_want_a_section()
    ensures { (code : List ℕ) → TextsWantASection code }
{}
