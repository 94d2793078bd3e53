//! Laws of opening.

ghost use Rattle.std.specs.Prelude.{List};
ghost use Rattle.part_events.specs.Words.{Part};
ghost use Rattle.xlsx_error.specs.declared.error.XlsxError.{XlsxError};
ghost use Rattle.xlsx_open.specs.Opening.{Opening, OpensAs, OpeningCause};

/// A package that opens has no cause of a refusal.
pub fn openings_have_no_cause_of_a_refusal()
    ensures { (parts : List Part) (opening : Opening) (error : XlsxError) →
        OpensAs parts opening → OpeningCause parts error → ⊥ }
{}
