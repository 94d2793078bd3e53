//! Laws of properties.

ghost use Rattle.std.specs.Prelude.{◌≡◌, List, Some};
ghost use Rattle.part_events.specs.Words.{Part};
ghost use Rattle.xlsx_error.specs.declared.error.XlsxError.{XlsxError};
ghost use Rattle.looks.specs.Words.{look_said};
ghost use Rattle.xlsx_properties.specs.Parts.{PropertiesSaid, PropertiesCause, properties_look};

/// Where the parts of a package say the properties of its workbook, there is no cause of a refusal
/// of these.
pub fn properties_have_no_cause_of_a_refusal()
    ensures { (parts : List Part) (said : PropertiesSaid) (error : XlsxError) →
        look_said properties_look parts ≡ Some said → PropertiesCause parts error → ⊥ }
{}
