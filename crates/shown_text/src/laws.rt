//! What the text of a value says.
ghost use Rattle.std.specs.Prelude.{◌≡◌, ◌<◌, ◌*◌, ◌^◌, ◌*ℤ◌, ℕ, ℤ, Bool, List, false, None, pos};
ghost use Rattle.std.specs.Prelude.{nat_abs};
ghost use Rattle.std.specs.Fmt.{signed_decimal};
ghost use Rattle.cell_data.specs.Words.{cell_error_text, number, text, failure};
ghost use Rattle.cell_data.specs.declared.value.CellErrorType.{CellErrorType};
ghost use Rattle.format_codes.specs.Words.{is_supported, text_section, shown_sections};
ghost use Rattle.shown_text.specs.GeneralText.{general_text};
ghost use Rattle.shown_text.specs.ShownText.{shown_text};

/// An error is its own text, under any code.
pub fn errors_are_themselves()
    ensures { (is_1904 : Bool) (code : List ℕ) (error : CellErrorType)
        → shown_text is_1904 code (failure error) ≡ cell_error_text error }
{}

/// A code without a section of texts leaves every text as it is.
pub fn texts_without_a_section()
    ensures { (is_1904 : Bool) (code bytes : List ℕ)
        → text_section (shown_sections code) ≡ None
        → shown_text is_1904 code (text bytes) ≡ bytes }
{}

/// Under a code that isn't supported a number is shown as under General, and a text as it is.
pub fn codes_that_are_not_supported_show_the_value()
    ensures numbers { (is_1904 : Bool) (code : List ℕ) (exact : ℤ × ℤ)
        → is_supported code ≡ false
        → shown_text is_1904 code (number exact) ≡ general_text exact }
    ensures texts { (is_1904 : Bool) (code bytes : List ℕ) → is_supported code ≡ false
        → shown_text is_1904 code (text bytes) ≡ bytes }
{}

/// A whole number below ten to the power eleven is shown under General by its digits.
pub fn general_of_whole_numbers()
    ensures { (m : ℤ) (zeros : ℕ) → nat_abs m * 10 ^ zeros < 10 ^ 11
        → general_text (m, pos zeros) ≡ signed_decimal (m *ℤ pos (10 ^ zeros)) }
{}
