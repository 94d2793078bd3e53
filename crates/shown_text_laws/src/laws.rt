ghost use Rattle.std.specs.Prelude.{◌≡◌, ◌+◌, ◌/◌, ◌^◌, ◌<◌, ◌≤◌, ◌++◌, ℕ, Bool, true, false, List};
ghost use Rattle.std.specs.Prelude.{length, codes, replicate, ℤ, pos, negsuc, ◌+ℤ◌, ◌-ℤ◌, nat_abs};
ghost use Rattle.std.specs.Fmt.{sign_text};
ghost use Rattle.std.specs.Int.{is_negative};
ghost use Rattle.cell_data.specs.Words.{number, text};
ghost use Rattle.excel_dates.specs.Words.{date_of_day, first_day, last_day, date_text, day_length};
ghost use Rattle.excel_dates.specs.Words.{is_below, milliseconds_of};
ghost use Rattle.format_codes.specs.declared.piece.CodePiece.{CodePiece};
ghost use Rattle.format_codes.specs.Words.{ShownSection, chosen, sections};
ghost use Rattle.shown_text.specs.Words.{longest_time, nearest_fraction, whole_digits, first_power};
ghost use Rattle.shown_text.specs.Words.{general_text, shown_digits, shown_text, text_in_section};
ghost use Rattle.shown_text.specs.Words.{is_sized, sized_text};
ghost use Rattle.shown_text_laws.specs.JoinedCodes.{leaves_open};
ghost use Rattle.shown_text_laws.specs.NearFractions.{HasNoneNearer, IsNearestMixed};
ghost use Rattle.shown_text_laws.specs.NumberCodes.{IsShownBySection, without_commas};
ghost use Rattle.shown_text_laws.specs.ReadNumbers.{IsReadBackNear, IsReadInDigits};
ghost use Rattle.shown_text_laws.specs.ReadTimes.{IsTimeOf};
ghost use Rattle.shown_text_laws.specs.TwoSections.{HasTwoSections};

/// Under `@` a text is shown as it is.
pub fn texts_stand_at_their_place()
    ensures { (is_1904 : Bool) (bytes : List ℕ)
        → shown_text is_1904 (codes "@") (text bytes) ≡ bytes }
{}

/// Of two sections without conditions the first shows the numbers from 0 on, and the second those
/// below 0. What a section without a sign shows of a number is what it shows of its size, unless it
/// is one of dates.
pub fn sections_go_by_sign()
    ensures first { (is_1904 : Bool) (code : List ℕ) (first second : List CodePiece)
        (exact : ℤ × ℤ) → HasTwoSections code first second → is_negative exact.0 ≡ false
        → shown_text is_1904 code (number exact)
        ≡ text_in_section is_1904 exact (chosen false first) }
    ensures second { (is_1904 : Bool) (code : List ℕ) (first second : List CodePiece)
        (exact : ℤ × ℤ) → HasTwoSections code first second → is_negative exact.0 ≡ true
        → shown_text is_1904 code (number exact)
        ≡ text_in_section is_1904 exact (chosen true second) }
    ensures size { (section : ShownSection) (exact : ℤ × ℤ) → section.unsigned ≡ true
        → is_sized section (shown_digits exact).1 ≡ true
        → sized_text section exact ≡ sized_text section (pos (nat_abs exact.0), exact.1) }
{}

/// A code that is two codes with `;` between them has the sections of the first and of the second,
/// where the first leaves nothing open.
pub fn cut_at_dividers()
    ensures { (first second : List ℕ) → leaves_open first ≡ false
        → sections (first ++ codes ";" ++ second) ≡ sections first ++ sections second }
{}

/// Under `0.0%` a number is shown as a hundred times it under `0.0`, and `%` behind that; under
/// `0.0,` as a thousandth of it under `0.0`.
pub fn percents_and_thousands()
    ensures percents { (is_1904 : Bool) (m power : ℤ) → IsShownBySection (m, power)
        → IsShownBySection (m, power +ℤ pos 2)
        → shown_text is_1904 (codes "0.0%") (number (m, power))
        ≡ shown_text is_1904 (codes "0.0") (number (m, power +ℤ pos 2)) ++ codes "%" }
    ensures thousands { (is_1904 : Bool) (m power : ℤ) → IsShownBySection (m, power)
        → IsShownBySection (m, power -ℤ pos 3)
        → shown_text is_1904 (codes "0.0,") (number (m, power))
        ≡ shown_text is_1904 (codes "0.0") (number (m, power -ℤ pos 3)) }
{}

/// The text of a number under `#,##0.00` without its commas is its text under `0.00`.
pub fn commas_only_group()
    ensures { (is_1904 : Bool) (exact : ℤ × ℤ)
        → without_commas (shown_text is_1904 (codes "#,##0.00") (number exact))
        ≡ shown_text is_1904 (codes "0.00") (number exact) }
{}

/// Under `yyyy-mm-dd` the serial of a moment of a day that has a date is shown as that date, and
/// under `[h]:mm:ss.000` any serial as its milliseconds, with the sign of one below 0.
pub fn shown_dates_are_dates()
    ensures dates { (is_1904 : Bool) (days : ℤ × ℤ) → is_negative days.0 ≡ false
        → first_day is_1904 ≤ milliseconds_of days / day_length
        → milliseconds_of days / day_length ≤ last_day is_1904
        → shown_text is_1904 (codes "yyyy-mm-dd") (number days)
        ≡ date_text (date_of_day is_1904 (milliseconds_of days / day_length)) }
    ensures times { (is_1904 : Bool) (days : ℤ × ℤ) → milliseconds_of days ≤ longest_time
        → (text : List ℕ) × IsTimeOf (milliseconds_of days) text
        × (shown_text is_1904 (codes "[h]:mm:ss.000") (number days)
        ≡ sign_text (is_below days) ++ text) }
{}

/// General has eleven bytes and a sign at most, where the power of ten of the first digit is above
/// -99 and below 99.
pub fn general_is_short()
    ensures { (exact : ℤ × ℤ) → nat_abs exact.0 < 2 ^ 128
        → nat_abs (first_power (nat_abs (shown_digits exact).0) (shown_digits exact).1) < 99
        → length (general_text exact) ≤ 11 + length (sign_text (is_negative exact.0)) }
{}

/// No fraction with a denominator up to a greatest one is nearer to a number than the one that is
/// found for it, and so none up to 9 is nearer than what is shown under `0 0/0`, as `3 1/4`. A
/// whole number stands before `0/1`.
pub fn no_fraction_is_nearer()
    ensures found { (n unit most : ℕ) → 0 < unit → 0 < most
        → HasNoneNearer n unit most (nearest_fraction n unit most) }
    ensures shown { (is_1904 : Bool) (exact : ℤ × ℤ) (places : ℕ) → nat_abs exact.0 < 2 ^ 128
        → IsShownBySection exact → (shown_digits exact).1 ≡ negsuc places
        → (text : List ℕ)
        × IsNearestMixed (nat_abs (shown_digits exact).0) (10 ^ (places + 1)) text
        × (shown_text is_1904 (codes "0 0/0") (number exact)
        ≡ sign_text (is_negative exact.0) ++ text) }
    ensures whole { (is_1904 : Bool) (exact : ℤ × ℤ) (zeros : ℕ) → IsShownBySection exact
        → (shown_digits exact).1 ≡ pos zeros
        → shown_text is_1904 (codes "0 0/0") (number exact)
        ≡ sign_text (is_negative exact.0)
        ++ (whole_digits (nat_abs (shown_digits exact).0) zeros ++ codes " 0/1") }
{}

/// Under `0.` with zeros behind the point, and under `0`, a number is shown as a text that is read
/// as a number again, which differs from its fifteen digits by half a unit of the last place at
/// most. Under 1,023 zeros, a code that is too long, General is shown: 1E+11 of 100000100000.
pub fn shown_places_read_back()
    ensures places { (exact : ℤ × ℤ) (places : ℕ) → places ≤ 1022
        → IsReadBackNear (codes "0." ++ replicate places 48) places exact }
    ensures whole { (exact : ℤ × ℤ) → IsReadBackNear (codes "0") 0 exact }
{}

/// Under `0.00000E+00` a number is shown as a text that is read as the nearest number of six digits
/// to its fifteen, also where its power of ten is so great or so small that General is shown.
pub fn powers_show_the_number()
    ensures { (exact : ℤ × ℤ) → IsReadInDigits (codes "0.00000E+00") 6 exact }
{}
