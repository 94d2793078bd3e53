//! The codes of the number formats of styles, each cut when a cell of its style is first met.
ghost use Rattle.std.specs.Prelude.{◌≡◌, ◌<◌, ◌≤◌, ℕ, List, length, option_map, slice_get, Some};
ghost use Rattle.std.specs.Prelude.{string_bytes, IfOk, OnOk, map};
ghost use Rattle.std.specs.Option.{option_copied};
ghost use Rattle.cell_data.specs.Words.{text, value_of_data};
ghost use Rattle.format_codes.specs.declared.shown_format.ShownFormat.{ShownFormat};
ghost use Rattle.shown_text.specs.Words.{shown_text};
ghost use Rattle.xlsx_formats.specs.Formattings.{style_said};
ghost use Rattle.xlsx_cells.specs.Words.{styled_meaning};
ghost use Rattle.xlsx_open.specs.Words.{shared_said};
ghost use Rattle.xlsx_core.specs.ShownSheet.{style_code, code_at, shown_value};
ghost use Rattle.xlsx_core.specs.ShownCodes.{AreCutFrom, HasCutCode};

use cell_data::Data;
use cell_styles::Style;
use format_codes::ShownFormat;
use shown_text::push_shown;
use std::alloc::{AllocError, Global};
use xlsx_cells::StyledValue;
use xlsx_open::SharedParts;
use xlsx_values::to_data;

/// A place for each style, and one more, at none of which a code was cut.
pub fn uncut(alloc: Global, shared: &SharedParts) -> Result<Vec<Option<ShownFormat>>, AllocError>
    ensures count { IfOk result (λ cut.
        length shared.now.style_sheet.styles.items < length cut.items) }
    ensures none { (codes : ℕ → List ℕ) → IfOk result (λ cut. AreCutFrom codes cut.items) }
{
    let count = shared.style_sheet.styles.len();
    let mut cut = Vec::new(alloc);
    'places: while cut.len() <= count {
        cut.push(None)?;
    }
    Ok(cut)
}

/// The code of the number format of a style, and `General` without one.
fn code_of(style: Option<&Style>) -> &str
    ensures { result.now ≡ style_code (option_map style_said (option_copied style.entry)) }
{
    match style {
        Some(
            Style {
                number_format: Some(format),
                ..
            },
        ) => format.format_code.as_str(),
        _ => "General",
    }
}

/// Cuts the code that is kept at a place, unless it was cut before.
fn cut_at(
    alloc: Global,
    cut: &mut Vec<Option<ShownFormat>>,
    place: usize,
    code: &str,
) -> Result<(), AllocError>
    requires { place < length cut.old.items }
    ensures count { length cut.new.items ≡ length cut.old.items }
    ensures codes { (codes : ℕ → List ℕ) → codes place ≡ code.now →
        AreCutFrom codes cut.old.items → AreCutFrom codes cut.new.items }
    ensures here { OnOk result (HasCutCode place cut.new.items) }
{
    if cut[place].is_none() {
        cut[place] = Some(ShownFormat::parse(alloc, code)?);
    }
    Ok(())
}

/// What is shown of a value under the code that was cut at a place.
fn shown_at(
    alloc: Global,
    cut: &[Option<ShownFormat>],
    place: usize,
    value: &Data,
    is_1904: bool,
) -> Result<String, AllocError>
    requires { HasCutCode place cut.now }
    ensures { (codes : ℕ → List ℕ) → AreCutFrom codes cut.now → IfOk result (λ text.
        string_bytes text ≡ shown_text is_1904 (codes place) (value_of_data value.now)) }
{
    let mut text = String::new(alloc);
    if let Some(Some(format)) = cut.get(place) {
        push_shown(&mut text, format, value, is_1904)?;
    }
    Ok(text)
}

/// The place of a style id. The last one is that of ids that no style has.
#[tactic(auto, using(crate::proofs::CodesKept::code_past))]
fn place_of(styles: &[Style], id: usize) -> usize
    ensures inside { result ≤ length styles.now }
    ensures code { code_at (map style_said styles.now) result
        ≡ code_at (map style_said styles.now) id }
{
    if id < styles.len() { id } else { styles.len() }
}

/// The code of a place.
#[tactic(auto, using(crate::proofs::CodesKept::code_there))]
fn code_placed(styles: &[Style], place: usize) -> &str
    ensures { result.now ≡ code_at (map style_said styles.now) place }
{
    code_of(styles.get(place))
}

/// What is shown of a value in a cell with this style id.
fn shown_of(
    alloc: Global,
    cut: &mut Vec<Option<ShownFormat>>,
    styles: &[Style],
    id: usize,
    value: &Data,
    is_1904: bool,
) -> Result<String, AllocError>
    requires { length styles.now < length cut.old.items }
    ensures count { length cut.new.items ≡ length cut.old.items }
    ensures codes { let codes = code_at (map style_said styles.now) in
        AreCutFrom codes cut.old.items → AreCutFrom codes cut.new.items }
    ensures text { let codes = code_at (map style_said styles.now) in
        AreCutFrom codes cut.old.items → IfOk result (λ text.
        string_bytes text ≡ shown_text is_1904 (codes id) (value_of_data value.now)) }
{
    let place = place_of(styles, id);
    cut_at(alloc, cut, place, code_placed(styles, place))?;
    shown_at(alloc, cut, place, value, is_1904)
}

/// What is shown of a cell, under the codes that were cut before, and that of its style.
pub fn cell_text(
    alloc: Global,
    cut: &mut Vec<Option<ShownFormat>>,
    shared: &SharedParts,
    is_1904: bool,
    cell: StyledValue,
) -> Result<String, AllocError>
    requires { length shared.now.style_sheet.styles.items < length cut.old.items }
    ensures count { length cut.new.items ≡ length cut.old.items }
    ensures codes { let codes = code_at (shared_said shared.now).styles in
        AreCutFrom codes cut.old.items → AreCutFrom codes cut.new.items }
    ensures text { AreCutFrom (code_at (shared_said shared.now).styles) cut.old.items →
        IfOk result (λ own. text (string_bytes own)
        ≡ shown_value (shared_said shared.now) is_1904 (styled_meaning cell)) }
{
    let StyledValue { value, style_id } = cell;
    let value = to_data(alloc, value, &shared.strings)?;
    let styles = &shared.style_sheet.styles;
    shown_of(alloc, cut, styles, style_id, &value, is_1904)
}
