ghost use Rattle.std.specs.Prelude.{◌≡◌, ◌++◌, map, string_bytes, OnOk, IfOk, IfErr, Some};
ghost use Rattle.looks.specs.Words.{look_said};
ghost use Rattle.xlsx_widths.specs.Widths.{band_kept, widths_kept};
ghost use Rattle.xlsx_commands.specs.Outputs.{CallFails};
ghost use Rattle.xlsx_commands.specs.SheetLists.{AreLookLines, LookPathCause, NamedLookCause};
ghost use Rattle.xlsx_commands.specs.SheetLists.{band_line, band_lines, named_widths};
ghost use Rattle.xlsx_commands.specs.SheetLists.{visibility_word, width_lines};

use crate::error::ToolError;
use crate::named_sheet::{OfSheet, of_sheet};
use input_package::InputPackage;
use list_lines::{Field, LineForm, Listed, push_line};
use std::alloc::{AllocError, Global};
use xlsx_core::{Band, Widths, Xlsx};
use xlsx_error::XlsxError;

/// The widths of a sheet's columns, and its hidden rows.
impl OfSheet for Widths {
    ghost has = { λ widths name path parts.
        look_said (named_widths name path) parts ≡ Some (widths_kept widths) };

    ghost cause = { LookPathCause named_widths };

    fn ask(xlsx: &mut Xlsx<InputPackage>, name: &str) -> Result<Widths, XlsxError> {
        xlsx.widths_by_sheet_name(name)
    }
}

/// The word for columns or rows that are hidden, or for others.
fn visibility_word(is_hidden: bool) -> &'static str
    ensures { result.now ≡ visibility_word is_hidden }
{
    if is_hidden { "hidden" } else { "visible" }
}

/// Appends the line of columns or rows.
fn push_band(out: &mut String, form: LineForm, band: &Band) -> Result<(), AllocError>
    ensures { OnOk result
        (string_bytes out.new ≡ string_bytes out.old ++ band_line form (band_kept band.now)) }
{
    let fields = [
        Field::area("area", band.area()),
        Field::optional("width", band.width()),
        Field::word("visibility", visibility_word(band.is_hidden())),
    ];
    push_line(out, form, &fields, Listed::Nothing)
}

/// Appends a line for each of these.
fn push_bands(out: &mut String, form: LineForm, bands: &[Band]) -> Result<(), AllocError>
    ensures { OnOk result (string_bytes out.new
        ≡ string_bytes out.old ++ band_lines form (map band_kept bands.now)) }
{
    for band in bands {
        push_band(out, form, band)?;
    }
    Ok(())
}

fn lines_of_widths(alloc: Global, form: LineForm, widths: &Widths) -> Result<String, AllocError>
    ensures { IfOk result (λ out. string_bytes out ≡ width_lines form (widths_kept widths.now)) }
{
    let mut out = String::new(alloc);
    push_bands(&mut out, form, &widths.columns)?;
    push_bands(&mut out, form, &widths.hidden_rows)?;
    Ok(out)
}

/// A line for each `col` and each hidden row of the first sheet of this name.
pub fn width_lines(
    alloc: Global,
    package: InputPackage,
    form: LineForm,
    name: &str,
) -> Result<Vec<u8>, ToolError>
    ensures ok { IfOk result (λ output. AreLookLines named_widths (width_lines form)
        «package».parts name.now output.items) }
    ensures err { IfErr result (CallFails (NamedLookCause named_widths «package».parts name.now)) }
{
    let widths: Widths = of_sheet(alloc, package, name)?;
    Ok(lines_of_widths(alloc, form, &widths)?.into_bytes())
}
