ghost use Rattle.std.specs.Prelude.{◌≡◌, map, string_bytes, IfOk, IfErr};
ghost use Rattle.xlsx_workbook.specs.Words.{pair_of};
ghost use Rattle.xlsx_open.specs.Words.{listed_sheet, OpeningCause};
ghost use Rattle.xlsx_commands.specs.BookLists.{sheet_type_word, state_word, sheet_lines};
ghost use Rattle.xlsx_commands.specs.BookLists.{name_lines, AreSheetLines, AreNameLines};
ghost use Rattle.xlsx_commands.specs.BookLists.{HasMetadata};
ghost use Rattle.xlsx_commands.specs.Outputs.{CallFails};

use crate::error::ToolError;
use input_package::InputPackage;
use list_lines::{LineForm, push_name_line, push_sheet_line};
use part_events::XlReader;
use std::alloc::{AllocError, Global};
use xlsx_open::{Metadata, Opened, Sheet, SheetType, SheetVisible, open};

fn type_word(typ: SheetType) -> &'static str
    ensures { result.now ≡ sheet_type_word typ }
{
    match typ {
        SheetType::WorkSheet => "worksheet",
        SheetType::ChartSheet => "chartsheet",
        SheetType::DialogSheet => "dialogsheet",
    }
}

fn state_word(visible: SheetVisible) -> &'static str
    ensures { result.now ≡ state_word visible }
{
    match visible {
        SheetVisible::Visible => "visible",
        SheetVisible::Hidden => "hidden",
        SheetVisible::VeryHidden => "veryHidden",
    }
}

fn lines_of_sheets(alloc: Global, form: LineForm, sheets: &[Sheet]) -> Result<String, AllocError>
    ensures { IfOk result (λ out.
        string_bytes out ≡ sheet_lines form (map listed_sheet sheets.now)) }
{
    let mut out = String::new(alloc);
    for sheet in sheets {
        let typ = type_word(sheet.typ);
        push_sheet_line(
            &mut out,
            form,
            sheet.name.as_str(),
            typ,
            state_word(sheet.visible),
        )?;
    }
    Ok(out)
}

fn lines_of_names(
    alloc: Global,
    form: LineForm,
    names: &[(String, String)],
) -> Result<String, AllocError>
    ensures { IfOk result (λ out. string_bytes out ≡ name_lines form (map pair_of names.now)) }
{
    let mut out = String::new(alloc);
    for name in names {
        push_name_line(&mut out, form, name.0.as_str(), name.1.as_str())?;
    }
    Ok(out)
}

/// The sheets and the defined names of the workbook, and the package.
pub fn metadata_beside(
    alloc: Global,
    package: InputPackage,
) -> Result<(Metadata, InputPackage), ToolError>
    ensures ok { IfOk result (λ found.
        HasMetadata «package».parts found.0 × (found.1.parts ≡ «package».parts)) }
    ensures err { IfErr result (CallFails (OpeningCause «package».parts)) }
{
    let mut xml = XlReader::new(alloc, package);
    let opened = open(&mut xml);
    let package = xml.into_package();
    let opened = opened?;
    let Opened {
        metadata,
        paths: _,
        folder: _,
        shared: _,
        is_1904: _,
        scopes: _,
    } = opened;
    Ok((metadata, package))
}

/// The sheets and the defined names of the workbook of a package that is needed no more.
fn metadata_of(alloc: Global, package: InputPackage) -> Result<Metadata, ToolError>
    ensures ok { IfOk result (HasMetadata «package».parts) }
    ensures err { IfErr result (CallFails (OpeningCause «package».parts)) }
{
    let (metadata, package) = metadata_beside(alloc, package)?;
    drop(package);
    Ok(metadata)
}

/// A line for each sheet of the workbook.
pub fn sheet_lines(
    alloc: Global,
    package: InputPackage,
    form: LineForm,
) -> Result<Vec<u8>, ToolError>
    ensures ok { IfOk result (λ output. AreSheetLines form «package».parts output.items) }
    ensures err { IfErr result (CallFails (OpeningCause «package».parts)) }
{
    let metadata = metadata_of(alloc, package)?;
    Ok(lines_of_sheets(alloc, form, &metadata.sheets)?.into_bytes())
}

/// A line for each defined name of the workbook.
pub fn name_lines(
    alloc: Global,
    package: InputPackage,
    form: LineForm,
) -> Result<Vec<u8>, ToolError>
    ensures ok { IfOk result (λ output. AreNameLines form «package».parts output.items) }
    ensures err { IfErr result (CallFails (OpeningCause «package».parts)) }
{
    let metadata = metadata_of(alloc, package)?;
    Ok(lines_of_names(alloc, form, &metadata.names)?.into_bytes())
}
