//! The sheet that is chosen among those of a workbook, and the answer to what is asked of it.
ghost use Rattle.std.specs.Prelude.{◌≡◌, ◌&&◌, ℕ, List, true, not, map, option_map, if◌then◌else◌};
ghost use Rattle.std.specs.Prelude.{string_bytes, IfOk, OnOk, IfErr};
ghost use Rattle.std.specs.BTreeSet.{contains_text};
ghost use Rattle.std.specs.Str.{bytes_eq};
ghost use Rattle.std.specs.Result.{result_map_both};
ghost use Rattle.xlsx_open.specs.Words.{listed_sheet};
ghost use Rattle.xlsx_commands.specs.ChosenSheets.{has_sheet_name, is_worksheet, chosen_name};
ghost use Rattle.xlsx_commands.specs.ChosenSheets.{Chooses, ChoiceFails};
ghost use Rattle.xlsx_commands.specs.Command.{command_meant};
ghost use Rattle.xlsx_commands.specs.Request.{chosen, request_meant, request_parts, IsAnswer};
ghost use Rattle.xlsx_commands.specs.Request.{AnswerFails};
ghost use Rattle.xlsx_commands.specs.declared.sheet_choice.SheetChoice.TheVariants.{Numbered};
ghost use Rattle.xlsx_commands.specs.declared.sheet_choice.SheetChoice.TheVariants.{FirstWorksheet};

use crate::book_lists::metadata_beside;
use crate::command::Command;
use crate::error::ToolError;
use crate::output::{output_of, own_package};
use crate::request::Request;
use crate::sheet_choice::{SheetChoice, SheetFault};
use input_package::InputPackage;
use std::alloc::{AllocError, Global};
use std::collections::BTreeSet;
use xlsx_open::{Sheet, SheetType};

fn is_worksheet(typ: SheetType) -> bool
    ensures { result ≡ is_worksheet typ }
{
    match typ {
        SheetType::WorkSheet => true,
        SheetType::ChartSheet => false,
        SheetType::DialogSheet => false,
    }
}

/// Whether one of the sheets has this name.
fn has_name(name: &str, sheets: &[Sheet]) -> bool
    ensures { result ≡ has_sheet_name name.now (map listed_sheet sheets.now) }
{
    for sheet in sheets {
        if sheet.name.as_str() == name {
            return true;
        }
    }
    false
}

/// The sheet that stands at this number, counted from 1, unless an earlier one has its name.
fn numbered_sheet(sheets: &[Sheet], number: u64) -> Result<&Sheet, SheetFault>
    ensures { result_map_both (λ sheet. string_bytes sheet.now.name) (λ fault. fault) result
        ≡ chosen_name (Numbered number) (map listed_sheet sheets.now) }
{
    let none = SheetFault::NoSheet(number, sheets.len());
    let Some(before) = number.checked_sub(1) else {
        return Err(none);
    };
    let place = before as usize;
    let Some(sheet) = sheets.get(place) else {
        return Err(none);
    };
    if has_name(sheet.name.as_str(), &sheets[..place]) {
        Err(SheetFault::NamedBefore(number))
    } else {
        Ok(sheet)
    }
}

/// Keeps a name beside those that are kept.
fn keep_name(alloc: Global, names: &mut BTreeSet<String>, name: &str) -> Result<(), AllocError>
    ensures { OnOk result ((other : List ℕ) → contains_text names.new other
        ≡ (if bytes_eq name.now other then true else contains_text names.old other)) }
{
    names.insert(String::from_str(alloc, name)?)?;
    Ok(())
}

/// Whether it is a worksheet, and none of the earlier names is its name.
fn is_chosen(sheet: &Sheet, earlier: &BTreeSet<String>) -> bool
    ensures { result ≡ (is_worksheet sheet.now.typ
        && not (contains_text earlier.now (string_bytes sheet.now.name))) }
{
    is_worksheet(sheet.typ) && !earlier.contains(sheet.name.as_str())
}

/// The first worksheet that no earlier sheet has the name of.
fn first_worksheet(
    alloc: Global,
    sheets: &[Sheet],
) -> Result<Result<&Sheet, SheetFault>, AllocError>
    ensures { IfOk result (λ found.
        result_map_both (λ sheet. string_bytes sheet.now.name) (λ fault. fault) found
        ≡ chosen_name FirstWorksheet (map listed_sheet sheets.now)) }
{
    let mut earlier = BTreeSet::new(alloc);
    'sheets: for place in 0..sheets.len() {
        let sheet = &sheets[place];
        if is_chosen(sheet, &earlier) {
            return Ok(Ok(sheet));
        }
        keep_name(alloc, &mut earlier, sheet.name.as_str())?;
    }
    Ok(Err(SheetFault::NoWorksheet))
}

/// The sheet that is chosen among these.
fn chosen_sheet(
    alloc: Global,
    sheets: &[Sheet],
    choice: SheetChoice,
) -> Result<Result<&Sheet, SheetFault>, AllocError>
    ensures { IfOk result (λ found.
        result_map_both (λ sheet. string_bytes sheet.now.name) (λ fault. fault) found
        ≡ chosen_name choice (map listed_sheet sheets.now)) }
{
    match choice {
        SheetChoice::Numbered(number) => Ok(numbered_sheet(sheets, number)),
        SheetChoice::FirstWorksheet => first_worksheet(alloc, sheets),
    }
}

/// The name of the sheet that is chosen, and the package.
fn name_chosen(
    alloc: Global,
    package: InputPackage,
    choice: SheetChoice,
) -> Result<(String, InputPackage), ToolError>
    ensures ok { IfOk result (λ found. Chooses «package».parts choice (string_bytes found.0)
        × (found.1.parts ≡ «package».parts)) }
    ensures err { IfErr result (ChoiceFails choice «package».parts) }
{
    let (metadata, package) = metadata_beside(alloc, package)?;
    match chosen_sheet(alloc, &metadata.sheets, choice)? {
        Ok(sheet) => Ok((String::from_str(alloc, sheet.name.as_str())?, package)),
        Err(fault) => Err(ToolError::NotChosen(fault)),
    }
}

/// The output of a command on the sheet that is chosen.
fn chosen_output(
    alloc: Global,
    choice: SheetChoice,
    command: Command<'_>,
    package: InputPackage,
) -> Result<Vec<u8>, ToolError>
    ensures ok { IfOk result (λ output.
        IsAnswer (chosen choice (command_meant command.entry)) «package».parts output.items) }
    ensures err { IfErr result
        (AnswerFails (chosen choice (command_meant command.entry)) «package».parts) }
{
    let (name, package) = name_chosen(alloc, package, choice)?;
    output_of(alloc, command.on_sheet(name.as_str()), package)
}

/// The package that what is asked for works on where it reads no input.
pub fn package_of_request(
    alloc: Global,
    request: Request<'_>,
) -> Result<Option<InputPackage>, AllocError>
    ensures { IfOk result (λ found.
        option_map (λ held. held.parts) found ≡ request_parts (request_meant request.entry)) }
{
    match request {
        Request::Told(command) => own_package(alloc, command),
        Request::Chosen(_, _) => Ok(None),
    }
}

/// The answer to what is asked for on a package, whole: the output of a command, of the sheet that
/// is chosen where its name isn't told. The workbook is opened to choose it, and by the command.
pub fn answer_of(
    alloc: Global,
    request: Request<'_>,
    package: InputPackage,
) -> Result<Vec<u8>, ToolError>
    ensures ok { IfOk result (λ output.
        IsAnswer (request_meant request.entry) «package».parts output.items) }
    ensures err { IfErr result (AnswerFails (request_meant request.entry) «package».parts) }
{
    match request {
        Request::Told(command) => output_of(alloc, command, package),
        Request::Chosen(choice, command) => chosen_output(alloc, choice, command, package),
    }
}
