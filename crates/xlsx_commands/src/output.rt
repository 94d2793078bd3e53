ghost use Rattle.std.specs.Prelude.{◌≡◌, option_map, IfOk, IfErr};
ghost use Rattle.xlsx_commands.specs.Command.{command_meant, own_parts};
ghost use Rattle.xlsx_commands.specs.Outputs.{IsOutput, OutputFails};

use crate::book_lists::{name_lines, sheet_lines};
use crate::cell_lines::cell_lines;
use crate::command::Command;
use crate::comment_lines::comment_lines;
use crate::error::ToolError;
use crate::formula_lines::{check_lines, dependent_lines, precedent_lines};
use crate::graph_lines::{all_dependents, graph_lines};
use crate::link_lines::link_lines;
use crate::merge_lines::merge_lines;
use crate::part_line::part_line;
use crate::pivot_lines::pivot_lines;
use crate::pivot_rows::pivot_rows;
use crate::property_lines::property_lines;
use crate::resaved_file::resaved_file;
use crate::resaved_text::resaved_text;
use crate::row_objects::json_rows;
use crate::sample_lines::sample_lines;
use crate::sheet_rows::sheet_rows;
use crate::table_lines::{table_lines, table_value_lines};
use crate::table_objects::table_objects;
use crate::table_rows::table_rows;
use crate::upgraded_text::upgraded_text;
use crate::width_lines::width_lines;
use input_package::InputPackage;
use std::alloc::{AllocError, Global};
use xlsx_sample::sample_package;

/// The package that a command works on where it reads no input.
#[tactic(auto, unfolding(crate::specs::Command::own_parts))]
pub fn own_package(alloc: Global, command: Command<'_>) -> Result<Option<InputPackage>, AllocError>
    ensures { IfOk result (λ found.
        option_map (λ held. held.parts) found ≡ own_parts (command_meant command.entry)) }
{
    let package = match command {
        Command::Cells(_, _) => None,
        Command::Sheets(_) => None,
        Command::Names(_) => None,
        Command::Merges(_, _) => None,
        Command::Links(_, _) => None,
        Command::Comments(_, _) => None,
        Command::Widths(_, _) => None,
        Command::Props(_) => None,
        Command::Csv(_, _) => None,
        Command::CsvTable(_, _) => None,
        Command::Rows(_, _) => None,
        Command::RowsTable(_, _) => None,
        Command::Tables(_) => None,
        Command::Table(_) => None,
        Command::Pivots(_) => None,
        Command::Pivot(_, _) => None,
        Command::Precedents(_) => None,
        Command::Dependents(_, _) => None,
        Command::AllDependents(_, _) => None,
        Command::WorkbookGraph(_) => None,
        Command::Check(_) => None,
        Command::Part(_) => None,
        Command::Upgrade => None,
        Command::Resave(_) => None,
        Command::ResaveFile(_) => None,
        Command::Sample(rows) => Some(InputPackage::in_memory(sample_package(alloc, rows)?)),
    };
    Ok(package)
}

/// The output of a command on a package, whole.
#[tactic(auto, unfolding(crate::specs::Outputs::IsOutput, crate::specs::Outputs::RefusedWorkbookCause, crate::specs::Outputs::IsTooLarge, crate::specs::Outputs::HasLargeGraph, crate::specs::Outputs::IsUnwritable, crate::specs::Outputs::HasNoKeys, crate::specs::Outputs::HasTwoColumns))]
pub fn output_of(
    alloc: Global,
    command: Command<'_>,
    package: InputPackage,
) -> Result<Vec<u8>, ToolError>
    ensures ok { IfOk result (λ output.
        IsOutput (command_meant command.entry) «package».parts output.items) }
    ensures err { IfErr result (OutputFails (command_meant command.entry) «package».parts) }
{
    match command {
        Command::Cells(form, name) => cell_lines(alloc, package, form, name),
        Command::Sheets(form) => sheet_lines(alloc, package, form),
        Command::Names(form) => name_lines(alloc, package, form),
        Command::Merges(form, name) => merge_lines(alloc, package, form, name),
        Command::Links(form, name) => link_lines(alloc, package, form, name),
        Command::Comments(form, name) => comment_lines(alloc, package, form, name),
        Command::Widths(form, name) => width_lines(alloc, package, form, name),
        Command::Props(form) => property_lines(alloc, package, form),
        Command::Csv(name, asked) => sheet_rows(alloc, package, name, asked),
        Command::CsvTable(name, asked) => table_rows(alloc, package, name, asked),
        Command::Rows(name, asked) => json_rows(alloc, package, name, asked),
        Command::RowsTable(name, options) => table_objects(alloc, package, name, options),
        Command::Tables(form) => table_lines(alloc, package, form),
        Command::Table(name) => table_value_lines(alloc, package, name),
        Command::Pivots(form) => pivot_lines(alloc, package, form),
        Command::Pivot(sheet, name) => pivot_rows(alloc, package, sheet, name),
        Command::Precedents(name) => precedent_lines(alloc, package, name),
        Command::Dependents(name, position) => dependent_lines(alloc, package, name, position),
        Command::AllDependents(name, position) => all_dependents(alloc, package, name, position),
        Command::WorkbookGraph(list) => graph_lines(alloc, package, list),
        Command::Check(name) => check_lines(alloc, package, name),
        Command::Part(name) => part_line(alloc, package, name),
        Command::Upgrade => upgraded_text(alloc, package),
        Command::Resave(name) => resaved_text(alloc, package, name),
        Command::ResaveFile(name) => resaved_file(alloc, package, name),
        Command::Sample(rows) => sample_lines(alloc, package, rows),
    }
}
