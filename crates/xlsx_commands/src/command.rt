ghost use Rattle.std.specs.Prelude.{◌≡◌, option_map};
ghost use Rattle.xlsx_commands.specs.Command.{texts, command_meant, bare_command, named_command};
ghost use Rattle.xlsx_commands.specs.Command.{rows_asked, sample, placed_command, command_of};
ghost use Rattle.xlsx_commands.specs.Command.{position_asked, dependents, csv, csv_table};
ghost use Rattle.xlsx_commands.specs.Command.{further_command, asked_command, resave_asked};
ghost use Rattle.xlsx_commands.specs.Command.{all_dependents, all_asked, option_command, book_list};
ghost use Rattle.xlsx_commands.specs.Command.{sheet_list, if_json, listed_command, json_rows};
ghost use Rattle.xlsx_commands.specs.Command.{table_objects, command_on};
ghost use Rattle.xlsx_commands.specs.AskedRows.{csv_asked, table_rows_asked};
ghost use Rattle.xlsx_commands.specs.AskedArrays.{of_json, arrays_asked, objects_asked};
ghost use Rattle.list_lines.specs.declared.content.LineForm.TheVariants as json;

use crate::asked_rows::{
    AskedRows, AskedTable, csv_asked, of_table, rows_asked_by, table_rows_asked,
};
use cell_refs::get_row_column;
use csv_rows::CsvOptions;
use list_lines::LineForm;
use xlsx_sections::number_text;

/// The most rows of a sample.
const MOST_ROWS: u64 = 20_000;

/// A list of all formulas of a workbook.
#[derive(Clone, Copy)]
pub enum GraphList {
    /// What each names.
    Graph,
    /// The order in which they can be computed.
    Order,
    /// Their cycles.
    Cycles,
}

/// What the words ask for. A list has the form of its lines.
#[derive(Clone, Copy)]
pub enum Command<'a> {
    /// The cells of the worksheet of this name.
    Cells(LineForm, &'a str),
    /// The workbook's sheets.
    Sheets(LineForm),
    /// The workbook's defined names.
    Names(LineForm),
    /// The merged cells of the worksheet of this name.
    Merges(LineForm, &'a str),
    /// The links of the worksheet of this name.
    Links(LineForm, &'a str),
    /// The comments of the worksheet of this name.
    Comments(LineForm, &'a str),
    /// The widths of columns of the worksheet of this name, and its hidden rows.
    Widths(LineForm, &'a str),
    /// The workbook's properties.
    Props(LineForm),
    /// The rows of the values of the worksheet of this name, as CSV, and what is asked of them.
    Csv(&'a str, AskedRows),
    /// The columns and the rows of the table of this name, as CSV, and how they are written.
    CsvTable(&'a str, AskedTable),
    /// The rows of the values of the worksheet of this name, as arrays or as objects of JSON, and
    /// what is asked of them.
    Rows(&'a str, AskedRows),
    /// The rows of the table of this name, as objects of JSON, and how they are written.
    RowsTable(&'a str, CsvOptions),
    /// The workbook's tables.
    Tables(LineForm),
    /// The values in the table of this name.
    Table(&'a str),
    /// The workbook's pivot tables.
    Pivots(LineForm),
    /// The rows of the cache of the pivot table of the second name, on the worksheet of the first.
    Pivot(&'a str, &'a str),
    /// The formulas of the worksheet of this name, with the areas that each names.
    Precedents(&'a str),
    /// The cells of the worksheet of this name whose formulas name the cell at a position, a row
    /// and a column counted from 0.
    Dependents(&'a str, (u32, u32)),
    /// The formulas of the workbook that need the cell at a position of the sheet of this name,
    /// themselves or through others; a row and a column counted from 0.
    AllDependents(&'a str, (u32, u32)),
    /// A list of the formulas of all worksheets.
    WorkbookGraph(GraphList),
    /// The formulas of the worksheet of this name, with what each comes to beside its cell's value.
    Check(&'a str),
    /// The part that the worksheet of this name is read from.
    Part(&'a str),
    /// The package text of version 2.
    Upgrade,
    /// The package text of version 2 of a package that is written of the worksheet of this name.
    Resave(&'a str),
    /// The workbook file that is written of the worksheet of this name.
    ResaveFile(&'a str),
    /// What is read of a workbook with so many rows.
    Sample(u32),
}

/// The number of rows that a word asks for.
fn rows_asked(word: &str) -> Option<u32>
    ensures { result ≡ rows_asked word.now }
{
    let rows = number_text(word)?;
    if 0 < rows && rows <= MOST_ROWS {
        return Some(rows as u32);
    }
    None
}

/// A list of the workbook, in its form.
fn book_list<'a>(form: LineForm, word: &str) -> Option<Command<'a>>
    ensures { option_map (λ command. command_meant command) result ≡ book_list form word.now }
{
    match word {
        "sheets" => Some(Command::Sheets(form)),
        "names" => Some(Command::Names(form)),
        "props" => Some(Command::Props(form)),
        "tables" => Some(Command::Tables(form)),
        "pivots" => Some(Command::Pivots(form)),
        _ => None,
    }
}

/// A list of the worksheet of a name, in its form.
fn sheet_list<'a>(form: LineForm, word: &str, name: &'a str) -> Option<Command<'a>>
    ensures { option_map (λ command. command_meant command) result
        ≡ sheet_list form word.now name.now }
{
    match word {
        "cells" => Some(Command::Cells(form, name)),
        "merges" => Some(Command::Merges(form, name)),
        "links" => Some(Command::Links(form, name)),
        "comments" => Some(Command::Comments(form, name)),
        "widths" => Some(Command::Widths(form, name)),
        _ => None,
    }
}

fn bare_command(word: &str) -> Option<Command<'_>>
    ensures { option_map (λ command. command_meant command) result ≡ bare_command word.now }
{
    match word {
        "upgrade" => Some(Command::Upgrade),
        "graph" => Some(Command::WorkbookGraph(GraphList::Graph)),
        "order" => Some(Command::WorkbookGraph(GraphList::Order)),
        "cycles" => Some(Command::WorkbookGraph(GraphList::Cycles)),
        _ => book_list(LineForm::Text, word),
    }
}

/// A list of the workbook as JSON, where the word behind it asks for that.
fn book_in_json<'a>(word: &str, option: &str) -> Option<Command<'a>>
    ensures { option_map (λ command. command_meant command) result
        ≡ if_json option.now (book_list json.Json word.now) }
{
    match option {
        "--json" => book_list(LineForm::Json, word),
        _ => None,
    }
}

/// A list of the worksheet of a name as JSON, where the word behind the name asks for that.
fn sheet_in_json<'a>(word: &str, name: &'a str, option: &str) -> Option<Command<'a>>
    ensures { option_map (λ command. command_meant command) result
        ≡ if_json option.now (sheet_list json.Json word.now name.now) }
{
    match option {
        "--json" => sheet_list(LineForm::Json, word, name),
        _ => None,
    }
}

/// A list of the worksheet of a name, or one of the workbook as JSON.
fn listed_command<'a>(word: &str, name: &'a str) -> Option<Command<'a>>
    ensures { option_map (λ command. command_meant command) result
        ≡ listed_command word.now name.now }
{
    match sheet_list(LineForm::Text, word, name) {
        Some(command) => Some(command),
        None => book_in_json(word, name),
    }
}

fn sample_command<'a>(word: &str) -> Option<Command<'a>>
    ensures { option_map (λ command. command_meant command) result
        ≡ option_map sample (rows_asked word.now) }
{
    let rows = rows_asked(word)?;
    Some(Command::Sample(rows))
}

/// The position that a word names, a row and a column counted from 0.
fn position_asked(word: &str) -> Option<(u32, u32)>
    ensures { result ≡ position_asked word.now }
{
    match get_row_column(word) {
        Ok(position) => Some(position),
        Err(_) => None,
    }
}

fn dependents_command<'a>(name: &'a str, word: &str) -> Option<Command<'a>>
    ensures { option_map (λ command. command_meant command) result
        ≡ option_map (dependents name.now) (position_asked word.now) }
{
    let position = position_asked(word)?;
    Some(Command::Dependents(name, position))
}

fn named_command<'a>(word: &str, name: &'a str) -> Option<Command<'a>>
    ensures { option_map (λ command. command_meant command) result
        ≡ named_command word.now name.now }
{
    match word {
        "csv" => Some(Command::Csv(name, AskedRows::PLAIN)),
        "csv-table" => Some(Command::CsvTable(name, AskedTable::PLAIN)),
        "table" => Some(Command::Table(name)),
        "precedents" => Some(Command::Precedents(name)),
        "check" => Some(Command::Check(name)),
        "part" => Some(Command::Part(name)),
        "resave" => Some(Command::Resave(name)),
        "sample" => sample_command(name),
        _ => listed_command(word, name),
    }
}

/// The workbook file of the worksheet of a name, where the word behind the name asks for one.
fn resave_command<'a>(name: &'a str, word: &str) -> Option<Command<'a>>
    ensures { option_map (λ command. command_meant command) result
        ≡ resave_asked name.now word.now }
{
    match word {
        "--xlsx" => Some(Command::ResaveFile(name)),
        _ => None,
    }
}

fn placed_command<'a>(word: &str, sheet: &'a str, name: &'a str) -> Option<Command<'a>>
    ensures { option_map (λ command. command_meant command) result
        ≡ placed_command word.now sheet.now name.now }
{
    match word {
        "pivot" => Some(Command::Pivot(sheet, name)),
        "dependents" => dependents_command(sheet, name),
        "resave" => resave_command(sheet, name),
        _ => sheet_in_json(word, sheet, name),
    }
}

fn csv_command<'a>(name: &'a str, words: &[String]) -> Option<Command<'a>>
    ensures { option_map (λ command. command_meant command) result
        ≡ option_map (csv name.now) (csv_asked (texts words.now)) }
{
    let asked = csv_asked(words)?;
    Some(Command::Csv(name, asked))
}

fn csv_table_command<'a>(name: &'a str, words: &[String]) -> Option<Command<'a>>
    ensures { option_map (λ command. command_meant command) result
        ≡ option_map (csv_table name.now) (table_rows_asked (texts words.now)) }
{
    let asked = table_rows_asked(words)?;
    Some(Command::CsvTable(name, asked))
}

/// What is asked, where it says nothing of the bytes of CSV.
fn of_json(asked: AskedRows) -> Option<AskedRows>
    ensures { result ≡ of_json asked }
{
    let CsvOptions {
        delimiter,
        crlf,
        bom,
        ..
    } = asked.options;
    if delimiter.is_some() || crlf || bom {
        return None;
    }
    Some(asked)
}

/// What the words ask of rows as JSON: `--json` first, and behind it what is asked of rows, but for
/// the options of CSV alone.
fn arrays_asked(words: &[String]) -> Option<AskedRows>
    ensures { result ≡ arrays_asked (texts words.now) }
{
    match words {
        [word, words @ ..] if word.as_str() == "--json" => of_json(rows_asked_by(words)?),
        _ => None,
    }
}

fn rows_command<'a>(name: &'a str, words: &[String]) -> Option<Command<'a>>
    ensures { option_map (λ command. command_meant command) result
        ≡ option_map (json_rows name.now) (arrays_asked (texts words.now)) }
{
    let asked = arrays_asked(words)?;
    Some(Command::Rows(name, asked))
}

fn objects_asked(words: &[String]) -> Option<CsvOptions>
    ensures { result ≡ objects_asked (texts words.now) }
{
    of_table(arrays_asked(words)?)
}

fn rows_table_command<'a>(name: &'a str, words: &[String]) -> Option<Command<'a>>
    ensures { option_map (λ command. command_meant command) result
        ≡ option_map (table_objects name.now) (objects_asked (texts words.now)) }
{
    let options = objects_asked(words)?;
    Some(Command::RowsTable(name, options))
}

/// The formulas of the workbook that need a cell, where the words behind its sheet ask for these.
fn all_command<'a>(sheet: &'a str, name: &str, option: &str) -> Option<Command<'a>>
    ensures { option_map (λ command. command_meant command) result
        ≡ all_asked sheet.now name.now option.now }
{
    match option {
        "--all" => {
            let position = position_asked(name)?;
            Some(Command::AllDependents(sheet, position))
        }
        _ => None,
    }
}

fn option_command<'a>(word: &str, sheet: &'a str, name: &str, option: &str) -> Option<Command<'a>>
    ensures { option_map (λ command. command_meant command) result
        ≡ option_command word.now sheet.now name.now option.now }
{
    match word {
        "dependents" => all_command(sheet, name, option),
        _ => None,
    }
}

fn further_command<'a>(word: &str, name: &'a str, words: &'a [String]) -> Option<Command<'a>>
    ensures { option_map (λ command. command_meant command) result
        ≡ further_command word.now name.now (texts words.now) }
{
    match words {
        [further] => placed_command(word, name, further.as_str()),
        [further, option] => option_command(word, name, further.as_str(), option.as_str()),
        _ => None,
    }
}

/// A command with words behind its name.
fn asked_command<'a>(word: &str, name: &'a str, words: &'a [String]) -> Option<Command<'a>>
    ensures { option_map (λ command. command_meant command) result
        ≡ asked_command word.now name.now (texts words.now) }
{
    match word {
        "csv" => csv_command(name, words),
        "csv-table" => csv_table_command(name, words),
        "rows" => rows_command(name, words),
        "rows-table" => rows_table_command(name, words),
        _ => further_command(word, name, words),
    }
}

/// A command of a word and a name, with the words behind them.
pub(crate) fn command_on<'a>(word: &str, name: &'a str, words: &'a [String]) -> Option<Command<'a>>
    ensures { option_map (λ command. command_meant command) result
        ≡ command_on word.now name.now (texts words.now) }
{
    if words.is_empty() {
        named_command(word, name)
    } else {
        asked_command(word, name, words)
    }
}

/// The command that the words are.
pub fn command_of(words: &[String]) -> Option<Command<'_>>
    ensures { option_map (λ command. command_meant command) result ≡ command_of (texts words.now) }
{
    match words {
        [word] => bare_command(word.as_str()),
        [word, name, words @ ..] => command_on(word.as_str(), name.as_str(), words),
        _ => None,
    }
}
