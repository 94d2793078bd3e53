//! What words ask for: a command, or one of a sheet that they choose without telling its name.
ghost use Rattle.std.specs.Prelude.{◌≡◌, [], option_map, option_and_then};
ghost use Rattle.xlsx_commands.specs.Command.{texts, command_meant};
ghost use Rattle.xlsx_commands.specs.Request.{request_meant, request_of, asked_of_sheet};
ghost use Rattle.xlsx_commands.specs.Request.{asks_of_sheet, chosen_command, chosen_request};

use crate::command::{Command, command_of, command_on};
use crate::sheet_choice::{SheetChoice, choice_of};

/// What the words ask for.
#[derive(Clone, Copy)]
pub enum Request<'a> {
    /// A command that tells by their names all that it is asked for.
    Told(Command<'a>),
    /// A command of the chosen sheet; the name of a sheet that it has is none.
    Chosen(SheetChoice, Command<'a>),
}

impl<'a> Command<'a> {
    /// Whether it is asked of a sheet by its name.
    pub fn is_of_sheet(self) -> bool
        ensures { result ≡ asks_of_sheet (command_meant self.entry) }
    {
        match self {
            Command::Cells(_, _) => true,
            Command::Merges(_, _) => true,
            Command::Links(_, _) => true,
            Command::Comments(_, _) => true,
            Command::Widths(_, _) => true,
            Command::Csv(_, _) => true,
            Command::Rows(_, _) => true,
            Command::Pivot(_, _) => true,
            Command::Precedents(_) => true,
            Command::Dependents(_, _) => true,
            Command::AllDependents(_, _) => true,
            Command::Check(_) => true,
            Command::Part(_) => true,
            Command::Resave(_) => true,
            Command::ResaveFile(_) => true,
            _ => false,
        }
    }

    /// The same command, asked of the sheet of this name where it is asked of one.
    pub fn on_sheet(self, name: &'a str) -> Command<'a>
        ensures { command_meant result ≡ asked_of_sheet name.now (command_meant self.entry) }
    {
        match self {
            Command::Cells(form, _) => Command::Cells(form, name),
            Command::Merges(form, _) => Command::Merges(form, name),
            Command::Links(form, _) => Command::Links(form, name),
            Command::Comments(form, _) => Command::Comments(form, name),
            Command::Widths(form, _) => Command::Widths(form, name),
            Command::Csv(_, asked) => Command::Csv(name, asked),
            Command::Rows(_, asked) => Command::Rows(name, asked),
            Command::Pivot(_, own) => Command::Pivot(name, own),
            Command::Precedents(_) => Command::Precedents(name),
            Command::Dependents(_, position) => Command::Dependents(name, position),
            Command::AllDependents(_, position) => Command::AllDependents(name, position),
            Command::Check(_) => Command::Check(name),
            Command::Part(_) => Command::Part(name),
            Command::Resave(_) => Command::Resave(name),
            Command::ResaveFile(_) => Command::ResaveFile(name),
            other => other,
        }
    }
}

/// A command of a sheet that a word chooses.
fn chosen_command<'a>(word: &str, which: &str, further: &'a [String]) -> Option<Request<'a>>
    ensures { option_map (λ request. request_meant request) result
        ≡ chosen_command word.now which.now (texts further.now) }
{
    let choice = choice_of(which)?;
    let command = command_on(word, "", further)?;
    if command.is_of_sheet() {
        Some(Request::Chosen(choice, command))
    } else {
        None
    }
}

/// What words ask for that choose a sheet: `--sheet` and its number, or `--sheet first`, stand in
/// place of its name.
fn chosen_request(words: &[String]) -> Option<Request<'_>>
    ensures { option_map (λ request. request_meant request) result
        ≡ chosen_request (texts words.now) }
{
    match words {
        [word, option, which, further @ ..] => {
            if option.as_str() == "--sheet" {
                chosen_command(word.as_str(), which.as_str(), further)
            } else {
                None
            }
        }
        _ => None,
    }
}

/// What the words ask for: a command, or where they are none, one of a sheet that they choose.
pub fn request_of(words: &[String]) -> Option<Request<'_>>
    ensures { option_map (λ request. request_meant request) result
        ≡ request_of (texts words.now) }
{
    match command_of(words) {
        Some(command) => Some(Request::Told(command)),
        None => chosen_request(words),
    }
}
