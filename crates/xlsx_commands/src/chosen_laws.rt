//! Laws of what is asked of a sheet that is chosen.
ghost use Rattle.std.specs.Prelude.{◌≡◌, ℕ, List};
ghost use Rattle.part_events.specs.Words.{Part};
ghost use Rattle.xlsx_commands.specs.ChosenSheets.{Chooses};
ghost use Rattle.xlsx_commands.specs.Command.{Command};
ghost use Rattle.xlsx_commands.specs.Outputs.{IsOutput};
ghost use Rattle.xlsx_commands.specs.Request.{Request, chosen, asked_of_sheet, IsAnswer};
ghost use Rattle.xlsx_commands.specs.Request.{AnswerCause};
ghost use Rattle.xlsx_commands.specs.declared.error.ToolError.{ToolError};
ghost use Rattle.xlsx_commands.specs.declared.sheet_choice.SheetChoice.{SheetChoice};

use crate::laws::causes_leave_no_output;
use xlsx_open::openings_have_no_cause_of_a_refusal;

/// A package that has an answer to what is asked for has no cause of a refusal of it.
pub fn causes_leave_no_answer()
    ensures never { (request : Request) (parts : List Part) (output : List ℕ) (error : ToolError) →
        IsAnswer request parts output → AnswerCause request parts error → ⊥ }
{
    causes_leave_no_output();
    openings_have_no_cause_of_a_refusal();
}

/// The sheet that is chosen has one name, and what is asked of it is answered as what is asked of
/// the sheet of that name.
pub fn chosen_sheets_answer_by_their_names()
    ensures name { (parts : List Part) (choice : SheetChoice) (one two : List ℕ) →
        Chooses parts choice one → Chooses parts choice two → one ≡ two }
    ensures onward { (parts : List Part) (choice : SheetChoice) (name output : List ℕ)
        (command : Command) → Chooses parts choice name →
        IsAnswer (chosen choice command) parts output →
        IsOutput (asked_of_sheet name command) parts output }
    ensures back { (parts : List Part) (choice : SheetChoice) (name output : List ℕ)
        (command : Command) → Chooses parts choice name →
        IsOutput (asked_of_sheet name command) parts output →
        IsAnswer (chosen choice command) parts output }
{}
