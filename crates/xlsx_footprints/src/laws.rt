ghost use Rattle.std.specs.Prelude.{◌≡◌, ℕ, List};
ghost use Rattle.part_events.specs.Words.{Part};
ghost use Rattle.xlsx_open.specs.Words.{OpensSoundly};
ghost use Rattle.xlsx_commands.specs.Words.{Command, part, IsOutput, OutputCause};
ghost use Rattle.xlsx_commands.specs.declared.error.ToolError.{ToolError};
ghost use Rattle.xlsx_footprints.specs.Footprints.{HaveSameFootprint, HaveSamePlaceParts};

use xlsx_commands::commands_have_one_output;
use xlsx_open::openings_have_no_cause_of_a_refusal;

/// Two packages that have the same parts where a command looks have the same output for it, or the
/// same causes of a refusal, those by an area with too many cells among them.
pub fn commands_go_by_their_footprints()
    ensures back { (command : Command) (one two : List Part) →
        HaveSameFootprint command one two → HaveSameFootprint command two one }
    ensures outputs { (command : Command) (one two : List Part) (output : List ℕ) →
        HaveSameFootprint command one two → IsOutput command one output →
        IsOutput command two output }
    ensures same { (command : Command) (one two : List Part) (output other : List ℕ) →
        HaveSameFootprint command one two → IsOutput command one output →
        IsOutput command two other → output ≡ other }
    ensures causes { (command : Command) (one two : List Part) (error : ToolError) →
        HaveSameFootprint command one two → OutputCause command one error →
        OutputCause command two error }
{
    commands_have_one_output();
}

/// Two packages that both open, and have the same parts that tell where the parts of sheets are,
/// name the same part of each sheet, whatever their strings, styles, theme and sheets are, and lack
/// the same sheets.
pub fn parts_of_sheets_go_by_their_places()
    ensures outputs { (one two : List Part) (name output : List ℕ) → HaveSamePlaceParts one two →
        OpensSoundly two → IsOutput (part name) one output → IsOutput (part name) two output }
    ensures causes { (one two : List Part) (name : List ℕ) (error : ToolError) →
        HaveSamePlaceParts one two → OpensSoundly one → OpensSoundly two →
        OutputCause (part name) one error → OutputCause (part name) two error }
{
    openings_have_no_cause_of_a_refusal();
}
