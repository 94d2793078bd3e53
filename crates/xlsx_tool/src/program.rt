ghost use Rattle.std.specs.Prelude.{◌≡◌, ◌≢◌, true, None, option_map, IfOk, IfErr, OnOk};
ghost use Rattle.std.specs.Prelude.{string_bytes};
ghost use Rattle.std.specs.Process.{exit_status};
ghost use Rattle.xlsx_commands.specs.Words.{texts};
ghost use Rattle.xlsx_tool.specs.Program.{help_text, page_asked, Prints, CannotPrint};
ghost use Rattle.xlsx_tool.specs.Program.{asks_for_no_input, IsErrorLine, IsOffered, TellsError};
ghost use Rattle.xlsx_tool.specs.Program.{TellsEnding, ending_status};
ghost use Rattle.xlsx_tool.specs.Run.{Streams, AnswersExactly};
ghost use Rattle.xlsx_commands.specs.declared.error.ToolError.TheVariants.{WriteFault};

use crate::run::{run, send};
use crate::sink::Sink;
use crate::source::Source;
use std::alloc::{AllocError, Global};
use std::process::ExitCode;
use xlsx_commands::ToolError;

const HELP: &str = "\
Usage: xlsx_tool cells NAME [--json] < INPUT
       xlsx_tool merges NAME [--json] < INPUT
       xlsx_tool links NAME [--json] < INPUT
       xlsx_tool comments NAME [--json] < INPUT
       xlsx_tool widths NAME [--json] < INPUT
       xlsx_tool csv NAME [OPTION].. < INPUT
       xlsx_tool csv-table NAME [OPTION].. < INPUT
       xlsx_tool rows NAME --json [OPTION].. < INPUT
       xlsx_tool rows-table NAME --json [OPTION].. < INPUT
       xlsx_tool table NAME < INPUT
       xlsx_tool pivot SHEET NAME < INPUT
       xlsx_tool precedents NAME < INPUT
       xlsx_tool dependents NAME REF [--all] < INPUT
       xlsx_tool check NAME < INPUT
       xlsx_tool part NAME < INPUT
       xlsx_tool sheets [--json] < INPUT
       xlsx_tool names [--json] < INPUT
       xlsx_tool tables [--json] < INPUT
       xlsx_tool pivots [--json] < INPUT
       xlsx_tool props [--json] < INPUT
       xlsx_tool graph < INPUT
       xlsx_tool order < INPUT
       xlsx_tool cycles < INPUT
       xlsx_tool upgrade < INPUT
       xlsx_tool resave NAME [--xlsx] < INPUT
       xlsx_tool sample N

INPUT is a workbook file (.xlsx), or a package text (docs/FORMAT.md).

In place of NAME and SHEET of a worksheet --sheet N is the sheet at N among all,
from 1, and --sheet first the first worksheet.

One line is printed, of the worksheet NAME or of the workbook, for each

  cells      cell with a value, formula or style: position, value, formula, fill
  merges     area of merged cells: its corners
  links      link: its area, target, location, displayed text, tooltip
  comments   comment: the position of its cell, its author, its text
  widths     columns, or a hidden row: their area, width, visibility
  csv        row of the values: a record of CSV
  csv-table  header or row of the table NAME: a record of CSV
  rows       row of the values: an array of JSON
  rows-table row of the table NAME: an object of JSON, by its columns
  table      value in the table NAME: position, value
  pivot      row of the cache of the pivot table NAME on SHEET: its values
  precedents formula: its cell, the areas that it names
  dependents cell whose formula names the cell REF, such as A7: its reference;
             by --all each of the workbook that needs it, also through others
  check      formula: its cell, how what it comes to stands to the cell's value
  part       worksheet: the name of the part that it is read from
  sheets     sheet: its name, type, state
  names      defined name: the name, its text
  tables     table: its name, its sheet, the area of its data, its columns
  pivots     pivot table: its sheet, its name
  props      property of the workbook: its name, its text
  graph      formula of the workbook: its cell, areas that it names, open words
  order      formula, in an order in which all can be computed: its cell
  cycles     cycle of formulas: their cells

The fields of a line have tabs between them, and those of CSV commas.
By --json each line is an object of JSON, by the keys of docs/FORMAT.md.

OPTIONs of csv and csv-table, each at most once:

  --dates        dates as 2024-01-01T13:30:00, and durations as 36:30:00
  --digits=N     numbers of at most N significant digits, N from 1 to 38
  --delimiter=C  this ASCII character between fields, or for tab a tab
  --crlf         CR and LF at the end of a record
  --bom          the bytes EF BB BF in front
  --from-a1      of csv and rows: records from row 1, and fields from column A
  --shown        without --dates and --digits: what cells show

rows has --json first, and behind it --dates, --digits=N, --from-a1, --shown, or
--header: the fields of the first row are the keys of objects. rows-table has
--json first, and behind it --dates or --digits=N.

upgrade prints the package text in version 2: an empty element is one event.

resave writes a package of the values and formulas of the worksheet NAME alone
and prints its text in version 2, or by --xlsx a workbook file.

sample makes a package of 1 to 20,000 rows and prints how much is read of it.
";

const VERSION: &str = "xlsx_tool 0.1.0\n";

#[tactic(auto, unfolding(crate::specs::Program::help_text))]
fn help_page() -> &'static str
    ensures { result.now ≡ help_text }
{
    HELP
}

/// The page that these words ask for: `--help` or `--version`, alone.
pub fn page_of(words: &[String]) -> Option<&'static str>
    ensures { option_map (λ page. page.now) result ≡ page_asked (texts words.now) }
{
    match words {
        [word] if word.as_str() == "--help" => Some(help_page()),
        [word] if word.as_str() == "--version" => Some(VERSION),
        _ => None,
    }
}

/// Writes the page that the words ask for, and reads nothing; runs them as a command where they ask
/// for none (docs/FORMAT.md).
///
/// Where the words ask for a page, the only refusal is `WriteFault`. A command is refused as by
/// `run`.
pub fn answer<S: Source, K: Sink>(
    alloc: Global,
    words: &[String],
    source: &mut S,
    sink: &mut K,
) -> Result<(), ToolError>
    ensures ok { let words = texts words.now in
        let old : Streams = record { source = S.state source.old; sink = K.state sink.old } in
        let new : Streams = record { source = S.state source.new; sink = K.state sink.new } in
        OnOk result (Prints (page_asked words) words old new) }
    ensures err { let words = texts words.now in
        let old : Streams = record { source = S.state source.old; sink = K.state sink.old } in
        let new : Streams = record { source = S.state source.new; sink = K.state sink.new } in
        IfErr result (CannotPrint (page_asked words) words old new) }
    ensures unread { asks_for_no_input (texts words.now) ≡ true
        → S.state source.new ≡ S.state source.old }
    ensures unwritten { IfErr result (λ e. e ≢ WriteFault → K.state sink.new ≡ K.state sink.old) }
    ensures exact { page_asked (texts words.now) ≡ None
        → AnswersExactly (texts words.now) (S.state source.old) result }
{
    match page_of(words) {
        Some(page) => send(sink, page.as_bytes()),
        None => run(alloc, words, source, sink),
    }
}

/// The text of a refusal, with a line feed behind it.
fn line_of(alloc: Global, error: &ToolError) -> Result<String, AllocError>
    ensures { IfOk result (λ line. IsErrorLine error.now (string_bytes line)) }
{
    let mut line = error.to_string(alloc)?;
    line.push_str("\n")?;
    Ok(line)
}

/// Hands the bytes to the sink. The status says it too, so a failure of the sink is let go.
fn offer<K: Sink>(sink: &mut K, bytes: &[u8])
    ensures { IsOffered bytes.now (K.state sink.old) (K.state sink.new) }
{
    let _ = send(sink, bytes);
}

/// Hands the text of a refusal and a line feed to the sink, or those of `OutOfMemory` where there
/// is no memory for the text.
fn tell<K: Sink>(alloc: Global, error: &ToolError, errors: &mut K)
    ensures { TellsError error.now (K.state errors.old) (K.state errors.new) }
{
    match line_of(alloc, error) {
        Ok(line) => offer(errors, line.as_bytes()),
        Err(_) => offer(errors, b"out of memory\n"),
    }
}

/// The status that the program ends with. Before it the sink of errors is given the text of the
/// refusal and a line feed, and nothing at Ok. Where there is no memory for the text, that of
/// `OutOfMemory` stands in its place.
pub fn ending<K: Sink>(alloc: Global, answer: &Result<(), ToolError>, errors: &mut K) -> ExitCode
    ensures status { exit_status result ≡ ending_status answer.now }
    ensures told { TellsEnding answer.now (K.state errors.old) (K.state errors.new) }
{
    match answer {
        Ok(()) => ExitCode::SUCCESS,
        Err(error) => {
            tell(alloc, error, errors);
            ExitCode::from(error.status())
        }
    }
}
