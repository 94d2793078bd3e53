//! What is asked of rows behind the name of a sheet or of a table.
ghost use Rattle.std.specs.Prelude.{◌≡◌, map, string_bytes, option_map};
ghost use Rattle.xlsx_commands.specs.AskedRows.{behind_front, are_spelled, one_delimiter};
ghost use Rattle.xlsx_commands.specs.AskedRows.{delimiter_asked, one_digit, two_digits};
ghost use Rattle.xlsx_commands.specs.AskedRows.{digits_asked, unless, delimiter_given};
ghost use Rattle.xlsx_commands.specs.AskedRows.{digits_given, setting_asked, option_asked};
ghost use Rattle.xlsx_commands.specs.AskedRows.{written_asked, options_asked, plain_rows};
ghost use Rattle.xlsx_commands.specs.AskedRows.{table_rows_asked, csv_asked, of_table};
ghost use Rattle.xlsx_commands.specs.AskedRows.{of_csv_table};

use csv_rows::{CsvOptions, Delimiter, Digits};

/// How rows are written, and where their area begins.
#[derive(Clone, Copy)]
pub struct AskedRows {
    pub options: CsvOptions,
    /// The area begins in A1, and not in its least corner.
    pub from_a1: bool,
    /// Each value as a spreadsheet program shows it.
    pub shown: bool,
    /// The fields of the first row are the keys of the others, which are objects of JSON.
    pub header: bool,
}

impl AskedRows {
    /// Nothing is asked.
    pub const PLAIN: AskedRows = AskedRows {
        options: CsvOptions::PLAIN,
        from_a1: false,
        shown: false,
        header: false,
    };
}

/// How the rows of a table are written.
#[derive(Clone, Copy)]
pub struct AskedTable {
    pub options: CsvOptions,
    /// Each value as a spreadsheet program shows it.
    pub shown: bool,
}

impl AskedTable {
    /// Nothing is asked.
    pub const PLAIN: AskedTable = AskedTable {
        options: CsvOptions::PLAIN,
        shown: false,
    };
}

/// What stands behind a front of a text.
fn behind<'a>(text: &'a [u8], front: &[u8]) -> Option<&'a [u8]>
    ensures { option_map (λ rest. rest.now) result ≡ behind_front front.now text.now }
{
    text.strip_prefix(front)
}

fn one_delimiter(text: &[u8]) -> Option<Delimiter>
    ensures { result ≡ one_delimiter text.now }
{
    match text {
        [byte] => Delimiter::new(*byte),
        _ => None,
    }
}

/// The delimiter that stands behind `--delimiter=`: one ASCII character that is no quotation mark,
/// CR or LF, or a tab by its name.
fn delimiter_asked(text: &[u8]) -> Option<Delimiter>
    ensures { result ≡ delimiter_asked text.now }
{
    match text {
        b"tab" => Some(Delimiter::TAB),
        _ => one_delimiter(text),
    }
}

fn one_digit(unit: u8) -> Option<Digits>
    ensures { result ≡ one_digit unit }
{
    if unit.is_ascii_digit() {
        Digits::new(unit - b'0')
    } else {
        None
    }
}

fn two_digits(ten: u8, unit: u8) -> Option<Digits>
    ensures { result ≡ two_digits ten unit }
{
    if !ten.is_ascii_digit() || ten == b'0' || !unit.is_ascii_digit() {
        return None;
    }
    Digits::new((ten - b'0') * 10 + (unit - b'0'))
}

/// The number that stands behind `--digits=`: from 1 to 38, without a zero in front.
fn digits_asked(text: &[u8]) -> Option<Digits>
    ensures { result ≡ digits_asked text.now }
{
    match text {
        [unit] => one_digit(*unit),
        [ten, unit] => two_digits(*ten, *unit),
        _ => None,
    }
}

/// What is asked further, unless it was asked before.
fn unless(given: bool, asked: AskedRows) -> Option<AskedRows>
    ensures { result ≡ unless given asked }
{
    if given { None } else { Some(asked) }
}

fn delimiter_given(asked: AskedRows, text: &[u8]) -> Option<AskedRows>
    ensures { result ≡ delimiter_given asked text.now }
{
    let delimiter = Some(delimiter_asked(text)?);
    let options = CsvOptions {
        delimiter,
        ..asked.options
    };
    unless(
        asked.options.delimiter.is_some(),
        AskedRows { options, ..asked },
    )
}

fn digits_given(asked: AskedRows, text: &[u8]) -> Option<AskedRows>
    ensures { result ≡ digits_given asked text.now }
{
    let digits = Some(digits_asked(text)?);
    let options = CsvOptions {
        digits,
        ..asked.options
    };
    unless(
        asked.options.digits.is_some() || asked.shown,
        AskedRows { options, ..asked },
    )
}

/// What a word with a value asks further.
fn setting_asked(asked: AskedRows, word: &[u8]) -> Option<AskedRows>
    ensures { result ≡ setting_asked asked word.now }
{
    if let Some(text) = behind(word, b"--delimiter=") {
        return delimiter_given(asked, text);
    }
    let text = behind(word, b"--digits=")?;
    digits_given(asked, text)
}

/// Whether what is shown was asked for, or how numbers and dates are written that aren't shown.
fn are_spelled(asked: AskedRows) -> bool
    ensures { result ≡ are_spelled asked }
{
    asked.shown || asked.options.dates || asked.options.digits.is_some()
}

/// What a word asks further of how rows are written and where they begin. None where it asks
/// nothing, what was asked before, or what goes against that.
fn written_asked(asked: AskedRows, word: &str) -> Option<AskedRows>
    ensures { result ≡ written_asked asked word.now }
{
    let mut next = asked;
    let given = match word {
        "--dates" => {
            next.options.dates = true;
            asked.options.dates || asked.shown
        }
        "--crlf" => {
            next.options.crlf = true;
            asked.options.crlf
        }
        "--bom" => {
            next.options.bom = true;
            asked.options.bom
        }
        "--from-a1" => {
            next.from_a1 = true;
            asked.from_a1
        }
        _ => return setting_asked(asked, word.as_bytes()),
    };
    unless(given, next)
}

/// What a word asks further. None where it asks nothing, what was asked before, or what goes
/// against that.
#[tactic(auto, unfolding(crate::specs::AskedRows::option_asked))]
fn option_asked(asked: AskedRows, word: &str) -> Option<AskedRows>
    ensures { result ≡ option_asked asked word.now }
{
    match word {
        "--shown" => {
            let shown = true;
            unless(are_spelled(asked), AskedRows { shown, ..asked })
        }
        "--header" => {
            let header = true;
            unless(asked.header, AskedRows { header, ..asked })
        }
        _ => written_asked(asked, word),
    }
}

/// What words ask of the rows of a sheet, each at most once, in any order. None where a word asks
/// nothing.
pub fn rows_asked_by(words: &[String]) -> Option<AskedRows>
    ensures { result ≡ options_asked plain_rows (map string_bytes words.now) }
{
    let mut asked = AskedRows::PLAIN;
    'words: for i in 0..words.len() {
        asked = option_asked(asked, words[i].as_str())?;
    }
    Some(asked)
}

/// What words ask of the rows of a sheet as CSV, which have no keys.
pub fn csv_asked(words: &[String]) -> Option<AskedRows>
    ensures { result ≡ csv_asked (map string_bytes words.now) }
{
    let asked = rows_asked_by(words)?;
    if asked.header { None } else { Some(asked) }
}

/// What is asked of the rows of a table as objects of JSON, whose area has its own corner, whose
/// keys are its columns, and whose values are not shown.
pub fn of_table(asked: AskedRows) -> Option<CsvOptions>
    ensures { result ≡ of_table asked }
{
    if asked.from_a1 || asked.shown || asked.header {
        return None;
    }
    Some(asked.options)
}

/// What is asked of the rows of a table as CSV, whose area has its own corner, and whose header are
/// its columns.
fn of_csv_table(asked: AskedRows) -> Option<AskedTable>
    ensures { result ≡ of_csv_table asked }
{
    if asked.from_a1 || asked.header {
        return None;
    }
    Some(AskedTable {
        options: asked.options,
        shown: asked.shown,
    })
}

/// What words ask of the rows of a table as CSV.
pub fn table_rows_asked(words: &[String]) -> Option<AskedTable>
    ensures { result ≡ table_rows_asked (map string_bytes words.now) }
{
    of_csv_table(rows_asked_by(words)?)
}
