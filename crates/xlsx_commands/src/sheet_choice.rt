//! Which sheet is asked for, where words tell none by its name, and why none is.
ghost use Rattle.std.specs.Prelude.{◌≡◌, map};
ghost use Rattle.xlsx_commands.specs.ChosenSheets.{choice_of};

use std::fmt;
use xlsx_sections::number_text;

/// Which sheet is asked for.
#[derive(Clone, Copy)]
pub enum SheetChoice {
    /// The one that stands at this number among all sheets of the workbook, counted from 1.
    Numbered(u64),
    /// The first worksheet.
    FirstWorksheet,
}

/// Why no sheet is chosen.
#[derive(Clone, Copy, Debug, PartialEq, Eq)]
pub enum SheetFault {
    /// The workbook has no sheet of this number, counted from 1, but so many.
    NoSheet(u64, usize),
    /// The sheet of this number, counted from 1, has the name of an earlier one.
    NamedBefore(u64),
    /// The workbook has no worksheet.
    NoWorksheet,
}

/// The sheet that a word chooses: a number from 1, or the word `first`.
pub fn choice_of(word: &str) -> Option<SheetChoice>
    ensures { result ≡ choice_of word.now }
{
    if word == "first" {
        return Some(SheetChoice::FirstWorksheet);
    }
    let number = number_text(word)?;
    if 0 < number {
        Some(SheetChoice::Numbered(number))
    } else {
        None
    }
}

impl fmt::Display for SheetFault {
    ghost use Rattle.std.specs.Prelude.{Some};
    ghost use Rattle.xlsx_commands.specs.Status.{choice_text};

    ghost output = { λ fault. Some (choice_text fault) };

    fn fmt<W: fmt::Write>(&self, f: &mut fmt::Formatter<W>) -> fmt::Result {
        match self {
            SheetFault::NoSheet(number, count) => write!(
                f,
                "there is no sheet {number}: the number of sheets is {count}"
            ),
            SheetFault::NamedBefore(number) => {
                write!(f, "sheet {number} has the name of an earlier sheet")
            }
            SheetFault::NoWorksheet => f.write_str("the workbook has no worksheet"),
        }
    }
}
