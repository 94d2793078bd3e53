//! How rows are written.
ghost use Rattle.std.specs.Prelude.{◌≡◌};
ghost use Rattle.csv_rows.specs.RowSteps.{IsBetweenRecords};
ghost use Rattle.csv_rows.specs.RowsText.{delimiter_of, digits_of, terminator_of};

use crate::delimiter::{Delimiter, Digits};
use csv::{Terminator, Writer, WriterBuilder};

/// How rows are written. `CsvOptions::PLAIN` has none of these.
#[derive(Clone, Copy, Debug)]
pub struct CsvOptions {
    /// Dates and times that have passed by their texts, and not by the number of their days.
    pub dates: bool,
    /// How many significant digits a number is rounded to. The days of a date that is written by
    /// its text are not.
    pub digits: Option<Digits>,
    /// The byte between two fields, where it is no comma.
    pub delimiter: Option<Delimiter>,
    /// CR and LF at the end of a record, and not LF alone.
    pub crlf: bool,
    /// The three bytes of a byte order mark in front of the first record.
    pub bom: bool,
}

impl CsvOptions {
    /// Numbers as they are, commas between fields, and LF at the end of a record.
    pub const PLAIN: CsvOptions = CsvOptions {
        dates: false,
        digits: None,
        delimiter: None,
        crlf: false,
        bom: false,
    };

    /// The byte between two fields.
    fn delimiter(&self) -> u8
        ensures { result ≡ delimiter_of self.now.delimiter }
    {
        match self.delimiter {
            Some(delimiter) => delimiter.byte(),
            None => b',',
        }
    }

    /// How many digits a number is rounded to, where digits are asked for.
    pub fn digit_count(&self) -> Option<u8>
        ensures { result ≡ digits_of self.now.digits }
    {
        let digits = self.digits?;
        Some(digits.count())
    }

    /// What ends a record.
    fn terminator(&self) -> Terminator
        ensures { result ≡ terminator_of self.now.crlf }
    {
        if self.crlf {
            Terminator::CRLF
        } else {
            Terminator::Any(b'\n')
        }
    }

    /// A writer of records behind these bytes.
    pub(crate) fn writer(&self, front: Vec<u8>) -> Writer<Vec<u8>>
        ensures { IsBetweenRecords self.now front.items result }
    {
        WriterBuilder::new()
            .delimiter(self.delimiter())
            .terminator(self.terminator())
            .from_writer(front)
    }
}
