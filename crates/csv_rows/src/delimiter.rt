//! The byte between two fields, and the number of digits of a number, where they are asked for.
ghost use Rattle.std.specs.Prelude.{◌≡◌};
ghost use Rattle.csv_rows.specs.Settings.{delimiter_by, digits_by};

/// The byte between two fields: an ASCII character that is no quotation mark, CR or LF.
#[derive(Clone, Copy, Debug)]
pub struct Delimiter {
    byte: u8,
}

impl Delimiter {
    /// A tab.
    pub const TAB: Delimiter = Delimiter { byte: b'\t' };

    /// The delimiter that a byte is. None where it is none: a quotation mark, a CR or an LF stands
    /// for itself in a field with quotes alone (RFC 4180), and a byte of 128 and more is a part of
    /// a character of UTF-8.
    pub fn new(byte: u8) -> Option<Delimiter>
        ensures { result ≡ delimiter_by byte }
    {
        if byte < 128 && byte != b'"' && byte != b'\r' && byte != b'\n' {
            Some(Delimiter { byte })
        } else {
            None
        }
    }

    /// The byte.
    pub fn byte(self) -> u8
        ensures { result ≡ self.byte }
    {
        self.byte
    }
}

/// How many significant digits a number is rounded to: from 1 to 38.
#[derive(Clone, Copy, Debug)]
pub struct Digits {
    count: u8,
}

impl Digits {
    /// So many digits. None where a number has none or more than 38 of them.
    pub fn new(count: u8) -> Option<Digits>
        ensures { result ≡ digits_by count }
    {
        if 0 < count && count <= 38 {
            Some(Digits { count })
        } else {
            None
        }
    }

    /// Their number.
    pub fn count(self) -> u8
        ensures { result ≡ self.count }
    {
        self.count
    }
}
