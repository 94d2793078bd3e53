//! A field of each kind.
ghost use Rattle.std.specs.Prelude.{◌≡◌, IfSome};
ghost use Rattle.std.specs.Option.{option_copied};
ghost use Rattle.list_lines.specs.Fields.{keyed, field_meant, word, text, marked, optional};
ghost use Rattle.list_lines.specs.Fields.{position, area, optional_area};
ghost use Rattle.list_lines.specs.Inside.{IsCellOfWorksheet, LiesInWorksheet};

use crate::content::Content;
use crate::field::Field;
use cell_refs::Dimensions;

impl<'a> Field<'a> {
    /// A word of the program, which is written as it is.
    pub fn word(key: &'a str, own: &'a str) -> Field<'a>
        ensures { field_meant result ≡ keyed key.now (word own.now) }
    {
        Field {
            key,
            content: Content::Word(own),
        }
    }

    /// A text, which is escaped.
    pub fn text(key: &'a str, own: &'a str) -> Field<'a>
        ensures { field_meant result ≡ keyed key.now (text own.now) }
    {
        Field {
            key,
            content: Content::Text(own),
        }
    }

    /// A text behind a mark, which JSON has not.
    pub fn marked(key: &'a str, mark: &'a str, own: &'a str) -> Field<'a>
        ensures { field_meant result ≡ keyed key.now (marked mark.now own.now) }
    {
        Field {
            key,
            content: Content::Marked(mark, own),
        }
    }

    /// A text that may be missing.
    pub fn optional(key: &'a str, own: Option<&'a str>) -> Field<'a>
        ensures { field_meant result ≡ keyed key.now (optional (option_copied own.entry)) }
    {
        Field {
            key,
            content: Content::Optional(own),
        }
    }

    /// A position, its row and its column counted from 0.
    pub fn position(key: &'a str, own: (u32, u32)) -> Field<'a>
        requires { IsCellOfWorksheet own }
        ensures { field_meant result ≡ keyed key.now (position own) }
    {
        Field {
            key,
            content: Content::Position(own),
        }
    }

    /// An area by its two corners.
    pub fn area(key: &'a str, own: Dimensions) -> Field<'a>
        requires { LiesInWorksheet own }
        ensures { field_meant result ≡ keyed key.now (area own) }
    {
        Field {
            key,
            content: Content::Area(own),
        }
    }

    /// An area that may be missing.
    pub fn optional_area(key: &'a str, own: Option<Dimensions>) -> Field<'a>
        requires { IfSome own LiesInWorksheet }
        ensures { field_meant result ≡ keyed key.now (optional_area own) }
    {
        Field {
            key,
            content: Content::OptionalArea(own),
        }
    }
}
