//! Places, and what is named there.
use formula_shift::Corner;

/// A name as it stands in a formula.
#[derive(Clone, Copy, Debug)]
pub enum Name<'a> {
    Plain(&'a str),
    /// What stands in apostrophes, without them. An apostrophe in it is doubled.
    Quoted(&'a str),
}

/// Where something is looked for.
#[derive(Clone, Copy, Debug)]
pub enum Place<'a> {
    /// The sheet of the formula.
    Here,
    OnSheet(Name<'a>),
    /// The sheets from one to another, or from the other to the one.
    OnSheets(Name<'a>, Name<'a>),
    /// The workbook, as `[0]!` says.
    InBook,
    /// Another file, by what brackets have before the name of a sheet. That may be empty.
    InFile { book: &'a str, sheet: Name<'a> },
    /// Another file, by a text in apostrophes.
    Elsewhere(Name<'a>),
}

/// What is named in a place.
#[derive(Clone, Copy, Debug)]
pub enum Named<'a> {
    /// What lies between two corners of one kind: cells, rows or columns.
    Cells(Corner, Corner),
    /// A reference that is lost, `#REF!`.
    Lost,
    /// A name, or a table where it names one.
    Name(&'a str),
    /// What brackets have behind a table's name.
    Table { name: &'a str, inside: &'a str },
    /// What brackets have of the table around the formula.
    OwnTable(&'a str),
}

/// What a formula mentions, or what stands between two mentions.
#[derive(Clone, Copy, Debug)]
pub enum Item<'a> {
    Says(Place<'a>, Named<'a>),
    /// The name of a function, behind which a bracket opens.
    Calls(Place<'a>, &'a str),
    Opens,
    Closes,
    Colon,
    /// Any other sign, a value, or blanks.
    Apart,
    /// A text that is nothing of a formula.
    Unread(Name<'a>),
    /// A place behind which nothing is named.
    Alone(Place<'a>),
}
