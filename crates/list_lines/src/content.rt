//! What fields hold, and the two forms of a line.
use cell_refs::Dimensions;

/// How a line is written.
#[derive(Clone, Copy, Debug)]
pub enum LineForm {
    /// The fields with tabs between them.
    Text,
    /// An object of JSON, with a member for each field that isn't missing.
    Json,
}

/// What a field holds. Rows and columns are counted from 0.
#[derive(Clone, Copy)]
pub enum Content<'a> {
    /// A word of the program, as it is.
    Word(&'a str),
    /// A text, escaped.
    Text(&'a str),
    /// A text behind a mark, which JSON has not.
    Marked(&'a str, &'a str),
    /// A text that may be missing.
    Optional(Option<&'a str>),
    Position((u32, u32)),
    Area(Dimensions),
    /// An area that may be missing.
    OptionalArea(Option<Dimensions>),
}

/// What ends a line, under its key.
#[derive(Clone, Copy)]
pub enum Listed<'a> {
    Nothing,
    Texts(&'a str, &'a [String]),
    Areas(&'a str, &'a [Dimensions]),
}
