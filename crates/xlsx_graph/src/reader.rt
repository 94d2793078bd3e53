//! How a text is read.
use crate::named::Standing;

/// For which cell a text is read, and where its words are looked up.
#[derive(Clone, Copy, Debug)]
pub(crate) struct Reader {
    /// The cell of the formula.
    pub cell: Standing,
    /// The number of the sheet on which words are looked up, counted from 0.
    pub sheet: usize,
    /// Whether the text is a defined name's, whose references are told from A1.
    pub is_name: bool,
}
