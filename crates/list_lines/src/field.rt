//! Fields of lines.
ghost use Rattle.list_lines.specs.Inside.{LiesInside, inside-one};

use crate::content::Content;

/// A key and what stands there.
#[derive(Clone, Copy)]
pub struct Field<'a> {
    pub key: &'a str,
    pub content: Content<'a>,
    pub ghost lies: { LiesInside content } by { inside-one content },
}
