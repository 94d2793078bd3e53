ghost use Rattle.std.specs.Prelude.{◌≡◌};
ghost use Rattle.attr_text.specs.Words.{local_name_of};

use crate::flaw::Flaw;
use attr_text::{RawAttributes, local_name};

/// The start of an element.
#[derive(Clone, Copy, Debug, PartialEq, Eq)]
pub struct StartTag<'a> {
    /// The whole name, a prefix and its `:` included.
    pub name: &'a str,
    /// The text between the name and the end of the tag, as written.
    pub attributes: &'a str,
}

impl<'a> StartTag<'a> {
    /// What follows the last `:` of the name, or the whole name.
    pub fn local_name(&self) -> &'a str
        ensures { result.now ≡ local_name_of self.now.name.now }
    {
        local_name(self.name)
    }
}

impl RawAttributes for StartTag<'_> {
    ghost attributes = { λ tag. tag.attributes.now };

    fn attributes_raw(&self) -> &str {
        self.attributes
    }
}

/// One markup event of a part. An empty element is a start and an end.
#[derive(Clone, Copy, Debug, PartialEq, Eq)]
pub enum PartEvent<'a> {
    Start(StartTag<'a>),
    /// The whole name of the element that ends.
    End(&'a str),
    Text(&'a str),
    CharData(&'a str),
    /// The name between `&` and `;`.
    EntityRef(&'a str),
    /// Nothing is told of the part from here on. It is the part's last event, and no element goes
    /// on behind it.
    Flaw(Flaw),
    /// A comment, a declaration or an instruction.
    Other,
}
