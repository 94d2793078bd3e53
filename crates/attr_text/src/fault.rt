ghost use Rattle.std.specs.Prelude.{◌≡◌};

use std::alloc::AllocError;
use std::fmt;
use thiserror::Error;

/// Why the items of an attribute text end early. Each place is counted in bytes from the start of
/// the attribute text.
#[derive(Clone, Copy, Debug, PartialEq, Eq, Hash, Error)]
pub enum AttrFault {
    /// No `=` follows the key that begins here.
    #[error("{} at {}", self.description(), self.place())]
    ExpectedEq(usize),
    /// The value that is expected here does not begin with a quote.
    #[error("{} at {}", self.description(), self.place())]
    UnquotedValue(usize),
}

impl AttrFault {
    ghost use Rattle.attr_text.specs.TextFaults.{attribute_description, attribute_place};

    /// What is wrong, in words.
    pub fn description(&self) -> &'static str
        ensures { result.now ≡ attribute_description self.now }
    {
        match self {
            AttrFault::ExpectedEq(_) => "expected '='",
            AttrFault::UnquotedValue(_) => "unquoted value",
        }
    }

    /// The byte of the attribute text at which it is wrong, counted from 0.
    pub fn place(&self) -> usize
        ensures { result ≡ attribute_place self.now }
    {
        match *self {
            AttrFault::ExpectedEq(place) | AttrFault::UnquotedValue(place) => place,
        }
    }
}

/// Why a text could not be decoded.
#[derive(Clone, Copy, Debug, PartialEq, Eq, Hash)]
pub enum TextFault {
    /// The `&` at this byte has no later `;`, or its name has no character.
    Entity { at: usize },
    OutOfMemory,
}

impl fmt::Display for TextFault {
    ghost use Rattle.std.specs.Prelude.{Some};
    ghost use Rattle.attr_text.specs.TextFaults.{fault_text};

    ghost output = { λ fault. Some (fault_text fault) };

    fn fmt<W: fmt::Write>(&self, f: &mut fmt::Formatter<W>) -> fmt::Result {
        match self {
            TextFault::Entity { at } => write!(f, "unknown entity at {at}"),
            TextFault::OutOfMemory => write!(f, "out of memory"),
        }
    }
}

impl std::error::Error for TextFault {}

impl From<AllocError> for TextFault {
    ghost use Rattle.attr_text.specs.declared.fault.TextFault.TheVariants.{OutOfMemory};

    ghost from_gives = { λ _ fault. fault ≡ OutOfMemory };

    fn from(_error: AllocError) -> TextFault {
        TextFault::OutOfMemory
    }
}
