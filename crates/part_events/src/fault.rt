ghost use Rattle.std.specs.Prelude.{◌≡◌};
ghost use Rattle.part_events.specs.declared.fault.StreamError.TheVariants.{Xml, OutOfMemory};

use crate::flaw::Flaw;
use crate::package::PackageError;
use std::alloc::AllocError;
use std::fmt;
use thiserror::Error;

/// Why an event doesn't go on with what stands before it.
#[derive(Clone, Copy, Debug, PartialEq, Eq)]
pub enum BreakCause {
    /// An end whose whole name is not that of the innermost open element.
    EndMismatch,
    /// Nothing is told of the part from there on.
    Flawed(Flaw),
}

impl BreakCause {
    ghost use Rattle.part_events.specs.StreamFaults.{break_description};

    /// What is wrong, in words.
    pub fn description(&self) -> &'static str
        ensures { result.now ≡ break_description self.now }
    {
        match self {
            BreakCause::EndMismatch => "end tag mismatch",
            BreakCause::Flawed(flaw) => flaw.description(),
        }
    }
}

/// What is wrong with the markup of a part. Events are counted from 0.
#[derive(Clone, Copy, Debug, PartialEq, Eq, Error)]
pub enum XmlFault {
    /// No element goes on at this event: it is an end of another name, or a flaw.
    #[error("{} at {}", self.description(), self.place())]
    Break { at: u64, why: BreakCause },
    /// The part has `at` events, and ends inside an element that was to be read to its end.
    #[error("{} at {}", self.description(), self.place())]
    Unclosed { at: u64 },
    /// A reference without a character.
    #[error("{} at {}", self.description(), self.place())]
    Entity { at: u64 },
}

impl XmlFault {
    ghost use Rattle.part_events.specs.StreamFaults.{markup_description, markup_place};

    /// What is wrong, in words.
    pub fn description(&self) -> &'static str
        ensures { result.now ≡ markup_description self.now }
    {
        match self {
            XmlFault::Break { at: _, why } => why.description(),
            XmlFault::Unclosed { .. } => "unclosed element",
            XmlFault::Entity { .. } => "unknown entity",
        }
    }

    /// The number of the event at which it is wrong, counted from 0.
    pub fn place(&self) -> u64
        ensures { result ≡ markup_place self.now }
    {
        match *self {
            XmlFault::Break { at, why: _ } | XmlFault::Unclosed { at } | XmlFault::Entity { at } =>
                at,
        }
    }
}

/// Why a part could not be read on.
#[derive(Clone, Copy, Debug, PartialEq, Eq)]
pub enum StreamError {
    /// The package could not be read.
    Io,
    /// The markup of the part is at fault.
    Xml(XmlFault),
    OutOfMemory,
}

impl fmt::Display for StreamError {
    ghost use Rattle.std.specs.Prelude.{Some};
    ghost use Rattle.part_events.specs.StreamFaults.{stream_text};

    ghost output = { λ error. Some (stream_text error) };

    fn fmt<W: fmt::Write>(&self, f: &mut fmt::Formatter<W>) -> fmt::Result {
        match self {
            StreamError::Io => f.write_str("the package could not be read"),
            StreamError::Xml(fault) => write!(f, "{} at {}", fault.description(), fault.place()),
            StreamError::OutOfMemory => f.write_str("out of memory"),
        }
    }
}

impl std::error::Error for StreamError {}

impl From<PackageError> for StreamError {
    ghost use Rattle.part_events.specs.StreamFaults.{of_package};

    ghost from_gives = { λ fault error. error ≡ of_package fault };

    fn from(fault: PackageError) -> StreamError {
        match fault {
            PackageError::Failed => StreamError::Io,
            PackageError::OutOfMemory => StreamError::OutOfMemory,
        }
    }
}

impl From<XmlFault> for StreamError {
    ghost from_gives = { λ fault error. error ≡ Xml fault };

    fn from(fault: XmlFault) -> StreamError {
        StreamError::Xml(fault)
    }
}

impl From<AllocError> for StreamError {
    ghost from_gives = { λ _ error. error ≡ OutOfMemory };

    fn from(_error: AllocError) -> StreamError {
        StreamError::OutOfMemory
    }
}
