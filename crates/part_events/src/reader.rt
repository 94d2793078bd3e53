ghost use Rattle.std.specs.Prelude.{◌≡◌, length, true, [], IfOk, IfErr, OnErr};
ghost use Rattle.std.specs.Result.{is_err};
ghost use Rattle.part_events.specs.declared.fault.StreamError.TheVariants.{Io, Xml};
ghost use Rattle.part_events.specs.declared.fault.XmlFault.TheVariants.{Unclosed};
ghost use Rattle.part_events.specs.Event.{event_of};
ghost use Rattle.part_events.specs.Package.{Opens, OpenCounts, SameParts};
ghost use Rattle.part_events.specs.Reading.{Reading, OpensReader, IsReading, Reads, Steps};
ghost use Rattle.part_events.specs.Reading.{StepsAhead, NextFails, LeavesClosed, OpenFails};

use crate::event::PartEvent;
use crate::fault::{BreakCause, StreamError, XmlFault};
use crate::open_names::OpenNames;
use crate::package::Package;
use std::alloc::Global;
use std::marker::Model;

/// Reads the parts of a package that it owns, one after the other, and keeps the names of the
/// elements that are open in the part.
///
/// # Examples
///
/// How many events the part of a name has, where there is one:
///
/// ```
/// if !xml.open(name)? {
///     return Ok(None);
/// }
/// 'events: while xml.next()? {}
/// Ok(Some(xml.at()))
/// ```
#[derive(Drop)]
pub struct XlReader<P: Package> {
    package: P,
    names: OpenNames,
    at: u64,
    failed: bool,
    alloc: Global,
}

impl<P: Package> Model for XlReader<P> {
    ghost use Rattle.part_events.specs.Reading.{Reading};

    ghost Value = { Reading };

    ghost view = { λ r. record {
      source = P.state r.package;
      names = r.names;
      at = r.at;
      is_failed = r.failed;
      alloc = r.alloc;
    } };
}

impl<P: Package> XlReader<P> {
    /// A reader of this package, that has opened no part of it yet.
    pub fn new(alloc: Global, package: P) -> XlReader<P>
        ensures { result ≡ record {
          source = P.state «package»;
          names = [];
          at = 0;
          is_failed = true;
          alloc = alloc;
        } }
    {
        XlReader {
            package,
            names: OpenNames::new(alloc),
            at: 0,
            failed: true,
            alloc,
        }
    }

    /// Says to a proof that the state which the reader shows is that of a package of its type, as
    /// of one in memory, no call of which fails. It does nothing.
    pub fn holds_package(&self)
        ensures { (held : P) × (P.state held ≡ self.now.source) }
    {
        let _package = &self.package;
    }

    /// The package, as it is now.
    pub fn into_package(self) -> P
        ensures { P.state result ≡ self.source }
    {
        let XlReader {
            package,
            names: _,
            at: _,
            failed: _,
            alloc: _,
        } = self;
        package
    }

    /// Opens the part of this name, and stands before its first event. Answers false where there is
    /// none, and then there is no event to come. Its refusals are `Io`, where a call of the package
    /// failed, and `OutOfMemory`. Then no part is open, no event of one was taken, and nothing can
    /// be read on.
    pub fn open(&mut self, name: &str) -> Result<bool, StreamError>
        ensures reader { IfOk result (λ found. OpensReader self.old.source self.new) }
        ensures counts { IfOk result
            (λ found. OpenCounts found self.old.source self.new.source) }
        ensures opens { self.old.source.is_visible ≡ true → IfOk result
            (λ found. Opens name.now found self.old.source self.new.source) }
        ensures keeps { SameParts self.old.source self.new.source }
        ensures leaves { OnErr result (LeavesClosed self.old.source self.new.source) }
        ensures rests { self.new.is_failed ≡ is_err result }
        ensures begins { (self.new.at ≡ 0) × (self.new.names ≡ []) }
        ensures alloc { self.new.alloc ≡ self.old.alloc }
        ensures err { IfErr result (OpenFails self.old.source self.new.source) }
    {
        self.names = OpenNames::new(self.alloc);
        self.at = 0;
        // Each refusal leaves it so.
        self.failed = true;
        let found = self.package.open(name)?;
        // What is left bounds the events to come, so that their number can't overflow.
        let _bound = self.package.left();
        self.failed = false;
        Ok(found)
    }

    /// Takes the next event of the part. Answers false at the part's end. An end has to have the
    /// whole name of the innermost open element, and is refused otherwise as `Xml(Break)` with its
    /// number, counted from 0; so is a flaw.
    pub fn next(&mut self) -> Result<bool, StreamError>
        requires { IsReading self.old }
        ensures reads { Reads Io result self.old self.new }
        ensures steps { IfOk result (λ more. Steps more self.old self.new) }
        ensures ahead { self.old.source.is_visible ≡ true →
            IfOk result (λ more. StepsAhead more self.old self.new) }
        ensures err { IfErr result (NextFails self.old self.new) }
    {
        // Each refusal leaves it so.
        self.failed = true;
        if !self.package.advance()? {
            self.failed = false;
            return Ok(false);
        }
        let at = self.at;
        self.at += 1;
        match self.package.event() {
            PartEvent::Start(tag) => self.names.open(tag.name)?,
            PartEvent::End(name) => {
                if !self.names.close(name) {
                    let why = BreakCause::EndMismatch;
                    return Err(StreamError::Xml(XmlFault::Break { at, why }));
                }
            }
            PartEvent::Flaw(flaw) => {
                let why = BreakCause::Flawed(flaw);
                return Err(StreamError::Xml(XmlFault::Break { at, why }));
            }
            PartEvent::Text(_)
            | PartEvent::CharData(_)
            | PartEvent::EntityRef(_)
            | PartEvent::Other => {}
        }
        self.failed = false;
        Ok(true)
    }

    /// The event that the last call of `next` took.
    pub fn event(&self) -> PartEvent<'_>
        requires { self.now.source.has_current ≡ true }
        ensures { event_of result ≡ self.now.source.current }
    {
        self.package.event()
    }

    /// Leaves the part, which can't be read on from here.
    pub fn give_up(&mut self)
        ensures { self.new ≡ record self.old { is_failed = true } }
    {
        self.failed = true;
    }

    /// The refusal of a part that ends inside an element.
    pub(crate) fn leave_open(&mut self) -> StreamError
        ensures error { result ≡ Xml (Unclosed self.old.at) }
        ensures fails { self.new ≡ record self.old { is_failed = true } }
    {
        self.failed = true;
        StreamError::Xml(XmlFault::Unclosed { at: self.at })
    }

    /// How many events of the part were taken.
    pub fn at(&self) -> u64
        ensures { result ≡ self.now.at }
    {
        self.at
    }

    /// How many elements are open.
    pub fn depth(&self) -> usize
        ensures { result ≡ length self.now.names }
    {
        self.names.len()
    }

    /// Whether nothing can be read on, since no part was opened yet, or a call was refused.
    pub fn is_failed(&self) -> bool
        ensures { result ≡ self.now.is_failed }
    {
        self.failed
    }

    /// How often a call of the package failed.
    pub fn faults(&self) -> u64
        ensures { result ≡ self.now.source.faults }
    {
        self.package.faults()
    }

    /// The allocator that the reader was given.
    pub fn alloc(&self) -> Global
        ensures { result ≡ self.now.alloc }
    {
        self.alloc
    }
}
