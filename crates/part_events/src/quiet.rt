ghost use Rattle.std.specs.Prelude.{◌≡◌, true, IfOk, IfErr};
ghost use Rattle.part_events.specs.Package.{SameParts, Refuses, Opens, OpenCounts, Advances};
ghost use Rattle.part_events.specs.Package.{AdvanceCounts};
ghost use Rattle.part_events.specs.Quiet.{quiet};

use crate::event::PartEvent;
use crate::package::{Package, PackageError};
use std::marker::Model;

/// A package that tells no content, to try what is promised of such a one. Every call is passed on
/// to the package in it.
#[derive(Debug, Drop)]
pub struct QuietPackage<P: Package> {
    inner: P,
}

impl<P: Package> Model for QuietPackage<P> {
    ghost Value = { P };

    ghost view = { λ a. a.inner };
}

impl<P: Package> QuietPackage<P> {
    /// The package, as one that tells no content.
    pub fn new(inner: P) -> QuietPackage<P>
        ensures same { result ≡ inner }
        ensures tells { ⟦<QuietPackage<P> as Package>⟧.state result ≡ quiet (P.state inner) }
    {
        QuietPackage { inner }
    }

    /// The package that was given to `new`, as the calls left it.
    pub fn into_inner(self) -> P
        ensures { result ≡ self }
    {
        let QuietPackage { inner } = self;
        inner
    }
}

// The clauses of `open` and `advance` are on the package in it, and say more than what is told.
impl<P: Package> Package for QuietPackage<P> {
    ghost state = { λ held. quiet (P.state held) };

    fn open(&mut self, name: &str) -> Result<bool, PackageError>
        ensures keeps { SameParts (P.state self.old) (P.state self.new) }
        ensures counts { IfOk result (λ found. OpenCounts found (P.state self.old)
            (P.state self.new)) }
        ensures opens { (P.state self.old).is_visible ≡ true
            → IfOk result (λ found. Opens name.now found (P.state self.old) (P.state self.new)) }
        ensures err { IfErr result (Refuses (P.state self.old) (P.state self.new)) }
    {
        self.inner.open(name)
    }

    fn advance(&mut self) -> Result<bool, PackageError>
        ensures keeps { SameParts (P.state self.old) (P.state self.new) }
        ensures counts { IfOk result (λ more. AdvanceCounts more (P.state self.old)
            (P.state self.new)) }
        ensures events { (P.state self.old).is_visible ≡ true
            → IfOk result (λ more. Advances more (P.state self.old) (P.state self.new)) }
        ensures err { IfErr result (Refuses (P.state self.old) (P.state self.new)) }
    {
        self.inner.advance()
    }

    fn event(&self) -> PartEvent<'_> {
        self.inner.event()
    }

    fn left(&self) -> u64 {
        self.inner.left()
    }

    fn taken(&self) -> u64 {
        self.inner.taken()
    }

    fn faults(&self) -> u64 {
        self.inner.faults()
    }
}
