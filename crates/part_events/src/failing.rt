ghost use Rattle.std.specs.Prelude.{◌≡◌, ◌≤◌, true, OnOk, OnErr, IfOk, IfErr, is_err};
ghost use Rattle.part_events.specs.declared.package.PackageError.TheVariants.{Failed};
ghost use Rattle.part_events.specs.Failing.{Planned, planned_state, CountsCall};
ghost use Rattle.part_events.specs.Memory.{closed};
ghost use Rattle.part_events.specs.Package.{SameParts, Refuses, Opens, OpenCounts, Advances};
ghost use Rattle.part_events.specs.Package.{AdvanceCounts};

use crate::event::PartEvent;
use crate::memory::MemoryPackage;
use crate::package::{Package, PackageError};
use std::marker::Model;

/// A package in memory some calls of which fail, to try what callers do then. Its calls of `open`
/// and `advance` are numbered from 0. After a failed call no part is open.
#[derive(Debug, Drop)]
pub struct FailingPackage {
    inner: MemoryPackage,
    calls: Vec<u64>,
    made: u64,
    faults: u64,
}

impl Model for FailingPackage {
    ghost use Rattle.part_events.specs.Failing.{Planned};

    ghost Value = { Planned };

    ghost view = { λ a. record {
      inner = a.inner;
      calls = a.calls.items;
      made = a.made;
      faults =
          a.faults;
    } };
}

impl FailingPackage {
    /// The package, where the calls with these numbers fail.
    pub fn new(inner: MemoryPackage, calls: Vec<u64>) -> FailingPackage
        ensures { result ≡ record { inner = inner; calls = calls.items; made = 0; faults = 0 } }
    {
        FailingPackage {
            inner,
            calls,
            made: 0,
            faults: 0,
        }
    }

    /// The package that was given to `new`, as the calls left it.
    pub fn into_inner(self) -> MemoryPackage
        ensures { result ≡ self.inner }
    {
        let FailingPackage {
            inner,
            calls: _,
            made: _,
            faults: _,
        } = self;
        inner
    }

    /// Counts a call, and refuses it if it is one of those that fail.
    fn count_call(&mut self) -> Result<(), PackageError>
        ensures counts { CountsCall (is_err result) self.old self.new }
        ensures rises { self.old.faults ≤ self.new.faults }
        ensures ok { OnOk result (self.new.inner ≡ self.old.inner) }
        ensures err { OnErr result (self.new.inner
            ≡ closed self.old.inner.parts self.old.inner.taken) }
        ensures failed { IfErr result (λ error. error ≡ Failed) }
    {
        let number = self.made;
        self.made = self.made.saturating_add(1);
        if !self.calls.contains(&number) {
            return Ok(());
        }
        self.faults = self.faults.saturating_add(1);
        self.inner.close();
        Err(PackageError::Failed)
    }
}

impl Package for FailingPackage {
    ghost state = { planned_state };

    fn open(&mut self, name: &str) -> Result<bool, PackageError>
        ensures keeps { SameParts (planned_state self.old) (planned_state self.new) }
        ensures counts { IfOk result (λ found. OpenCounts found (planned_state self.old)
            (planned_state self.new)) }
        ensures opens { (planned_state self.old).is_visible ≡ true
            → IfOk result (λ found. Opens name.now found (planned_state self.old)
            (planned_state self.new)) }
        ensures err { IfErr result (Refuses (planned_state self.old) (planned_state self.new)) }
        ensures planned { CountsCall (is_err result) self.old self.new }
    {
        self.count_call()?;
        self.inner.open(name)
    }

    fn advance(&mut self) -> Result<bool, PackageError>
        ensures keeps { SameParts (planned_state self.old) (planned_state self.new) }
        ensures counts { IfOk result (λ more. AdvanceCounts more (planned_state self.old)
            (planned_state self.new)) }
        ensures events { (planned_state self.old).is_visible ≡ true
            → IfOk result (λ more. Advances more (planned_state self.old)
            (planned_state self.new)) }
        ensures err { IfErr result (Refuses (planned_state self.old) (planned_state self.new)) }
        ensures planned { CountsCall (is_err result) self.old self.new }
    {
        self.count_call()?;
        self.inner.advance()
    }

    fn event(&self) -> PartEvent<'_> {
        self.inner.event()
    }

    fn left(&self) -> u64 {
        self.inner.left()
    }

    fn taken(&self) -> u64 {
        self.inner.taken()
    }

    fn faults(&self) -> u64 {
        self.faults
    }
}
