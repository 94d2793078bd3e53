ghost use Rattle.std.specs.Prelude.{◌≡◌, ◌≤◌, length, true, IfOk, IfErr};
ghost use Rattle.part_events.specs.Event.{event_of};
ghost use Rattle.part_events.specs.declared.package.PackageError.TheVariants.{OutOfMemory};
ghost use Rattle.part_events.specs.Package.{PackageState, SameParts, Refuses, Opens, OpenCounts};
ghost use Rattle.part_events.specs.Package.{Advances, AdvanceCounts};

use crate::event::PartEvent;
use std::alloc::AllocError;

/// Why a package could not be read.
#[derive(Clone, Copy, Debug, PartialEq, Eq)]
pub enum PackageError {
    /// Its count of faults rose, or stands at its end.
    Failed,
    /// The part could not be held.
    OutOfMemory,
}

impl From<AllocError> for PackageError {
    ghost from_gives = { λ _ error. error ≡ OutOfMemory };

    fn from(_error: AllocError) -> PackageError {
        PackageError::OutOfMemory
    }
}

/// Named parts, each a list of markup events, read through one cursor.
///
/// Names are compared with ASCII letters folded and `\` read as `/`, and the first part of a name
/// is found. Whether a package tells its content to proofs is its own choice; its counts and its
/// current event are always told. No call changes the parts.
pub trait Package {
    ghost state: { Self → PackageState };

    /// Opens the part of this name, and stands before its first event. Answers false, and no part
    /// is open, where there is none.
    fn open(&mut self, name: &str) -> Result<bool, PackageError>
        ensures keeps { SameParts (state self.old) (state self.new) }
        ensures counts { IfOk result (λ found. OpenCounts found (state self.old) (state self.new)) }
        ensures opens { (state self.old).is_visible ≡ true
            → IfOk result (λ found. Opens name.now found (state self.old) (state self.new)) }
        ensures err { IfErr result (Refuses (state self.old) (state self.new)) };

    /// Takes the next event of the open part. Answers false at its end, or where no part is open.
    fn advance(&mut self) -> Result<bool, PackageError>
        ensures keeps { SameParts (state self.old) (state self.new) }
        ensures counts { IfOk result (λ more. AdvanceCounts more (state self.old)
            (state self.new)) }
        ensures events { (state self.old).is_visible ≡ true
            → IfOk result (λ more. Advances more (state self.old) (state self.new)) }
        ensures err { IfErr result (Refuses (state self.old) (state self.new)) };

    /// The event that the last call took.
    fn event(&self) -> PartEvent<'_>
        requires { (state self.now).has_current ≡ true }
        ensures { event_of result ≡ (state self.now).current };

    /// How many events the open part still gives, at most.
    fn left(&self) -> u64
        ensures value { result ≡ (state self.now).left }
        ensures bound { (state self.now).is_visible ≡ true → length (state self.now).rest ≤
            result };

    /// How many events were taken of any part. The count stops at its last value.
    fn taken(&self) -> u64
        ensures { result ≡ (state self.now).taken };

    /// How often a call failed. The count never falls, and stops at its last value.
    fn faults(&self) -> u64
        ensures { result ≡ (state self.now).faults };
}
