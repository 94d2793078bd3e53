//! What `==` and a copy of the types of this crate are.
ghost use Rattle.equalities.specs.Equality.{IsEquality, IsEqualityBy, CopiesItself};
ghost use Rattle.part_events.specs.Event.{tag_of, event_of};

use crate::event::{PartEvent, StartTag};
use crate::fault::{BreakCause, StreamError, XmlFault};
use crate::flaw::Flaw;
use crate::memory::Place;
use crate::package::PackageError;
use crate::stored::StoredEvent;
use crate::walk::{Step, Wanted};

/// `a == b` exactly where all fields are the same, at each type of this crate, texts by their
/// bytes.
pub fn equality_is_by_all_fields<'a>()
    ensures start_tag { IsEqualityBy tag_of ⟦<StartTag<'a> as PartialEq>⟧.eq }
    ensures part_event { IsEqualityBy event_of ⟦<PartEvent<'a> as PartialEq>⟧.eq }
    ensures flaw { IsEquality ⟦<Flaw as PartialEq>⟧.eq }
    ensures break_cause { IsEquality ⟦<BreakCause as PartialEq>⟧.eq }
    ensures xml_fault { IsEquality ⟦<XmlFault as PartialEq>⟧.eq }
    ensures stream_error { IsEquality ⟦<StreamError as PartialEq>⟧.eq }
    ensures package_error { IsEquality ⟦<PackageError as PartialEq>⟧.eq }
    ensures step { IsEquality ⟦<Step as PartialEq>⟧.eq }
{}

/// A copy of a value is that value, at each type of this crate that is `Copy`.
pub fn copies_are_the_same<'a>()
    ensures start_tag { CopiesItself ⟦<StartTag<'a> as Clone>⟧.is_clone
        ⟦<StartTag<'a> as Clone>⟧.is_infallible }
    ensures part_event { CopiesItself ⟦<PartEvent<'a> as Clone>⟧.is_clone
        ⟦<PartEvent<'a> as Clone>⟧.is_infallible }
    ensures flaw { CopiesItself ⟦<Flaw as Clone>⟧.is_clone ⟦<Flaw as Clone>⟧.is_infallible }
    ensures break_cause { CopiesItself ⟦<BreakCause as Clone>⟧.is_clone
        ⟦<BreakCause as Clone>⟧.is_infallible }
    ensures xml_fault { CopiesItself ⟦<XmlFault as Clone>⟧.is_clone
        ⟦<XmlFault as Clone>⟧.is_infallible }
    ensures stream_error { CopiesItself ⟦<StreamError as Clone>⟧.is_clone
        ⟦<StreamError as Clone>⟧.is_infallible }
    ensures package_error { CopiesItself ⟦<PackageError as Clone>⟧.is_clone
        ⟦<PackageError as Clone>⟧.is_infallible }
    ensures step { CopiesItself ⟦<Step as Clone>⟧.is_clone ⟦<Step as Clone>⟧.is_infallible }
    ensures wanted { CopiesItself ⟦<Wanted<'a> as Clone>⟧.is_clone
        ⟦<Wanted<'a> as Clone>⟧.is_infallible }
    ensures stored_event { CopiesItself ⟦<StoredEvent as Clone>⟧.is_clone
        ⟦<StoredEvent as Clone>⟧.is_infallible }
    ensures place { CopiesItself ⟦<Place as Clone>⟧.is_clone ⟦<Place as Clone>⟧.is_infallible }
{}
