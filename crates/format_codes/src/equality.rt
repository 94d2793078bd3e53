//! What `==` and a copy of the types of this crate are.
ghost use Rattle.equalities.specs.Equality.{CopiesItself, IsEquality};

use crate::kind::SectionKind;
use crate::piece::{CodePiece, Comparison, Condition, Filler, HalfDay, TimeUnit};
use crate::shown_format::ChosenSection;

/// `a == b` exactly where both are the same, at each type of this crate that has `==`.
pub fn equality_is_by_all_fields()
    ensures filler { IsEquality ⟦<Filler as PartialEq>⟧.eq }
    ensures unit { IsEquality ⟦<TimeUnit as PartialEq>⟧.eq }
    ensures comparison { IsEquality ⟦<Comparison as PartialEq>⟧.eq }
    ensures kind { IsEquality ⟦<SectionKind as PartialEq>⟧.eq }
{}

/// A copy of a value is that value, at each type of this crate that is `Copy`.
pub fn copies_are_the_same<'a>()
    ensures filler { CopiesItself ⟦<Filler as Clone>⟧.is_clone ⟦<Filler as Clone>⟧.is_infallible }
    ensures unit { CopiesItself ⟦<TimeUnit as Clone>⟧.is_clone
        ⟦<TimeUnit as Clone>⟧.is_infallible }
    ensures half_day { CopiesItself ⟦<HalfDay as Clone>⟧.is_clone
        ⟦<HalfDay as Clone>⟧.is_infallible }
    ensures comparison { CopiesItself ⟦<Comparison as Clone>⟧.is_clone
        ⟦<Comparison as Clone>⟧.is_infallible }
    ensures condition { CopiesItself ⟦<Condition as Clone>⟧.is_clone
        ⟦<Condition as Clone>⟧.is_infallible }
    ensures piece { CopiesItself ⟦<CodePiece as Clone>⟧.is_clone
        ⟦<CodePiece as Clone>⟧.is_infallible }
    ensures kind { CopiesItself ⟦<SectionKind as Clone>⟧.is_clone
        ⟦<SectionKind as Clone>⟧.is_infallible }
    ensures chosen { CopiesItself ⟦<ChosenSection<'a> as Clone>⟧.is_clone
        ⟦<ChosenSection<'a> as Clone>⟧.is_infallible }
{}
