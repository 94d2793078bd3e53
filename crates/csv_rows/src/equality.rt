//! What `==` and a copy of the types of this crate are.
ghost use Rattle.equalities.specs.Equality.{IsEquality, CopiesItself};

use crate::delimiter::{Delimiter, Digits};
use crate::error::CsvError;
use crate::options::CsvOptions;

/// `a == b` exactly where all fields are the same, at each type of this crate.
pub fn equality_is_by_all_fields()
    ensures { IsEquality ⟦<CsvError as PartialEq>⟧.eq }
{}

/// A copy of a value is that value, at each type of this crate that is `Copy`.
pub fn copies_are_the_same()
    ensures error { CopiesItself ⟦<CsvError as Clone>⟧.is_clone
        ⟦<CsvError as Clone>⟧.is_infallible }
    ensures delimiter { CopiesItself ⟦<Delimiter as Clone>⟧.is_clone
        ⟦<Delimiter as Clone>⟧.is_infallible }
    ensures digits { CopiesItself ⟦<Digits as Clone>⟧.is_clone
        ⟦<Digits as Clone>⟧.is_infallible }
    ensures options { CopiesItself ⟦<CsvOptions as Clone>⟧.is_clone
        ⟦<CsvOptions as Clone>⟧.is_infallible }
{}
