//! What `==` and a copy of the types of this crate are.
ghost use Rattle.equalities.specs.Equality.{IsEquality, IsEqualityBy, CopiesItself};
ghost use Rattle.formula_shift.specs.Pieces.{piece_text};

use crate::{Corner, Piece, Pieces, Reference};

/// `a == b` exactly where all fields are the same, at each type of this crate, texts by their
/// bytes.
pub fn equality_is_by_all_fields<'a>()
    ensures corner { IsEquality ⟦<Corner as PartialEq>⟧.eq }
    ensures reference { IsEquality ⟦<Reference as PartialEq>⟧.eq }
    ensures piece { IsEqualityBy piece_text ⟦<Piece<'a> as PartialEq>⟧.eq }
{}

/// A copy of a value is that value, at each type of this crate that is `Copy`.
pub fn copies_are_the_same<'a>()
    ensures corner { CopiesItself ⟦<Corner as Clone>⟧.is_clone ⟦<Corner as Clone>⟧.is_infallible }
    ensures reference { CopiesItself ⟦<Reference as Clone>⟧.is_clone
        ⟦<Reference as Clone>⟧.is_infallible }
    ensures piece { CopiesItself ⟦<Piece<'a> as Clone>⟧.is_clone
        ⟦<Piece<'a> as Clone>⟧.is_infallible }
    ensures pieces { CopiesItself ⟦<Pieces<'a> as Clone>⟧.is_clone
        ⟦<Pieces<'a> as Clone>⟧.is_infallible }
{}
