//! What stands before an item.

/// What stands just before an item of a formula.
#[derive(Clone, Copy, Debug)]
pub(crate) enum Before {
    /// The name of a function that asks where an area is.
    PlaceFunction,
    /// The bracket behind such a name.
    PlaceBracket,
    AnyOther,
}
