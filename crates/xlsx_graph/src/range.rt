//! Two areas around a colon.
ghost use Rattle.std.specs.Prelude.{◌≡◌, [], ◌∷◌};
ghost use Rattle.xlsx_graph.specs.Naming.{hull, joined_areas, joined_pair};

use crate::named::BookArea;
use cell_refs::Dimensions;

/// The least area that has two.
pub(crate) fn hull(a: Dimensions, b: Dimensions) -> Dimensions
    ensures { result ≡ hull a b }
{
    Dimensions {
        start: (a.start.0.min(b.start.0), a.start.1.min(b.start.1)),
        end: (a.end.0.max(b.end.0), a.end.1.max(b.end.1)),
    }
}

/// The area from one to another, where both lie on the same sheets.
fn joined_areas(a: BookArea, b: BookArea) -> Option<BookArea>
    ensures { result ≡ joined_areas (a ∷ []) (b ∷ []) }
{
    if a.first == b.first && a.last == b.last {
        Some(BookArea {
            first: a.first,
            last: a.last,
            area: hull(a.area, b.area),
            is_valued: true,
        })
    } else {
        None
    }
}

/// The area that two areas are joined to, where there are just two.
pub(crate) fn joined_pair(areas: &[BookArea]) -> Option<BookArea>
    ensures { result ≡ joined_pair areas.now }
{
    match areas {
        [first, second] => joined_areas(*first, *second),
        _ => None,
    }
}
