ghost use Rattle.std.specs.Prelude.{◌≡◌, ◌+◌, ◌-◌, ◌^◌, ◌<◌, ◌≤◌, ◌↔◌, min, IsTrue, IfOk, IfSome};
ghost use Rattle.std.specs.Prelude.{IfNone, [], ◌∷◌, length};
ghost use Rattle.cell_refs.specs.A1.{area, parts, corners};
ghost use Rattle.cell_refs.specs.Dimensions.{corner_count};

use crate::{RefError, get_row_column};

/// An area of cells by two of its corners, each a row and a column counted from 0.
///
/// The ends stay as they are written: `start` may lie below or to the right of `end`, and the area
/// then has no cell.
///
/// # Examples
///
/// D35 lies in the area, and neither D36 nor B35 does:
///
/// ```
/// let area = get_dimension("C2:D35")?;
/// assert!(rt; area.contains(34, 3) && !area.contains(35, 3) && !area.contains(34, 1));
/// ```
#[derive(Clone, Copy, Debug, PartialEq, Eq, Hash)]
pub struct Dimensions {
    pub start: (u32, u32),
    pub end: (u32, u32),
}

impl Default for Dimensions {
    ghost is_default = { λ d. d ≡ record { start = (0, 0); end = (0, 0) } };

    fn default() -> Self {
        Dimensions {
            start: (0, 0),
            end: (0, 0),
        }
    }
}

#[allow(clippy::len_without_is_empty)]
impl Dimensions {
    ghost use Rattle.cell_refs.specs.Dimensions.{IsInArea, cell_count};

    /// Whether the cell lies in the area, ends included.
    pub fn contains(&self, row: u32, column: u32) -> bool
        ensures { IsTrue result ↔ IsInArea self.now row column }
    {
        row >= self.start.0 && row <= self.end.0 && column >= self.start.1 && column <= self.end.1
    }

    /// The number of cells, or `u64::MAX` where there are 2^64.
    pub fn len(&self) -> u64
        ensures { result ≡ min (cell_count self.now) (2 ^ 64 - 1) }
    {
        let rows = span(self.start.0, self.end.0);
        let columns = span(self.start.1, self.end.1);
        rows.saturating_mul(columns)
    }
}

/// How many numbers there are from one to another.
fn span(first: u32, last: u32) -> u64
    ensures { result ≡ last + 1 - first }
{
    (u64::from(last) + 1).saturating_sub(u64::from(first))
}

/// The first part before a colon and what stands behind that, where there is a colon.
fn split_part(text: &str) -> Option<(&str, &str)>
    ensures whole { IfNone result (parts text.now ≡ text.now ∷ []) }
    ensures split { IfSome result (λ x. parts text.now ≡ x.0.now ∷ parts x.1.now) }
    ensures shorter { IfSome result (λ x. length x.1.now < length text.now) }
{
    text.split_once(':')
}

/// The number of parts between colons, where each is a reference.
fn count_parts(dimension: &str) -> Result<usize, RefError>
    ensures count { result ≡ corner_count (corners (parts dimension.now)) }
    ensures bounds { IfOk result (λ count. (1 ≤ count) × (count ≤ length dimension.now + 1)) }
{
    let mut before = 0;
    let mut rest = dimension;
    while let Some((part, after)) = split_part(rest) {
        get_row_column(part)?;
        before += 1;
        rest = after;
    }
    get_row_column(rest)?;
    Ok(before + 1)
}

/// The area that a text such as `C2:D35` names. A single reference is both ends.
///
/// Each part between colons is read in order, and the first that is no reference is the refusal;
/// more than two parts are refused after that as `DimensionCount`, with their number.
///
/// # Examples
///
/// Texts, and what is answered, where `area` makes an area of its corners:
///
/// ```
/// ("C2:D35", area((1, 2), (34, 3))),
/// ("D35:C2", area((34, 3), (1, 2))),
/// ("A1:XFD1048576", area((0, 0), (1_048_575, 16_383))),
/// ("B3", area((2, 1), (2, 1))),
/// ("A1:B2:C3", Err(RefError::DimensionCount(3))),
/// ("A1:", Err(RefError::RangeWithoutRowComponent)),
/// ```
#[tactic(auto, unfolding(crate::specs::A1::area))]
pub fn get_dimension(dimension: &str) -> Result<Dimensions, RefError>
    ensures { result ≡ area dimension.now }
{
    let Some((first, others)) = split_part(dimension) else {
        let corner = get_row_column(dimension)?;
        return Ok(Dimensions {
            start: corner,
            end: corner,
        });
    };
    let start = get_row_column(first)?;
    let Some((second, more)) = split_part(others) else {
        let end = get_row_column(others)?;
        return Ok(Dimensions { start, end });
    };
    get_row_column(second)?;
    let count = count_parts(more)?;
    Err(RefError::DimensionCount(count + 2))
}
