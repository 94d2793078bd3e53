//! A step through several lists of cells at once.
ghost use Rattle.std.specs.Prelude.{◌≡◌, None, MatchOption};
ghost use Rattle.cell_data.specs.Stepping.{IsEarlier};

/// The earlier one of two positions, row by row; none where there is neither.
pub fn earlier(one: Option<(u32, u32)>, other: Option<(u32, u32)>) -> Option<(u32, u32)>
    ensures { MatchOption result ((one ≡ None) × (other ≡ None)) (IsEarlier one other) }
{
    match (one, other) {
        (Some(one), Some(other)) => Some(one.min(other)),
        (Some(one), None) => Some(one),
        (None, other) => other,
    }
}
