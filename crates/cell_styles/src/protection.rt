/// What a protected worksheet keeps its reader from.
#[derive(Clone, Copy, Debug, Default, PartialEq, Eq)]
pub struct Protection {
    /// The cell can't be changed.
    pub locked: bool,
    /// The cell's formula isn't shown.
    pub hidden: bool,
}
