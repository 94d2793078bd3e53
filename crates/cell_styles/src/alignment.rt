/// Where the content of a cell stands between left and right (ECMA-376, 18.18.40).
#[derive(Clone, Copy, Debug, Default, PartialEq, Eq)]
pub enum HorizontalAlignment {
    Left,
    Center,
    /// Centered across the selection.
    CenterContinuous,
    Right,
    Justify,
    Distributed,
    Fill,
    #[default]
    General,
}

/// Where the content of a cell stands between top and bottom (ECMA-376, 18.18.88).
#[derive(Clone, Copy, Debug, Default, PartialEq, Eq)]
pub enum VerticalAlignment {
    Top,
    Center,
    #[default]
    Bottom,
    Justify,
    Distributed,
}

/// How the text of a cell is turned.
#[derive(Clone, Copy, Debug, Default, PartialEq, Eq)]
pub enum TextRotation {
    #[default]
    None,
    /// By so many degrees: 0 to 90 turn the text upward, 91 to 180 downward by 1 to 90.
    Degrees(u16),
    /// Letters stand one below the other.
    Stacked,
}

/// How the content of a cell is placed.
#[derive(Clone, Copy, Debug, Default, PartialEq, Eq)]
pub struct Alignment {
    pub horizontal: HorizontalAlignment,
    pub vertical: VerticalAlignment,
    pub text_rotation: TextRotation,
    pub wrap_text: bool,
    /// How far the content is indented, in steps.
    pub indent: Option<u8>,
    pub shrink_to_fit: bool,
}
