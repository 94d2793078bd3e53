ghost use Rattle.std.specs.Prelude.{◌≢◌, ◌↔◌, IsTrue, None};

use crate::Color;

/// How the line of a border is drawn (ECMA-376, 18.18.3).
#[derive(Clone, Copy, Debug, Default, PartialEq, Eq)]
pub enum BorderStyle {
    #[default]
    None,
    Thin,
    Medium,
    Thick,
    Double,
    Hair,
    Dashed,
    Dotted,
    MediumDashed,
    DashDot,
    MediumDashDot,
    DashDotDot,
    MediumDashDotDot,
    SlantDashDot,
}

/// One side of a cell's border.
#[derive(Clone, Copy, Debug, Default, PartialEq, Eq)]
pub struct Border {
    pub style: BorderStyle,
    pub color: Option<Color>,
}

impl Border {
    /// Whether the side has a line, whatever its color.
    pub fn is_visible(&self) -> bool
        ensures { IsTrue result ↔ (self.now.style ≢ BorderStyle.None) }
    {
        self.style != BorderStyle::None
    }
}

/// All sides of a cell's border, with its two diagonals.
#[derive(Clone, Copy, Debug, Default, PartialEq, Eq)]
pub struct Borders {
    pub left: Border,
    pub right: Border,
    pub top: Border,
    pub bottom: Border,
    /// The diagonal from the upper left corner down to the lower right one.
    pub diagonal_down: Border,
    /// The diagonal from the lower left corner up to the upper right one.
    pub diagonal_up: Border,
}

impl Borders {
    ghost use Rattle.cell_styles.specs.Border.{HasLine};

    /// Whether any side has a line.
    pub fn has_visible_borders(&self) -> bool
        ensures { IsTrue result ↔ HasLine self.now }
    {
        self.left.is_visible()
            || self.right.is_visible()
            || self.top.is_visible()
            || self.bottom.is_visible()
            || self.diagonal_down.is_visible()
            || self.diagonal_up.is_visible()
    }
}
