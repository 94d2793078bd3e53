ghost use Rattle.std.specs.Prelude.{◌≡◌, ◌≢◌, ◌↔◌, IsTrue};
ghost use Rattle.std.specs.Option.{option_or};

use crate::Color;

/// The pattern of a cell's background (ECMA-376, 18.18.55).
#[derive(Clone, Copy, Debug, Default, PartialEq, Eq)]
pub enum FillPattern {
    #[default]
    None,
    Solid,
    DarkGray,
    MediumGray,
    LightGray,
    Gray125,
    Gray0625,
    DarkHorizontal,
    DarkVertical,
    DarkDown,
    DarkUp,
    DarkGrid,
    DarkTrellis,
    LightHorizontal,
    LightVertical,
    LightDown,
    LightUp,
    LightGrid,
    LightTrellis,
}

/// The background of a cell.
#[derive(Clone, Copy, Debug, Default, PartialEq, Eq)]
pub struct Fill {
    pub pattern: FillPattern,
    pub foreground_color: Option<Color>,
    pub background_color: Option<Color>,
}

impl Fill {
    ghost use Rattle.cell_styles.specs.Fill.{fill_color};

    /// Whether there is a pattern, whatever its colors.
    pub fn is_visible(&self) -> bool
        ensures { IsTrue result ↔ (self.now.pattern ≢ FillPattern.None) }
    {
        self.pattern != FillPattern::None
    }

    /// The foreground color, or the background color where there is no foreground color.
    pub fn get_color(&self) -> Option<Color>
        ensures { result ≡ fill_color self.now }
    {
        self.foreground_color.or(self.background_color)
    }
}
