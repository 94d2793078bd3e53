ghost use Rattle.std.specs.Prelude.{◌≡◌, ◌≢◌, ◌↔◌, IsTrue, IfOk};

use crate::Color;
use decimals::Decimal;
use std::alloc::{AllocError, Global};
use std::marker::Model;

/// How heavy the letters of a font are.
#[derive(Clone, Copy, Debug, Default, PartialEq, Eq)]
pub enum FontWeight {
    #[default]
    Normal,
    Bold,
}

/// Whether the letters of a font are slanted.
#[derive(Clone, Copy, Debug, Default, PartialEq, Eq)]
pub enum FontStyle {
    #[default]
    Normal,
    Italic,
}

/// The line below the letters of a font (ECMA-376, 18.18.82).
#[derive(Clone, Copy, Debug, Default, PartialEq, Eq)]
pub enum UnderlineStyle {
    #[default]
    None,
    Single,
    Double,
    SingleAccounting,
    DoubleAccounting,
}

/// The font of a cell.
#[derive(Debug, Default, Drop)]
pub struct Font {
    pub name: Option<String>,
    /// The size in points.
    pub size: Option<Decimal>,
    pub weight: FontWeight,
    pub style: FontStyle,
    pub underline: UnderlineStyle,
    pub strikethrough: bool,
    pub color: Option<Color>,
    /// The number of the font's family (ECMA-376, 18.8.18): 1 is Roman, 2 Swiss, 3 Modern,
    /// 4 Script, 5 Decorative.
    pub family: Option<u8>,
}

impl Model for Font {
    ghost use Rattle.std.specs.Prelude.{string_bytes};
    ghost use Rattle.std.specs.Option.{option_map};
    ghost use Rattle.cell_styles.specs.Font.{FontFields};

    ghost Value = { FontFields };

    ghost view = { λ font. record {
      name = option_map string_bytes font.name;
      size = font.size;
      weight = font.weight;
      style = font.style;
      underline = font.underline;
      strikethrough = font.strikethrough;
      color = font.color;
      family = font.family;
    } };
}

impl Font {
    /// Whether the font is bold.
    pub fn is_bold(&self) -> bool
        ensures { IsTrue result ↔ (self.now.weight ≡ FontWeight.Bold) }
    {
        self.weight == FontWeight::Bold
    }

    /// Whether the font is italic.
    pub fn is_italic(&self) -> bool
        ensures { IsTrue result ↔ (self.now.style ≡ FontStyle.Italic) }
    {
        self.style == FontStyle::Italic
    }

    /// Whether the font has a line below its letters.
    pub fn has_underline(&self) -> bool
        ensures { IsTrue result ↔ (self.now.underline ≢ UnderlineStyle.None) }
    {
        self.underline != UnderlineStyle::None
    }

    /// Whether the font has a line through its letters.
    pub fn has_strikethrough(&self) -> bool
        ensures { result ≡ self.now.strikethrough }
    {
        self.strikethrough
    }

    /// A copy in memory of its own.
    pub fn clone_in(&self, alloc: Global) -> Result<Font, AllocError>
        ensures { IfOk result (λ copy. copy ≡ self.now) }
    {
        let name = match &self.name {
            Some(name) => Some(String::from_str(alloc, name.as_str())?),
            None => None,
        };
        Ok(Font {
            name,
            size: self.size,
            weight: self.weight,
            style: self.style,
            underline: self.underline,
            strikethrough: self.strikethrough,
            color: self.color,
            family: self.family,
        })
    }
}

impl PartialEq for Font {
    ghost use Rattle.std.specs.Prelude.{nat_eq, ◌==◌};
    ghost use Rattle.std.specs.Cmp.Lexicographic.{pointwise};
    ghost use Rattle.std.specs.Ordering.{on, eq_of_both};
    ghost use Rattle.std.specs.Bool.{beq};
    ghost use Rattle.std.specs.Option.{option_eq};
    ghost use Rattle.std.specs.Cmp.Rules.{comparing};
    ghost use Rattle.std.proofs.Common.{rules};
    ghost use Rattle.decimals.specs.contracts.decimal.DecimalEq.TheImpl.Laws as size;
    ghost use Rattle.cell_styles.specs.contracts.color.ColorEq.TheImpl.Laws as color;
    ghost use Rattle.cell_styles.specs.contracts.font.FontWeightEq.TheImpl.Laws as weight;
    ghost use Rattle.cell_styles.specs.contracts.font.FontStyleEq.TheImpl.Laws as style;
    ghost use Rattle.cell_styles.specs.contracts.font.UnderlineStyleEq.TheImpl.Laws as underline;

    ghost eq = { eq_of_both (on (λ font. font.name) (option_eq (pointwise nat_eq)))
        (eq_of_both (on (λ font. font.size) (option_eq ⟦<Decimal as PartialEq>⟧.eq))
        (eq_of_both (on (λ font. font.weight) ⟦<FontWeight as PartialEq>⟧.eq)
        (eq_of_both (on (λ font. font.style) ⟦<FontStyle as PartialEq>⟧.eq)
        (eq_of_both (on (λ font. font.underline) ⟦<UnderlineStyle as PartialEq>⟧.eq)
        (eq_of_both (on (λ font. font.strikethrough) beq)
        (eq_of_both (on (λ font. font.color) (option_eq ⟦<Color as PartialEq>⟧.eq))
        (on (λ font. font.family) (option_eq nat_eq)))))))) };

    ghost laws = { Prim.search (
      comparing,
      size.laws-law,
      weight.laws-law,
      style.laws-law,
      underline.laws-law,
      color.laws-law,
    ) depth 24 };

    fn eq(&self, other: &Font) -> bool {
        self.name == other.name
            && self.size == other.size
            && self.weight == other.weight
            && self.style == other.style
            && self.underline == other.underline
            && self.strikethrough == other.strikethrough
            && self.color == other.color
            && self.family == other.family
    }
}
