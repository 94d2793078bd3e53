ghost use Rattle.std.specs.Prelude.{◌≡◌, ℕ, ◌^◌, ◌<◌, List, length};
ghost use Rattle.cell_refs.specs.Words.{cell_count, IsInArea};
ghost use Rattle.cell_refs.specs.declared.dimensions.Dimensions.{Dimensions};
ghost use Rattle.equalities.specs.Equality.{IsEquality, CopiesItself};
ghost use Rattle.cell_styles.specs.Color.{argb_of, color_of_argb};
ghost use Rattle.cell_styles.specs.Default.{IsOnly, default_color, default_border, default_borders};
ghost use Rattle.cell_styles.specs.Default.{default_font, default_alignment, default_fill};
ghost use Rattle.cell_styles.specs.Default.{default_protection, default_style};
ghost use Rattle.cell_styles.specs.StyleMap.{StyledCell, IsArea, first_id_at, styles_of};
ghost use Rattle.cell_styles.specs.StyleMap.{place_in_area, position_in};
ghost use Rattle.cell_styles.specs.declared.color.Color.{Color};
ghost use Rattle.cell_styles.specs.declared.style.Style.{Style};

use crate::{
    Alignment, Border, BorderStyle, Borders, Color, Fill, FillPattern, Font, FontStyle, FontWeight,
    HorizontalAlignment, NumberFormat, Protection, Style, TextRotation, UnderlineStyle,
    VerticalAlignment,
};

/// `a == b` exactly where all fields are the same, at each type of this crate.
pub fn equality_is_by_all_fields()
    ensures color { IsEquality ⟦<Color as PartialEq>⟧.eq }
    ensures border_style { IsEquality ⟦<BorderStyle as PartialEq>⟧.eq }
    ensures border { IsEquality ⟦<Border as PartialEq>⟧.eq }
    ensures borders { IsEquality ⟦<Borders as PartialEq>⟧.eq }
    ensures font_weight { IsEquality ⟦<FontWeight as PartialEq>⟧.eq }
    ensures font_style { IsEquality ⟦<FontStyle as PartialEq>⟧.eq }
    ensures underline_style { IsEquality ⟦<UnderlineStyle as PartialEq>⟧.eq }
    ensures font { IsEquality ⟦<Font as PartialEq>⟧.eq }
    ensures horizontal { IsEquality ⟦<HorizontalAlignment as PartialEq>⟧.eq }
    ensures vertical { IsEquality ⟦<VerticalAlignment as PartialEq>⟧.eq }
    ensures text_rotation { IsEquality ⟦<TextRotation as PartialEq>⟧.eq }
    ensures alignment { IsEquality ⟦<Alignment as PartialEq>⟧.eq }
    ensures fill_pattern { IsEquality ⟦<FillPattern as PartialEq>⟧.eq }
    ensures fill { IsEquality ⟦<Fill as PartialEq>⟧.eq }
    ensures number_format { IsEquality ⟦<NumberFormat as PartialEq>⟧.eq }
    ensures protection { IsEquality ⟦<Protection as PartialEq>⟧.eq }
    ensures style { IsEquality ⟦<Style as PartialEq>⟧.eq }
{}

/// A copy of a value is that value, at each type of this crate that is `Copy`.
pub fn copies_are_the_same()
    ensures color { CopiesItself ⟦<Color as Clone>⟧.is_clone ⟦<Color as Clone>⟧.is_infallible }
    ensures border_style { CopiesItself ⟦<BorderStyle as Clone>⟧.is_clone
        ⟦<BorderStyle as Clone>⟧.is_infallible }
    ensures border { CopiesItself ⟦<Border as Clone>⟧.is_clone ⟦<Border as Clone>⟧.is_infallible }
    ensures borders { CopiesItself ⟦<Borders as Clone>⟧.is_clone
        ⟦<Borders as Clone>⟧.is_infallible }
    ensures font_weight { CopiesItself ⟦<FontWeight as Clone>⟧.is_clone
        ⟦<FontWeight as Clone>⟧.is_infallible }
    ensures font_style { CopiesItself ⟦<FontStyle as Clone>⟧.is_clone
        ⟦<FontStyle as Clone>⟧.is_infallible }
    ensures underline_style { CopiesItself ⟦<UnderlineStyle as Clone>⟧.is_clone
        ⟦<UnderlineStyle as Clone>⟧.is_infallible }
    ensures horizontal { CopiesItself ⟦<HorizontalAlignment as Clone>⟧.is_clone
        ⟦<HorizontalAlignment as Clone>⟧.is_infallible }
    ensures vertical { CopiesItself ⟦<VerticalAlignment as Clone>⟧.is_clone
        ⟦<VerticalAlignment as Clone>⟧.is_infallible }
    ensures text_rotation { CopiesItself ⟦<TextRotation as Clone>⟧.is_clone
        ⟦<TextRotation as Clone>⟧.is_infallible }
    ensures alignment { CopiesItself ⟦<Alignment as Clone>⟧.is_clone
        ⟦<Alignment as Clone>⟧.is_infallible }
    ensures fill_pattern { CopiesItself ⟦<FillPattern as Clone>⟧.is_clone
        ⟦<FillPattern as Clone>⟧.is_infallible }
    ensures fill { CopiesItself ⟦<Fill as Clone>⟧.is_clone ⟦<Fill as Clone>⟧.is_infallible }
    ensures protection { CopiesItself ⟦<Protection as Clone>⟧.is_clone
        ⟦<Protection as Clone>⟧.is_infallible }
{}

/// The default of each type: zeros for a color, the variants None, Normal, General and Bottom,
/// false, and None for what is optional.
pub fn defaults_are_these()
    ensures color { IsOnly ⟦<Color as Default>⟧.is_default default_color }
    ensures border_style { IsOnly ⟦<BorderStyle as Default>⟧.is_default BorderStyle.None }
    ensures border { IsOnly ⟦<Border as Default>⟧.is_default default_border }
    ensures borders { IsOnly ⟦<Borders as Default>⟧.is_default default_borders }
    ensures font_weight { IsOnly ⟦<FontWeight as Default>⟧.is_default FontWeight.Normal }
    ensures font_style { IsOnly ⟦<FontStyle as Default>⟧.is_default FontStyle.Normal }
    ensures underline_style { IsOnly ⟦<UnderlineStyle as Default>⟧.is_default UnderlineStyle.None }
    ensures font { IsOnly ⟦<Font as Default>⟧.is_default default_font }
    ensures horizontal { IsOnly ⟦<HorizontalAlignment as Default>⟧.is_default
        HorizontalAlignment.General }
    ensures vertical { IsOnly ⟦<VerticalAlignment as Default>⟧.is_default VerticalAlignment.Bottom }
    ensures text_rotation { IsOnly ⟦<TextRotation as Default>⟧.is_default TextRotation.None }
    ensures alignment { IsOnly ⟦<Alignment as Default>⟧.is_default default_alignment }
    ensures fill_pattern { IsOnly ⟦<FillPattern as Default>⟧.is_default FillPattern.None }
    ensures fill { IsOnly ⟦<Fill as Default>⟧.is_default default_fill }
    ensures protection { IsOnly ⟦<Protection as Default>⟧.is_default default_protection }
    ensures style { IsOnly ⟦<Style as Default>⟧.is_default default_style }
{}

/// A color's number is the number of that color, and back.
pub fn colors_read_back()
    ensures number { (argb : ℕ) → argb < 2 ^ 32 → argb_of (color_of_argb argb) ≡ argb }
    ensures color { (color : Color) → color.alpha < 256 → color.red < 256 → color.green < 256
        → color.blue < 256 → color_of_argb (argb_of color) ≡ color }
{}

/// Entries with the same first explicit id at each position give the same range, whatever their
/// order and whatever else they hold.
#[tactic(auto, using(crate::proofs::SameRanges::same_range))]
pub fn ranges_go_by_first_ids()
    ensures { (palette : List Style) (one two : List StyledCell)
        → ((position : ℕ × ℕ) → first_id_at (length palette) one position
        ≡ first_id_at (length palette) two position)
        → styles_of palette one ≡ styles_of palette two }
{}

/// Each position of an area has one place, and each place one position, so that what is said place
/// by place is said of each position once.
#[tactic(auto, using(crate::proofs::CellLists::one_place))]
pub fn each_position_has_one_place()
    ensures inside { (area : Dimensions) (place : ℕ) → IsArea area → place < cell_count area
        → IsInArea area (position_in area place).0 (position_in area place).1 }
    ensures within { (area : Dimensions) (row column : ℕ) → IsArea area
        → IsInArea area row column → place_in_area area (row, column) < cell_count area }
    ensures place { (area : Dimensions) (place : ℕ)
        → place_in_area area (position_in area place) ≡ place }
    ensures position { (area : Dimensions) (row column : ℕ) → IsArea area
        → IsInArea area row column
        → position_in area (place_in_area area (row, column)) ≡ (row, column) }
{}
