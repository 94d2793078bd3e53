ghost use Rattle.std.specs.Prelude.{◌≡◌, ◌↔◌, IsTrue, IfOk, None};

use crate::{Alignment, Borders, Fill, Font, NumberFormat, Protection};
use std::alloc::{AllocError, Global};

/// The style of a cell. What it doesn't name is None.
#[derive(Debug, Default, PartialEq, Drop)]
pub struct Style {
    pub font: Option<Font>,
    pub fill: Option<Fill>,
    pub borders: Option<Borders>,
    pub alignment: Option<Alignment>,
    pub number_format: Option<NumberFormat>,
    pub protection: Option<Protection>,
}

impl Style {
    ghost use Rattle.cell_styles.specs.Style.{NamesNothing, IsSeen};

    /// Whether the style names nothing.
    pub fn is_empty(&self) -> bool
        ensures { IsTrue result ↔ NamesNothing self.now }
    {
        self.font.is_none()
            && self.fill.is_none()
            && self.borders.is_none()
            && self.alignment.is_none()
            && self.number_format.is_none()
            && self.protection.is_none()
    }

    /// Whether anything of the style can be seen: a font that is bold, italic or has a color, a
    /// fill with a pattern, a border with a line, or an alignment other than the default one.
    pub fn has_visible_properties(&self) -> bool
        ensures { IsTrue result ↔ IsSeen self.now }
    {
        self.font.as_ref().is_some_and(|font| {
            font.color.is_some() || font.is_bold() || font.is_italic()
        }) || self.fill.as_ref().is_some_and(|fill| fill.is_visible())
            || self
                .borders
                .as_ref()
                .is_some_and(|borders| borders.has_visible_borders())
            || self
                .alignment
                .as_ref()
                .is_some_and(|alignment| *alignment != Alignment::default())
    }

    /// A copy in memory of its own.
    pub fn clone_in(&self, alloc: Global) -> Result<Style, AllocError>
        ensures { IfOk result (λ copy. copy ≡ self.now) }
    {
        Ok(Style {
            font: copied_font(alloc, &self.font)?,
            fill: self.fill,
            borders: self.borders,
            alignment: self.alignment,
            number_format: copied_number_format(alloc, &self.number_format)?,
            protection: self.protection,
        })
    }
}

fn copied_font(alloc: Global, font: &Option<Font>) -> Result<Option<Font>, AllocError>
    ensures { IfOk result (λ copy. copy ≡ font.now) }
{
    match font {
        Some(font) => Ok(Some(font.clone_in(alloc)?)),
        None => Ok(None),
    }
}

fn copied_number_format(
    alloc: Global,
    format: &Option<NumberFormat>,
) -> Result<Option<NumberFormat>, AllocError>
    ensures { IfOk result (λ copy. copy ≡ format.now) }
{
    match format {
        Some(format) => Ok(Some(format.clone_in(alloc)?)),
        None => Ok(None),
    }
}
