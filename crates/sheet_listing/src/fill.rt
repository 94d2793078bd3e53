ghost use Rattle.std.specs.Prelude.{◌≡◌, option_and_then};
ghost use Rattle.std.specs.Option.{option_copied};
ghost use Rattle.cell_styles.specs.Words.{fill_color};
ghost use Rattle.sheet_listing.specs.SheetListing.{shown_color, fill_shown};

use cell_styles::{Color, Fill, Style};

fn shown_color(fill: &Fill) -> Option<Color>
    ensures { result ≡ shown_color fill.now.pattern (fill_color fill.now) }
{
    if fill.is_visible() {
        fill.get_color()
    } else {
        None
    }
}

/// The color that the fill of a style shows.
pub fn fill_shown(style: Option<&Style>) -> Option<Color>
    ensures { result ≡ option_and_then fill_shown (option_copied style.entry) }
{
    let fill = style?.fill.as_ref()?;
    shown_color(fill)
}
