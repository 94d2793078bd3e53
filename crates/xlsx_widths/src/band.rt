ghost use Rattle.std.specs.Prelude.{◌<◌};
ghost use Rattle.cell_refs.specs.Words.{row_limit, column_limit};

use cell_refs::Dimensions;

/// Columns, or rows, that lie side by side: the area of all their cells.
#[derive(Debug, Drop)]
pub struct Band {
    area: Dimensions,
    width: Option<String>,
    is_hidden: bool,
    ghost inside: { ((area.start.0 < row_limit) × (area.start.1 < column_limit))
        × ((area.end.0 < row_limit) × (area.end.1 < column_limit)) },
}

impl Band {
    ghost use Rattle.std.specs.Prelude.{◌≡◌, ◌<◌, option_map, string_bytes};
    ghost use Rattle.std.specs.Option.{option_copied};
    ghost use Rattle.cell_refs.specs.Words.{row_limit, column_limit};
    ghost use Rattle.xlsx_widths.specs.Widths.{LiesOnSheet, band_kept, column_band, row_band};

    /// The columns from one to another, both counted from 0.
    pub(crate) fn of_columns(first: u32, last: u32, width: Option<String>, is_hidden: bool) -> Band
        requires first { first < column_limit }
        requires last { last < column_limit }
        ensures { band_kept result
            ≡ column_band first last (option_map string_bytes width) is_hidden }
    {
        Band {
            area: Dimensions {
                start: (0, first),
                end: (1_048_575, last),
            },
            width,
            is_hidden,
        }
    }

    /// A hidden row, counted from 0.
    pub(crate) fn of_row(row: u32) -> Band
        requires { row < row_limit }
        ensures { band_kept result ≡ row_band row }
    {
        Band {
            area: Dimensions {
                start: (row, 0),
                end: (row, 16_383),
            },
            width: None,
            is_hidden: true,
        }
    }

    /// The area of all their cells, rows and columns counted from 0.
    pub fn area(&self) -> Dimensions
        ensures area { result ≡ (band_kept self.now).area }
        ensures inside { LiesOnSheet result }
    {
        self.area
    }

    /// The width of each of the columns as it is written, in characters of the default font; none
    /// where none is given, and of rows.
    pub fn width(&self) -> Option<&str>
        ensures { option_copied result ≡ (band_kept self.now).width }
    {
        match &self.width {
            Some(width) => Some(width.as_str()),
            None => None,
        }
    }

    /// Whether they are hidden.
    pub fn is_hidden(&self) -> bool
        ensures { result ≡ (band_kept self.now).is_hidden }
    {
        self.is_hidden
    }
}

/// How wide the columns of a sheet are, and which columns and rows are hidden.
#[derive(Debug, Drop)]
pub struct Widths {
    /// The columns of which the sheet's part tells, in order.
    pub columns: Vec<Band>,
    /// The hidden rows, in order.
    pub hidden_rows: Vec<Band>,
}
