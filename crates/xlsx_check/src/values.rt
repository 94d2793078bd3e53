//! What the cells of a range bring into a formula.
ghost use Rattle.std.specs.Prelude.{◌≡◌, pos};
ghost use Rattle.std.specs.List.{fold};
ghost use Rattle.cell_data.specs.Words.{value_of_data};
ghost use Rattle.formula_shift.specs.Words.{area_named};
ghost use Rattle.xlsx_check.specs.Denoting.{denoted_by, values_of};
ghost use Rattle.xlsx_check.specs.Evaluation.{number_in, total_with_value, values_within};
ghost use Rattle.xlsx_check.specs.Evaluation.{value_looked_up, a_number};

use crate::denotation::{Denotation, number_from};
use crate::token::Token;
use cell_data::{Data, Range};
use cell_refs::Dimensions;

/// Zero.
pub fn zero() -> Denotation
    ensures { denoted_by result ≡ a_number (pos 0, pos 0) }
{
    number_from(0, 0)
}

/// The number that a value is in a formula.
pub fn number_in(value: &Data) -> Denotation
    ensures { denoted_by result ≡ number_in (value_of_data value.now) }
{
    match value {
        Data::Empty => zero(),
        Data::Int(number) => number_from(i128::from(*number), 0),
        Data::Decimal(number) => Denotation::Number(*number),
        Data::DateTime(time) => Denotation::Number(time.value),
        _ => Denotation::Unsupported,
    }
}

/// The number that the cell at a position is in a formula.
pub fn number_at(values: &Range<Data>, pos: (u32, u32)) -> Denotation
    ensures { denoted_by result ≡ number_in (value_looked_up (values_of values.now) pos) }
{
    match values.used_value(pos) {
        Some(value) => number_in(value),
        None => zero(),
    }
}

/// A total with a value more.
fn with_value(total: Denotation, value: &Data) -> Denotation
    ensures { denoted_by result ≡ total_with_value (denoted_by total) (value_of_data value.now) }
{
    match value {
        Data::Int(_) | Data::Decimal(_) | Data::DateTime(_) => {
            total.joined(Token::Plus, number_in(value))
        }
        Data::Error(_) => Denotation::Unsupported,
        _ => total,
    }
}

/// A total with the used cells of an area more, row by row.
pub fn with_area(values: &Range<Data>, total: Denotation, area: Dimensions) -> Denotation
    ensures { denoted_by result
        ≡ fold total_with_value (denoted_by total) (values_within (values_of values.now) area) }
{
    let mut total = total;
    for (_, value) in values.used_in(area.start, area.end) {
        total = with_value(total, value);
    }
    total
}
