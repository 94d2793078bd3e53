ghost use Rattle.std.specs.Prelude.{◌≡◌, [], slice_get, unwrap_or, map, string_bytes, IfOk};
ghost use Rattle.cell_data.specs.Words.{value_of_data, value_of_data_ref};
ghost use Rattle.xlsx_values.specs.Value.{resolved};

use cell_data::{Data, DataRef};
use std::alloc::{AllocError, Global};

fn text_at(strings: &[String], place: usize) -> &str
    ensures { result.now ≡ unwrap_or (slice_get (map string_bytes strings.now) place) [] }
{
    match strings.get(place) {
        Some(text) => text.as_str(),
        None => "",
    }
}

/// The value by itself, with a copy of the shared string in place of its place. A place past the
/// strings, which no cell is read with, has the empty text.
pub fn to_data(alloc: Global, value: DataRef, strings: &[String]) -> Result<Data, AllocError>
    ensures { IfOk result (λ own. value_of_data own
        ≡ resolved (map string_bytes strings.now) (value_of_data_ref value)) }
{
    Ok(match value {
        DataRef::Decimal(number) => Data::Decimal(number),
        DataRef::String(text) => Data::String(text),
        DataRef::SharedString(place) => {
            Data::String(String::from_str(alloc, text_at(strings, place))?)
        }
        DataRef::Bool(truth) => Data::Bool(truth),
        DataRef::DateTime(time) => Data::DateTime(time),
        DataRef::DateTimeIso(text) => Data::DateTimeIso(text),
        DataRef::Error(error) => Data::Error(error),
        DataRef::Empty => Data::Empty,
    })
}
