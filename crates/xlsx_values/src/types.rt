ghost use Rattle.std.specs.Prelude.{◌≡◌, IfOk};
ghost use Rattle.std.specs.Option.{option_copied};
ghost use Rattle.xlsx_values.specs.CellType.{kind_named};
ghost use Rattle.xlsx_values.specs.ValueContext.{kind_of};

use std::alloc::{AllocError, Global};

/// The type of a cell (ECMA-376 part 1, section 18.18.11).
#[derive(Debug, PartialEq, Eq, Drop)]
pub enum CellType {
    /// The cell names no type.
    Untyped,
    Number,
    /// The text is the place of a shared string.
    Shared,
    Truth,
    Error,
    Text,
    Date,
    /// The text stands in the cell itself, in an `is`.
    Inline,
    /// The text of a type that is none of these.
    Unknown(String),
}

/// The type that the text of a cell's `t` names. Only that of an unknown type is kept.
pub fn cell_type(alloc: Global, typ: Option<&str>) -> Result<CellType, AllocError>
    ensures { IfOk result (λ own. kind_of own ≡ kind_named (option_copied typ.entry)) }
{
    let Some(typ) = typ else {
        return Ok(CellType::Untyped);
    };
    Ok(match typ {
        "n" => CellType::Number,
        "s" => CellType::Shared,
        "b" => CellType::Truth,
        "e" => CellType::Error,
        "str" => CellType::Text,
        "d" => CellType::Date,
        "inlineStr" | "is" => CellType::Inline,
        _ => CellType::Unknown(String::from_str(alloc, typ)?),
    })
}
