//! What `==` and a copy of the types of this crate are.
ghost use Rattle.equalities.specs.Equality.{IsEquality, IsEqualityBy, CopiesItself};
ghost use Rattle.xlsx_commands.specs.Status.{error_seen};

use crate::asked_rows::AskedRows;
use crate::command::{Command, GraphList};
use crate::error::ToolError;
use crate::request::Request;
use crate::sheet_choice::{SheetChoice, SheetFault};

/// `a == b` exactly where both are the same error, texts by their bytes.
pub fn equality_is_by_all_fields()
    ensures error { IsEqualityBy error_seen ⟦<ToolError as PartialEq>⟧.eq }
    ensures fault { IsEquality ⟦<SheetFault as PartialEq>⟧.eq }
{}

/// A copy of a command is that command, and so is one of what is asked for, of a choice of a sheet,
/// of a list of formulas, and of what is asked of rows.
pub fn copies_are_the_same<'a>()
    ensures request { CopiesItself ⟦<Request<'a> as Clone>⟧.is_clone
        ⟦<Request<'a> as Clone>⟧.is_infallible }
    ensures choice { CopiesItself ⟦<SheetChoice as Clone>⟧.is_clone
        ⟦<SheetChoice as Clone>⟧.is_infallible }
    ensures fault { CopiesItself ⟦<SheetFault as Clone>⟧.is_clone
        ⟦<SheetFault as Clone>⟧.is_infallible }
    ensures command { CopiesItself ⟦<Command<'a> as Clone>⟧.is_clone
        ⟦<Command<'a> as Clone>⟧.is_infallible }
    ensures list { CopiesItself ⟦<GraphList as Clone>⟧.is_clone
        ⟦<GraphList as Clone>⟧.is_infallible }
    ensures rows { CopiesItself ⟦<AskedRows as Clone>⟧.is_clone
        ⟦<AskedRows as Clone>⟧.is_infallible }
{}
