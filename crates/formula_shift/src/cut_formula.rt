ghost use Rattle.std.specs.Prelude.{◌≡◌, ◌+◌, ◌<◌, ◌≤◌, ◌++◌, [], length, IfOk, OnOk, OnErr, IsOk};
ghost use Rattle.std.specs.Prelude.{All, string_bytes, string_len, string_capacity};
ghost use Rattle.std.specs.Str.{IsCharBoundary};
ghost use Rattle.formula_shift.specs.Pieces.{pieces, piece_ends};
ghost use Rattle.formula_shift.specs.Relocation.{offset_between, moved};

use crate::expand::{offset_between, push_piece};
use crate::piece::{Pieces, cut_first};
use std::alloc::{AllocError, Global};
use std::marker::Model;

/// A formula with the places where its pieces end, for one that is moved to many cells: it is cut
/// once. It is known by its text.
#[derive(Debug, Drop)]
pub struct CutFormula {
    text: String,
    ends: Vec<usize>,
}

impl Model for CutFormula {
    ghost use Rattle.std.specs.Prelude.{◌≡◌, ℕ, List, string_bytes};
    ghost use Rattle.formula_shift.specs.Pieces.{pieces, piece_ends};

    ghost Value = { List ℕ };

    ghost view = { λ cut. string_bytes cut.text };

    ghost invariant = { λ cut. cut.ends.items ≡ piece_ends 0 (pieces (string_bytes cut.text)) };
}

impl CutFormula {
    /// The formula of this text, with a copy of it. Beside the text it takes eight bytes a piece,
    /// and up to twice that, as the list of places grows by doubling.
    pub fn new(alloc: Global, formula: &str) -> Result<CutFormula, AllocError>
        ensures { IfOk result (λ cut. cut ≡ formula.now) }
    {
        let text = String::from_str(alloc, formula)?;
        let ends = ends_of(alloc, formula)?;
        Ok(CutFormula { text, ends })
    }

    /// The formula as it was given.
    pub fn text(&self) -> &str
        ensures { result.now ≡ self.now }
    {
        self.text.as_str()
    }

    /// The place behind each piece of the formula, in bytes from its beginning, in order. No
    /// character stands across one.
    pub fn ends(&self) -> &[usize]
        ensures places { result.now ≡ piece_ends 0 (pieces self.now) }
        ensures boundaries { All (IsCharBoundary self.now) result.now }
    {
        self.ends.as_slice()
    }

    /// The formula of the cell at `start`, as it stands in the cell at `end`, in place of what the
    /// buffer holds: what [`expand_shared_formula_into`](crate::expand_shared_formula_into) gives
    /// for its text. After an `Err` the buffer is empty.
    pub fn expand_into(
        &self,
        start: (u32, u32),
        end: (u32, u32),
        out: &mut String,
    ) -> Result<(), AllocError>
        ensures ok { OnOk result
            (string_bytes out.new ≡ moved self.now (offset_between start end)) }
        ensures err { OnErr result (string_bytes out.new ≡ []) }
        ensures room { length (moved self.now (offset_between start end))
            ≤ string_capacity out.old → IsOk result }
        ensures capacity { string_capacity out.old ≤ string_capacity out.new }
    {
        out.clear();
        match push_cut(out, &self.text, &self.ends, offset_between(start, end)) {
            Ok(()) => Ok(()),
            Err(error) => {
                out.clear();
                Err(error)
            }
        }
    }
}

/// The places behind the pieces of a formula.
fn ends_of(alloc: Global, formula: &str) -> Result<Vec<usize>, AllocError>
    ensures { IfOk result (λ ends. ends.items ≡ piece_ends 0 (pieces formula.now)) }
{
    let mut ends = Vec::new(alloc);
    let mut end = 0;
    let mut pieces = Pieces::new(formula);
    while let Some(piece) = pieces.next() {
        end += piece.as_str().len();
        ends.push(end)?;
    }
    Ok(ends)
}

/// Appends the moved text of a formula whose pieces end at these places. On `Err` the buffer had no
/// room for it, and may hold a part.
fn push_cut(
    out: &mut String,
    formula: &str,
    ends: &[usize],
    offset: (i64, i64),
) -> Result<(), AllocError>
    requires { ends.now ≡ piece_ends 0 (pieces formula.now) }
    ensures ok { OnOk result
        (string_bytes out.new ≡ string_bytes out.old ++ moved formula.now offset) }
    ensures capacity { string_capacity out.old ≤ string_capacity out.new }
    ensures full { OnErr result
        (string_capacity out.old < string_len out.old + length (moved formula.now offset)) }
{
    let mut rest = formula;
    let mut from = 0;
    for end in ends {
        let (piece, behind) = cut_first(rest, *end - from);
        push_piece(out, piece, behind, offset)?;
        rest = behind;
        from = *end;
    }
    Ok(())
}
