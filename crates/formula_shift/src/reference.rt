ghost use Rattle.std.specs.Prelude.{◌≡◌, ◌==◌, ◌+◌, ◌<◌, ◌≤◌, ◌++◌, if◌then◌else◌, length, IfSome};
ghost use Rattle.std.specs.Prelude.{Some, OnOk, OnErr, is_ok, position, string_bytes, string_len};
ghost use Rattle.std.specs.Prelude.{string_capacity};
ghost use Rattle.formula_shift.specs.References.{word_reference, alone, range_of, same_kind};
ghost use Rattle.formula_shift.specs.References.{shifted, spelling, IsInWorksheet};

use crate::corner::Corner;
use std::alloc::AllocError;

/// One cell, or two cells, two rows or two columns that a `:` joins.
#[derive(Clone, Copy, Debug, PartialEq, Eq)]
pub struct Reference {
    pub first: Corner,
    pub second: Option<Corner>,
}

impl Reference {
    /// The reference that a Word's text spells, if any, whatever stands behind the Word.
    #[tactic(auto, unfolding(crate::specs::References::word_reference))]
    pub fn parse(word: &str) -> Option<Reference>
        ensures value { result ≡ word_reference word.now }
        ensures inside { IfSome result IsInWorksheet }
    {
        let word = word.as_bytes();
        match first_colon(word) {
            Some(colon) => range_of(
                Corner::parse_bytes(&word[..colon])?,
                Corner::parse_bytes(&word[colon + 1..])?,
            ),
            None => alone(Corner::parse_bytes(word)?),
        }
    }

    /// The reference moved by rows and columns; `None` where a part would leave the worksheet.
    #[tactic(auto, unfolding(crate::specs::References::shifted))]
    pub fn shifted(self, offset: (i64, i64)) -> Option<Reference>
        requires { IsInWorksheet self }
        ensures value { result ≡ shifted offset self }
        ensures inside { IfSome result IsInWorksheet }
    {
        let first = self.first.shifted(offset)?;
        let second = match self.second {
            Some(corner) => Some(corner.shifted(offset)?),
            None => None,
        };
        Some(Reference { first, second })
    }

    /// Appends the canonical spelling: capitals, a `$` where it was, no leading zeros. On `Err` the
    /// buffer is as it was.
    pub fn push_to(self, out: &mut String) -> Result<(), AllocError>
        requires { IsInWorksheet self }
        ensures bytes { string_bytes out.new
            ≡ (if is_ok result then string_bytes out.old ++ spelling self
            else string_bytes out.old) }
        ensures capacity { string_capacity out.old ≤ string_capacity out.new }
        ensures full { OnErr result
            (string_capacity out.old < string_len out.old + length (spelling self)) }
    {
        out.reserve(self.spelled_len())?;
        // There is room now.
        self.push_parts(out)?;
        Ok(())
    }

    /// Appends the canonical spelling. On `Err` the buffer had no room for it, and may hold a part.
    #[tactic(auto, unfolding(crate::specs::References::spelling))]
    fn push_parts(self, out: &mut String) -> Result<(), AllocError>
        requires { IsInWorksheet self }
        ensures ok { OnOk result (string_bytes out.new ≡ string_bytes out.old ++ spelling self) }
        ensures len { OnOk result
            (string_len out.new ≡ string_len out.old + length (spelling self)) }
        ensures capacity { string_capacity out.old ≤ string_capacity out.new }
        ensures full { OnErr result
            (string_capacity out.old < string_len out.old + length (spelling self)) }
    {
        self.first.push_to(out)?;
        if let Some(corner) = self.second {
            out.push(':')?;
            corner.push_to(out)?;
        }
        Ok(())
    }

    /// How many bytes the canonical spelling has.
    #[tactic(auto, unfolding(crate::specs::References::spelling))]
    pub(crate) fn spelled_len(self) -> usize
        requires { IsInWorksheet self }
        ensures value { result ≡ length (spelling self) }
        ensures short { result ≤ 31 }
    {
        match self.second {
            Some(corner) => self.first.spelled_len() + 1 + corner.spelled_len(),
            None => self.first.spelled_len(),
        }
    }
}

fn first_colon(word: &[u8]) -> Option<usize>
    ensures { result ≡ position (λ b. b == 58) word.now }
{
    word.iter().position(|&b| b == b':')
}

/// A corner alone is a reference where it is a cell.
fn alone(corner: Corner) -> Option<Reference>
    ensures { result ≡ alone (Some corner) }
{
    match corner {
        Corner::Cell { .. } => Some(Reference {
            first: corner,
            second: None,
        }),
        _ => None,
    }
}

/// Two corners are a reference where they are of one kind.
fn range_of(first: Corner, second: Corner) -> Option<Reference>
    ensures { result ≡ range_of (Some first) (Some second) }
{
    if first.same_kind(second) {
        Some(Reference {
            first,
            second: Some(second),
        })
    } else {
        None
    }
}
