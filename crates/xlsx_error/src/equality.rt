//! What `==` of refusals is.
ghost use Rattle.equalities.specs.Equality.{IsEqualityBy};
ghost use Rattle.xlsx_error.specs.XlsxError.{refusal_seen};

use crate::error::XlsxError;

/// `a == b` exactly where both are the same refusal, texts by their bytes.
pub fn equality_is_by_all_fields()
    ensures { IsEqualityBy refusal_seen ⟦<XlsxError as PartialEq>⟧.eq }
{}
