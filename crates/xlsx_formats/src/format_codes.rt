ghost use Rattle.std.specs.Prelude.{◌≡◌, [], ◌∷◌, ◌++◌, List, string_bytes, OnOk, OnErr};
ghost use Rattle.std.specs.Option.{option_map};
ghost use Rattle.xlsx_formats.specs.FormatCodes.{WrittenFormat, code_of, code_kept, AreCodes};

use crate::kept_code::KeptCode;
use std::alloc::{AllocError, Global};
use std::collections::BTreeMap;

/// The codes of number formats, by their ids as they are written: of each id the last one.
#[derive(Debug, Drop)]
pub struct FormatCodes {
    by_id: BTreeMap<String, KeptCode>,
}

impl FormatCodes {
    /// No codes.
    pub fn new(alloc: Global) -> FormatCodes
        ensures { AreCodes [] result }
    {
        FormatCodes {
            by_id: BTreeMap::new(alloc),
        }
    }

    /// The code of the number format of this id, or None where none is kept. Ids are compared as
    /// texts: `1` and `01` are two.
    pub fn code(&self, id: &str) -> Option<&str>
        ensures { option_map (λ code. code.now) result ≡ code_kept self.now id.now }
    {
        match self.get(id) {
            Some(kept) => Some(kept.code.as_str()),
            None => None,
        }
    }

    /// That code, with what it makes of a number.
    pub(crate) fn get(&self, id: &str) -> Option<&KeptCode>
        ensures { option_map (λ kept. code_of kept.now) result ≡ code_kept self.now id.now }
    {
        self.by_id.get(id)
    }

    /// Keeps the code of an id, in place of an earlier one. Where memory is wanting the codes stay
    /// as they were.
    pub fn keep(&mut self, id: String, code: String) -> Result<(), AllocError>
        ensures ok { OnOk result ((earlier : List WrittenFormat) → AreCodes earlier self.old →
            AreCodes (earlier ++ (record {
              id = string_bytes id;
              code = string_bytes code;
            }) ∷ []) self.new) }
        ensures err { OnErr result ((earlier : List WrittenFormat) → AreCodes earlier self.old →
            AreCodes earlier self.new) }
    {
        self.by_id.insert(id, KeptCode::new(code))?;
        Ok(())
    }
}
