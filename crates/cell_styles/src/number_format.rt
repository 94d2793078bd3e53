ghost use Rattle.std.specs.Prelude.{◌≡◌, IfOk, Some, None, codes};

use std::alloc::{AllocError, Global};
use std::marker::Model;

/// How the numbers of a cell are written (ECMA-376, 18.8.30 and 18.8.31).
#[derive(Debug, Drop)]
pub struct NumberFormat {
    pub format_code: String,
    pub format_id: Option<u32>,
}

impl Model for NumberFormat {
    ghost use Rattle.std.specs.Prelude.{string_bytes};
    ghost use Rattle.cell_styles.specs.StyleFormats.{NumberFormatFields};

    ghost Value = { NumberFormatFields };

    ghost view = { λ format. record {
      format_code = string_bytes format.format_code;
      format_id = format.format_id;
    } };
}

impl NumberFormat {
    /// The format `General` without an id. It stands for a default, which can't take memory.
    pub fn general(alloc: Global) -> Result<NumberFormat, AllocError>
        ensures { IfOk result (λ format. format ≡ record {
          format_code = codes "General";
          format_id = None;
        }) }
    {
        Ok(NumberFormat {
            format_code: String::from_str(alloc, "General")?,
            format_id: None,
        })
    }

    /// A copy in memory of its own.
    pub fn clone_in(&self, alloc: Global) -> Result<NumberFormat, AllocError>
        ensures { IfOk result (λ copy. copy ≡ self.now) }
    {
        Ok(NumberFormat {
            format_code: String::from_str(alloc, self.format_code.as_str())?,
            format_id: self.format_id,
        })
    }
}

impl PartialEq for NumberFormat {
    ghost use Rattle.std.specs.Prelude.{nat_eq};
    ghost use Rattle.std.specs.Cmp.Lexicographic.{pointwise};
    ghost use Rattle.std.specs.Ordering.{on, eq_of_both};
    ghost use Rattle.std.specs.Option.{option_eq};
    ghost use Rattle.std.specs.Cmp.Rules.{comparing};
    ghost use Rattle.std.proofs.Common.{rules};

    ghost eq = { eq_of_both (on (λ format. format.format_code) (pointwise nat_eq))
        (on (λ format. format.format_id) (option_eq nat_eq)) };

    ghost laws = { Prim.search (comparing, rules) };

    fn eq(&self, other: &NumberFormat) -> bool {
        self.format_code == other.format_code && self.format_id == other.format_id
    }
}
