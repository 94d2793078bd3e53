ghost use Rattle.std.specs.Prelude.{◌≡◌, ℕ, Ok, Some, option_map, string_bytes, OnOk, OnErr, IfErr};
ghost use Rattle.xlsx_sections.specs.Words.{ElementFails, plain_told};
ghost use Rattle.xlsx_pivots.specs.PivotErrors.{IsSingleError, IsPivotsError};
ghost use Rattle.xlsx_pivots.specs.Singles.{lacking, many, kept_with};

use xlsx_error::XlsxError;

/// What a pivot table has exactly one of: a name, definitions of its cache, and records of it.
#[derive(Clone, Copy, Debug)]
pub enum Single {
    Name,
    Definitions,
    Records,
}

impl Single {
    /// The refusal where there is none.
    #[tactic(auto, using(crate::proofs::PivotsRead::single_error))]
    pub fn lacking(self) -> XlsxError
        ensures told { plain_told result ≡ Some (lacking self) }
        ensures single { IsSingleError result }
        ensures kind { IsPivotsError result }
    {
        match self {
            Single::Name => XlsxError::Unexpected("no name for pivot table"),
            Single::Definitions => {
                XlsxError::Unexpected("no pivot cache definition found for pivot table")
            }
            Single::Records => {
                XlsxError::Unexpected("no pivot cache records found for pivot table")
            }
        }
    }

    /// The refusal where there is more than one.
    fn many(self) -> XlsxError
        ensures told { plain_told result ≡ Some (many self) }
        ensures kind { IsSingleError result }
    {
        match self {
            Single::Name => {
                XlsxError::Unexpected("multiple name entries for one pivot table path")
            }
            Single::Definitions => XlsxError::Unexpected(
                "multiple pivot cache definition relationships found for one pivot table",
            ),
            Single::Records => XlsxError::Unexpected(
                "multiple pivot cache record relationships found for one pivot table",
            ),
        }
    }

    /// Keeps what was found, where there is something. A second one is refused.
    #[tactic(auto, using(crate::proofs::PivotsRead::single_error))]
    pub fn keep(self, kept: &mut Option<String>, own: Option<String>) -> Result<(), XlsxError>
        ensures ok { OnOk result (kept_with self (option_map string_bytes kept.old)
            (option_map string_bytes own) ≡ Ok (option_map string_bytes kept.new)) }
        ensures left { OnErr result
            (option_map string_bytes kept.new ≡ option_map string_bytes kept.old) }
        ensures err { IfErr result (λ error. (at behind : ℕ) →
            ElementFails (kept_with self (option_map string_bytes kept.old)
            (option_map string_bytes own)) at behind error) }
        ensures kind { IfErr result IsPivotsError }
    {
        let Some(own) = own else {
            return Ok(());
        };
        if kept.is_some() {
            return Err(self.many());
        }
        *kept = Some(own);
        Ok(())
    }
}
