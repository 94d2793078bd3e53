//! Laws of the caches of pivot tables.

ghost use Rattle.std.specs.Prelude.{◌≡◌, ℕ, List, Some};
ghost use Rattle.part_events.specs.Words.{Part};
ghost use Rattle.cell_data.specs.Words.{CellValue};
ghost use Rattle.xlsx_error.specs.declared.error.XlsxError.{XlsxError};
ghost use Rattle.xlsx_pivot_cache.specs.CacheRecords.{cache_rows, CacheCause};

/// Parts that say the rows of a cache have no cause of a refusal.
pub fn caches_have_no_cause_of_a_refusal()
    ensures { (parts : List Part) (definitions records : List ℕ)
        (rows : List (List CellValue)) (error : XlsxError) →
        cache_rows parts definitions records ≡ Some rows →
        CacheCause parts definitions records error → ⊥ }
{}
