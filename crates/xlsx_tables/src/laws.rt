//! Laws of tables.

ghost use Rattle.std.specs.Prelude.{◌≡◌, List, Some};
ghost use Rattle.part_events.specs.Words.{Event, Part};
ghost use Rattle.xlsx_error.specs.declared.error.XlsxError.{XlsxError};
ghost use Rattle.xlsx_parts.specs.Words.{SheetPath};
ghost use Rattle.xlsx_tables.specs.TableErrors.{TableCause};
ghost use Rattle.xlsx_tables.specs.TableParts.{TableSaid, table_of};
ghost use Rattle.xlsx_tables.specs.Tables.{SheetTable, tables_of, TablesCause};

/// A part whose table can be taken has no cause of a refusal, and nor have parts that say the
/// tables of all sheets.
pub fn tables_have_no_cause_of_a_refusal()
    ensures table { (events : List Event) (table : TableSaid) (error : XlsxError) →
        table_of events ≡ Some table → TableCause events error → ⊥ }
    ensures tables { (parts : List Part) (sheets : List SheetPath) (found : List SheetTable)
        (error : XlsxError) → tables_of parts sheets ≡ Some found →
        TablesCause parts sheets error → ⊥ }
{}
