ghost use Rattle.std.proofs.Common.{inl};
ghost use Rattle.std.specs.Prelude.{◌≡◌, ◌++◌, ℕ, List, map, true, OnOk, IfSome, option_map};
ghost use Rattle.std.specs.Prelude.{option_to_list};
ghost use Rattle.cell_refs.specs.Words.{are_sheet_bounds};
ghost use Rattle.xlsx_parts.specs.Words.{Appends, map_each};
ghost use Rattle.looks.specs.Words.{mapped};
ghost use Rattle.xlsx_tables.specs.TableParts.{TableSaid, table_kept};
ghost use Rattle.xlsx_tables.specs.Tables.{IsTablesError, loaded_of, table_look, table_on_sheet};
ghost use Rattle.xlsx_tables.specs.Tables.{tables_ask};
ghost use Rattle.xlsx_tables.specs.declared.loaded.LoadedTable.{LoadedTable};

use crate::loaded::LoadedTable;
use crate::table_part::{TablePart, read_table_at};
use part_events::{Package, XlReader};
use std::alloc::AllocError;
use xlsx_error::XlsxError;
use xlsx_relationships::{ReadsRelated, push_related};

const TABLE_TYPE: &str =
    "http://schemas.openxmlformats.org/officeDocument/2006/relationships/table";

/// Appends the table of a part, where there is one.
fn push_part(
    tables: &mut Vec<LoadedTable>,
    sheet: usize,
    part: Option<TablePart>,
) -> Result<(), AllocError>
    requires { IfSome part (λ own. are_sheet_bounds own.area ≡ true) }
    ensures ok { OnOk result (map loaded_of tables.new.items ≡ map loaded_of tables.old.items
        ++ map (table_on_sheet sheet) (option_to_list (option_map table_kept part))) }
    ensures kept { (more : List LoadedTable) × (tables.new.items ≡ tables.old.items ++ more) }
{
    if let Some(part) = part {
        tables.push(LoadedTable::new(sheet, part))?;
    }
    Ok(())
}

/// Reads the tables of parts, and keeps them with the number of their sheet.
#[derive(Drop)]
struct TableReader {
    sheet: usize,
}

impl ReadsRelated for TableReader {
    type Item = LoadedTable;

    ghost Kept = { ℕ × TableSaid };

    ghost kept = { λ r own. loaded_of own };

    ghost look = { λ r path. mapped (map (table_on_sheet r.sheet)) (table_look path) };

    ghost Kind = { IsTablesError };

    ghost related_kinds = { λ error is. inl is };

    /// A part that is absent has no table.
    fn push<P: Package>(
        &self,
        xml: &mut XlReader<P>,
        tables: &mut Vec<LoadedTable>,
        path: &str,
    ) -> Result<(), XlsxError> {
        let part = read_table_at(xml, path)?;
        push_part(tables, self.sheet, part)?;
        Ok(())
    }
}

/// Appends the tables of the sheet whose part is at this path, and whose number is `sheet`: those
/// of the parts that its relationships of the type for tables lead to, in order (ECMA-376 part 1,
/// section 18.5.1.2). One that two of them name comes twice, and a part that is absent has none.
///
/// Fails as `related_parts` of this type, and by one of the tables as `read_table_part`. After a
/// refusal some of them may be appended, behind those that were there.
pub fn read_sheet_tables<P: Package>(
    xml: &mut XlReader<P>,
    tables: &mut Vec<LoadedTable>,
    sheet: usize,
    path: &str,
) -> Result<(), XlsxError>
    ensures answers { let before = map loaded_of tables.old.items in
        let after = map loaded_of tables.new.items in
        Appends (map_each (table_on_sheet sheet) (tables_ask path.now)) before after result
        xml.old.source xml.new.source }
    ensures kept { (more : List LoadedTable) × (tables.new.items ≡ tables.old.items ++ more) }
{
    let by = TableReader { sheet };
    push_related(xml, tables, path, TABLE_TYPE, &by)
}
