ghost use Rattle.std.specs.Prelude.{◌≡◌, ◌++◌, ℕ, List, map};
ghost use Rattle.xlsx_error.specs.declared.error.XlsxError.{XlsxError};
ghost use Rattle.xlsx_parts.specs.Words.{Appends};
ghost use Rattle.looks.specs.Words.{Look, look_ask};
ghost use Rattle.xlsx_relationships.specs.RelatedLook.{each_related};
ghost use Rattle.xlsx_relationships.specs.RelationshipErrors.{IsRelatedError};

use crate::related::related_parts;
use part_events::{Package, XlReader};
use xlsx_error::XlsxError;

/// Reads what a part says that a relationship leads to, and keeps it.
pub trait ReadsRelated {
    type Item: Drop;

    ghost Kept: { Type 0 };

    ghost kept: { Self → Self.Item → Kept };

    ghost look: { Self → List ℕ → Look (List Kept) };

    ghost Kind: { XlsxError → Type 0 };

    /// Appends what the part at this path says. After a refusal some of it may be appended.
    fn push<P: Package>(
        &self,
        xml: &mut XlReader<P>,
        items: &mut Vec<Self::Item>,
        path: &str,
    ) -> Result<(), XlsxError>
        ensures answers { let before = map (kept self.now) items.old.items in
            let after = map (kept self.now) items.new.items in
            Appends (look_ask Kind (look self.now path.now)) before after result
            xml.old.source xml.new.source }
        ensures kept { (more : List Self.Item) × (items.new.items ≡ items.old.items ++ more) };

    ghost related_kinds: { (error : XlsxError) → IsRelatedError error → Kind error };
}

/// Appends what the parts say that the relationships of exactly this type lead to, which the part
/// at `path` has, in order (ECMA-376 part 2, section 9.3). What one says that two of them name
/// comes twice.
///
/// Fails as `related_parts`, and by one of the parts as `by` says. After a refusal some of it may
/// be appended, behind what was there.
pub fn push_related<P: Package, R: ReadsRelated>(
    xml: &mut XlReader<P>,
    items: &mut Vec<R::Item>,
    path: &str,
    typ: &str,
    by: &R,
) -> Result<(), XlsxError>
    ensures answers { let before = map (R.kept by.now) items.old.items in
        let after = map (R.kept by.now) items.new.items in
        Appends (look_ask R.Kind (each_related (R.look by.now) typ.now path.now)) before after
        result xml.old.source xml.new.source }
    ensures kept { (more : List R.Item) × (items.new.items ≡ items.old.items ++ more) }
{
    let paths = related_parts(xml, path, typ)?;
    let mut left = paths.as_slice();
    'paths: while let Some((there, others)) = left.split_first() {
        by.push(xml, items, there.as_str())?;
        left = others;
    }
    Ok(())
}
