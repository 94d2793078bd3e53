ghost use Rattle.std.proofs.Common.{inl};
ghost use Rattle.std.specs.Prelude.{◌≡◌, ◌≤◌, true, Ok, suc, length, map, IfOk, OnOk, IfErr};
ghost use Rattle.part_events.specs.Words.{IsReading, ReadsPart, section_ahead, is_closed_ahead};
ghost use Rattle.part_events.specs.Words.{section_end};
ghost use Rattle.xlsx_error.specs.declared.error.XlsxError.TheVariants.{Io};
ghost use Rattle.xlsx_sections.specs.Words.{Answers, IsInsideRefused, SectionFails};
ghost use Rattle.looks.specs.Words.{look_ask};
ghost use Rattle.xlsx_comments.specs.CommentParts.{CommentsSaid, entries_in, end_in_entries};
ghost use Rattle.xlsx_comments.specs.CommentParts.{gathered, entry_kept, comments_kept};
ghost use Rattle.xlsx_comments.specs.Comments.{IsCommentsError, entries_look, comments_look};
ghost use Rattle.xlsx_comments.specs.Comments.{AreSheetCommentsError, sheet_comments_ask};

use crate::comment::Comments;
use crate::entry::{Entry, EntryReader};
use part_events::{Package, XlReader};
use std::alloc::{AllocError, Global};
use xlsx_error::XlsxError;
use xlsx_relationships::{ReadsRelated, push_related};
use xlsx_sections::{enter_part, keep_elements_in};

const COMMENTS_TYPE: &str =
    "http://schemas.openxmlformats.org/officeDocument/2006/relationships/comments";

/// What the authors and the comments say in a root whose element is number `base` of the open ones.
fn entries_in<P: Package>(xml: &mut XlReader<P>, base: usize) -> Result<Vec<Entry>, XlsxError>
    requires reading { IsReading xml.old }
    requires within { base ≤ length xml.old.names }
    ensures reads { ReadsPart Io result xml.old xml.new }
    ensures closed { xml.old.source.is_visible ≡ true →
        OnOk result (is_closed_ahead base xml.old ≡ true) }
    ensures ends { xml.old.source.is_visible ≡ true →
        OnOk result (xml.new.at ≡ suc (section_end base xml.old)) }
    ensures entries { xml.old.source.is_visible ≡ true → IfOk result (λ entries.
        entries_in (section_ahead base xml.old) ≡ Ok (map entry_kept entries.items)) }
    ensures err { IfErr result
        (SectionFails end_in_entries (IsInsideRefused entries_in) base xml.old xml.new) }
    ensures kind { IfErr result IsCommentsError }
{
    let mut entries = Vec::new(xml.alloc());
    let names = ["author", "comment"];
    keep_elements_in(xml, base, &names, "comments", &EntryReader, &mut entries)?;
    Ok(entries)
}

/// What the authors and the comments say in the part at this path. An absent part has none.
fn read_entries<P: Package>(xml: &mut XlReader<P>, path: &str) -> Result<Vec<Entry>, XlsxError>
    ensures answers { Answers (look_ask IsCommentsError (entries_look path.now))
        (λ entries. map entry_kept entries.items) result xml.old.source xml.new.source }
{
    if !enter_part(xml, path, "comments")? {
        return Ok(Vec::new(xml.alloc()));
    }
    let base = xml.depth();
    entries_in(xml, base)
}

/// The authors and the comments among these, each in order.
fn gathered(alloc: Global, entries: Vec<Entry>) -> Result<Comments, AllocError>
    ensures { IfOk result (λ own. comments_kept own ≡ gathered (map entry_kept entries.items)) }
{
    let mut authors = Vec::new(alloc);
    let mut comments = Vec::new(alloc);
    for entry in entries {
        match entry {
            Entry::Author(name) => authors.push(name)?,
            Entry::Comment(comment) => comments.push(comment)?,
            Entry::Unplaced => {}
        }
    }
    Ok(Comments { authors, comments })
}

/// Reads the comments of parts.
#[derive(Drop)]
struct CommentsReader;

impl ReadsRelated for CommentsReader {
    type Item = Comments;

    ghost Kept = { CommentsSaid };

    ghost kept = { λ r own. comments_kept own };

    ghost look = { λ r. comments_look };

    ghost Kind = { AreSheetCommentsError };

    ghost related_kinds = { λ error is. inl is };

    /// A part that is absent has neither authors nor comments.
    fn push<P: Package>(
        &self,
        xml: &mut XlReader<P>,
        all: &mut Vec<Comments>,
        path: &str,
    ) -> Result<(), XlsxError> {
        let entries = read_entries(xml, path)?;
        all.push(gathered(xml.alloc(), entries)?)?;
        Ok(())
    }
}

/// The comments of the sheet whose part is at this path: those of the parts that its relationships
/// of the type for comments lead to, part by part, in order (ECMA-376 part 1, section 18.7.3). One
/// that two of them name comes twice, and a part that is absent has none.
///
/// An author has the text of its `author`, and a comment those of the `t` in it, but for what is
/// said of its pronunciation, as in a shared string; each `_xHHHH_` is replaced. A comment without
/// `ref` is left out. Authors and comments count at any depth of the root `comments`, outermost
/// ones alone.
///
/// Fails as `related_parts` of this type. A part without a root `comments`, or one that ends in it,
/// is `XmlEof("comments")`, one that ends in an author `XmlEof("author")`, one that ends in a `t`
/// of a comment `XmlEof("t")`, and one that ends elsewhere in a comment `XmlEof("comment")`. An end
/// that breaks the nesting, or a flaw, is `Xml(Break)`, and a reference without a character
/// `Xml(Entity)`, each with its number in the part, counted from 0. A start that can't be looked up
/// is `XmlAttr`, and a `ref` that names no cell has the refusal of its text.
pub fn read_sheet_comments<P: Package>(
    xml: &mut XlReader<P>,
    path: &str,
) -> Result<Vec<Comments>, XlsxError>
    ensures answers { Answers (sheet_comments_ask path.now) (λ all. map comments_kept all.items)
        result xml.old.source xml.new.source }
{
    let mut all = Vec::new(xml.alloc());
    push_related(xml, &mut all, path, COMMENTS_TYPE, &CommentsReader)?;
    Ok(all)
}
