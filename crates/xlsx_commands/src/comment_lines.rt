ghost use Rattle.std.specs.Prelude.{◌≡◌, ◌++◌, map, string_bytes, OnOk, IfOk, IfErr, Some};
ghost use Rattle.xlsx_comments.specs.CommentParts.{comment_kept, comments_kept};
ghost use Rattle.looks.specs.Words.{look_said};
ghost use Rattle.xlsx_commands.specs.Outputs.{CallFails};
ghost use Rattle.xlsx_commands.specs.SheetLists.{AreLookLines, LookPathCause, NamedLookCause};
ghost use Rattle.xlsx_commands.specs.SheetLists.{comment_lines, line_of_comment, named_comments};
ghost use Rattle.xlsx_commands.specs.SheetLists.{part_lines};

use crate::error::ToolError;
use crate::named_sheet::{OfSheet, of_sheet};
use input_package::InputPackage;
use list_lines::{LineForm, push_comment_line};
use std::alloc::{AllocError, Global};
use xlsx_core::{Comment, Comments, Xlsx};
use xlsx_error::XlsxError;

/// The comments of a sheet, part by part.
impl OfSheet for Vec<Comments> {
    ghost has = { λ all name path parts.
        look_said (named_comments name path) parts ≡ Some (map comments_kept all.items) };

    ghost cause = { LookPathCause named_comments };

    fn ask(xlsx: &mut Xlsx<InputPackage>, name: &str) -> Result<Vec<Comments>, XlsxError> {
        xlsx.comments_by_sheet_name(name)
    }
}

/// Appends the line of a comment of a part.
fn push_comment(
    out: &mut String,
    form: LineForm,
    part: &Comments,
    comment: &Comment,
) -> Result<(), AllocError>
    ensures { OnOk result (string_bytes out.new ≡ string_bytes out.old
        ++ line_of_comment form (comments_kept part.now) (comment_kept comment.now)) }
{
    push_comment_line(
        out,
        form,
        comment.position(),
        part.author(comment),
        comment.text(),
    )
}

/// Appends the lines of the comments of a part.
fn push_part(out: &mut String, form: LineForm, part: &Comments) -> Result<(), AllocError>
    ensures { OnOk result
        (string_bytes out.new ≡ string_bytes out.old ++ part_lines form (comments_kept part.now)) }
{
    let comments = part.comments();
    for comment in comments {
        push_comment(out, form, part, comment)?;
    }
    Ok(())
}

fn lines_of_comments(alloc: Global, form: LineForm, all: &[Comments]) -> Result<String, AllocError>
    ensures { IfOk result (λ out.
        string_bytes out ≡ comment_lines form (map comments_kept all.now)) }
{
    let mut out = String::new(alloc);
    for part in all {
        push_part(&mut out, form, part)?;
    }
    Ok(out)
}

/// A line for each comment of the first sheet of this name.
pub fn comment_lines(
    alloc: Global,
    package: InputPackage,
    form: LineForm,
    name: &str,
) -> Result<Vec<u8>, ToolError>
    ensures ok { IfOk result (λ output. AreLookLines named_comments (comment_lines form)
        «package».parts name.now output.items) }
    ensures err { IfErr result
        (CallFails (NamedLookCause named_comments «package».parts name.now)) }
{
    let all: Vec<Comments> = of_sheet(alloc, package, name)?;
    Ok(lines_of_comments(alloc, form, &all)?.into_bytes())
}
