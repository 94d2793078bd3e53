//! Texts as they are written: as events, between quotes, and with underscores escaped.
ghost use Rattle.std.specs.Prelude.{◌≡◌, ◌++◌, OnOk, string_bytes};
ghost use Rattle.written_markup.specs.Words.{with_events, run_events, text_events};
ghost use Rattle.written_markup.specs.Words.{underscores_escaped, encoded};
ghost use Rattle.xlsx_writer.specs.Escaping.{escaped_by};

use crate::escaping::Escaping;
use part_events::PartEvent;
use std::alloc::AllocError;
use written_markup::PackageBuilder;

/// Appends a text between two references.
fn push_run(builder: &mut PackageBuilder, run: &str) -> Result<(), AllocError>
    ensures { OnOk result (builder.new ≡ with_events builder.old (run_events run.now)) }
{
    if run.is_empty() {
        return Ok(());
    }
    builder.push(&[PartEvent::Text(run)])
}

/// Appends a text as it stands in an element: references, and the runs between them.
pub fn push_text(builder: &mut PackageBuilder, text: &str) -> Result<(), AllocError>
    ensures { OnOk result (builder.new ≡ with_events builder.old (text_events text.now)) }
{
    let mut rest = text;
    'runs: while let Some(cut) = Escaping::References.cut(rest) {
        push_run(builder, cut.run)?;
        builder.push(&[PartEvent::EntityRef(cut.escape)])?;
        rest = cut.behind;
    }
    push_run(builder, rest)
}

/// Appends a text by a way to write it: what is written for some of its bytes, and the others as
/// they are.
fn push_escaped(out: &mut String, text: &str, escaping: Escaping) -> Result<(), AllocError>
    ensures { OnOk result
        (string_bytes out.new ≡ string_bytes out.old ++ escaped_by escaping text.now) }
{
    let mut rest = text;
    'runs: while let Some(cut) = escaping.cut(rest) {
        out.push_str(cut.run)?;
        out.push_str(cut.escape)?;
        rest = cut.behind;
    }
    out.push_str(rest)
}

/// Appends a text in which `_xHHHH_` counts: each `_` as its escape.
#[tactic(auto, using(crate::proofs::Escapes::escaped_underscores))]
pub fn push_underscores_escaped(out: &mut String, text: &str) -> Result<(), AllocError>
    ensures { OnOk result
        (string_bytes out.new ≡ string_bytes out.old ++ underscores_escaped text.now) }
{
    push_escaped(out, text, Escaping::Underscores)
}

/// Appends a text as it stands between quotes: `&`, `"` and `<` as references.
#[tactic(auto, using(crate::proofs::Escapes::escaped_quoted))]
pub fn push_encoded(out: &mut String, text: &str) -> Result<(), AllocError>
    ensures { OnOk result (string_bytes out.new ≡ string_bytes out.old ++ encoded text.now) }
{
    push_escaped(out, text, Escaping::Quoted)
}
