//! The lines of a sheet's formulas beside the values of their cells (docs/FORMAT.md).
ghost use Rattle.std.specs.Prelude.{◌≡◌, ◌<◌, ◌++◌, OnOk, OnErr, string_bytes};
ghost use Rattle.cell_data.specs.Words.{IsPlacedInSheet, cells_of};
ghost use Rattle.escaped_text.specs.Escaped.{AddsBehind};
ghost use Rattle.xlsx_check.specs.Denoting.{values_of};
ghost use Rattle.xlsx_check.specs.Lines.{computed_text, verdict_text, verdict_line, formulas_of};
ghost use Rattle.xlsx_check.specs.Lines.{check_lines};
ghost use Rattle.xlsx_check.specs.Verdicts.{computed_of, verdict_of};

use crate::checking::verdict;
use crate::outcome::{Computed, Verdict};
use cell_data::{Data, Range};
use cell_refs::{MAX_COLUMNS, MAX_ROWS, push_reference};
use escaped_text::or_cut_back;
use std::alloc::AllocError;

/// Appends what was computed, behind its kind. A refusal may leave a front of it behind.
fn push_computed(out: &mut String, computed: Computed) -> Result<(), AllocError>
    ensures ok { let printed = computed_text (computed_of computed) in
        OnOk result (string_bytes out.new ≡ string_bytes out.old ++ printed) }
    ensures err { OnErr result (AddsBehind (string_bytes out.old) (string_bytes out.new)) }
{
    match computed {
        Computed::Number(number) => {
            out.push_str("n:")?;
            number.push_to(out)
        }
        Computed::Truth(true) => out.push_str("b:true"),
        Computed::Truth(false) => out.push_str("b:false"),
    }
}

/// Appends a verdict in words. A refusal may leave a front of them behind.
fn push_verdict(out: &mut String, verdict: Verdict) -> Result<(), AllocError>
    ensures ok { let printed = verdict_text (verdict_of verdict) in
        OnOk result (string_bytes out.new ≡ string_bytes out.old ++ printed) }
    ensures err { OnErr result (AddsBehind (string_bytes out.old) (string_bytes out.new)) }
{
    match verdict {
        Verdict::Agrees => out.push_str("agrees"),
        Verdict::Differs(computed) => {
            out.push_str("differs\t")?;
            push_computed(out, computed)
        }
        Verdict::NoValue => out.push_str("no value"),
        Verdict::Unsupported => out.push_str("unsupported"),
        Verdict::Overflow => out.push_str("overflow"),
    }
}

/// Appends the line of a verdict on the formula at a position, counted from 0. A refusal may leave
/// a front of it behind.
fn push_verdict_line(
    out: &mut String,
    position: (u32, u32),
    verdict: Verdict,
) -> Result<(), AllocError>
    requires in_rows { position.0 < MAX_ROWS }
    requires in_columns { position.1 < MAX_COLUMNS }
    ensures ok { let printed = verdict_line position (verdict_of verdict) in
        OnOk result (string_bytes out.new ≡ string_bytes out.old ++ printed) }
    ensures err { OnErr result (AddsBehind (string_bytes out.old) (string_bytes out.new)) }
{
    push_reference(out, position.0, position.1)?;
    out.push_str("\t")?;
    push_verdict(out, verdict)?;
    out.push_str("\n")
}

/// Appends those lines, going over the formulas once. A refusal may leave a front of them behind.
fn push_check_lines(
    out: &mut String,
    values: &Range<Data>,
    formulas: &Range<String>,
) -> Result<(), AllocError>
    ensures ok { let printed = check_lines (values_of values.now) (formulas_of formulas.now) in
        OnOk result (string_bytes out.new ≡ string_bytes out.old ++ printed) }
    ensures err { OnErr result (AddsBehind (string_bytes out.old) (string_bytes out.new)) }
{
    for (position, formula) in formulas.used() {
        let said = verdict(values, formula.as_str(), position);
        push_verdict_line(out, position, said)?;
    }
    Ok(())
}

/// Appends a line for each used cell of the formulas, row by row: its reference, a tab, and the
/// verdict on its formula beside the value that it has, in words. A refusal leaves the text as it
/// was.
#[tactic(auto, using(escaped_text::proofs::Extending::cut_back))]
pub fn push_checks(
    out: &mut String,
    values: &Range<Data>,
    formulas: &Range<String>,
) -> Result<(), AllocError>
    ensures ok { let printed = check_lines (values_of values.now) (formulas_of formulas.now) in
        OnOk result (string_bytes out.new ≡ string_bytes out.old ++ printed) }
    ensures err { OnErr result (string_bytes out.new ≡ string_bytes out.old) }
{
    let len = out.len();
    let appended = push_check_lines(out, values, formulas);
    or_cut_back(out, len, appended)
}
