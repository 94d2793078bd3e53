ghost use Rattle.std.specs.Prelude.{◌≡◌, ◌≢◌, ◌<◌, ◌≤◌, ◌+◌, ◌++◌, ℕ, List, [], ◌∷◌, length, OnOk};
ghost use Rattle.std.specs.Prelude.{OnErr, string_bytes};
ghost use Rattle.std.specs.String.{string_len, string_capacity};
ghost use Rattle.attr_text.specs.Text.{line_ends};
ghost use Rattle.attr_text.specs.Lines.{without_line_feed};

use crate::cuts::split_first;
use std::alloc::AllocError;

/// The text without an LF in front.
fn skip_line_feed(text: &str) -> &str
    ensures { result.now ≡ without_line_feed text.now }
{
    match text.strip_prefix('\n') {
        Some(rest) => rest,
        None => text,
    }
}

/// Appends a run and the line end behind it, for which there is room.
fn push_line(out: &mut String, run: &str)
    requires { string_len out.old + length run.now + 1 ≤ string_capacity out.old }
    ensures bytes { string_bytes out.new ≡ string_bytes out.old ++ run.now ++ 10 ∷ [] }
    ensures len { string_len out.new ≡ string_len out.old + length run.now + 1 }
    ensures capacity { string_capacity out.old ≤ string_capacity out.new }
{
    out.push_str(run).unwrap();
    out.push('\n').unwrap();
}

/// Appends the text, with CR LF and each lone CR as LF. It is refused only where the capacity has
/// no room for the text as it is written, and `out` is then as it was.
pub fn push_line_ends(out: &mut String, text: &str) -> Result<(), AllocError>
    ensures ok { OnOk result (string_bytes out.new ≡ string_bytes out.old ++ line_ends text.now) }
    ensures unchanged { OnErr result (string_bytes out.new ≡ string_bytes out.old) }
    ensures capacity { string_capacity out.old ≤ string_capacity out.new }
    ensures full { OnErr result (string_capacity out.old < string_len out.old + length text.now) }
{
    out.reserve(text.len())?;
    let mut rest = text;
    while let Some((run, behind)) = split_first(rest, '\r') {
        push_line(out, run);
        rest = skip_line_feed(behind);
    }
    out.push_str(rest).unwrap();
    Ok(())
}

/// The line ends of a text by what stands first in it: CR LF, a lone CR, or another byte. It
/// computes nothing: its contract is what a proof cites.
pub fn line_ends_in_order()
    ensures none { line_ends [] ≡ [] }
    ensures return_and_feed { (rest : List ℕ) →
        line_ends (13 ∷ 10 ∷ rest) ≡ 10 ∷ line_ends rest }
    ensures lone_return { (b : ℕ) (rest : List ℕ) → b ≢ 10 →
        line_ends (13 ∷ b ∷ rest) ≡ 10 ∷ line_ends (b ∷ rest) }
    ensures last_return { line_ends (13 ∷ []) ≡ 10 ∷ [] }
    ensures other { (b : ℕ) (rest : List ℕ) → b ≢ 13 → line_ends (b ∷ rest) ≡ b ∷ line_ends rest }
{}
