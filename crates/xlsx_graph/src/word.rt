//! The texts of words that are left open.
ghost use Rattle.std.specs.Prelude.{◌≡◌, ◌≢◌, ℕ, List, ◌<◌, [], ◌∷◌, ◌++◌, OnOk, IfOk, IfSome};
ghost use Rattle.std.specs.Prelude.{length, MatchOption, string_bytes};
ghost use Rattle.std.specs.List.{position_or_len, before_first, after_first};
ghost use Rattle.formula_tokens.specs.Items.{kept_bytes};
ghost use Rattle.formula_tokens.specs.Told.{name_text};
ghost use Rattle.xlsx_graph.specs.Told.{word_text, is_apostrophe};

use formula_tokens::Name;
use std::alloc::{AllocError, Global};

/// A word that is left open, as it stands in a formula.
#[derive(Clone, Copy, Debug)]
pub(crate) enum Word<'a> {
    Name(Name<'a>),
    /// The name of a sheet of another file, which brackets tell.
    InFile { book: &'a str, sheet: Name<'a> },
    /// What brackets have behind a table's name, which may be empty.
    Brackets { table: &'a str, inside: &'a str },
}

/// What stands before the first apostrophe, and what behind it, if there is one.
pub(crate) fn split_first(text: &str) -> Option<(&str, &str)>
    ensures { MatchOption result (position_or_len is_apostrophe text.now ≡ length text.now)
        (λ parts. (position_or_len is_apostrophe text.now < length text.now)
        × (parts.0.now ≡ before_first is_apostrophe text.now)
        × (parts.1.now ≡ after_first is_apostrophe text.now)) }
{
    text.split_once('\'')
}

/// What stands behind the apostrophe that a text begins with, if it does.
fn behind_apostrophe(text: &str) -> Option<&str>
    ensures { MatchOption result ((rest : List ℕ) → text.now ≢ 39 ∷ rest)
        (λ rest. text.now ≡ 39 ∷ rest.now) }
{
    text.strip_prefix('\'')
}

/// What stands before the first apostrophe, what it keeps where that is an apostrophe, too, or
/// where it stands at the end, and what stands behind them.
fn split_kept(text: &str) -> Option<(&str, &str, &str)>
    ensures parts { MatchOption result (kept_bytes text.now ≡ text.now)
        (λ parts. kept_bytes text.now
        ≡ (parts.0.now ++ parts.1.now) ++ kept_bytes parts.2.now) }
    ensures shorter { IfSome result (λ parts. length parts.2.now < length text.now) }
{
    let (before, behind) = split_first(text)?;
    if let Some(rest) = behind_apostrophe(behind) {
        return Some((before, "'", rest));
    }
    if behind.is_empty() {
        return Some((before, "'", behind));
    }
    Some((before, "", behind))
}

/// Appends a text in which an apostrophe keeps the character behind it.
fn push_kept(out: &mut String, text: &str) -> Result<(), AllocError>
    ensures { OnOk result
        (string_bytes out.new ≡ string_bytes out.old ++ kept_bytes text.now) }
{
    let mut rest = text;
    'parts: while let Some((before, kept, behind)) = split_kept(rest) {
        out.push_str(before)?;
        out.push_str(kept)?;
        rest = behind;
    }
    out.push_str(rest)
}

/// Appends a name.
fn push_name(out: &mut String, name: Name<'_>) -> Result<(), AllocError>
    ensures { OnOk result
        (string_bytes out.new ≡ string_bytes out.old ++ name_text name.entry) }
{
    match name {
        Name::Plain(text) => out.push_str(text),
        Name::Quoted(text) => push_kept(out, text),
    }
}

/// Appends what stands in brackets, with these.
fn push_brackets(out: &mut String, inside: &str) -> Result<(), AllocError>
    ensures { OnOk result (string_bytes out.new
        ≡ string_bytes out.old ++ (91 ∷ inside.now ++ 93 ∷ [])) }
{
    out.push('[')?;
    out.push_str(inside)?;
    out.push(']')?;
    Ok(())
}

/// The text of a word.
pub(crate) fn text_of(alloc: Global, word: Word<'_>) -> Result<String, AllocError>
    ensures { IfOk result (λ text. string_bytes text ≡ word_text word.entry) }
{
    let mut text = String::new(alloc);
    match word {
        Word::Name(name) => push_name(&mut text, name)?,
        Word::InFile { book, sheet } => {
            push_brackets(&mut text, book)?;
            push_name(&mut text, sheet)?;
        }
        Word::Brackets { table, inside } => {
            text.push_str(table)?;
            push_brackets(&mut text, inside)?;
        }
    }
    Ok(text)
}
