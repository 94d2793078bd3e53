//! Names of functions.
ghost use Rattle.std.specs.Prelude.{◌≡◌, drop};
ghost use Rattle.std.specs.List.{list_any};
ghost use Rattle.formula_tokens.specs.Tokens.{is_begun_by, is_same_name};
ghost use Rattle.xlsx_graph.specs.Naming.{is_parameter, plain_function, is_computed, asks_place};

use formula_tokens::is_same_name;

/// Whether a text begins with the word, in either case.
fn is_begun_by(word: &[u8], text: &[u8]) -> bool
    ensures { result ≡ is_begun_by word.now text.now }
{
    is_same_name(text.split_at(word.len().min(text.len())).0, word)
}

/// Whether a word is a parameter of LET or LAMBDA, or the name of a function that is handed on.
pub(crate) fn is_parameter(word: &[u8]) -> bool
    ensures { result ≡ is_parameter word.now }
{
    is_begun_by(b"_xlpm.", word) || is_begun_by(b"_xlop.", word) || is_begun_by(b"_xleta.", word)
}

/// What stands behind so many bytes of a text, or nothing.
fn behind(text: &[u8], count: usize) -> &[u8]
    ensures { result.now ≡ drop count text.now }
{
    text.split_at(count.min(text.len())).1
}

/// The name of a function without the marks of later versions.
fn plain_function(name: &[u8]) -> &[u8]
    ensures { result.now ≡ plain_function name.now }
{
    if is_begun_by(b"_xlfn._xlws.", name) {
        return behind(name, 12);
    }
    if is_begun_by(b"_xlfn.", name) || is_begun_by(b"_xlws.", name) {
        return behind(name, 6);
    }
    name
}

/// Whether a word is the name of one of these functions.
fn is_function_of(functions: &[&[u8]], word: &[u8]) -> bool
    ensures { result
        ≡ list_any (λ f. is_same_name f.now (plain_function word.now)) functions.now }
{
    let name = plain_function(word);
    functions
        .iter()
        .any(|function| is_same_name(function, name))
}

/// Whether the answer is a reference that values alone tell.
pub(crate) fn is_computed(word: &[u8]) -> bool
    ensures { result ≡ is_computed word.now }
{
    let functions: [&[u8]; 2] = [b"INDIRECT", b"OFFSET"];
    is_function_of(&functions, word)
}

/// Whether a function asks where an area is, and not what is in it.
pub(crate) fn asks_place(word: &[u8]) -> bool
    ensures { result ≡ asks_place word.now }
{
    let functions: [&[u8]; 8] = [
        b"ROW", b"ROWS", b"COLUMN", b"COLUMNS", b"AREAS", b"SHEET", b"SHEETS", b"ISREF",
    ];
    is_function_of(&functions, word)
}
