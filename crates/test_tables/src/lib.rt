//! Tables of cases, each written as one text: a text among the values of a test is proved for
//! itself, and one that is cut is proved once.
//!
//! An empty line stands between two cases. The first field of a case begins it, and each other
//! stands on lines of its own, the first of which begins with `=` and a blank. An empty line more
//! is an empty first field, and `=` alone any other that is empty.
//!
//! One room: the cases of a table (`cases`), the fields of a case (`cut`), and a comparison that
//! tells the case (`assert_text`).
#![tactic(auto)]

use std::str::Split;
use std::test::Fail;

/// The cases of a table. The line end at the start of the table and that at its end belong to none.
pub fn cases(table: &str) -> Split<'_, &'static str> {
    let table = table.strip_prefix('\n').unwrap_or(table);
    table.strip_suffix('\n').unwrap_or(table).split("\n\n")
}

/// The first field of a case, and all behind it. Behind the last field stands a text that nothing
/// gives, so that a case with too few of them fails.
pub fn cut(case: &str) -> (&str, &str) {
    match case.split_once("\n=") {
        Some((field, rest)) => (field, rest.strip_prefix(' ').unwrap_or(rest)),
        None => (case, "a field that the case lacks"),
    }
}

/// What was found is what a case wants. Otherwise the test fails and tells the case.
pub fn assert_text(found: &str, wanted: &str, case: &str) -> Result<(), Fail> {
    if found == wanted {
        return Ok(());
    }
    Err(Fail::new(format_args!("{case}: {found} in place of {wanted}")))
}
