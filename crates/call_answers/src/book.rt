//! The calls on an open workbook.

use crate::areas::push_merge_answer;
use crate::cells::{Strings, push_calls};
use crate::facts::push_fact;
use crate::links::push_link_answer;
use crate::pivots::push_pivot_answer;
use crate::properties::push_property_answer;
use crate::ranges::push_range_answer;
use crate::runs::Opened;
use crate::tables::push_table_answer;
use crate::values::push_refusal;
use crate::words::{word, words_behind};
use anyhow::Result;
use std::alloc::Global;

/// The calls of a reader of the cells of a sheet, or why it can't be made.
fn push_cells(out: &mut String, alloc: Global, opened: &mut Opened, words: &[&str]) -> Result<()> {
    let strings = Strings { alloc, texts: &[] };
    match opened.xlsx.worksheet_cells_reader(word(words, 1)) {
        Ok(mut reader) => push_calls(out, strings, &mut reader, words_behind(words, 2)),
        Err(error) => push_refusal(out, &error),
    }
}

/// Answers a call on an open workbook.
pub fn push_book_answer(
    out: &mut String,
    alloc: Global,
    opened: &mut Opened,
    words: &[&str],
) -> Result<()> {
    if word(words, 0) == "cells" {
        return push_cells(out, alloc, opened, words);
    }
    if push_range_answer(out, opened, words)?
        || push_merge_answer(out, opened, words)?
        || push_link_answer(out, alloc, opened, words)?
        || push_property_answer(out, alloc, opened, words)?
        || push_table_answer(out, opened, words)?
        || push_pivot_answer(out, opened, words)?
        || push_fact(out, opened, words)?
    {
        return Ok(());
    }
    Ok(write!(out, "no call of a workbook is {}", word(words, 0))?)
}
