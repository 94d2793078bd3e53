//! Answers calls of the reader, for the tests of tools/test_calls.py: each line of standard input
//! is a package, the begin of a run, or a call by its name, and each call answers one line.
//!
//! A line that begins with `{` is a package text (docs/FORMAT.md), from which the runs behind it
//! have their package. `sample` and a number of rows is a sample in its place. `run` begins a run
//! on a package that is new, of which the calls with the numbers behind it fail. Every other line
//! is a call. Between the words of a line stand tabs.
//!
//! An answer is a text, with the escapes of docs/FORMAT.md. A refusal in it is `!` with the error.
//!
//! Rooms: `runs` (the package of a run, as it is or opened as a workbook), `words` (those of a
//! line), `package` (the calls on a package), `book` (those on an open workbook, by `ranges`,
//! `cells`, `areas`, `links`, `properties`, `tables`, `pivots` and `facts`) and `values` (texts of
//! values and refusals). The program promises only that it is safe and ends. The cases stand in
//! tables of texts, tools/support/calls, of which `test_calls.py` and `test_call_faults.py` make
//! runs.
#![tactic(auto)]

mod areas;
mod book;
mod cells;
mod facts;
mod links;
mod package;
mod pivots;
mod properties;
mod ranges;
mod runs;
mod tables;
mod values;
mod words;

use anyhow::Result;
use escaped_text::push_escaped;
use runs::Runs;
use std::io::{self, BufRead, BufReader, BufWriter, Write};

fn main(rt: HostRuntime) -> Result<()> {
    let alloc = rt.alloc();
    let mut out = BufWriter::new(alloc, io::writer(&rt))?;
    let mut runs = Runs::new();
    for line in BufReader::new(alloc, rt.reader())?.lines(alloc) {
        if let Some(answer) = runs.take(alloc, line?.as_str())? {
            let mut escaped = String::new(alloc);
            push_escaped(&mut escaped, &answer)?;
            writeln!(out, "{escaped}")?;
        }
    }
    out.flush()?;
    Ok(())
}
