//! Prints what a worksheet of a package holds (docs/FORMAT.md).
//!
//! Rooms: `source` and `sink` (the traits, the forms in memory, the forms over the system's reader
//! and writer), `input` (the bytes up to the limit), `run` (the package that a command works on,
//! and its output), `program` (a page or a command, and the status and the text at the end), and
//! `main`, which joins them to the system.
//!
//! `run` is generic in its source and its sink, so what is proved of it holds of each. `StdSource`
//! and `StdSink` are generic in a reader and a writer of std. Their own clauses say what became of
//! the bytes that these tell of. As a source and a sink they tell no bytes: a reader may begin or
//! cease to tell them, and a writer may hold a piece whose flush failed. `MemorySource` and
//! `MemorySink` tell all, give and take their bytes in pieces of any size, and fail at the calls
//! that they are told.
#![tactic(auto)]

mod input;
mod program;
mod run;
#[cfg(test)]
mod sales_tests;
mod sink;
mod source;
#[cfg(test)]
mod std_forms_tests;
#[cfg(test)]
mod tests;

use program::{answer, ending};
use sink::StdSink;
use source::StdSource;
use std::alloc::Global;
use std::env::{self, Env};
use std::io::{self, Input};
use std::process::ExitCode;
use xlsx_commands::ToolError;

/// The words behind the program's name.
fn words_of(rt: &(impl Env + Alloc<A = Global>)) -> Result<Vec<String>, ToolError> {
    let mut given = match env::args(rt) {
        Ok(given) => given,
        Err(error) if error.kind() == io::ErrorKind::OutOfMemory => {
            return Err(ToolError::OutOfMemory);
        }
        // A word isn't UTF-8.
        Err(_) => return Err(ToolError::Usage),
    };
    given.next();
    let mut words = Vec::new(rt.alloc());
    for word in given {
        words.push(word)?;
    }
    Ok(words)
}

/// The answer to the words, over standard input and output.
fn answer_on(rt: &(impl Env + Alloc<A = Global> + Print + Input)) -> Result<(), ToolError> {
    let words = words_of(rt)?;
    let mut source = StdSource::new(rt.reader());
    let mut sink = StdSink::new(io::writer(rt));
    answer(rt.alloc(), &words, &mut source, &mut sink)
}

fn main(rt: HostRuntime) -> ExitCode {
    let answer = answer_on(&rt);
    ending(rt.alloc(), &answer, &mut StdSink::new(rt.stderr()))
}
