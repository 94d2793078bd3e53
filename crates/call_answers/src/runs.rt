//! Runs of calls, each on a package of its own.

use crate::book::push_book_answer;
use crate::package::{push_counts, push_package_answer, push_reading};
use crate::values::push_refusal;
use crate::words::{number, word, words_behind, words_of};
use anyhow::{Result, anyhow};
use package_text::package_from_json;
use part_events::{FailingPackage, MemoryPackage, Package, QuietPackage};
use serde_json::Value;
use std::alloc::Global;
use xlsx_core::{OpenFailure, PivotTables, Xlsx};
use xlsx_sample::sample_package;

/// An open workbook, and the pivot tables that were found in it.
#[derive(Drop)]
pub struct Opened {
    pub xlsx: Xlsx<FailingPackage>,
    pub pivots: Option<PivotTables>,
}

/// Where the packages of runs come from.
#[derive(Drop)]
enum Source {
    Nowhere,
    Text(Value),
    Sample(u32),
}

/// What a run calls: a package, or the workbook that it was opened as.
#[derive(Drop)]
enum Held {
    Nothing,
    Package(FailingPackage),
    Book(Opened),
}

/// The run that is going on, and the package of the runs.
#[derive(Drop)]
pub struct Runs {
    source: Source,
    held: Held,
}

fn package_from(alloc: Global, source: &Source) -> Result<MemoryPackage> {
    match source {
        Source::Nowhere => Ok(MemoryPackage::new(alloc)),
        Source::Text(value) => match package_from_json(alloc, value)? {
            Some(package) => Ok(package),
            None => Err(anyhow!("no package text")),
        },
        Source::Sample(rows) => Ok(sample_package(alloc, *rows)?),
    }
}

/// A package some calls of which fail: those with the numbers that these words spell.
fn failing(alloc: Global, inner: MemoryPackage, words: &[&str]) -> Result<FailingPackage> {
    let mut calls = Vec::new(alloc);
    for word in words {
        calls.push(word.parse::<u64>()?)?;
    }
    Ok(FailingPackage::new(inner, calls))
}

/// Opens a package as a workbook. A refusal keeps the package.
fn book_from(out: &mut String, alloc: Global, package: FailingPackage) -> Result<Held> {
    match Xlsx::new(alloc, package) {
        Ok(xlsx) => Ok(Held::Book(Opened { xlsx, pivots: None })),
        Err(OpenFailure { error, package }) => {
            push_refusal(out, &error)?;
            Ok(Held::Package(package))
        }
    }
}

/// The lines of a sheet of a package that tells no content, behind the count of its faults, and
/// whether anything was taken of it.
fn push_quiet(
    out: &mut String,
    alloc: Global,
    package: FailingPackage,
    name: &str,
) -> Result<FailingPackage> {
    let quiet = push_reading(out, alloc, QuietPackage::new(package), name)?;
    write!(out, "{} {}", quiet.faults(), quiet.taken() > 0)?;
    Ok(quiet.into_inner())
}

/// Answers a call on a package, which may be opened by it.
fn from_package(
    out: &mut String,
    alloc: Global,
    package: FailingPackage,
    words: &[&str],
) -> Result<Held> {
    match word(words, 0) {
        "open" => book_from(out, alloc, package),
        "reading" => Ok(Held::Package(push_reading(out, alloc, package, word(words, 1))?)),
        "counts" => Ok(Held::Package(push_counts(out, alloc, package, word(words, 1))?)),
        "quiet" => Ok(Held::Package(push_quiet(out, alloc, package, word(words, 1))?)),
        _ => Ok(Held::Package(push_package_answer(out, alloc, package, words)?)),
    }
}

/// Answers a call on a workbook, whose package may be taken back by it.
fn from_book(out: &mut String, alloc: Global, book: Opened, words: &[&str]) -> Result<Held> {
    let mut book = book;
    if word(words, 0) == "close" {
        let Opened { xlsx, pivots: _ } = book;
        let package = xlsx.into_package().into_inner();
        write!(out, "{}", package.part_count())?;
        return Ok(Held::Package(FailingPackage::new(package, Vec::new(alloc))));
    }
    push_book_answer(out, alloc, &mut book, words)?;
    Ok(Held::Book(book))
}

impl Runs {
    pub fn new() -> Runs {
        Runs {
            source: Source::Nowhere,
            held: Held::Nothing,
        }
    }

    /// Answers the call of a line, or None where it is none.
    pub fn take(&mut self, alloc: Global, line: &str) -> Result<Option<String>> {
        if line.starts_with('{') {
            self.source = Source::Text(Value::from_str(alloc, line)?);
            return Ok(None);
        }
        let words = words_of(alloc, line)?;
        match word(&words, 0) {
            "sample" => self.source = Source::Sample(word(&words, 1).parse::<u32>()?),
            "run" => {
                let package = package_from(alloc, &self.source)?;
                self.held = Held::Package(failing(alloc, package, words_behind(&words, 1))?);
            }
            _ => return Ok(Some(self.answer(alloc, &words)?)),
        }
        Ok(None)
    }

    /// Answers a call.
    fn answer(&mut self, alloc: Global, words: &[&str]) -> Result<String> {
        let mut out = String::new(alloc);
        self.held = match std::mem::replace(&mut self.held, Held::Nothing) {
            Held::Nothing => return Err(anyhow!("no run has begun")),
            Held::Package(package) => from_package(&mut out, alloc, package, words)?,
            Held::Book(book) => from_book(&mut out, alloc, book, words)?,
        };
        Ok(out)
    }
}
