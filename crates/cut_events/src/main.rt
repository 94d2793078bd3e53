//! Cuts the bytes of a part, from standard input, into its events, and writes each on a line: for
//! tools/test_cutting.py and bench/markup.py.
//!
//! An event is a letter and its texts, with tabs between them and the escapes of docs/FORMAT.md:
//! `s` a start, with its name and its attribute text, `e` an end, `t` a text, `d` character data,
//! `r` a reference, `o` anything else, and `x` a flaw, with what is wrong.
//!
//! With the words `count N` it cuts the part so many times, and tells how many events it has and
//! how many bytes their texts have. The program promises only that it is safe and ends.
#![tactic(auto)]

use anyhow::Result;
use escaped_text::push_escaped;
use part_events::{Package, PartEvent};
use std::alloc::{AllocError, Global};
use std::env;
use std::io::{self, BufWriter, Read, Write};
use text_package::TextPackage;

/// The name of the part.
const NAME: &str = "part";

/// Appends a letter and the texts behind it.
fn push_texts(out: &mut String, letter: &str, texts: &[&str]) -> Result<(), AllocError> {
    out.push_str(letter)?;
    for text in texts {
        out.push_str("\t")?;
        push_escaped(out, text)?;
    }
    Ok(())
}

/// Appends an event.
fn push_event(out: &mut String, event: PartEvent<'_>) -> Result<(), AllocError> {
    match event {
        PartEvent::Start(tag) => push_texts(out, "s", &[tag.name, tag.attributes]),
        PartEvent::End(name) => push_texts(out, "e", &[name]),
        PartEvent::Text(content) => push_texts(out, "t", &[content]),
        PartEvent::CharData(content) => push_texts(out, "d", &[content]),
        PartEvent::EntityRef(name) => push_texts(out, "r", &[name]),
        PartEvent::Flaw(flaw) => push_texts(out, "x", &[flaw.description()]),
        PartEvent::Other => push_texts(out, "o", &[]),
    }
}

/// How many bytes the texts of an event have.
fn size_of(event: PartEvent<'_>) -> usize {
    match event {
        PartEvent::Start(tag) => tag.name.len() + tag.attributes.len(),
        PartEvent::End(text)
        | PartEvent::Text(text)
        | PartEvent::CharData(text)
        | PartEvent::EntityRef(text) => text.len(),
        PartEvent::Flaw(_) | PartEvent::Other => 0,
    }
}

/// How many events the part has, and how many bytes their texts have.
fn counts(package: &mut TextPackage) -> (u64, u64) {
    let mut events: u64 = 0;
    let mut bytes: u64 = 0;
    // No call of a package that is held as text is refused.
    let _found = package.open(NAME);
    for _ in 0..u64::MAX {
        let Ok(true) = package.advance() else {
            break;
        };
        events = events.saturating_add(1);
        bytes = bytes.saturating_add(size_of(package.event()) as u64);
    }
    (events, bytes)
}

/// Writes the events of the part.
fn write_events<W: Write>(alloc: Global, out: &mut W, package: &mut TextPackage) -> Result<()> {
    let mut line = String::new(alloc);
    // No call of a package that is held as text is refused.
    let _found = package.open(NAME);
    for _ in 0..u64::MAX {
        let Ok(true) = package.advance() else {
            break;
        };
        line.clear();
        push_event(&mut line, package.event())?;
        writeln!(out, "{line}")?;
    }
    Ok(())
}

fn main(rt: HostRuntime) -> Result<()> {
    let alloc = rt.alloc();
    let mut words = env::args(&rt)?;
    words.next();
    let mut bytes = Vec::new(alloc);
    rt.reader().read_to_end(&mut bytes)?;
    let mut package = TextPackage::new(alloc);
    package.add_part(NAME, bytes)?;
    if words.next().is_none() {
        let mut out = BufWriter::new(alloc, io::writer(&rt))?;
        write_events(alloc, &mut out, &mut package)?;
        out.flush()?;
        return Ok(());
    }
    let times = match words.next() {
        Some(word) => word.as_str().parse::<u64>().unwrap_or(1),
        None => 1,
    };
    let mut found = (0, 0);
    for _ in 0..times {
        found = counts(&mut package);
    }
    println!(rt; "{} events, {} bytes in them", found.0, found.1)?;
    Ok(())
}
