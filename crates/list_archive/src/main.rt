//! Lists standard input, a zip archive: of each entry in the order of its directory its name, the
//! place of the entry that is found by this name, counted from 0 (`-` for none), how many bytes it
//! holds, and their checksum, or why it can't be opened; with tabs between.
//!
//! Where it is no archive, its text goes to standard error, and the status is 1. A name that isn't
//! UTF-8 where it is to be is `?`. For bench/damaged_archives.py.
#![tactic(auto)]

ghost use Rattle.std.specs.Prelude.{◌<◌, length};

use anyhow::{Result, bail};
use crc32::Tables;
use escaped_text::push_escaped;
use std::alloc::{AllocError, Global};
use std::io::{self, Input, Read, Write};
use zip_archive::{Archive, EntryError};

/// The most bytes of a file, and of what its entries hold.
const FILE_LIMIT: usize = 268_435_456;

const ENTRY_LIMIT: usize = 1_073_741_824;

/// The name of an entry, and the place of the entry that is found by it.
fn name_line(alloc: Global, archive: &Archive, place: usize) -> Result<String, AllocError>
    requires { place < length archive.now.archive.entries }
{
    let mut line = String::new(alloc);
    match archive.name(alloc, place)? {
        Some(name) => {
            push_escaped(&mut line, &name)?;
            match archive.find(&name) {
                Some(found) => line.push_str(&format!(in alloc; "\t{found}")?)?,
                None => line.push_str("\t-")?,
            }
        }
        None => line.push_str("?\t-")?,
    }
    Ok(line)
}

/// How many bytes an entry holds, and their checksum; or why it can't be opened.
fn contents_line(
    alloc: Global,
    tables: &Tables,
    archive: &Archive,
    place: usize,
) -> Result<String, AllocError>
    requires { place < length archive.now.archive.entries }
{
    match archive.open(alloc, tables, place, ENTRY_LIMIT) {
        Ok(bytes) => {
            let checksum = tables.checksum(&bytes);
            format!(in alloc; "{} {checksum}", bytes.len())
        }
        Err(EntryError::Fault(fault)) => format!(in alloc; "{fault}"),
        Err(EntryError::OutOfMemory) => String::from_str(alloc, "out of memory"),
    }
}

fn main(rt: HostRuntime) -> Result<()> {
    let alloc = rt.alloc();
    let mut file = Vec::new(alloc);
    rt.reader()
        .take(FILE_LIMIT as u64 + 1)
        .read_to_end(&mut file)?;
    if file.len() > FILE_LIMIT {
        bail!("a file that is too long");
    }
    let tables = Tables::new(alloc)?;
    let archive = Archive::new(alloc, file)?;
    let mut out = io::writer(&rt);
    for place in 0..archive.entry_count() {
        let name = name_line(alloc, &archive, place)?;
        let contents = contents_line(alloc, &tables, &archive, place)?;
        writeln!(out, "{name}\t{contents}")?;
    }
    out.flush()?;
    Ok(())
}
