//! Unpacks standard input, a raw DEFLATE stream (RFC 1951), to standard output, as a workbook file
//! has it of each part. Where it is none, its text goes to standard error, and the status is 1.
//!
//! With a word behind the program's name it writes instead how many bytes are held, their checksum,
//! and how many stand behind: for bench/inflate.py and bench/damaged_streams.py.
#![tactic(auto)]

use anyhow::{Result, bail};
use crc32::Tables;
use inflate::inflate;
use std::env;
use std::io::{self, Input, Read, Write};

/// The most bytes of a stream, and of what it holds.
const LIMIT: usize = 1_073_741_824;

fn main(rt: HostRuntime) -> Result<()> {
    let alloc = rt.alloc();
    let mut stream = Vec::new(alloc);
    rt.reader().take(LIMIT as u64).read_to_end(&mut stream)?;
    if stream.len() > LIMIT {
        bail!("a stream that is too long");
    }
    let held = inflate(alloc, &stream, LIMIT)?;
    let mut out = io::writer(&rt);
    if env::args(&rt)?.nth(1).is_none() {
        out.write_all(&held.bytes)?;
    } else {
        let checksum = Tables::new(alloc)?.checksum(&held.bytes);
        writeln!(out, "{} {checksum} {}", held.bytes.len(), held.behind)?;
    }
    out.flush()?;
    Ok(())
}
