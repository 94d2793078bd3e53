//! The hyperlinks of sheets.

use crate::areas::push_area;
use crate::runs::Opened;
use crate::values::push_refusal;
use crate::words::{number, word};
use anyhow::Result;
use std::alloc::Global;
use xlsx_core::{Hyperlink, XlsxError};

/// A text that may be absent: `-`, or `=` and the text.
fn push_optional(out: &mut String, text: &Option<String>) -> Result<()> {
    match text {
        Some(text) => write!(out, " ={text}")?,
        None => out.push_str(" -")?,
    }
    Ok(())
}

/// The area of a link, its target, its location, what is shown and its tip.
fn push_link(out: &mut String, link: &Hyperlink) -> Result<()> {
    push_area(out, link.range)?;
    push_optional(out, &link.target)?;
    push_optional(out, &link.location)?;
    push_optional(out, &link.displayed_text)?;
    push_optional(out, &link.tooltip)?;
    Ok(out.push_str(";")?)
}

/// The links, or why they are not read.
pub fn push_links(out: &mut String, answer: Result<Vec<Hyperlink>, XlsxError>) -> Result<()> {
    match answer {
        Ok(links) => {
            for link in &links {
                push_link(out, link)?;
            }
            Ok(())
        }
        Err(error) => push_refusal(out, &error),
    }
}

/// A copy of each link, and whether it is the same as the link and as the first of all.
fn push_copies(out: &mut String, alloc: Global, links: &[Hyperlink]) -> Result<()> {
    let Some(first) = links.first() else {
        return Ok(());
    };
    for link in links {
        let copy = link.clone_in(alloc)?;
        push_link(out, &copy)?;
        write!(out, "{} {};", copy == *link, copy == *first)?;
    }
    Ok(())
}

/// For each link, whether a cell lies in it.
fn push_held(out: &mut String, links: &[Hyperlink], row: u32, column: u32) -> Result<()> {
    for link in links {
        write!(out, "{};", link.contains(row, column))?;
    }
    Ok(())
}

/// What is asked of the links of a sheet beside their texts.
fn push_asked(out: &mut String, alloc: Global, opened: &mut Opened, words: &[&str]) -> Result<()> {
    let links = match opened.xlsx.hyperlinks_by_sheet_name(word(words, 1)) {
        Ok(links) => links,
        Err(error) => return push_refusal(out, &error),
    };
    if word(words, 0) == "link_copies" {
        return push_copies(out, alloc, &links);
    }
    let row = word(words, 2).parse::<u32>().unwrap_or(0);
    let column = word(words, 3).parse::<u32>().unwrap_or(0);
    push_held(out, &links, row, column)
}

/// Whether this is a call for links, which is answered then.
pub fn push_link_answer(
    out: &mut String,
    alloc: Global,
    opened: &mut Opened,
    words: &[&str],
) -> Result<bool> {
    let xlsx = &mut opened.xlsx;
    match word(words, 0) {
        "links" => push_links(out, xlsx.hyperlinks_by_sheet_name(word(words, 1)))?,
        "links_at" => push_links(out, xlsx.hyperlinks_by_sheet_id(number(words, 1)))?,
        "link_copies" | "link_holds" => push_asked(out, alloc, opened, words)?,
        _ => return Ok(false),
    }
    Ok(true)
}
