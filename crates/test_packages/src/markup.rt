//! Markup as events. A tag that begins with `!` is an event that has no other spelling here: `<!>`
//! one that nests nothing and says nothing, `<!text>` an empty text, `<!data>` the character data
//! `x`, `<!flaw>` a flaw, and any other a reference of that name. A line end with blanks behind it,
//! alone before a tag or between two, is no event, so that markup can stand on several lines.
//! Markup with another text before its first tag, or with a tag that has no `>`, is refused.

use part_events::{Flaw, MemoryPackage, PartEvent, StartTag};
use std::alloc::{AllocError, Global};
use xlsx_error::XlsxError;

/// The name of a part and its markup.
pub type Part<'a> = (&'a str, &'a str);

/// The event of a tag's name behind its `!`.
fn special_event(name: &str) -> PartEvent<'_> {
    match name {
        "" => PartEvent::Other,
        "text" => PartEvent::Text(""),
        "data" => PartEvent::CharData("x"),
        "flaw" => PartEvent::Flaw(Flaw::Malformed),
        _ => PartEvent::EntityRef(name),
    }
}

/// The start of a tag: its attributes are all behind its name.
fn start_tag(tag: &str) -> StartTag<'_> {
    let name = match tag.split_once(' ') {
        Some((name, _)) => name,
        None => tag,
    };
    StartTag {
        name,
        attributes: tag.strip_prefix(name).unwrap_or(""),
    }
}

fn push_tag<'a>(events: &mut Vec<PartEvent<'a>>, tag: &'a str) -> Result<(), AllocError> {
    if let Some(name) = tag.strip_prefix("/") {
        return Ok(events.push(PartEvent::End(name))?);
    }
    if let Some(name) = tag.strip_prefix("!") {
        return Ok(events.push(special_event(name))?);
    }
    let Some(empty) = tag.strip_suffix("/") else {
        return Ok(events.push(PartEvent::Start(start_tag(tag)))?);
    };
    let start = start_tag(empty);
    events.push(PartEvent::Start(start))?;
    Ok(events.push(PartEvent::End(start.name))?)
}

/// Text that only lays out the markup.
fn is_layout(text: &str) -> bool {
    text.starts_with('\n') && text.trim().is_empty()
}

/// The events of the text behind a `<`: a tag, and what stands behind it.
fn push_piece<'a>(events: &mut Vec<PartEvent<'a>>, piece: &'a str) -> Result<(), XlsxError> {
    let Some((tag, text)) = piece.split_once('>') else {
        return Err(XlsxError::Unexpected("test markup with a tag that has no end"));
    };
    push_tag(events, tag)?;
    if !text.is_empty() && !is_layout(text) {
        events.push(PartEvent::Text(text))?;
    }
    Ok(())
}

/// Refuses a text where none can stand.
fn refuse_text(text: &str) -> Result<(), XlsxError> {
    if text.is_empty() || is_layout(text) {
        return Ok(());
    }
    Err(XlsxError::Unexpected("test markup with a text before its first tag"))
}

/// The events of this markup. A text before the first tag that is no layout, and a tag that has no
/// `>`, are refused as `Unexpected`.
pub fn events_of(alloc: Global, markup: &str) -> Result<Vec<PartEvent<'_>>, XlsxError> {
    let mut events = Vec::new(alloc);
    let Some((before, pieces)) = markup.split_once('<') else {
        refuse_text(markup)?;
        return Ok(events);
    };
    refuse_text(before)?;
    for piece in pieces.split('<') {
        push_piece(&mut events, piece)?;
    }
    Ok(events)
}

/// Adds a part with the first events of this markup. Markup that `events_of` refuses is refused.
fn add_front(
    package: &mut MemoryPackage,
    alloc: Global,
    (name, markup): Part<'_>,
    count: usize,
) -> Result<(), XlsxError> {
    package.add_part(name)?;
    for (place, event) in events_of(alloc, markup)?.iter().enumerate() {
        if place < count && package.part_count() > 0 {
            package.push_event(*event)?;
        }
    }
    Ok(())
}

/// A package of these parts. The first of a name is found. Markup that `events_of` refuses is
/// refused.
pub fn package_of(alloc: Global, parts: &[Part<'_>]) -> Result<MemoryPackage, XlsxError> {
    let mut package = MemoryPackage::new(alloc);
    for part in parts {
        add_front(&mut package, alloc, *part, usize::MAX)?;
    }
    Ok(package)
}

/// A package of one part, with the first events of its markup. Markup that `events_of` refuses is
/// refused.
pub fn package_front(
    alloc: Global,
    part: Part<'_>,
    count: usize,
) -> Result<MemoryPackage, XlsxError> {
    let mut package = MemoryPackage::new(alloc);
    add_front(&mut package, alloc, part, count)?;
    Ok(package)
}
