//! Events as markup that is cut into them.
ghost use Rattle.std.specs.Prelude.{◌≡◌, ◌++◌, codes, string_bytes, OnOk, OnErr};
ghost use Rattle.escaped_text.specs.Escaped.{AddsBehind};
ghost use Rattle.markup.specs.Front.{empty};
ghost use Rattle.part_events.specs.Words.{event_of, tag_of};
ghost use Rattle.markup.specs.Spelled.{spelled_event, spelled_piece};

use escaped_text::or_cut_back;
use part_events::{PartEvent, StartTag};
use std::alloc::AllocError;

/// Appends a tag that ends in this text. A refusal may leave a front of it behind.
fn push_tag(out: &mut String, tag: StartTag<'_>, behind: &str) -> Result<(), AllocError>
    ensures ok { OnOk result (string_bytes out.new ≡ string_bytes out.old
        ++ codes "<" ++ tag.entry.name.now ++ tag.entry.attributes.now ++ behind.now) }
    ensures err { OnErr result (AddsBehind (string_bytes out.old) (string_bytes out.new)) }
{
    out.push_str("<")?;
    out.push_str(tag.name)?;
    out.push_str(tag.attributes)?;
    out.push_str(behind)
}

/// Appends a text between two others. A refusal may leave a front of it behind.
fn push_between(out: &mut String, before: &str, text: &str, behind: &str) -> Result<(), AllocError>
    ensures ok { OnOk result
        (string_bytes out.new ≡ string_bytes out.old ++ before.now ++ text.now ++ behind.now) }
    ensures err { OnErr result (AddsBehind (string_bytes out.old) (string_bytes out.new)) }
{
    out.push_str(before)?;
    out.push_str(text)?;
    out.push_str(behind)
}

/// Appends an event as it is written. A refusal may leave a front of it behind.
fn push_event(out: &mut String, event: PartEvent<'_>) -> Result<(), AllocError>
    ensures ok { OnOk result (string_bytes out.new
        ≡ string_bytes out.old ++ spelled_event (event_of event.entry)) }
    ensures err { OnErr result (AddsBehind (string_bytes out.old) (string_bytes out.new)) }
{
    match event {
        PartEvent::Start(tag) => push_tag(out, tag, ">"),
        PartEvent::End(name) => push_between(out, "</", name, ">"),
        PartEvent::Text(content) => out.push_str(content),
        PartEvent::CharData(content) => push_between(out, "<![CDATA[", content, "]]>"),
        PartEvent::EntityRef(name) => push_between(out, "&", name, ";"),
        PartEvent::Other => out.push_str("<!---->"),
        PartEvent::Flaw(_) => out.push_str("<"),
    }
}

/// Appends an event as it is written, in UTF-8. Of a comment and the like, whose text isn't kept,
/// an empty comment is written, and of a flaw a `<`, which breaks what follows it. A refusal leaves
/// the text as it was.
#[tactic(auto, using(escaped_text::proofs::Extending::cut_back))]
pub fn push_spelled(out: &mut String, event: PartEvent<'_>) -> Result<(), AllocError>
    ensures ok { OnOk result (string_bytes out.new
        ≡ string_bytes out.old ++ spelled_event (event_of event.entry)) }
    ensures err { OnErr result (string_bytes out.new ≡ string_bytes out.old) }
{
    let len = out.len();
    let appended = push_event(out, event);
    or_cut_back(out, len, appended)
}

/// Appends an element with nothing in it as one tag, which is cut into its start and its end. A
/// refusal leaves the text as it was.
#[tactic(auto, using(escaped_text::proofs::Extending::cut_back))]
pub fn push_spelled_empty(out: &mut String, tag: StartTag<'_>) -> Result<(), AllocError>
    ensures ok { OnOk result (string_bytes out.new
        ≡ string_bytes out.old ++ spelled_piece (empty (tag_of tag.entry))) }
    ensures err { OnErr result (string_bytes out.new ≡ string_bytes out.old) }
{
    let len = out.len();
    let appended = push_tag(out, tag, "/>");
    or_cut_back(out, len, appended)
}
