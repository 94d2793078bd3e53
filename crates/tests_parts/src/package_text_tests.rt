ghost use Rattle.std.specs.Prelude.{◌<◌, length};

use crate::event_tests::{count_events, told_events};
use package_text::{
    no_written_start_stands_before_its_end, package_from_json, push_package_text,
    written_packages_are_read_back, written_values_spell_their_parts,
};
use part_events::{
    BreakCause, Flaw, MemoryPackage, PartEvent, StartTag, StreamError, XlReader, XmlFault,
};
use serde_json::Value;
use std::alloc::{AllocError, Global};
use std::process::Abort;
use std::test::Fail;
use test_tables::{assert_text, cases, cut};

/// A text, and the parts of the package that it spells, or `none` where it spells none.
const SPELLED: &str = r#"
{"parts":[],"version":1}
=

{"version":1,"made by":["x",-3],"parts":[
{"name":"a","events":[["o"],["r","amp"],["d","x"]],"more":null}]}
= a ! &amp; [x];

{"version":1,"parts":[{"name":"a","events":[]},{"name":"a","events":[["t",""]]}]}
= a;a ;

{"version":2,"parts":[{"name":"a","events":[["b","x"," k"],["o"],["s","x",""],["e","x"]]}]}
= a <x| k> </x> ! <x|> </x>;

{"version":2,"parts":[{"name":"","events":[["b","",""]]}]}
=  <|> </>;

{"version":1,"parts":[{"name":"a","events":[["b","x",""]]}]}
= none

{"version":1,"version":2,"parts":[{"name":"a","events":[["b","x",""]]}]}
= a <x|> </x>;

{"version":2,"version":1,"parts":[{"name":"a","events":[["b","x",""]]}]}
= none

{"version":3,"version":2,"parts":[]}
=

{"version":0,"parts":[]}
= none

{"version":3,"parts":[]}
= none

{"version":-1,"parts":[]}
= none

{"version":"1","parts":[]}
= none

{"version":"2","parts":[]}
= none

{"version":1.0,"parts":[]}
= none

{"version":2.0,"parts":[]}
= none

{"parts":[]}
= none

{"version":1,"parts":[],"more":[{"deep":0.5}]}
= none

{"version":1,"parts":{}}
= none

{"version":1,"parts":[{"name":"a"}]}
= none

{"version":1,"parts":[{"name":1,"events":[]}]}
= none

{"version":1,"parts":[{"name":"a","events":[["s","x"]]}]}
= none

{"version":1,"parts":[{"name":"a","events":[["o","x"]]}]}
= none

{"version":1,"parts":[{"name":"a","events":[["q","x"]]}]}
= none

{"version":1,"parts":[{"name":"a","events":[["t",1]]}]}
= none

{"version":2,"parts":[{"name":"a","events":[["b"]]}]}
= none

{"version":2,"parts":[{"name":"a","events":[["b","x"]]}]}
= none

{"version":2,"parts":[{"name":"a","events":[["b","x","","y"]]}]}
= none

{"version":2,"parts":[{"name":"a","events":[["s","x",""],["x"]]},
{"name":"b","events":[["x","not a text in UTF-8"]]},{"name":"c","events":[["x","encrypted"]]}]}
= a <x|> malformed markup!;b not a text in UTF-8!;c encrypted!;

{"version":2,"parts":[{"name":"d","events":[["x","unknown compression method"]]},
{"name":"e","events":[["x","too large"]]},{"name":"f","events":[["x","damaged"]]}]}
= d unknown compression method!;e too large!;f damaged!;

{"version":2,"parts":[{"name":"g","events":[["x","wrong size"]]},
{"name":"h","events":[["x","wrong checksum"]]}]}
= g wrong size!;h wrong checksum!;

{"version":1,"parts":[{"name":"a","events":[["x"]]}]}
= none

{"version":1,"parts":[{"name":"a","events":[["x","damaged"]]}]}
= none

{"version":2,"parts":[{"name":"a","events":[["x","malformed markup"]]}]}
= none

{"version":2,"parts":[{"name":"a","events":[["x",""]]}]}
= none

{"version":2,"parts":[{"name":"a","events":[["b","x",1]]}]}
= none

{"version":2,"parts":[{"name":"a","events":[["b",["x"],""]]}]}
= none
"#;

fn read(alloc: Global, text: &str) -> Result<Option<MemoryPackage>, Fail> {
    let value = Value::from_str(alloc, text)?;
    Ok(package_from_json(alloc, &value)?)
}

/// The parts of a package, each with its events.
fn told_parts(
    rt: &impl Abort,
    alloc: Global,
    package: &MemoryPackage,
) -> Result<String, AllocError> {
    let mut told = String::new(alloc);
    for part in 0..package.part_count() {
        told.push_str(told_events(rt, alloc, package, part)?.as_str())?;
        told.push_str(";")?;
    }
    Ok(told)
}

#[test]
fn a_package_text_spells_its_parts(rt: HostRuntime) -> Result<(), Fail> {
    let alloc = rt.alloc();
    for case in cases(SPELLED) {
        let (text, wanted) = cut(case);
        let told = match read(alloc, text)? {
            Some(package) => told_parts(&rt, alloc, &package)?,
            None => String::from_str(alloc, "none")?,
        };
        assert_text(&told, wanted, case)?;
    }
    Ok(())
}

/// Two texts of one package, whose third event breaks the nesting.
const BROKEN: &str = r#"
{"version":1,"parts":[{"name":"a","events":[["s","x",""],["e","x"],["e","y"]]}]}

{"version":2,"parts":[{"name":"a","events":[["b","x",""],["e","y"]]}]}
"#;

#[test]
fn places_count_both_events_of_an_empty_element(rt: HostRuntime) -> Result<(), Fail> {
    let alloc = rt.alloc();
    for text in cases(BROKEN) {
        let Some(package) = read(alloc, text)? else {
            return Err(Fail::new(format_args!("no package: {text}")));
        };
        let counted = count_events(&mut XlReader::new(alloc, package), "a");
        let wanted = Err(StreamError::Xml(XmlFault::Break {
            at: 2,
            why: BreakCause::EndMismatch,
        }));
        assert!(rt; counted == wanted, "of {text}");
    }
    Ok(())
}

/// A text, and the text in version 2 of the package that it spells.
const UPGRADED: &str = r#"
{"version":1,"parts":[{"name":"a","events":[["s","x",""],["e","x"],["o"]]}]}
= {"parts":[{"events":[["b","x",""],["o"]],"name":"a"}],"version":2}

{"version":1,"parts":[]}
= {"parts":[],"version":2}

{"version":2,"parts":[{"name":"a","events":[["b","x",""],["x"]]}]}
= {"parts":[{"events":[["b","x",""],["x"]],"name":"a"}],"version":2}

{"version":2,"parts":[{"name":"a","events":[["x","wrong size"]]}]}
= {"parts":[{"events":[["x","wrong size"]],"name":"a"}],"version":2}

{"version":1,"parts":[{"name":"a","events":[]},{"name":"a","events":[["d","d"],["r","amp"]]}]}
= {"parts":[{"events":[],"name":"a"},{"events":[["d","d"],["r","amp"]],"name":"a"}],"version":2}

{"version":1,"parts":[{"name":"","events":[["t",""]]}]}
= {"parts":[{"events":[["t",""]],"name":""}],"version":2}

{"version":2,"parts":[{"name":"a","events":[["b","",""],["s","b","k"],["e","b"]]}]}
= {"parts":[{"events":[["b","",""],["b","b","k"]],"name":"a"}],"version":2}

{"version":1,"parts":[{"name":"a","events":[["s","x",""],["e","y"],["s","x:a",""],["e","a"]]}]}
= {"parts":[{"events":[["s","x",""],["e","y"],["s","x:a",""],["e","a"]],"name":"a"}],"version":2}

{"version":1,"parts":[{"name":"a","events":[["e","x"],["s","x",""]]}]}
= {"parts":[{"events":[["e","x"],["s","x",""]],"name":"a"}],"version":2}

{"version":1,"parts":[{"name":"a","events":[["s","a",""],["s","a",""],["e","a"],["e","a"]]}]}
= {"parts":[{"events":[["s","a",""],["b","a",""],["e","a"]],"name":"a"}],"version":2}

{"version":1,"parts":[{"name":"a","events":[["s","a",""],["o"],["e","a"]]}]}
= {"parts":[{"events":[["s","a",""],["o"],["e","a"]],"name":"a"}],"version":2}

{"version":1,"parts":[
{"name":"a\/b","events":[["s","a"," k=\"\\\u0001\u000a\u001f\ud83d\ude00\""],["e","a"]]}]}
= {"parts":[{"events":[["b","a"," k=\"\\\u0001\n\u001f😀\""]],"name":"a/b"}],"version":2}
"#;

/// The text in version 2 of the package that a text spells, behind another text.
fn upgraded(alloc: Global, text: &str) -> Result<String, Fail> {
    let mut out = String::from_str(alloc, ">")?;
    match read(alloc, text)? {
        Some(package) => push_package_text(alloc, &mut out, &package)?,
        None => out.push_str("none")?,
    }
    Ok(out)
}

#[test]
fn an_empty_element_is_written_as_one_event(rt: HostRuntime) -> Result<(), Fail> {
    let alloc = rt.alloc();
    for case in cases(UPGRADED) {
        let (text, wanted) = cut(case);
        let wanted = format!(in alloc; ">{wanted}")?;
        let once = upgraded(alloc, text)?;
        assert_text(&once, &wanted, case)?;
        let twice = upgraded(alloc, once.as_str().strip_prefix('>').unwrap_or(""))?;
        assert_text(&twice, &wanted, case)?;
    }
    written_values_spell_their_parts();
    written_packages_are_read_back();
    no_written_start_stands_before_its_end();
    Ok(())
}

/// Appends a text in quotes, a character at a time.
fn push_quoted(out: &mut String, text: &str) -> Result<(), AllocError> {
    out.push('"')?;
    for character in text.chars() {
        match character {
            '"' => out.push_str("\\\"")?,
            '\\' => out.push_str("\\\\")?,
            '\u{8}' => out.push_str("\\b")?,
            '\u{c}' => out.push_str("\\f")?,
            '\n' => out.push_str("\\n")?,
            '\r' => out.push_str("\\r")?,
            '\t' => out.push_str("\\t")?,
            '\0'..='\u{1f}' => write!(out, "\\u{:04x}", character as u32)?,
            _ => out.push(character)?,
        }
    }
    out.push('"')
}

/// Appends the array of a kind and of what stands behind it.
fn push_array(out: &mut String, kind: &str, texts: &[&str]) -> Result<(), AllocError> {
    out.push('[')?;
    push_quoted(out, kind)?;
    for text in texts {
        out.push(',')?;
        push_quoted(out, text)?;
    }
    out.push(']')
}

fn push_one(out: &mut String, event: PartEvent<'_>, is_empty: bool) -> Result<(), AllocError> {
    match event {
        PartEvent::Start(tag) => {
            let kind = if is_empty { "b" } else { "s" };
            push_array(out, kind, &[tag.name, tag.attributes])
        }
        PartEvent::End(name) => push_array(out, "e", &[name]),
        PartEvent::Text(text) => push_array(out, "t", &[text]),
        PartEvent::CharData(text) => push_array(out, "d", &[text]),
        PartEvent::EntityRef(name) => push_array(out, "r", &[name]),
        PartEvent::Flaw(Flaw::Malformed) => push_array(out, "x", &[]),
        PartEvent::Flaw(flaw) => push_array(out, "x", &[flaw.description()]),
        PartEvent::Other => push_array(out, "o", &[]),
    }
}

fn is_pair(first: PartEvent<'_>, second: Option<&PartEvent<'_>>) -> bool {
    match (first, second) {
        (PartEvent::Start(tag), Some(PartEvent::End(name))) => tag.name == *name,
        _ => false,
    }
}

/// The text in version 2 of a package of one part, whose name is a quote, with these events, a
/// character at a time.
fn slow_text(alloc: Global, events: &[PartEvent<'_>]) -> Result<String, AllocError> {
    let mut out = String::from_str(alloc, r#"{"parts":[{"events":["#)?;
    let mut is_done = false;
    for (place, event) in events.iter().enumerate() {
        if is_done {
            is_done = false;
        } else {
            if place > 0 {
                out.push(',')?;
            }
            is_done = is_pair(*event, events.get(place.saturating_add(1)));
            push_one(&mut out, *event, is_done)?;
        }
    }
    out.push_str(r#"],"name":"\""}],"version":2}"#)?;
    Ok(out)
}

/// The text in version 2 of that package.
fn quick_text(
    rt: &impl Abort,
    alloc: Global,
    events: &[PartEvent<'_>],
) -> Result<String, AllocError> {
    let mut package = MemoryPackage::new(alloc);
    package.add_part("\"")?;
    for event in events {
        assert!(rt; package.part_count() == 1);
        package.push_event(*event)?;
    }
    let mut out = String::new(alloc);
    push_package_text(alloc, &mut out, &package)?;
    Ok(out)
}

fn start<'a>(name: &'a str, attributes: &'a str) -> PartEvent<'a> {
    PartEvent::Start(StartTag { name, attributes })
}

#[test]
fn events_side_by_side_are_written_as_a_slow_writer_does(rt: HostRuntime) -> Result<(), Fail> {
    let alloc = rt.alloc();
    let kinds = [
        start("a", " k=\"v\""),
        start("x:a", "\u{8}\u{c}\r\n\t\u{0}\u{1b}\u{7f}"),
        PartEvent::End("a"),
        PartEvent::End("x:a"),
        PartEvent::Text("\\\"é\u{1f600}"),
        PartEvent::CharData("a"),
        PartEvent::EntityRef("a"),
        PartEvent::Other,
    ];
    for first in kinds {
        for second in kinds {
            for third in kinds {
                let events = [first, second, third];
                let slow = slow_text(alloc, &events)?;
                assert_text(&quick_text(&rt, alloc, &events)?, &slow, "three events")?;
            }
        }
    }
    Ok(())
}
