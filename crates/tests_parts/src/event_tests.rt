ghost use Rattle.std.specs.Prelude.{◌<◌};

use part_events::{
    BreakCause, FailingPackage, Flaw, MemoryPackage, Package, PartEvent, QuietPackage, StartTag,
    Step, StreamError, XlReader, XmlFault, children_are_at_depth_one, content_is_by_match,
    innermost_open_is_by_depth, outermost_is_in_order, whole_is_longest,
};
use std::alloc::{AllocError, Global};
use std::process::Abort;
use std::test::Fail;
use test_tables::assert_text;

fn broken(at: u64, why: BreakCause) -> StreamError {
    StreamError::Xml(XmlFault::Break { at, why })
}

fn start(name: &str) -> PartEvent<'_> {
    PartEvent::Start(StartTag {
        name,
        attributes: "",
    })
}

/// A package whose last part has the first events of a list.
fn held_package(
    rt: &impl Abort,
    alloc: Global,
    name: &str,
    events: &[PartEvent<'_>],
    count: u64,
) -> Result<MemoryPackage, AllocError> {
    let mut package = MemoryPackage::new(alloc);
    package.add_part("xl/other.xml")?;
    package.add_part(name)?;
    for (place, event) in events.iter().enumerate() {
        if place as u64 == count {
            break;
        }
        assert!(rt; package.part_count() == 2);
        package.push_event(*event)?;
    }
    Ok(package)
}

/// A reader of a package whose last part has the first events of a list.
fn held_reader(
    rt: &impl Abort,
    alloc: Global,
    name: &str,
    events: &[PartEvent<'_>],
    count: u64,
) -> Result<XlReader<MemoryPackage>, AllocError> {
    let package = held_package(rt, alloc, name, events, count)?;
    Ok(XlReader::new(alloc, package))
}

/// The events of a part by their numbers, each as one word.
pub fn told_events(
    rt: &impl Abort,
    alloc: Global,
    package: &MemoryPackage,
    part: usize,
) -> Result<String, AllocError> {
    assert!(rt; part < package.part_count());
    let mut told = String::from_str(alloc, package.part_name(part))?;
    for event in 0..package.event_count(part) {
        match package.event_at(part, event) {
            PartEvent::Start(tag) => write!(told, " <{}|{}>", tag.name, tag.attributes)?,
            PartEvent::End(name) => write!(told, " </{name}>")?,
            PartEvent::Text(text) => write!(told, " {text}")?,
            PartEvent::CharData(text) => write!(told, " [{text}]")?,
            PartEvent::EntityRef(name) => write!(told, " &{name};")?,
            PartEvent::Flaw(flaw) => write!(told, " {}!", flaw.description())?,
            PartEvent::Other => told.push_str(" !")?,
        }
    }
    Ok(told)
}

/// The events of a part, up to its end.
pub fn count_events<P: Package>(
    xml: &mut XlReader<P>,
    name: &str,
) -> Result<Option<u64>, StreamError> {
    if !xml.open(name)? {
        return Ok(None);
    }
    'events: while xml.next()? {}
    Ok(Some(xml.at()))
}

/// Skips the first element of a part.
fn skip_first<P: Package>(xml: &mut XlReader<P>) -> Result<usize, StreamError> {
    if !xml.open("part")? {
        return Ok(9);
    }
    if xml.next()? {
        if let PartEvent::Start(_) = xml.event() {
            xml.skip_element()?;
        }
    }
    Ok(xml.depth())
}

/// The text of the first element of a part.
fn first_text<P: Package>(
    xml: &mut XlReader<P>,
    out: &mut String,
    char_data: bool,
) -> Result<bool, StreamError> {
    if !xml.open("part")? {
        return Ok(false);
    }
    if xml.next()? {
        if let PartEvent::Start(_) = xml.event() {
            return xml.read_text(out, char_data);
        }
    }
    Ok(false)
}

/// How many elements of a name stand in the first section, how many children it has, and how it
/// ended.
fn count_elements<P: Package>(
    xml: &mut XlReader<P>,
    section: &str,
    name: Option<&str>,
) -> Result<(u32, Step), StreamError> {
    if !xml.open("part")? {
        return Ok((0, Step::Ended));
    }
    if xml.next_start(0, &[section])? != Step::Found {
        return Ok((0, Step::Ended));
    }
    let base = xml.depth();
    let mut count = 0u32;
    'elements: loop {
        let found = match name {
            Some(name) => xml.next_element(base, &["none", name])?,
            None => xml.next_child(base)?,
        };
        if found != Step::Found {
            return Ok((count, found));
        }
        xml.skip_element()?;
        count = count.saturating_add(1);
    }
}

/// How many events stand in the first section of a name, and what came behind them.
fn count_inside<P: Package>(
    xml: &mut XlReader<P>,
    section: &str,
) -> Result<(u32, Step), StreamError> {
    if !xml.open("part")? {
        return Ok((0, Step::Ended));
    }
    if xml.next_start(0, &[section])? != Step::Found {
        return Ok((0, Step::Ended));
    }
    let base = xml.depth();
    let mut count = 0u32;
    'inside: loop {
        match xml.next_inside(base)? {
            Step::Found => count = count.saturating_add(1),
            last => return Ok((count, last)),
        }
    }
}

#[test]
fn parts_are_opened_read_and_skipped(rt: HostRuntime) -> Result<(), Fail> {
    let alloc = rt.alloc();
    let mut xml = held_reader(
        &rt,
        alloc,
        "xl/workbook.xml",
        &[start("workbook"), PartEvent::End("workbook")],
        2,
    )?;
    for (name, want) in [
        ("XL\\Workbook.xml", Some(2)),
        ("xl/workbook.xml", Some(2)),
        ("xl/other.xml", Some(0)),
        ("none", None),
        ("xl/workbook", None),
    ] {
        assert!(rt; count_events(&mut xml, name) == Ok(want), "at {name}");
    }
    let element = [
        start("a"),
        start("b"),
        PartEvent::Text("x"),
        PartEvent::End("b"),
        start("c"),
        PartEvent::End("c"),
        PartEvent::Other,
        PartEvent::End("a"),
    ];
    for cut in 1..8u64 {
        let mut xml = held_reader(&rt, alloc, "part", &element, cut)?;
        assert!(rt;
            skip_first(&mut xml) == Err(StreamError::Xml(XmlFault::Unclosed { at: cut })),
            "cut at {cut}"
        );
    }
    let mut xml = held_reader(&rt, alloc, "part", &element, 8)?;
    assert!(rt; skip_first(&mut xml) == Ok(0));
    assert!(rt; xml.into_package().taken() == 8);
    Ok(())
}

#[test]
fn ends_that_break_the_nesting_are_refused(rt: HostRuntime) -> Result<(), Fail> {
    let alloc = rt.alloc();
    let sheet = [
        start("worksheet"),
        start("sheetData"),
        start("row"),
        start("c"),
        PartEvent::End("row"),
    ];
    let mut xml = held_reader(&rt, alloc, "part", &sheet, 5)?;
    assert!(rt; count_events(&mut xml, "part") == Err(broken(4, BreakCause::EndMismatch)));
    for (events, at) in [
        ([PartEvent::End("a"), PartEvent::Other], 0),
        ([start("x:a"), PartEvent::End("a")], 1),
        ([start("a"), PartEvent::End("x:a")], 1),
    ] {
        let mut xml = held_reader(&rt, alloc, "part", &events, 2)?;
        let counted = count_events(&mut xml, "part");
        assert!(rt;
            counted == Err(broken(at, BreakCause::EndMismatch)),
            "end at {at}"
        );
    }
    Ok(())
}

#[test]
fn flaws_are_refused_where_they_stand(rt: HostRuntime) -> Result<(), Fail> {
    let alloc = rt.alloc();
    for (events, flaw, at) in [
        (
            [PartEvent::Flaw(Flaw::NotText), PartEvent::Other],
            Flaw::NotText,
            0,
        ),
        (
            [start("a"), PartEvent::Flaw(Flaw::Malformed)],
            Flaw::Malformed,
            1,
        ),
        (
            [PartEvent::Other, PartEvent::Flaw(Flaw::Damaged)],
            Flaw::Damaged,
            1,
        ),
    ] {
        let mut xml = held_reader(&rt, alloc, "part", &events, 2)?;
        let counted = count_events(&mut xml, "part");
        assert!(rt;
            counted == Err(broken(at, BreakCause::Flawed(flaw))),
            "flaw at {at}"
        );
    }
    // Nothing looks behind the end of a section.
    let behind = [
        start("a"),
        PartEvent::End("a"),
        PartEvent::Flaw(Flaw::Malformed),
    ];
    let mut xml = held_reader(&rt, alloc, "part", &behind, 3)?;
    assert!(rt; count_inside(&mut xml, "a") == Ok((0, Step::Closed)));
    // An end of another name before a flaw is what is told.
    let twice = [
        start("a"),
        PartEvent::End("b"),
        PartEvent::Flaw(Flaw::Malformed),
    ];
    let mut xml = held_reader(&rt, alloc, "part", &twice, 3)?;
    assert!(rt; count_inside(&mut xml, "a") == Err(broken(1, BreakCause::EndMismatch)));
    Ok(())
}

#[test]
fn an_empty_element_is_a_start_and_an_end(rt: HostRuntime) -> Result<(), Fail> {
    let alloc = rt.alloc();
    let before = [
        start("a"),
        PartEvent::Text("t"),
        PartEvent::CharData("c"),
        PartEvent::EntityRef("amp"),
        PartEvent::Other,
    ];
    let mut package = held_package(&rt, alloc, "part", &before, 5)?;
    for (name, attributes) in [("x:b", " k=\"v\""), ("b", ""), ("", "é")] {
        assert!(rt; package.part_count() == 2);
        package.push_empty(name, attributes)?;
    }
    assert!(rt; package.part_count() == 2);
    package.push_event(PartEvent::End("a"))?;
    let want = "part <a|> t [c] &amp; ! <x:b| k=\"v\"> </x:b> <b|> </b> <|é> </> </a>";
    assert_text(
        &told_events(&rt, alloc, &package, 1)?,
        want,
        "the last part",
    )?;
    let other = told_events(&rt, alloc, &package, 0)?;
    assert_text(&other, "xl/other.xml", "the first part")?;
    let mut xml = XlReader::new(alloc, package);
    assert!(rt; count_events(&mut xml, "part") == Ok(Some(12)));
    assert!(rt; xml.into_package().taken() == 12);
    Ok(())
}

#[test]
fn texts_are_joined(rt: HostRuntime) -> Result<(), Fail> {
    let alloc = rt.alloc();
    let written = [
        start("t"),
        PartEvent::Text("a\r\nb"),
        start("i"),
        PartEvent::EntityRef("amp"),
        PartEvent::CharData("c\r"),
        PartEvent::End("i"),
        PartEvent::Other,
        PartEvent::Text("d"),
        PartEvent::End("t"),
        PartEvent::Text("e"),
    ];
    for (taken, char_data, want, text) in [
        (10, false, Ok(true), ">a\nb&d"),
        (10, true, Ok(true), ">a\nb&c\nd"),
        (9, false, Ok(true), ">a\nb&d"),
        (8, true, Ok(false), ">a\nb&c\nd"),
        (4, false, Ok(false), ">a\nb&"),
        (1, false, Ok(false), ">"),
    ] {
        let mut xml = held_reader(&rt, alloc, "part", &written, taken)?;
        let mut out = String::from_str(alloc, ">")?;
        assert!(rt;
            first_text(&mut xml, &mut out, char_data) == want,
            "{taken} events"
        );
        assert!(rt; out.as_str() == text, "{taken} events");
    }
    let unknown = [
        start("t"),
        PartEvent::Text("a"),
        PartEvent::EntityRef("nbsp"),
        PartEvent::Text("b"),
        PartEvent::End("t"),
    ];
    let mut xml = held_reader(&rt, alloc, "part", &unknown, 5)?;
    let mut out = String::new(alloc);
    assert!(rt;
        first_text(&mut xml, &mut out, false) == Err(StreamError::Xml(XmlFault::Entity { at: 2 }))
    );
    assert!(rt; out.as_str() == "a");
    Ok(())
}

/// The texts of faults, each twice, and of the other errors of a stream.
const TEXTS: &str =
    "end tag mismatch at 4, end tag mismatch at 4;malformed markup at 4, malformed markup at 4;\
    unclosed element at 0, unclosed element at 0;\
    unknown entity at 12, unknown entity at 12;the package could not be read;out of memory;";

#[test]
fn each_refusal_has_its_text(rt: HostRuntime) -> Result<(), Fail> {
    let alloc = rt.alloc();
    let mut told = String::new(alloc);
    for fault in [
        XmlFault::Break {
            at: 4,
            why: BreakCause::EndMismatch,
        },
        XmlFault::Break {
            at: 4,
            why: BreakCause::Flawed(Flaw::Malformed),
        },
        XmlFault::Unclosed { at: 0 },
        XmlFault::Entity { at: 12 },
    ] {
        write!(told, "{fault}, {};", StreamError::Xml(fault))?;
    }
    for error in [StreamError::Io, StreamError::OutOfMemory] {
        write!(told, "{error};")?;
    }
    assert_text(&told, TEXTS, "each refusal")?;
    Ok(())
}

#[test]
fn events_of_a_section_are_taken(rt: HostRuntime) -> Result<(), Fail> {
    let alloc = rt.alloc();
    let part = [
        start("a"),
        start("x:b"),
        PartEvent::Text("t"),
        start("b"),
        PartEvent::End("b"),
        PartEvent::End("x:b"),
        PartEvent::Other,
        PartEvent::End("a"),
        PartEvent::Other,
        PartEvent::End("a"),
    ];
    for (taken, section, want) in [
        (9, "a", Ok((6, Step::Closed))),
        (9, "b", Ok((3, Step::Closed))),
        (5, "b", Ok((3, Step::Ended))),
        (2, "b", Ok((0, Step::Ended))),
        (10, "a", Ok((6, Step::Closed))),
    ] {
        let mut xml = held_reader(&rt, alloc, "part", &part, taken)?;
        assert!(rt;
            count_inside(&mut xml, section) == want,
            "{section} of {taken} events"
        );
    }
    let other = [start("a"), PartEvent::Other, PartEvent::End("b")];
    let mut xml = held_reader(&rt, alloc, "part", &other, 3)?;
    assert!(rt; count_inside(&mut xml, "a") == Err(broken(2, BreakCause::EndMismatch)));
    Ok(())
}

#[test]
fn elements_are_found_and_planned_calls_fail(rt: HostRuntime) -> Result<(), Fail> {
    let alloc = rt.alloc();
    let sheets = [
        start("workbook"),
        start("x:sheets"),
        start("sheet"),
        start("sheet"),
        PartEvent::End("sheet"),
        PartEvent::End("sheet"),
        start("other"),
        start("y:sheet"),
        PartEvent::End("y:sheet"),
        PartEvent::End("other"),
        PartEvent::End("x:sheets"),
        start("sheet"),
        PartEvent::End("sheet"),
        PartEvent::End("workbook"),
    ];
    for (taken, section, name, want) in [
        (14, "sheets", Some("sheet"), (2, Step::Closed)),
        (14, "sheets", None, (2, Step::Closed)),
        (14, "workbook", Some("sheet"), (3, Step::Closed)),
        (14, "sheets", Some("y:sheet"), (0, Step::Closed)),
        (10, "sheets", Some("sheet"), (2, Step::Ended)),
        (14, "none", Some("sheet"), (0, Step::Ended)),
    ] {
        let mut xml = held_reader(&rt, alloc, "part", &sheets, taken)?;
        assert!(rt;
            count_elements(&mut xml, section, name) == Ok(want),
            "{section} of {taken} events"
        );
    }

    for number in 0..16u64 {
        let inner = held_package(&rt, alloc, "part", &sheets, 14)?;
        let package = FailingPackage::new(inner, vec![in alloc; number, 16]?);
        let mut xml = XlReader::new(alloc, package);
        let (want, faults) = if number < 15 {
            (Err(StreamError::Io), 1)
        } else {
            (Ok((0, Step::Closed)), 0)
        };
        assert!(rt;
            count_elements(&mut xml, "workbook", Some("none")) == want,
            "call {number}"
        );
        let package = xml.into_package();
        assert!(rt; package.faults() == faults, "call {number}");
        assert!(rt; package.left() == 0, "call {number}");
        let mut xml = XlReader::new(alloc, package.into_inner());
        assert!(rt;
            count_events(&mut xml, "part") == Ok(Some(14)),
            "call {number}"
        );
    }
    innermost_open_is_by_depth();
    content_is_by_match();
    outermost_is_in_order();
    children_are_at_depth_one();
    whole_is_longest();
    Ok(())
}

#[test]
fn a_quiet_package_passes_each_call_on(rt: HostRuntime) -> Result<(), Fail> {
    let alloc = rt.alloc();
    let events = [start("a"), PartEvent::Text("nut"), PartEvent::End("a")];
    for number in 0..6u64 {
        let inner = held_package(&rt, alloc, "part", &events, 3)?;
        let failing = FailingPackage::new(inner, vec![in alloc; number]?);
        let mut xml = XlReader::new(alloc, QuietPackage::new(failing));
        let (want, faults) = if number < 5 {
            (Err(StreamError::Io), 1)
        } else {
            (Ok(Some(3)), 0)
        };
        assert!(rt; count_events(&mut xml, "part") == want, "call {number}");
        let package = xml.into_package();
        assert!(rt; package.faults() == faults, "call {number}");
        assert!(rt; package.left() == 0, "call {number}");
        assert!(rt;
            package.taken() == number.saturating_sub(1).min(3),
            "call {number}"
        );
        let package = QuietPackage::new(package.into_inner().into_inner());
        let mut xml = XlReader::new(alloc, package);
        let mut text = String::new(alloc);
        assert!(rt; first_text(&mut xml, &mut text, false) == Ok(true));
        assert_text(&text, "nut", "the text of a quiet package")?;
        assert!(rt; count_events(&mut xml, "none") == Ok(None));
        let mut xml = XlReader::new(alloc, xml.into_package().into_inner());
        assert!(rt; count_events(&mut xml, "part") == Ok(Some(3)));
    }
    Ok(())
}
