use markup::{
    Cutter, a_flaw_is_last, copies_are_the_same, events_are_bounded, events_come_in_order,
    flaw_place, push_spelled, push_spelled_empty, spelled_markup_is_cut_back,
};
use part_events::{Flaw, Package, PartEvent, StartTag};
use std::alloc::{AllocError, Global};
use std::test::Fail;
use test_tables::{assert_text, cases, cut};
use text_package::{TextPackage, part_text, parts_are_bounded, spelled_parts_are_cut_back};

/// What the markup of a row is cut into: `s(name)(attributes)`, `e(name)`, `t` a text, `d`
/// character data, `r` a reference, `o` anything else and `x` a flaw. In both fields `\` and two
/// digits of base 16 behind it are a byte.
const ROWS: &str = r#"

=

<a>
= s(a)()

</a>
= e(a)

<a/>
= s(a)() e(a)

<a></a>
= s(a)() e(a)

<a >
= s(a)( )

<a />
= s(a)( ) e(a)

<x:c r="A1" t='s'>
= s(x:c)( r="A1" t='s')

<a b='>'>
= s(a)( b='>')

<a b='<'>
= s(a)( b='<')

<a b="'" c='"'/>
= s(a)( b="'" c='"') e(a)

<a b='/'>
= s(a)( b='/')

<a b=c/>
= s(a)( b=c) e(a)

<a /x>
= s(a)( /x)

<a b>
= s(a)( b)

<a&b>
= s(a&b)()

</a \09\0d\0a>
= e(a)

</ a>
= e( a)

</ >
= e()

</a/>
= e(a/)

</a'>
= e(a')

<v>45</v>
= s(v)() t(45) e(v)

\20\0d\0a<a/>x
= t(\20\0d\0a) s(a)() e(a) t(x)

a>b]]>c
= t(a>b]]>c)

a&amp;b
= t(a) r(amp) t(b)

&#13;&#x41;
= r(#13) r(#x41)

&;
= r()

& a>;
= r( a>)

<!---->
= o

<!-- <a> & -- --->
= o

<!--> a -->
= o

<![CDATA[]]>
= d()

<![CDATA[<a>&b]]]]>c
= d(<a>&b]]) t(c)

<?xml version='1.0'?>
= o

<?a ?>?>
= o t(?>)

<!DOCTYPE a><b>
= o s(b)()

<!DOCTYPE a [<!ENTITY b '>]'><!-- ' > --><?c " ?>]>x
= o t(x)

<é a='ü'>ß
= s(é)( a='ü') t(ß)

<a\0cb>
= s(a\0cb)()

\01
= t(\01)

a & b
= t(a ) x

a &amp
= t(a ) x

&a&b;
= x

&a<b>
= x

x<
= t(x) x

<a
= x

<a b='>
= x

</a
= x

</>
= x

<>
= x

< a>
= x

<a/b>
= x

<a'b'>
= x

<a <b>
= x

<a</a>
= x

<!a>
= x

<!doctype a>
= x

<&a>
= x

<!-->
= x

<!-- a --
= x

<![CDATA[a]]
= x

<?a
= x

<!DOCTYPE a [<!b>]
= x

<a>b<
= s(a)() t(b) x

<a/>&
= s(a)() e(a) x
"#;

/// The same of bytes that are the text of a part, or none: then `n` stands for their flaw.
const PARTS: &str = r#"
\ef\bb\bf<a/>
= s(a)() e(a)

<a>\ff</a>
= n

<a>\c3
= n

\ff\fe<\00a\00/\00>\00
= n

<\00a\00>\00
= n

<a>\00
= n

<?xml version='1.0' encoding='UTF-8'?>
= o

<?xml version="1.0" encoding="utf-16"?>x
= o t(x)

<?xml version='1.0' encoding='ISO-8859-1'?><a/>
= n

<?xml encoding='us-ascii' x?>
= o

<a encoding='x'/>
= s(a)( encoding='x') e(a)
"#;

/// Where the flaw of a part stands, in bytes; `-` where it has none.
const FLAWS: &str = r#"
<a/>
= -

a & b
= 2

<a/>x<b/c>y
= 5

\ef\bb\bf<a/>&
= 7

x\ff
= 0
"#;

fn digit(byte: u8) -> u8 {
    match byte {
        b'0'..=b'9' => byte - b'0',
        b'a'..=b'f' => byte - b'a' + 10,
        _ => 0,
    }
}

/// The bytes that a field is.
fn bytes_of(alloc: Global, field: &str) -> Result<Vec<u8>, AllocError> {
    let mut bytes = Vec::new(alloc);
    let mut pieces = field.split('\\');
    if let Some(front) = pieces.next() {
        bytes.extend_from_slice(front.as_bytes())?;
    }
    for piece in pieces {
        if let [high, low, rest @ ..] = piece.as_bytes() {
            bytes.push(digit(*high).wrapping_mul(16).wrapping_add(digit(*low)))?;
            bytes.extend_from_slice(rest)?;
        }
    }
    Ok(bytes)
}

/// The text that a field is.
fn text_of(alloc: Global, field: &str) -> Result<String, Fail> {
    match String::from_utf8(bytes_of(alloc, field)?) {
        Ok(text) => Ok(text),
        Err(_) => Err(Fail::new(format_args!("{field}: no text"))),
    }
}

/// Appends an event behind those that are told.
fn push_told(told: &mut String, event: PartEvent<'_>) -> Result<(), AllocError> {
    if !told.is_empty() {
        told.push_str(" ")?;
    }
    match event {
        PartEvent::Start(tag) => write!(told, "s({})({})", tag.name, tag.attributes),
        PartEvent::End(name) => write!(told, "e({name})"),
        PartEvent::Text(content) => write!(told, "t({content})"),
        PartEvent::CharData(content) => write!(told, "d({content})"),
        PartEvent::EntityRef(name) => write!(told, "r({name})"),
        PartEvent::Flaw(Flaw::NotText) => told.push_str("n"),
        PartEvent::Flaw(_) => told.push_str("x"),
        PartEvent::Other => told.push_str("o"),
    }
}

/// The events of a text.
fn told_text(alloc: Global, text: &str) -> Result<String, AllocError> {
    let mut told = String::new(alloc);
    let mut cutter = Cutter::new();
    for _ in 0..u64::MAX {
        if !cutter.advance(text) {
            break;
        }
        push_told(&mut told, cutter.event(text))?;
    }
    Ok(told)
}

/// A package with a part before this one, and another of the same name behind it.
fn package_of(alloc: Global, bytes: Vec<u8>) -> Result<TextPackage, AllocError> {
    let mut package = TextPackage::new(alloc);
    package.add_part("xl/other.xml", Vec::new(alloc))?;
    package.add_part("xl/Part.xml", bytes)?;
    package.add_part("xl/part.xml", Vec::new(alloc))?;
    Ok(package)
}

/// The events of the part of a package, each of which takes one off the number of those that are
/// left.
fn told_part(alloc: Global, package: &mut TextPackage) -> Result<String, Fail> {
    let mut told = String::new(alloc);
    if package.open("XL\\part.XML") != Ok(true) {
        return Err(Fail::new(format_args!("the part is absent")));
    }
    for _ in 0..u64::MAX {
        let left = package.left();
        if package.advance() != Ok(true) {
            break;
        }
        push_told(&mut told, package.event())?;
        if package.left().saturating_add(1) != left {
            return Err(Fail::new(format_args!("{told}: left {left}, then {}", package.left())));
        }
    }
    Ok(told)
}

/// The markup that is written of the events of a text.
fn written_again(alloc: Global, text: &str) -> Result<String, AllocError> {
    let mut written = String::new(alloc);
    let mut cutter = Cutter::new();
    for _ in 0..u64::MAX {
        if !cutter.advance(text) {
            break;
        }
        push_spelled(&mut written, cutter.event(text))?;
    }
    Ok(written)
}

#[test]
fn texts_are_cut_into_their_events(rt: HostRuntime) -> Result<(), Fail> {
    let alloc = rt.alloc();
    for case in cases(ROWS) {
        let (markup, events) = cut(case);
        let markup = text_of(alloc, markup)?;
        let events = text_of(alloc, events)?;
        assert_text(told_text(alloc, &markup)?.as_str(), &events, case)?;
    }
    Ok(())
}

/// Rows of parts, and those of texts, each as a part.
fn assert_parts(alloc: Global, table: &str) -> Result<(), Fail> {
    for case in cases(table) {
        let (markup, events) = cut(case);
        let bytes = bytes_of(alloc, markup)?;
        let events = text_of(alloc, events)?;
        let is_text = part_text(&bytes).is_some();
        if is_text == (events.as_str() == "n") {
            return Err(Fail::new(format_args!("{case}: is a text {is_text}")));
        }
        let mut package = package_of(alloc, bytes)?;
        assert_text(told_part(alloc, &mut package)?.as_str(), &events, case)?;
    }
    Ok(())
}

#[test]
fn texts_are_parts_of_a_package(rt: HostRuntime) -> Result<(), Fail> {
    assert_parts(rt.alloc(), ROWS)
}

#[test]
fn bytes_are_a_text_or_one_flaw(rt: HostRuntime) -> Result<(), Fail> {
    assert_parts(rt.alloc(), PARTS)
}

#[test]
fn flaws_have_their_places(rt: HostRuntime) -> Result<(), Fail> {
    let alloc = rt.alloc();
    for case in cases(FLAWS) {
        let (markup, place) = cut(case);
        let mut package = package_of(alloc, bytes_of(alloc, markup)?)?;
        let told = match package.flaw_place("xl/part.xml") {
            Some(found) => format!(in alloc; "{found}")?,
            None => String::from_str(alloc, "-")?,
        };
        assert_text(&told, place, case)?;
        if package.flaw_place("xl/absent.xml").is_some() {
            return Err(Fail::new(format_args!("an absent part has a flaw")));
        }
    }
    Ok(())
}

#[test]
fn events_are_written_and_cut_back(rt: HostRuntime) -> Result<(), Fail> {
    let alloc = rt.alloc();
    for case in cases(ROWS) {
        let (markup, events) = cut(case);
        let markup = text_of(alloc, markup)?;
        let events = text_of(alloc, events)?;
        // An empty name is one of an end alone that no markup spells.
        if flaw_place(&markup).is_none() && events.as_str() != "e()" {
            let written = written_again(alloc, &markup)?;
            assert_text(told_text(alloc, &written)?.as_str(), &events, case)?;
        }
    }
    Ok(())
}

#[test]
fn an_element_with_nothing_in_it_is_one_tag(rt: HostRuntime) -> Result<(), Fail> {
    let alloc = rt.alloc();
    let mut written = String::new(alloc);
    let name = "a";
    push_spelled_empty(
        &mut written,
        StartTag {
            name,
            attributes: " b='c'",
        },
    )?;
    push_spelled(&mut written, PartEvent::Flaw(Flaw::TooLarge))?;
    assert_text(&written, "<a b='c'/><", "an element and a flaw")
}

#[test]
fn laws_are_calls_that_do_nothing() {
    events_come_in_order();
    events_are_bounded();
    a_flaw_is_last();
    copies_are_the_same();
    spelled_markup_is_cut_back();
    parts_are_bounded();
    spelled_parts_are_cut_back();
    text_package::copies_are_the_same();
}
