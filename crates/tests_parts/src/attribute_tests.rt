use crate::attribute_uses::{Tag, five_keys, four_keys, six_keys, three_keys, two_keys};
use crate::slow_attributes::slow_items;
use attr_text::{
    AttrFault, RawAttrIter, RawAttributes, TextFault, decode_attr, entity_char, get_attrs,
    local_name, local_name_matches, push_entity, push_line_ends, unescape_hex,
};
use std::alloc::{AllocError, Global};
use std::process::Abort;
use std::test::Fail;
use test_tables::{assert_text, cases, cut};

/// The items of a text, each in brackets.
fn shown(alloc: Global, text: &str) -> Result<String, AllocError> {
    let mut out = String::new(alloc);
    for item in RawAttrIter::new(text) {
        match item {
            Ok((key, value)) => write!(out, "[{key}|{value}]")?,
            Err(fault) => write!(out, "[{fault}]")?,
        }
    }
    Ok(out)
}

#[test]
fn items_are_pairs_and_perhaps_a_fault(rt: HostRuntime) -> Result<(), Fail> {
    for (text, want) in [
        ("good=\"1\" bad=2", "[good|1][unquoted value at 13]"),
        ("  spans  ", "[expected '=' at 2]"),
        ("key1=\"val1\" key2='val2'", "[key1|val1][key2|val2]"),
        (" r = \"50\" spans = '1:4'", "[r|50][spans|1:4]"),
        ("k='a\"b'", "[k|a\"b]"),
        ("key=\"\"", "[key|]"),
        ("   ", ""),
        ("", ""),
        ("a=\"1", "[a|1]"),
        ("a=\"1\"b='2'", "[a|1][b|2]"),
        ("a=", "[unquoted value at 2]"),
        ("\ta b\n=\r'é'\u{c}", "[a b|é]"),
    ] {
        let found = shown(rt.alloc(), text)?;
        assert!(rt; found.as_str() == want, "in {text:?}");
    }
    Ok(())
}

/// What two lookups of a key say of an attribute text: by its name, and by its local name.
fn lookups_told(alloc: Global, text: &str, key: &str) -> Result<String, AllocError> {
    let tag = Tag { text };
    format!(in alloc; "{:?} {:?}", tag.raw_attr(key), tag.raw_attr_local(key))
}

/// Attribute texts, a key, and what the two lookups say.
const LOOKUPS: &str = r#"
good="1" good="2" bad=3
= good
= Ok(Some("1")) Ok(Some("1"))

good="1" good="2" bad=3
= x
= Err(UnquotedValue(22)) Err(UnquotedValue(22))

cstate="print" r:embed="rId1"
= embed
= Ok(None) Ok(Some("rId1"))

cstate="print" r:embed="rId1"
= state
= Ok(None) Ok(None)
"#;

/// A name, a local name, and whether it is that of the name.
const MATCHES: &str = "
:id
= id
= true

rid
= id
= false

id
= id
= true

r:id
= id
= true

id
= r:id
= false

a:
=
= true
";

/// A name, and its local name.
const LOCAL_NAMES: &str = "
a:b:c
= c

row
= row

x:
=

:
=


=
";

#[test]
fn lookups_take_the_first_pair_of_each_key(rt: HostRuntime) -> Result<(), Fail> {
    for case in cases(LOOKUPS) {
        let (text, key) = cut(case);
        let (key, wanted) = cut(key);
        let tag = Tag { text };
        assert!(rt; tag.attributes_raw() == text && tag.iter_raw_attrs().count() > 1);
        let told = lookups_told(rt.alloc(), text, key)?;
        assert_text(&told, wanted, case)?;
    }
    for case in cases(MATCHES) {
        let (key, local) = cut(case);
        let (local, wanted) = cut(local);
        let matches = local_name_matches(key, local);
        assert_text(if matches { "true" } else { "false" }, wanted, case)?;
    }
    for case in cases(LOCAL_NAMES) {
        let (name, wanted) = cut(case);
        assert_text(local_name(name), wanted, case)?;
    }
    Ok(())
}

#[test]
fn several_keys_are_looked_up_at_once(rt: HostRuntime) {
    let tag = Tag {
        text: "s='2' r='1' s='3' t='4' cm='5' ph='6' g",
    };
    let fault = AttrFault::ExpectedEq(38);
    assert!(rt; two_keys(&tag) == Ok((Some("1"), Some("2"))));
    assert!(rt; three_keys(&tag) == Ok((Some("1"), Some("2"), Some("4"))));
    assert!(rt; four_keys(&tag) == Ok((Some("1"), Some("2"), Some("4"), Some("5"))));
    assert!(rt; five_keys(&tag) == Err(fault));
    assert!(rt; six_keys(&tag) == Err(fault));
    let found = get_attrs!(tag, "t" => t, "s" => s, "t" => again);
    assert!(rt; found == Ok((Some("4"), Some("2"), Some("4"))));
    let tag = Tag {
        text: "r='A1' ph='6' cm='4' s=\"2\"",
    };
    let found = six_keys(&tag);
    assert!(rt; found == Ok((Some("A1"), Some("2"), None, Some("4"), None, Some("6"))));
}

#[test]
fn names_have_characters(rt: HostRuntime) {
    for (name, want) in [
        ("lt", Some('<')),
        ("gt", Some('>')),
        ("amp", Some('&')),
        ("apos", Some('\'')),
        ("quot", Some('"')),
        ("LT", None),
        ("l", None),
        ("nbsp", None),
        ("", None),
        ("#", None),
        ("#x", None),
        ("#65", Some('A')),
        ("#x42", Some('B')),
        ("#X42", None),
        ("#6a", None),
        ("#xg", None),
        ("#+65", None),
        ("#0", None),
        ("#xD7FF", Some('\u{D7FF}')),
        ("#xD800", None),
        ("#xdfff", None),
        ("#xE000", Some('\u{E000}')),
        ("#x10ffFF", Some('\u{10FFFF}')),
        ("#1114112", None),
        ("#0000000000000000000000000000000000000065", Some('A')),
        ("#x1000000000000000000000000000000000000041", None),
    ] {
        assert!(rt; entity_char(name) == want, "{name:?}");
    }
}

#[test]
fn references_are_decoded(rt: HostRuntime) -> Result<(), Fail> {
    for (text, want) in [
        ("a&amp;b&#65;&#x42;", "a&bAB"),
        ("é&lt;ü", "é<ü"),
        ("", ""),
        ("x&#0;", "unknown entity at 1"),
        ("a&b", "unknown entity at 1"),
        ("&amp;& &lt;", "unknown entity at 5"),
    ] {
        match decode_attr(rt.alloc(), text) {
            Ok(found) => assert!(rt; found.as_str() == want, "{text:?}"),
            Err(fault) => {
                let shown = fault.to_string(rt.alloc())?;
                assert!(rt; shown.as_str() == want, "{text:?}");
            }
        }
    }
    let mut out = String::from_str(rt.alloc(), "x")?;
    push_entity(&mut out, "quot")?;
    assert!(rt; push_entity(&mut out, "quote") == Err(TextFault::Entity { at: 0 }));
    assert!(rt; out.as_str() == "x\"");
    Ok(())
}

#[test]
fn line_ends_and_escapes_are_read(rt: HostRuntime) -> Result<(), Fail> {
    for (first, second, want) in [
        ("a\r\nb\r", "", "a\nb\n"),
        ("", "", ""),
        ("\r\r\n\n", "c", "\n\n\nc"),
        ("a\r", "\nb", "a\n\nb"),
    ] {
        let mut out = String::new(rt.alloc());
        push_line_ends(&mut out, first)?;
        push_line_ends(&mut out, second)?;
        assert!(rt; out.as_str() == want, "{first:?}");
    }
    for (text, want) in [
        ("_x005F_x000D_", "_x000D_"),
        ("_xD800_x0041_", "_xD800A"),
        ("é_x00e9_é", "ééé"),
        ("_x0041", "_x0041"),
        ("_X0041__x004g_", "_X0041__x004g_"),
        ("_x0000_", "\0"),
        ("", ""),
    ] {
        let found = unescape_hex(rt.alloc(), text)?;
        assert!(rt; found.as_str() == want, "{text:?}");
    }
    Ok(())
}

/// The iterator gives what the slow reader reads.
fn compare(rt: &impl Abort, alloc: Global, text: &str) -> Result<(), AllocError> {
    let slow = slow_items(alloc, text.as_bytes())?;
    let mut place = 0;
    for item in RawAttrIter::new(text) {
        assert!(rt; place < slow.len(), "{text:?}");
        match (item, &slow[place]) {
            (Ok((key, value)), Ok((slow_key, slow_value))) => {
                assert!(rt; key.as_bytes() == *slow_key, "{text:?}");
                assert!(rt; value.as_bytes() == *slow_value, "{text:?}");
            }
            (Err(fault), Err(slow_fault)) => assert!(rt; fault == *slow_fault, "{text:?}"),
            _ => panic!(rt; "{text:?}"),
        }
        place += 1;
    }
    assert!(rt; place == slow.len(), "{text:?}");
    Ok(())
}

#[test]
fn iterator_and_slow_reader_agree(rt: HostRuntime) -> Result<(), Fail> {
    for (length, count) in [(0, 1), (1, 6), (2, 36), (3, 216), (4, 1_296), (5, 7_776)] {
        for number in 0..count {
            let mut text = String::new(rt.alloc());
            let mut left: u32 = number;
            for _ in 0..length {
                text.push(match left % 6 {
                    0 => 'a',
                    1 => '=',
                    2 => '"',
                    3 => '\'',
                    4 => ' ',
                    _ => '&',
                })?;
                left /= 6;
            }
            compare(&rt, rt.alloc(), &text)?;
        }
    }
    Ok(())
}
