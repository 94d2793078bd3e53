use crc32::Tables;
use part_events::{Package, PartEvent};
use std::alloc::{AllocError, Global};
use std::test::Fail;
use test_tables::{assert_text, cases, cut};
use workbook_file::{WorkbookFile, a_part_is_what_its_entry_holds};
use zip_archive::{ArchiveError, ArchiveFault};
use zip_writer::{FileToWrite, write_archive};

/// Parts of a file, divided by `|`, each its name, `:` and its markup; the name that is asked; and
/// what the part has: `s(name)(attributes)`, `e(name)`, `t` a text, `x` a flaw with what it is,
/// and `o` anything else.
const PARTS: &str = r#"
a.xml:<a/>|xl/workbook.xml:<workbook b='1'>c</workbook>
= xl/workbook.xml
= s(workbook)( b='1') t(c) e(workbook)

a.xml:<a/>|xl/workbook.xml:<workbook b='1'>c</workbook>
= XL\Workbook.XML
= s(workbook)( b='1') t(c) e(workbook)

a.xml:<a/>|xl/workbook.xml:<workbook b='1'>c</workbook>
= xl/absent.xml
= absent

a.xml:<a/>|__MACOSX/a.xml:<b/>
= __MACOSX/a.xml
= absent

a.xml:<a/>|A.xml:<b/>
= A.xml
= s(a)() e(a)

a.xml:<a/>|a.xml:<b/>
= a.xml
= s(b)() e(b)

a.xml:<a/
= a.xml
= x(malformed markup)

a.xml:
= a.xml
= nothing
"#;

/// The archive of parts, which are written as in `PARTS`.
pub fn archive_of_parts(alloc: Global, parts: &str) -> Result<Vec<u8>, Fail> {
    let mut files = Vec::new(alloc);
    for part in parts.split('|') {
        let (name, markup) = part.split_once(':').unwrap_or((part, ""));
        files.push(FileToWrite {
            name,
            bytes: markup.as_bytes(),
        })?;
    }
    Ok(write_archive(alloc, &Tables::new(alloc)?, &files)?)
}

/// The file of these bytes.
fn workbook_file(alloc: Global, file: Vec<u8>) -> Result<WorkbookFile, Fail> {
    if file.len() > 1000 {
        return Err(Fail::new(format_args!("a file of {} bytes", file.len())));
    }
    Ok(WorkbookFile::new(alloc, file)?)
}

/// Appends an event behind those that are told.
fn push_told(told: &mut String, event: PartEvent<'_>) -> Result<(), AllocError> {
    if !told.is_empty() {
        told.push_str(" ")?;
    }
    match event {
        PartEvent::Start(tag) => write!(told, "s({})({})", tag.name, tag.attributes),
        PartEvent::End(name) => write!(told, "e({name})"),
        PartEvent::Text(content) => write!(told, "t({content})"),
        PartEvent::Flaw(flaw) => write!(told, "x({})", flaw.description()),
        _ => told.push_str("o"),
    }
}

/// The events of the part of a name, each of which takes one off the number of those that are left.
pub fn told_part<P: Package>(alloc: Global, package: &mut P, name: &str) -> Result<String, Fail> {
    if package.open(name) != Ok(true) {
        return Ok(String::from_str(alloc, "absent")?);
    }
    let mut told = String::new(alloc);
    for _ in 0..u64::MAX {
        let left = package.left();
        if package.advance() != Ok(true) {
            break;
        }
        push_told(&mut told, package.event())?;
        if package.left().saturating_add(1) != left {
            return Err(Fail::new(format_args!("{told}: left {left}, then {}", package.left())));
        }
    }
    if told.is_empty() {
        told.push_str("nothing")?;
    }
    Ok(told)
}

#[test]
fn a_part_has_the_events_of_its_entry(rt: HostRuntime) -> Result<(), Fail> {
    let alloc = rt.alloc();
    for case in cases(PARTS) {
        let (parts, rest) = cut(case);
        let (name, wanted) = cut(rest);
        let mut package = workbook_file(alloc, archive_of_parts(alloc, parts)?)?;
        assert_text(&told_part(alloc, &mut package, name)?, wanted, case)?;
    }
    Ok(())
}

#[test]
fn a_file_is_unpacked_into_memory(rt: HostRuntime) -> Result<(), Fail> {
    let alloc = rt.alloc();
    for case in cases(PARTS) {
        let (parts, rest) = cut(case);
        let (name, wanted) = cut(rest);
        let file = workbook_file(alloc, archive_of_parts(alloc, parts)?)?;
        let Ok(mut held) = file.into_memory(alloc) else {
            return Err(Fail::new(format_args!("out of memory")));
        };
        assert_text(&told_part(alloc, &mut held, name)?, wanted, case)?;
    }
    Ok(())
}

/// The header in the directory of an archive of one part stands behind its own header of 30 bytes,
/// its name and its data. Its checksum stands at 16 in it, its flags at 8, its method at 10.
#[test]
fn a_part_that_can_not_be_opened_is_a_flaw(rt: HostRuntime) -> Result<(), Fail> {
    let alloc = rt.alloc();
    for (place, flaw) in [
        (0, "s(a)() e(a)"),
        (8, "x(encrypted)"),
        (10, "x(unknown compression method)"),
        (16, "x(wrong checksum)"),
        (20, "x(damaged)"),
        (24, "x(wrong size)"),
        (27, "x(too large)"),
    ] {
        let mut file = archive_of_parts(alloc, "a.xml:<a/>")?;
        for byte in file.iter_mut().skip(30 + 5 + 4 + place).take(1) {
            if place > 0 {
                *byte |= 0x41;
            }
        }
        let mut package = workbook_file(alloc, file)?;
        assert_text(&told_part(alloc, &mut package, "a.xml")?, flaw, flaw)?;
    }
    Ok(())
}

#[test]
fn a_part_that_is_opened_again_counts_again(rt: HostRuntime) -> Result<(), Fail> {
    let alloc = rt.alloc();
    let mut package = workbook_file(alloc, archive_of_parts(alloc, "a:<a/>|b:<b>c</b>")?)?;
    for (name, taken) in [("a", 2), ("b", 5), ("a", 7), ("c", 7)] {
        told_part(alloc, &mut package, name)?;
        assert!(rt; package.taken() == taken);
    }
    assert!(rt; package.faults() == 0 && package.left() == 0);
    assert!(rt; package.advance() == Ok(false));
    Ok(())
}

#[test]
fn parts_are_named_in_order(rt: HostRuntime) -> Result<(), Fail> {
    let alloc = rt.alloc();
    let package = workbook_file(alloc, archive_of_parts(alloc, "b|x/._a|ü/a|b|A")?)?;
    let mut names = String::new(alloc);
    for place in 0..package.part_count() {
        names.push_str(package.part_name(place))?;
        names.push_str("|")?;
    }
    assert_text(&names, "b|ü/a|b|A|", "names of parts")
}

#[test]
fn what_is_no_archive_is_no_package(rt: HostRuntime) -> Result<(), Fail> {
    let refused = WorkbookFile::new(rt.alloc(), Vec::new(rt.alloc())).err();
    assert!(rt; refused == Some(ArchiveError::Fault(ArchiveFault::NoArchive)));
    Ok(())
}

#[test]
fn a_law_is_a_call_that_does_nothing() {
    a_part_is_what_its_entry_holds();
}
