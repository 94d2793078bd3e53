use crate::workbook_file_tests::{archive_of_parts, told_part};
use input_package::{InputError, InputPackage, begins_as_file, longest_input, read_package};
use part_events::Package;
use std::alloc::{AllocError, Global};
use std::test::Fail;
use test_tables::assert_text;
use workbook_file::WorkbookFile;
use zip_archive::ArchiveFault;

const PARTS: &str = "xl/workbook.xml:<workbook b='1'>c</workbook>|a:<a";

const WORKBOOK: &str = "s(workbook)( b='1') t(c) e(workbook)";

const TEXT: &str = r#"{"version":2,"parts":[{"name":"a","events":[["b","b",""]]}]}"#;

/// The input of these bytes.
fn input(alloc: Global, bytes: &[u8]) -> Result<InputPackage, Fail> {
    if bytes.len() > 1000 {
        return Err(Fail::new(format_args!("an input of {} bytes", bytes.len())));
    }
    Ok(read_package(alloc, Vec::from_slice(alloc, bytes)?)?)
}

#[test]
fn an_input_is_a_workbook_file_or_a_package_text(rt: HostRuntime) -> Result<(), Fail> {
    let alloc = rt.alloc();
    let file = archive_of_parts(alloc, PARTS)?;
    let mut package = input(alloc, &file)?;
    assert_text(
        &told_part(alloc, &mut package, "xl/workbook.xml")?,
        WORKBOOK,
        "a file",
    )?;
    assert_text(
        &told_part(alloc, &mut package, "a")?,
        "x(malformed markup)",
        "a flaw",
    )?;
    assert_text(&told_part(alloc, &mut package, "b")?, "absent", "no part")?;
    assert!(rt; package.taken() == 4 && package.faults() == 0);
    let mut package = input(alloc, TEXT.as_bytes())?;
    assert_text(
        &told_part(alloc, &mut package, "a")?,
        "s(b)() e(b)",
        "a text",
    )
}

/// Why bytes are no package.
fn refused_of(alloc: Global, bytes: &[u8]) -> Result<Option<InputError>, AllocError> {
    let bytes = Vec::from_slice(alloc, bytes)?;
    if bytes.len() < 1000 {
        return Ok(read_package(alloc, bytes).err());
    }
    Ok(None)
}

#[test]
fn what_is_neither_is_no_package(rt: HostRuntime) -> Result<(), Fail> {
    let alloc = rt.alloc();
    for bytes in ["", "P", "KP", "x", "[]"] {
        let refused = refused_of(alloc, bytes.as_bytes())?;
        assert!(rt; matches!(refused, Some(InputError::NotAPackage)));
    }
    for bytes in ["PK", "PK {}"] {
        let refused = refused_of(alloc, bytes.as_bytes())?;
        let none = ArchiveFault::NoArchive;
        assert!(rt; matches!(refused, Some(InputError::NotAWorkbookFile(fault)) if fault == none));
    }
    let refused = refused_of(alloc, b"\xd0\xcf\x11\xe0\xa1\xb1\x1a\xe1PK")?;
    let compound = ArchiveFault::Compound;
    assert!(rt; matches!(refused, Some(InputError::NotAWorkbookFile(fault)) if fault == compound));
    Ok(())
}

/// Inputs of up to 268,435,456 bytes may be files, and of up to 67,108,864 package texts.
#[test]
fn the_limit_is_that_of_how_an_input_begins(rt: HostRuntime) -> Result<(), Fail> {
    for (bytes, limit) in [
        (&b""[..], 67_108_864),
        (b"P", 67_108_864),
        (b"{\"version\":2", 67_108_864),
        (b"\xd0\xcf\x11\xe0\xa1\xb1\x1a", 67_108_864),
        (b"\xd0\xcf\x11\xe0\xa1\xb1\x1a\xe1", 268_435_456),
        (b"PK", 268_435_456),
        (b"PK\x03\x04", 268_435_456),
    ] {
        assert!(rt; longest_input(bytes) == limit);
        assert!(rt; begins_as_file(bytes) == (limit == 268_435_456));
    }
    Ok(())
}

#[test]
fn an_input_becomes_a_package_in_memory(rt: HostRuntime) -> Result<(), Fail> {
    let alloc = rt.alloc();
    let file = archive_of_parts(alloc, PARTS)?;
    for _ in 0..2 {
        let mut held = InputPackage::in_memory(input(alloc, &file)?.into_memory(alloc)?);
        assert_text(
            &told_part(alloc, &mut held, "xl/workbook.xml")?,
            WORKBOOK,
            "a file",
        )?;
        assert_text(
            &told_part(alloc, &mut held, "a")?,
            "x(malformed markup)",
            "a flaw",
        )?;
    }
    let held = input(alloc, TEXT.as_bytes())?.into_memory(alloc)?;
    let mut package = InputPackage::in_memory(held);
    assert_text(
        &told_part(alloc, &mut package, "a")?,
        "s(b)() e(b)",
        "a text",
    )?;
    if file.len() < 1000 {
        let mut package = InputPackage::of_file(WorkbookFile::new(alloc, file)?);
        assert_text(
            &told_part(alloc, &mut package, "a")?,
            "x(malformed markup)",
            "a flaw",
        )?;
    }
    Ok(())
}
