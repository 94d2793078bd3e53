//! The package that an input is.
ghost use Rattle.std.specs.Prelude.{◌≡◌, ◌<◌, ◌^◌, length, take, Some, IfOk, IfErr};
ghost use Rattle.package_text.specs.PackageText.{package_in as package_in_text, package_of};
ghost use Rattle.serde_json.specs.View.{view};
ghost use Rattle.workbook_file.specs.FileParts.{file_parts};
ghost use Rattle.input_package.specs.Reading.{package_of_input, parts_of_file, begins_as_archive};
ghost use Rattle.input_package.specs.Reading.{begins_as_file, longest_input, IsNoArchive};
ghost use Rattle.input_package.specs.Reading.{IsNoPackage, SpellsNone};
ghost use Rattle.std.specs.Str.{bytes_eq};
ghost use Rattle.zip_archive.specs.Words.{compound_mark};

use crate::input::InputPackage;
use package_text::package_from_json;
use part_events::MemoryPackage;
use serde_json::Value;
use std::alloc::{AllocError, Global};
use workbook_file::WorkbookFile;
use zip_archive::{ArchiveError, ArchiveFault};

/// The most bytes that a workbook file has.
const LONGEST_FILE: usize = 268_435_456;

/// The most bytes that a package text has.
const LONGEST_TEXT: usize = 67_108_864;

/// A compound file begins so.
const COMPOUND_MARK: [u8; 8] = [0xD0, 0xCF, 0x11, 0xE0, 0xA1, 0xB1, 0x1A, 0xE1];

/// Why an input is no package.
#[derive(Debug, Drop)]
pub enum InputError {
    /// Its bytes begin as no workbook file does, and spell none.
    NotAPackage,
    /// Its bytes begin as a workbook file does, or as a compound file, and are none, by this fault.
    NotAWorkbookFile(ArchiveFault),
    OutOfMemory,
}

impl From<AllocError> for InputError {
    ghost use Rattle.input_package.specs.declared.reading.InputError.TheVariants.{OutOfMemory};

    ghost from_gives = { λ _ error. error ≡ OutOfMemory };

    fn from(_refused: AllocError) -> InputError {
        InputError::OutOfMemory
    }
}

/// The JSON value that the bytes spell.
fn value_from(alloc: Global, bytes: &[u8]) -> Result<Value, InputError>
    ensures ok { IfOk result (λ value. package_in_text bytes.now ≡ package_of (view value)) }
    ensures err { IfErr result (SpellsNone (package_in_text bytes.now)) }
{
    match Value::from_slice(alloc, bytes) {
        Ok(value) => Ok(value),
        Err(error) => {
            if error.is_memory() {
                return Err(InputError::OutOfMemory);
            }
            Err(InputError::NotAPackage)
        }
    }
}

/// The package that the JSON value spells.
fn package_from_value(alloc: Global, value: &Value) -> Result<MemoryPackage, InputError>
    ensures ok { IfOk result (λ held. package_of (view value.now) ≡ Some held.parts) }
    ensures err { IfErr result (SpellsNone (package_of (view value.now))) }
{
    match package_from_json(alloc, value)? {
        Some(package) => Ok(package),
        None => Err(InputError::NotAPackage),
    }
}

/// The package that a package text spells.
fn package_of_text(alloc: Global, bytes: Vec<u8>) -> Result<MemoryPackage, InputError>
    ensures ok { IfOk result (λ held. package_in_text bytes.items ≡ Some held.parts) }
    ensures err { IfErr result (SpellsNone (package_in_text bytes.items)) }
{
    let value = value_from(alloc, &bytes)?;
    drop(bytes);
    package_from_value(alloc, &value)
}

/// The bytes begin as a zip archive does.
fn begins_as_archive(bytes: &[u8]) -> bool
    ensures { result ≡ begins_as_archive bytes.now }
{
    bytes[..bytes.len().min(2)] == b"PK"[..]
}

/// The bytes begin as a compound file does.
fn begins_as_compound(bytes: &[u8]) -> bool
    ensures { result ≡ bytes_eq (take 8 bytes.now) compound_mark }
{
    bytes[..bytes.len().min(8)] == COMPOUND_MARK[..]
}

/// The bytes begin as a workbook file does, by `PK`, or as a compound file, as an .xls or an
/// encrypted workbook is. No package text begins so.
pub fn begins_as_file(bytes: &[u8]) -> bool
    ensures { result ≡ begins_as_file bytes.now }
{
    begins_as_archive(bytes) || begins_as_compound(bytes)
}

/// The most bytes of an input that begins as these: 268,435,456 where it begins as a file, and else
/// 67,108,864. From eight bytes on, more of them change nothing.
pub fn longest_input(bytes: &[u8]) -> usize
    ensures { result ≡ longest_input bytes.now }
{
    if begins_as_file(bytes) {
        LONGEST_FILE
    } else {
        LONGEST_TEXT
    }
}

/// The workbook file that the bytes are. Its directory alone is looked at.
fn workbook_file_of(alloc: Global, bytes: Vec<u8>) -> Result<WorkbookFile, InputError>
    requires { length bytes.items < 2 ^ 56 }
    ensures ok { IfOk result
        (λ held. parts_of_file bytes.items ≡ Some (file_parts held.archive)) }
    ensures err { IfErr result (IsNoArchive bytes.items) }
{
    match WorkbookFile::new(alloc, bytes) {
        Ok(file) => Ok(file),
        Err(ArchiveError::OutOfMemory) => Err(InputError::OutOfMemory),
        Err(ArchiveError::Fault(fault)) => Err(InputError::NotAWorkbookFile(fault)),
    }
}

/// The package that an input is: a workbook file where its bytes begin as a file does, and else the
/// package that a package text spells (docs/FORMAT.md). An input has less than 2^56 bytes; how many
/// it may have, `longest_input` tells, and whoever reads it stops there.
///
/// Refused exactly where it is no package, want of memory aside: as `NotAWorkbookFile` where it
/// begins as a file does, and else as `NotAPackage`.
#[tactic(auto, unfolding(crate::specs::Reading::package_of_input))]
pub fn read_package(alloc: Global, bytes: Vec<u8>) -> Result<InputPackage, InputError>
    requires { length bytes.items < 2 ^ 56 }
    ensures ok { IfOk result (λ held. package_of_input bytes.items ≡ Some held.parts) }
    ensures err { IfErr result (IsNoPackage bytes.items) }
{
    if begins_as_file(&bytes) {
        return Ok(InputPackage::of_file(workbook_file_of(alloc, bytes)?));
    }
    Ok(InputPackage::in_memory(package_of_text(alloc, bytes)?))
}
