ghost use Rattle.std.specs.Prelude.{◌≡◌, ◌<◌, ◌∷◌, length, map, string_bytes, IfOk, OnOk, IfErr};
ghost use Rattle.part_events.specs.Words.{part_at};
ghost use Rattle.zip_writer.specs.Files.{files_of};
ghost use Rattle.zip_writer.specs.Written.{IsPlain, IsWritableArchive};
ghost use Rattle.zip_writer.specs.declared.files.WriteError.TheVariants.{Ambiguous, TooLarge};
ghost use Rattle.package_file.specs.PackageFile.{part_bytes, part_files, package_file};

use crc32::Tables;
use markup::push_spelled;
use part_events::MemoryPackage;
use std::alloc::{AllocError, Global};
use zip_writer::{FileToWrite, WriteError, write_archive};

/// The markup of the part of this number, counted from 0.
fn part_text(alloc: Global, package: &MemoryPackage, part: usize) -> Result<String, AllocError>
    requires { part < length «package».now.parts }
    ensures { let events = (part_at «package».now.parts part).events in
        IfOk result (λ text. string_bytes text ≡ part_bytes events) }
{
    let mut text = String::new(alloc);
    for event in 0..package.event_count(part) {
        push_spelled(&mut text, package.event_at(part, event))?;
    }
    Ok(text)
}

/// The markup of each part.
fn part_texts(alloc: Global, package: &MemoryPackage) -> Result<Vec<String>, AllocError>
    ensures { let all = map (λ part. part_bytes part.events) «package».now.parts in
        IfOk result (λ texts. map string_bytes texts.items ≡ all) }
{
    let mut texts = Vec::new(alloc);
    for part in 0..package.part_count() {
        texts.push(part_text(alloc, package, part)?)?;
    }
    Ok(texts)
}

/// The files of the parts, of which these are the texts.
fn files_to_write<'a>(
    alloc: Global,
    package: &'a MemoryPackage,
    texts: &'a [String],
) -> Result<Vec<FileToWrite<'a>>, AllocError>
    requires { map string_bytes texts.now
        ≡ map (λ part. part_bytes part.events) «package».now.parts }
    ensures { IfOk result (λ files. files_of files.items ≡ part_files «package».now.parts) }
{
    let mut files = Vec::new(alloc);
    for (part, text) in texts.iter().enumerate() {
        files.push(FileToWrite {
            name: package.part_name(part),
            bytes: text.as_bytes(),
        })?;
    }
    Ok(files)
}

/// The workbook file of a package: an archive of its parts, each as its events are spelled, all
/// stored, in their order (ECMA-376 part 2).
///
/// Refused as by [`write_archive`].
pub fn write_package_file(alloc: Global, package: &MemoryPackage) -> Result<Vec<u8>, WriteError>
    ensures bytes { IfOk result (λ bytes. bytes.items ≡ package_file «package».now.parts) }
    ensures writable { OnOk result (IsWritableArchive (part_files «package».now.parts)) }
    ensures plain { OnOk result (IsPlain (part_files «package».now.parts)) }
    ensures large { IfErr result (λ error.
        error ≡ TooLarge → ¬ IsWritableArchive (part_files «package».now.parts)) }
    ensures ambiguous { let files = part_files «package».now.parts in
        IfErr result (λ error. error ≡ Ambiguous → IsWritableArchive files × (¬ IsPlain files)) }
{
    let tables = Tables::new(alloc)?;
    let texts = part_texts(alloc, package)?;
    let files = files_to_write(alloc, package, &texts)?;
    write_archive(alloc, &tables, &files)
}
