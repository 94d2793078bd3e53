//! A workbook file as a package.
ghost use Rattle.std.specs.Prelude.{◌≡◌, ◌<◌, ◌^◌, length, IfOk, IfErr, IsOk, MatchResult, true};
ghost use Rattle.std.specs.Prelude.{slice_index_or};
ghost use Rattle.part_events.specs.Words.{closed, part_at, SameParts, Opens, OpenCounts, Advances};
ghost use Rattle.part_events.specs.Words.{AdvanceCounts, Refuses};
ghost use Rattle.part_events.specs.declared.package.PackageError.TheVariants.{OutOfMemory};
ghost use Rattle.zip_archive.specs.Words.{archive_of, IsWhyNot, no_entry};
ghost use Rattle.workbook_file.specs.Contents.{IsFresh, file_state, just_opened};
ghost use Rattle.workbook_file.specs.FileParts.{file_parts, flaw_of, held_by};

use crate::in_memory::push_part;
use crate::open_part::OpenPart;
use crc32::Tables;
use part_events::{Flaw, MemoryPackage, Package, PackageError, PartEvent};
use std::alloc::Global;
use std::marker::Model;
use zip_archive::{Archive, ArchiveError, EntryError, EntryFault};

/// The most bytes that a part unpacks to.
const LONGEST_PART: usize = 1_073_741_824;

/// The file of a workbook, whose parts are the entries of an archive. A part is unpacked when it
/// is opened, and one is held at a time. No call of it as a package fails but for want of memory:
/// an entry that can't be opened is a part of one flaw.
#[derive(Drop)]
pub struct WorkbookFile {
    alloc: Global,
    archive: Archive,
    tables: Tables,
    part: Option<OpenPart>,
    taken: u64,
}

impl Model for WorkbookFile {
    ghost use Rattle.workbook_file.specs.Contents.{FileContents};

    ghost Value = { FileContents };

    ghost view = { λ a. record { archive = a.archive; part = a.part; taken = a.taken } };
}

/// How a part tells why its entry can't be opened.
fn flaw_of(fault: EntryFault) -> Flaw
    ensures { result ≡ flaw_of fault }
{
    match fault {
        EntryFault::Encrypted => Flaw::Encrypted,
        EntryFault::Method(_) => Flaw::UnknownMethod,
        EntryFault::Large(_) => Flaw::TooLarge,
        EntryFault::Header | EntryFault::Overlap | EntryFault::Contents(_) => Flaw::Damaged,
        EntryFault::Size => Flaw::WrongSize,
        EntryFault::Checksum => Flaw::WrongChecksum,
    }
}

/// The part that an entry of an archive holds, before its first event.
fn open_part(
    alloc: Global,
    archive: &Archive,
    tables: &Tables,
    place: usize,
) -> Result<OpenPart, PackageError>
    requires { place < length archive.now.archive.entries }
    ensures ok { let entry = slice_index_or archive.now.archive.entries place no_entry in
        IfOk result (λ part. part ≡ just_opened (held_by archive.now entry)) }
    ensures err { IfErr result (λ error. error ≡ OutOfMemory) }
{
    match archive.open(alloc, tables, place, LONGEST_PART) {
        Ok(bytes) => Ok(OpenPart::from_bytes(alloc, bytes)?),
        Err(EntryError::Fault(fault)) => Ok(OpenPart::from_flaw(flaw_of(fault))),
        Err(EntryError::OutOfMemory) => Err(PackageError::OutOfMemory),
    }
}

impl WorkbookFile {
    /// The workbook file of these bytes. Its directory alone is looked at; a part is unpacked when
    /// it is opened.
    ///
    /// A file that is asked for has less than 2^56 bytes; one of more than 268,435,456 is not meant
    /// to be, and whoever reads it stops there.
    ///
    /// # Errors
    ///
    /// As of `Archive::new`: why the bytes are no archive, or want of memory.
    pub fn new(alloc: Global, file: Vec<u8>) -> Result<WorkbookFile, ArchiveError>
        requires { length file.items < 2 ^ 56 }
        ensures { MatchResult result (IsFresh file.items) (IsWhyNot (archive_of file.items)) }
    {
        let archive = Archive::new(alloc, file)?;
        Ok(WorkbookFile {
            alloc,
            archive,
            tables: Tables::new(alloc)?,
            part: None,
            taken: 0,
        })
    }

    /// How many parts it has.
    pub fn part_count(&self) -> usize
        ensures { result ≡ length (file_parts self.now.archive) }
    {
        self.archive.member_count()
    }

    /// The name of the part of a place, in UTF-8. Parts are counted from 0, in the order of the
    /// directory. Where two have one name as names are compared, the first is the one that is
    /// opened by it.
    pub fn part_name(&self, place: usize) -> &str
        requires { place < length (file_parts self.now.archive) }
        ensures { result.now ≡ (part_at (file_parts self.now.archive) place).name }
    {
        self.archive.member_name(place)
    }

    /// The same parts as a package in memory, of which none is open and no event was taken. Each is
    /// unpacked and cut, in the order of the directory, and all of them are held at once.
    ///
    /// # Errors
    ///
    /// Want of memory alone: a part that can't be unpacked is one flaw, as when it is opened here.
    pub fn into_memory(self, alloc: Global) -> Result<MemoryPackage, PackageError>
        ensures ok { IfOk result (λ held. held ≡ closed (file_parts self.archive) 0) }
        ensures err { IfErr result (λ error. error ≡ OutOfMemory) }
    {
        let mut held = MemoryPackage::new(alloc);
        'parts: for place in 0..self.archive.member_count() {
            let entry = self.archive.member_entry(place);
            let part = open_part(alloc, &self.archive, &self.tables, entry)?;
            push_part(&mut held, self.archive.member_name(place), part)?;
        }
        Ok(held)
    }
}

// The clauses of `open` and `advance` are the trait's, but that `open` is refused for want of
// memory alone, and `advance` never.
impl Package for WorkbookFile {
    ghost state = { file_state };

    fn open(&mut self, name: &str) -> Result<bool, PackageError>
        ensures keeps { SameParts (file_state self.old) (file_state self.new) }
        ensures counts { IfOk result (λ found. OpenCounts found (file_state self.old)
            (file_state self.new)) }
        ensures opens { (file_state self.old).is_visible ≡ true
            → IfOk result (λ found. Opens name.now found (file_state self.old)
            (file_state self.new)) }
        ensures err { IfErr result (Refuses (file_state self.old) (file_state self.new)) }
        ensures memory { IfErr result (λ error. error ≡ OutOfMemory) }
    {
        // The part before is let go first.
        self.part = None;
        let Some(place) = self.archive.find(name) else {
            return Ok(false);
        };
        let part = open_part(self.alloc, &self.archive, &self.tables, place)?;
        self.part = Some(part);
        Ok(true)
    }

    fn advance(&mut self) -> Result<bool, PackageError>
        ensures keeps { SameParts (file_state self.old) (file_state self.new) }
        ensures counts { IfOk result (λ more. AdvanceCounts more (file_state self.old)
            (file_state self.new)) }
        ensures events { (file_state self.old).is_visible ≡ true
            → IfOk result (λ more. Advances more (file_state self.old)
            (file_state self.new)) }
        ensures never { IsOk result }
    {
        let Some(part) = &mut self.part else {
            return Ok(false);
        };
        let more = part.advance();
        if more {
            self.taken = self.taken.saturating_add(1);
        }
        Ok(more)
    }

    fn event(&self) -> PartEvent<'_> {
        match &self.part {
            Some(part) => part.event(),
            None => unreachable!(),
        }
    }

    fn left(&self) -> u64 {
        match &self.part {
            Some(part) => part.left() as u64,
            None => 0,
        }
    }

    fn taken(&self) -> u64 {
        self.taken
    }

    fn faults(&self) -> u64 {
        0
    }
}
