//! A law: which entry a part of a file is.
ghost use Rattle.std.specs.Prelude.{◌≡◌, ℕ, List, option_map};
ghost use Rattle.part_events.specs.Words.{part_of};
ghost use Rattle.zip_archive.specs.Words.{ArchiveFile, part_entry};
ghost use Rattle.workbook_file.specs.FileParts.{entry_events, file_parts, held_by};

/// The part of a name has the events of what the entry of that name holds, and is absent where
/// there is no such entry.
pub fn a_part_is_what_its_entry_holds()
    ensures { (held : ArchiveFile) (name : List ℕ) → part_of (file_parts held) name
        ≡ option_map (λ entry. entry_events (held_by held entry))
        (part_entry held.archive.entries name) }
{}
