ghost use Rattle.std.specs.Prelude.{◌≡◌, ℕ, ◌<◌, ◌≤◌, List, length, Ok, slice_get, slice_index_or};
ghost use Rattle.zip_writer.specs.Written.{File, IsPlain, IsWritableArchive, written};
ghost use Rattle.zip_archive.specs.Words.{archive_of, no_entry, part_entry, opened};
ghost use Rattle.zip_reads_back.specs.ReadArchive.{archive_of_files, entries_of, AreBytes};
ghost use Rattle.zip_reads_back.specs.ReadArchive.{ArePartNames, no_file};

/// What is written of files is an archive that has an entry for each file, with its name, in their
/// order (`entries`); each holds the file's bytes (`bytes`), and where no two names are one, the
/// entry of a name is that of its file (`parts`). `write_archive` says of all that it writes that
/// it is writable and plain; no more is asked than that bytes are bytes.
pub fn written_archives_read_back()
    ensures entries { (files : List File) → IsWritableArchive files → IsPlain files
        → AreBytes files →
        archive_of (written files) ≡ Ok (archive_of_files files) }
    ensures bytes { (files : List File) (i limit : ℕ) → IsWritableArchive files → AreBytes files →
        i < length files → length (slice_index_or files i no_file).bytes ≤ limit →
        opened limit (archive_of_files files) (written files)
        (slice_index_or (entries_of 0 files) i no_entry)
        ≡ Ok (slice_index_or files i no_file).bytes }
    ensures parts { (files : List File) (i : ℕ) → ArePartNames files → i < length files →
        part_entry (entries_of 0 files) (slice_index_or files i no_file).name
        ≡ slice_get (entries_of 0 files) i }
{}
