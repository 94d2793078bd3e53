use crc32::Tables;
use std::alloc::{AllocError, Global};
use std::test::Fail;
use test_tables::{assert_text, cases, cut};
use zip_archive::{Archive, ArchiveError, EntryError};
use zip_writer::{FileToWrite, WriteError, write_archive};

/// The archive of one file `a` that holds `b`, of 101 bytes: its own header stands at 0, its data
/// at 31, its header in the directory at 32, and the record of the end at 79.
const SMALL: &str =
    "504b03040a000000000000002100f9efbe710100000001000000010000006162504b01020a000a000000\
    000000002100f9efbe71010000000100000001000000000000000000000000000000000061504b050600\
    000000010001002f000000200000000000";

/// The same file with all its numbers of 64 bits, and both records of 64 bits.
const WIDE: &str =
    "504b03042d000000000000002100f9efbe710100000001000000010000006162504b01022d002d000000\
    000000002100f9efbe71ffffffffffffffff01001c0000000000000000000000ffffffff610100180001\
    0000000000000001000000000000000000000000000000504b06062c000000000000002d002d00000000\
    0000000000010000000000000001000000000000004b000000000000002000000000000000504b060700\
    0000006b0000000000000001000000504b050600000000ffffffffffffffffffffffff0000";

/// The archive of one file `p` that holds `a` in three packed bytes, which stand at 31. Its header
/// in the directory stands at 34.
const PACKED: &str =
    "504b03041400000008000000210043beb7e8030000000100000001000000704b0400504b010214001400\
    000008000000210043beb7e8030000000100000001000000000000000000000000000000000070504b05\
    0600000000010001002f000000220000000000";

/// The most bytes that an entry may hold.
const LIMIT: usize = 1_073_741_824;

/// What is done to no bytes, word by word, what is shown, and what is read. `small`, `wide` and
/// `packed` append an archive, `8=09` puts bytes in place of those from 8 on, `-1` cuts a byte off
/// at the end, and other words are bytes to append.
const FILES: &str = r#"
small
= an archive
= a: b

small 00
= a zero behind it
= a: b

small 8=09
= its own header tells another method
= a: b

78797a small
= bytes in front
= a: b

.
= nothing
= NoArchive

small -1
= the last byte is missing
= NoArchive

small 99=01
= a comment that isn't there
= NoArchive

504b0506 000000000000000000000000000000000000
= no entries
= nothing

d0cf11e0a1b11ae1 small
= the mark of a compound file
= Compound

d0cf11e0a1b11a small
= a byte of that mark is missing
= a: b

small 32=00
= no header
= Damaged(32)

small 91=2e
= the directory is shorter
= Damaged(33)

small 95=21
= the directory would begin further on
= Damaged(79)

small 95=1f
= the archive would have a byte in front
= a: Header

small 40=01
= encrypted
= a: Encrypted

small 42=01
= an unknown method
= a: Method(1)

small 56=ffffffff
= too large
= a: Large(4294967295)

small 30=62
= another name in front of the data
= a: Header

small 52=02
= data into the directory
= a: Overlap

small 56=02
= another size
= a: Size

small 48=00
= another checksum
= a: Checksum

wide
= numbers of 64 bits
= a: b

78797a wide
= numbers of 64 bits, and bytes in front
= a: b

wide 163=00
= no locator in front of the record of the end
= Damaged(183)

small 504b0506 00000000000000000000000000000000 0000
= the last record of the end counts
= nothing

small 99=1600 504b0506 00000000000000000000000000000000 0100
= the last record has a comment that isn't there, and is in one
= a: b
"#;

/// As `FILES`, where data are packed.
const PACKED_FILES: &str = r#"
packed
= one literal
= p: a

78797a packed
= bytes in front
= p: a

packed 31=07
= a block of an unknown kind
= p: Contents(Fault { cause: Block, at: 0 })

packed 54=02
= the end of the block is cut off
= p: Contents(Fault { cause: Symbol, at: 1 })

packed 58=02
= a size above what the data hold
= p: Size

packed 58=00
= a size below what the data hold
= p: Size

packed 50=00
= another checksum
= p: Checksum

small 42=08
= stored data as packed ones
= a: Contents(Fault { cause: Symbol, at: 0 })
"#;

/// Places of an archive, from one to another, which bits of a byte, and what is read where one of
/// them is turned at one of these places. All bits are told but that of the method 8.
const TURNED: &str = r#"
0 3 ff
= a: Header

4 25 ff
= a: b

26 27 ff
= a: Header

28 29 ff
= a: Overlap

30 30 ff
= a: Header

31 31 ff
= a: Checksum

32 35 ff
= Damaged(32)

36 39 ff
= a: b

40 40 41
= a: Encrypted

40 40 20
= a: Method(0)

40 40 9e
= a: b

41 41 ff
= a: b

42 42 01
= a: Method(1)

42 42 02
= a: Method(2)

42 42 04
= a: Method(4)

42 42 10
= a: Method(16)

42 42 20
= a: Method(32)

42 42 40
= a: Method(64)

42 42 80
= a: Method(128)

43 43 01
= a: Method(256)

43 43 02
= a: Method(512)

43 43 04
= a: Method(1024)

43 43 08
= a: Method(2048)

43 43 10
= a: Method(4096)

43 43 20
= a: Method(8192)

43 43 40
= a: Method(16384)

43 43 80
= a: Method(32768)

44 47 ff
= a: b

48 51 ff
= a: Checksum

52 52 01
= a: Size

52 52 fe
= a: Overlap

53 55 ff
= a: Overlap

56 58 ff
= a: Size

59 59 3f
= a: Size

59 59 40
= a: Large(1073741825)

59 59 80
= a: Large(2147483649)

60 60 01
= Damaged(78)

60 60 fe
= Damaged(32)

61 65 ff
= Damaged(32)

66 73 ff
= a: b

74 77 ff
= a: Header

78 78 01
= `: Header

78 78 02
= c: Header

78 78 04
= e: Header

78 78 08
= i: Header

78 78 10
= q: Header

78 78 20
= A: Header

78 78 40
= !: Header

78 78 80
= ß: Header

79 82 ff
= NoArchive

83 90 ff
= a: b

91 91 01
= Damaged(33)

91 91 02
= Damaged(34)

91 91 04
= Damaged(36)

91 91 08
= Damaged(40)

91 91 20
= Damaged(64)

91 91 d0
= Damaged(79)

92 94 ff
= Damaged(79)

95 95 20
= a: Header

95 95 df
= Damaged(79)

96 98 ff
= Damaged(79)

99 100 ff
= NoArchive
"#;

/// Names of entries, in their order, the name that is asked, and the place of its entry.
const NAMES: &str = r#"
xl\A.xml
= XL/a.xml
= 0

a|A|a
= A
= 2

A|a
= a
= 0

/a
= a
= none

__macosx/a
= __MACOSX/a
= none

x/__macosx/a
= x/__macosx/a
= 0

x/._a
= x/._a
= none

._a/x
= ._a/x
= 0

ü
= ü
= 0

ü
= Ü
= none
"#;

/// An archive by the words of `FILES`.
fn file_of(alloc: Global, words: &str) -> Result<Vec<u8>, Fail> {
    let mut file = Vec::new(alloc);
    for word in words.split(' ') {
        if let Some((place, bytes)) = word.split_once('=') {
            put(
                &mut file,
                place.parse::<usize>()?,
                &hex::decode(alloc, bytes)?,
            );
        } else if let Some(count) = word.strip_prefix('-') {
            file.truncate(file.len().saturating_sub(count.parse::<usize>()?));
        } else {
            let bytes = match word {
                "small" => SMALL,
                "wide" => WIDE,
                "packed" => PACKED,
                "." => "",
                digits => digits,
            };
            file.extend_from_slice(&hex::decode(alloc, bytes)?)?;
        }
    }
    Ok(file)
}

/// Puts bytes in place of those from a place on.
fn put(file: &mut [u8], place: usize, bytes: &[u8]) {
    for (old, new) in file.iter_mut().skip(place).zip(bytes) {
        *old = *new;
    }
}

/// What an entry holds, as text.
fn contents(alloc: Global, opened: Result<Vec<u8>, EntryError>) -> Result<String, Fail> {
    match opened {
        Ok(bytes) => Ok(String::from_str(alloc, str::from_utf8(&bytes)?)?),
        Err(EntryError::Fault(fault)) => Ok(format!(in alloc; "{fault:?}")?),
        Err(EntryError::OutOfMemory) => Err(Fail::new(format_args!("out of memory"))),
    }
}

/// What an archive holds, entry by entry.
fn entries(alloc: Global, archive: &Archive) -> Result<String, Fail> {
    let tables = Tables::new(alloc)?;
    let mut text = String::new(alloc);
    for place in 0..archive.entry_count() {
        let name = archive.name(alloc, place)?;
        let name = name.as_ref().map_or("?", |name| name.as_str());
        let found = contents(alloc, archive.open(alloc, &tables, place, LIMIT))?;
        text.push_str(&format!(in alloc; "{name}: {found}")?)?;
    }
    if text.is_empty() {
        text.push_str("nothing")?;
    }
    Ok(text)
}

/// What a file holds, or why it is no archive.
fn answer(alloc: Global, file: Vec<u8>) -> Result<String, Fail> {
    if file.len() > 1000 {
        return Err(Fail::new(format_args!("a file of {} bytes", file.len())));
    }
    match Archive::new(alloc, file) {
        Ok(archive) => entries(alloc, &archive),
        Err(ArchiveError::Fault(fault)) => Ok(format!(in alloc; "{fault:?}")?),
        Err(ArchiveError::OutOfMemory) => Err(Fail::new(format_args!("out of memory"))),
    }
}

/// Compares what files are with what a table wants.
fn assert_answers(alloc: Global, table: &str) -> Result<(), Fail> {
    for case in cases(table) {
        let (words, rest) = cut(case);
        let (what, wanted) = cut(rest);
        assert_text(&answer(alloc, file_of(alloc, words)?)?, wanted, what)?;
    }
    Ok(())
}

#[test]
fn files_are_archives_or_are_refused(rt: HostRuntime) -> Result<(), Fail> {
    assert_answers(rt.alloc(), FILES)
}

#[test]
fn packed_entries_hold_what_their_streams_do(rt: HostRuntime) -> Result<(), Fail> {
    assert_answers(rt.alloc(), PACKED_FILES)
}

#[test]
fn a_front_of_an_archive_is_none(rt: HostRuntime) -> Result<(), Fail> {
    let alloc = rt.alloc();
    let file = hex::decode(alloc, SMALL)?;
    for length in 0..file.len() {
        let front = Vec::from_slice(alloc, &file[..length])?;
        assert_text(&answer(alloc, front)?, "NoArchive", "a front")?;
    }
    Ok(())
}

/// Turns each of these bits of a byte.
fn turn_bits(alloc: Global, place: usize, bits: u8, wanted: &str) -> Result<(), Fail> {
    for bit in [1u8, 2, 4, 8, 16, 32, 64, 128] {
        let mut file = hex::decode(alloc, SMALL)?;
        if bits & bit != 0 && place < file.len() {
            file[place] ^= bit;
            let case = format!(in alloc; "the bit {bit} of the byte {place}")?;
            assert_text(&answer(alloc, file)?, wanted, &case)?;
        }
    }
    Ok(())
}

/// A row of `TURNED`, and how many bits it has.
fn turn_row(alloc: Global, row: &str, wanted: &str) -> Result<usize, Fail> {
    let (first, rest) = row.split_once(' ').unwrap_or((row, ""));
    let (last, bits) = rest.split_once(' ').unwrap_or((rest, ""));
    let bits = u8::from_str_radix(bits, 16)?;
    let mut count = 0usize;
    for place in first.parse::<usize>()?..=last.parse::<usize>()? {
        turn_bits(alloc, place, bits, wanted)?;
        count = count.saturating_add(bits.count_ones() as usize);
    }
    Ok(count)
}

#[test]
fn a_turned_bit_is_seen_or_means_nothing(rt: HostRuntime) -> Result<(), Fail> {
    let mut count = 0usize;
    for case in cases(TURNED) {
        let (row, wanted) = cut(case);
        count = count.saturating_add(turn_row(rt.alloc(), row, wanted)?);
    }
    assert!(rt; count == 8 * 101 - 1);
    Ok(())
}

/// The archive of empty files with these names, divided by `|`.
fn archive_of_names(alloc: Global, names: &str) -> Result<Vec<u8>, Fail> {
    let mut files = Vec::new(alloc);
    for name in names.split('|') {
        files.push(FileToWrite { name, bytes: &[] })?;
    }
    Ok(write_archive(alloc, &Tables::new(alloc)?, &files)?)
}

/// The place of the entry that has the part of a name.
fn place_of(alloc: Global, file: Vec<u8>, name: &str) -> Result<String, Fail> {
    if file.len() > 1000 {
        return Err(Fail::new(format_args!("a file of {} bytes", file.len())));
    }
    match Archive::new(alloc, file)?.find(name) {
        Some(place) => Ok(format!(in alloc; "{place}")?),
        None => Ok(String::from_str(alloc, "none")?),
    }
}

#[test]
fn an_entry_is_found_by_its_name(rt: HostRuntime) -> Result<(), Fail> {
    let alloc = rt.alloc();
    for case in cases(NAMES) {
        let (names, rest) = cut(case);
        let (name, wanted) = cut(rest);
        let file = archive_of_names(alloc, names)?;
        assert_text(&place_of(alloc, file, name)?, wanted, names)?;
    }
    Ok(())
}

#[test]
fn a_name_is_of_code_page_437_or_utf_8(rt: HostRuntime) -> Result<(), Fail> {
    let alloc = rt.alloc();
    let file = file_of(alloc, "small 30=81 78=81")?;
    assert_text(&place_of(alloc, file, "ü")?, "0", "code page 437")?;
    let file = file_of(alloc, "small 30=ff 78=ff 41=08")?;
    assert_text(&place_of(alloc, file, "\u{a0}")?, "none", "no UTF-8")?;
    let file = file_of(alloc, "small 30=ff 78=ff 41=08")?;
    assert_text(&answer(alloc, file)?, "?: b", "an entry without a name")
}

#[test]
fn files_are_written_as_an_archive(rt: HostRuntime) -> Result<(), Fail> {
    let alloc = rt.alloc();
    let tables = Tables::new(alloc)?;
    let file = FileToWrite {
        name: "a",
        bytes: b"b",
    };
    assert!(rt; write_archive(alloc, &tables, &[file])? == hex::decode(alloc, SMALL)?);
    let none = write_archive(alloc, &tables, &[])?;
    assert_text(&answer(alloc, none)?, "nothing", "no files")?;
    let files = [
        file,
        FileToWrite {
            name: "ü/c",
            bytes: b"de",
        },
    ];
    let both = write_archive(alloc, &tables, &files)?;
    assert_text(&answer(alloc, both)?, "a: bü/c: de", "two files")
}

#[test]
fn a_name_that_is_too_long_is_not_written(rt: HostRuntime) -> Result<(), Fail> {
    let alloc = rt.alloc();
    let mut name = String::new(alloc);
    for _ in 0..65_535 {
        name.push('n')?;
    }
    assert!(rt; try_name(alloc, &name)?.is_ok());
    name.push('n')?;
    assert!(rt; matches!(try_name(alloc, &name)?, Err(WriteError::TooLarge)));
    Ok(())
}

/// Writes an empty file of a name.
fn try_name(alloc: Global, name: &str) -> Result<Result<Vec<u8>, WriteError>, AllocError> {
    let tables = Tables::new(alloc)?;
    Ok(write_archive(alloc, &tables, &[FileToWrite { name, bytes: &[] }]))
}

/// The archive would be read as one with records of 64 bits.
#[test]
fn a_name_that_looks_like_records_of_64_bits_is_not_written(rt: HostRuntime) -> Result<(), Fail> {
    let alloc = rt.alloc();
    let mut name = String::from_str(alloc, "PK\x06\x06")?;
    for _ in 0..52 {
        name.push('n')?;
    }
    name.push_str("PK\x06\x07nnnnnnnnnnnnnnnn")?;
    assert!(rt; matches!(try_name(alloc, &name)?, Err(WriteError::Ambiguous)));
    // A byte more, and no mark of a locator stands where it would count.
    name.push('n')?;
    assert!(rt; try_name(alloc, &name)?.is_ok());
    Ok(())
}
