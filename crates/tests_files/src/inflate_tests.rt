use crc32::Tables;
use inflate::{InflateError, inflate};
use std::alloc::Global;
use std::test::Fail;
use test_tables::{assert_text, cases, cut};

/// A stream in hexadecimal digits, what it is, how many bytes it may hold, and these bytes.
const READ: &str = r#"
0300
= a fixed block with its end alone
= 100
= , 0 behind

4b0400
= one literal
= 100
= a, 0 behind

4b04007879
= two bytes behind
= 100
= a, 2 behind

4b040200
= length 3 from 1 back
= 100
= aaaa, 0 behind

010000ffff
= an empty stored block
= 100
= , 0 behind

010200fdff6162
= two stored bytes
= 100
= ab, 0 behind

000000ffff4b0400
= a stored block that is not the last, and a fixed one
= 100
= a, 0 behind

f90100feff62
= the bits left of the first byte are passed over
= 100
= b, 0 behind

05c0810800000000207feb03
= one code of one bit, for the end, and no distances
= 100
= , 0 behind

05c081080000000020d6fd255e
= codes of one bit for a and the end, one distance
= 100
= a, 0 behind
"#;

/// As `READ`, with why it isn't read and at which byte.
const REFUSED: &str = r#"

= no bits at all
= 100
= Ends at 0

4b04
= no end
= 100
= Symbol at 1

4b1c0500
= length 258 from 1 back
= 100
= Long at 3

4b044200
= from 2 back, past the start
= 100
= Distance at 2

4b043e00
= distance symbol 30
= 100
= Distance at 2

4b1c0300
= length symbol 286
= 100
= Symbol at 2

010200fdfe6162
= the length not told twice
= 100
= Stored at 5

010200fdff61
= a stored byte is missing
= 100
= Ends at 5

0102
= cut in the length
= 100
= Ends at 1

07
= a block of kind 3
= 100
= Block at 0

4a0400
= no block is the last
= 100
= Ends at 3

05c0810800000000207feb0b00
= the same: the other bit is no code
= 100
= Symbol at 11

0dc0810800000000207fea7f
= three codes of one bit
= 100
= Codes at 11

0580810800000080fcad0f
= one code of two bits
= 100
= Codes at 10

05c081080000000020d6f79708
= no code for the end
= 100
= Codes at 12

05008200
= a length again, and none before it
= 100
= Codes at 3

05c0810800000000207f7f
= more lengths than wanted
= 100
= Codes at 10

05000004
= an incomplete set of codes of lengths
= 100
= Codes at 3

f5c001040000000010
= 287 literals and lengths
= 100
= Codes at 2

05de01040000000010
= 31 distances
= 100
= Codes at 2

4b0400
= one byte, and none may come
= 0
= Long at 1

4b040200
= four bytes, and three may come
= 3
= Long at 2

010200fdff6162
= two stored bytes, and one may come
= 1
= Long at 5
"#;

/// Bytes in hexadecimal digits, and their checksum.
const CHECKSUMS: &str = r#"

= 00000000

61
= e8b7be43

313233343536373839
= cbf43926

00000000
= 2144df1c

ffffffff
= ffffffff
"#;

/// What a stream holds, or why it isn't read.
fn answer(alloc: Global, stream: &[u8], limit: usize) -> Result<String, Fail> {
    if stream.len() > 100 {
        return Err(Fail::new(format_args!("a stream of {} bytes", stream.len())));
    }
    match inflate(alloc, stream, limit) {
        Ok(held) => {
            let text = str::from_utf8(&held.bytes)?;
            Ok(format!(in alloc; "{text}, {} behind", held.behind)?)
        }
        Err(InflateError::Fault(fault)) => {
            Ok(format!(in alloc; "{:?} at {}", fault.cause, fault.at)?)
        }
        Err(InflateError::OutOfMemory) => Err(Fail::new(format_args!("out of memory"))),
    }
}

/// Compares what streams hold with what a table wants.
fn assert_answers(alloc: Global, table: &str) -> Result<(), Fail> {
    for case in cases(table) {
        let (stream, rest) = cut(case);
        let (what, rest) = cut(rest);
        let (limit, wanted) = cut(rest);
        let stream = hex::decode(alloc, stream)?;
        let found = answer(alloc, &stream, limit.parse::<usize>()?)?;
        assert_text(&found, wanted, what)?;
    }
    Ok(())
}

#[test]
fn streams_hold_bytes(rt: HostRuntime) -> Result<(), Fail> {
    assert_answers(rt.alloc(), READ)
}

#[test]
fn damaged_streams_are_refused_at_their_byte(rt: HostRuntime) -> Result<(), Fail> {
    assert_answers(rt.alloc(), REFUSED)
}

#[test]
fn a_copy_may_be_longer_than_what_it_copies(rt: HostRuntime) -> Result<(), Fail> {
    let held = inflate(rt.alloc(), &[0x4B, 0x1C, 0x05, 0x00], 259)?;
    assert!(rt; held.bytes.len() == 259);
    assert!(rt; held.bytes.iter().all(|byte| *byte == b'a'));
    Ok(())
}

#[test]
fn bytes_have_checksums(rt: HostRuntime) -> Result<(), Fail> {
    let alloc = rt.alloc();
    let tables = Tables::new(alloc)?;
    for case in cases(CHECKSUMS) {
        let (bytes, wanted) = cut(case);
        let checksum = tables.checksum(&hex::decode(alloc, bytes)?);
        assert_text(&format!(in alloc; "{checksum:08x}")?, wanted, bytes)?;
    }
    Ok(())
}
