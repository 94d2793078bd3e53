ghost use Rattle.std.specs.Prelude.{◌<◌};

use crate::program::{answer, ending};
use crate::sink::MemorySink;
use crate::source::MemorySource;
use part_events::{BreakCause, XmlFault};
use std::alloc::Global;
use std::process::ExitCode;
use std::test::Fail;
use test_tables::{assert_text, cases, cut};
use xlsx_commands::ToolError;
use xlsx_error::XlsxError;
use zip_archive::ArchiveFault;

/// The front of the types of relationships.
const TYPES: &str = "http://schemas.openxmlformats.org/officeDocument/2006/relationships";

const FRONT: &str = r##"{"version":1,"parts":[
{"name":"_rels/.rels","events":[["s","Relationships",""],
["s","Relationship"," Target=\"xl/workbook.xml\" Id=\"rId1\" Type=\""##;

const MIDDLE: &str = r##"\""],
["e","Relationship"],["e","Relationships"]]},
{"name":"xl/_rels/workbook.xml.rels","events":[["s","Relationships",""],
["s","Relationship"," Target=\"worksheets/sheet1.xml\" Id=\"rId1\" Type=\""##;

const SHEET: &str = r##"\""],
["e","Relationship"],["e","Relationships"]]},
{"name":"xl/workbook.xml","events":[["s","workbook",""],["s","sheets",""],
["s","sheet"," name=\"S\" sheetId=\"1\" r:id=\"rId1\""],
["e","sheet"],["e","sheets"],["e","workbook"]]},
{"name":"xl/worksheets/sheet1.xml","events":[["s","worksheet",""],["s","sheetData",""]"##;

const BACK: &str = r#",["e","sheetData"],["e","worksheet"]]}]}"#;

pub const NUTS: &str = r#",["s","row"," r=\"1\""],
["s","c"," r=\"A1\" t=\"str\""],["s","v",""],["t","nut"],["e","v"],["e","c"],
["s","c"," r=\"B1\" t=\"str\""],["s","f",""],["t","UPPER(A1)"],["e","f"],
["s","v",""],["t","NUT"],["e","v"],["e","c"],["e","row"]"#;

/// The first cell of a worksheet and the last.
const WIDE: &str = r#",["s","c"," r=\"A1\""],["s","v",""],["t","1"],["e","v"],["e","c"],
["s","c"," r=\"XFD1048576\""],["s","v",""],["t","2"],["e","v"],["e","c"]"#;

/// A part of styles, behind the sheet's.
const STYLES: &str = r#",["e","sheetData"],["e","worksheet"]]},
{"name":"xl/styles.xml","events":[]}]}"#;

pub const NUTS_LINES: &str = "A1\ts:nut\t-\t-\nB1\ts:NUT\t=UPPER(A1)\t-\n";

/// A package of one sheet `S` with these events inside its `sheetData`.
pub fn package_of(alloc: Global, inside: &str) -> Result<String, Fail> {
    package_with(alloc, inside, BACK)
}

fn package_with(alloc: Global, inside: &str, back: &str) -> Result<String, Fail> {
    let opening = format!(in alloc; "{FRONT}{TYPES}/officeDocument{MIDDLE}{TYPES}/worksheet")?;
    Ok(format!(in alloc; "{opening}{SHEET}{inside}{back}")?)
}

/// How the source and the sink of a run behave.
#[derive(Clone, Copy)]
pub struct Setting {
    /// The most bytes that a call of the source gives and one of the sink takes.
    pub piece: usize,
    /// The most bytes that the sink takes in all.
    pub room: usize,
    /// The call of the source, counted from 0, that fails.
    pub failing_read: Option<u64>,
    /// The call of the sink, counted from 0, that fails.
    pub failing_write: Option<u64>,
}

pub const EASY: Setting = Setting {
    piece: 1_000,
    room: 5_000,
    failing_read: None,
    failing_write: None,
};

fn calls(alloc: Global, failing: Option<u64>) -> Result<Vec<u64>, Fail> {
    let mut calls = Vec::new(alloc);
    if let Some(call) = failing {
        calls.push(call)?;
    }
    Ok(calls)
}

/// What was written, the status of an ending and its text: status 0 and no text where nothing was
/// refused.
fn ended(alloc: Global, outcome: &Result<(), ToolError>, written: &[u8]) -> Result<String, Fail> {
    let written = std::str::from_utf8(written)?;
    Ok(match outcome {
        Ok(()) => format!(in alloc; "{written}0")?,
        Err(error) => format!(in alloc; "{written}{} {error}", error.status())?,
    })
}

/// How a run ends by these words, which stand between blanks, on this input.
pub fn run_on(alloc: Global, words: &str, input: &[u8], setting: Setting) -> Result<String, Fail>
    requires { 0 < setting.piece }
{
    let mut texts = Vec::new(alloc);
    for word in words.split(' ') {
        if !words.is_empty() {
            texts.push(String::from_str(alloc, word)?)?;
        }
    }
    let mut bytes = Vec::new(alloc);
    bytes.extend_from_slice(input)?;
    let mut source = MemorySource::new(bytes, setting.piece, calls(alloc, setting.failing_read)?);
    let failing = calls(alloc, setting.failing_write)?;
    let mut sink = MemorySink::new(alloc, setting.room, setting.piece, failing)?;
    let result = answer(alloc, &texts, &mut source, &mut sink);
    ended(alloc, &result, sink.written())
}

/// What stands in a sheet, the words of a run on it, and how it ends.
const LISTED: &str = "
nuts
= cells S
= A1\ts:nut\t-\t-
B1\ts:NUT\t=UPPER(A1)\t-
0

nothing
= cells S
= 0

nuts
= csv S
= nut,NUT
0

nothing
= csv S
= 0
";

/// What a word for it puts inside a sheet.
fn inside_of(word: &str) -> &'static str {
    if word == "nuts" { NUTS } else { "" }
}

#[test]
fn a_sheet_is_listed(rt: HostRuntime) -> Result<(), Fail> {
    let alloc = rt.alloc();
    for case in cases(LISTED) {
        let (inside, words) = cut(case);
        let (words, wanted) = cut(words);
        let input = package_of(alloc, inside_of(inside))?;
        for piece in [1, 2, 3, 1_000] {
            let setting = Setting { piece, ..EASY };
            let told = run_on(alloc, words, input.as_bytes(), setting)?;
            assert_text(&told, wanted, case)?;
        }
    }
    Ok(())
}

/// The words of a run, its input, and how it ends.
const REFUSED: &str = r#"
cells S
=
= 5 not a package

cells S
= []
= 5 not a package

cells S
= PK
= 13 not a workbook file: no record of the end of an archive

cells S
= {"version":3,"parts":[]}
= 5 not a package

cells S
= {"version":1,"parts":[]}
= 6 File not found '_rels/.rels'

cells
= nuts
= 2 usage

cells S S
= nuts
= 2 usage

cells X
= nuts
= 6 Worksheet 'X' not found

csv X
= wide
= 6 Worksheet 'X' not found

csv S
= wide
= 10 box too large

cells S
= styled
= 6 Unexpected end of xml, expecting '</styleSheet>'
"#;

/// The input of a word for it, and any other text itself.
fn input_of(alloc: Global, word: &str) -> Result<String, Fail> {
    match word {
        "nuts" => package_of(alloc, NUTS),
        "styled" => package_with(alloc, NUTS, STYLES),
        "wide" => package_of(alloc, WIDE),
        _ => Ok(String::from_str(alloc, word)?),
    }
}

#[test]
fn each_refusal_has_its_cause(rt: HostRuntime) -> Result<(), Fail> {
    let alloc = rt.alloc();
    for case in cases(REFUSED) {
        let (words, input) = cut(case);
        let (input, wanted) = cut(input);
        let input = input_of(alloc, input)?;
        let told = run_on(alloc, words, input.as_bytes(), EASY)?;
        assert_text(&told, wanted, case)?;
    }
    let told = run_on(alloc, "cells S", b"\xff", EASY)?;
    assert_text(&told, "5 not a package", "no UTF-8")?;
    let told = run_on(alloc, "cells S", b"\xd0\xcf\x11\xe0\xa1\xb1\x1a\xe1", EASY)?;
    assert_text(
        &told,
        "14 not a workbook file: a compound file, as of .xls or encrypted ones",
        "the mark of a compound file",
    )?;
    Ok(())
}

/// The words of a run on a package text, and how it ends.
const UPGRADED: &str = r#"
upgrade
= {"version":1,"parts":[{"name":"a","events":[["s","x",""],["e","x"],["o"]]}]}
= {"parts":[{"events":[["b","x",""],["o"]],"name":"a"}],"version":2}
0

upgrade
= {"parts":[{"events":[["b","x",""],["o"]],"name":"a"}],"version":2}
= {"parts":[{"events":[["b","x",""],["o"]],"name":"a"}],"version":2}
0

upgrade
= {"parts":[{"events":[["b","x",""],["o"]],"name":"a"}],"version":1}
= 5 not a package

upgrade S
= {"version":1,"parts":[]}
= 2 usage

cells S
= {"parts":[{"events":[["b","x",""],["o"]],"name":"a"}],"version":2}
= 6 File not found '_rels/.rels'

cells S
= {"parts":[{"events":[["b","x",""],["o"]],"name":"a"}],"version":1}
= 5 not a package

cells S
= {"parts":[{"events":[["b","x",""],["o"]],"name":"a"}],"version":3}
= 5 not a package
"#;

#[test]
fn a_package_is_upgraded(rt: HostRuntime) -> Result<(), Fail> {
    let alloc = rt.alloc();
    for case in cases(UPGRADED) {
        let (words, input) = cut(case);
        let (input, wanted) = cut(input);
        let told = run_on(alloc, words, input.as_bytes(), EASY)?;
        assert_text(&told, wanted, case)?;
    }
    let input = package_of(alloc, NUTS)?;
    let told = run_on(alloc, "upgrade", input.as_bytes(), EASY)?;
    let upgraded = told.as_str().strip_suffix("\n0").unwrap_or("");
    let listed = format!(in alloc; "{NUTS_LINES}0")?;
    let told = run_on(alloc, "cells S", upgraded.as_bytes(), EASY)?;
    assert_text(&told, &listed, "the cells of an upgraded package")?;
    Ok(())
}

#[test]
fn a_failing_source_is_told(rt: HostRuntime) -> Result<(), Fail> {
    let alloc = rt.alloc();
    let input = package_of(alloc, NUTS)?;
    let listed = format!(in alloc; "{NUTS_LINES}0")?;
    for call in 0..4 {
        let setting = Setting {
            failing_read: Some(call),
            ..EASY
        };
        let told = run_on(alloc, "cells S", input.as_bytes(), setting)?;
        let fails = call <= input.len() as u64 / 1_000 + 1;
        let wanted = if fails {
            "3 read fault"
        } else {
            listed.as_str()
        };
        assert!(rt; told.as_str() == wanted, "of call {call}: {told}");
    }
    Ok(())
}

/// How a run ends whose sink took this front of its lines.
fn cut_off(alloc: Global, front: &[u8]) -> Result<String, Fail> {
    ended(alloc, &Err(ToolError::WriteFault), front)
}

#[test]
fn a_full_or_failing_sink_has_a_front_of_the_lines(rt: HostRuntime) -> Result<(), Fail> {
    let alloc = rt.alloc();
    let input = package_of(alloc, NUTS)?;
    for (words, lines, front) in [
        ("cells S", NUTS_LINES, "A1\ts:n"),
        ("csv S", "nut,NUT\n", "nut,NU"),
    ] {
        for room in 0..lines.len() {
            let setting = Setting { room, ..EASY };
            let told = run_on(alloc, words, input.as_bytes(), setting)?;
            let wanted = cut_off(alloc, &lines.as_bytes()[..room])?;
            assert_text(&told, &wanted, "a full sink")?;
        }
        let setting = Setting {
            piece: 3,
            failing_write: Some(2),
            ..EASY
        };
        let told = run_on(alloc, words, input.as_bytes(), setting)?;
        let wanted = cut_off(alloc, front.as_bytes())?;
        assert_text(&told, &wanted, "a failing sink")?;
    }
    Ok(())
}

#[test]
fn an_input_past_the_limit_is_too_large(rt: HostRuntime) -> Result<(), Fail> {
    let alloc = rt.alloc();
    let setting = Setting {
        piece: 65_536,
        ..EASY
    };
    for (length, wanted) in [
        (67_108_864, "5 not a package"),
        (67_108_865, "4 input too large"),
    ] {
        let input = vec![in alloc; b' '; length]?;
        let told = run_on(alloc, "cells S", &input, setting)?;
        assert_text(&told, wanted, "as many blanks")?;
    }
    Ok(())
}

/// The status and the text of each refusal.
const STATUSES: &str =
    "2 usage; 3 read fault; 4 input too large; 4 file too large; 5 not a package; \
    13 not a workbook file: no record of the end of an archive; \
    14 not a workbook file: a compound file, as of .xls or encrypted ones; \
    13 not a workbook file: no header in the directory at byte 32; 6 Relationship not found; \
    7 write fault; 8 out of memory; 10 box too large; 15 no workbook file can hold it; \
    16 no header row; 16 two columns 'Amount'; 17 graph too large; ";

#[test]
fn refusals_have_statuses_and_texts(rt: HostRuntime) -> Result<(), Fail> {
    let mut told = String::new(rt.alloc());
    let key = String::from_str(rt.alloc(), "Amount")?;
    for error in [
        ToolError::Usage,
        ToolError::ReadFault,
        ToolError::InputTooLarge,
        ToolError::FileTooLarge,
        ToolError::NotAPackage,
        ToolError::NotAWorkbookFile(ArchiveFault::NoArchive),
        ToolError::NotAWorkbookFile(ArchiveFault::Compound),
        ToolError::NotAWorkbookFile(ArchiveFault::Damaged(32)),
        ToolError::Workbook(XlsxError::RelationshipNotFound),
        ToolError::WriteFault,
        ToolError::OutOfMemory,
        ToolError::BoxTooLarge,
        ToolError::Unwritable,
        ToolError::NoHeader,
        ToolError::TwoColumns(key),
        ToolError::GraphTooLarge,
    ] {
        write!(told, "{} {error}; ", error.status())?;
    }
    assert_text(&told, STATUSES, "each refusal")?;
    Ok(())
}

#[test]
fn pages_are_printed_where_their_words_stand_alone(rt: HostRuntime) -> Result<(), Fail> {
    let alloc = rt.alloc();
    for (words, front, end) in [
        (
            "--help",
            "Usage: xlsx_tool cells NAME [--json] < ",
            "how much is read of it.\n0",
        ),
        ("--version", "xlsx_tool 0.1.0", "\n0"),
    ] {
        let told = run_on(alloc, words, b"", EASY)?;
        assert!(rt;
            told.starts_with(front) && told.ends_with(end),
            "of {words}: {told}"
        );
    }
    for words in ["--help x", "--Help", ""] {
        let told = run_on(alloc, words, b"", EASY)?;
        assert_text(&told, "2 usage", words)?;
    }
    Ok(())
}

/// What an ending wrote to a sink of errors with this much room, and its status.
fn ending_of(
    alloc: Global,
    answer: &Result<(), ToolError>,
    room: usize,
) -> Result<(ExitCode, String), Fail> {
    let mut errors = MemorySink::new(alloc, room, 4, Vec::new(alloc))?;
    let status = ending(alloc, answer, &mut errors);
    let written = String::from_str(alloc, std::str::from_utf8(errors.written())?)?;
    Ok((status, written))
}

#[test]
fn an_answer_has_an_ending(rt: HostRuntime) -> Result<(), Fail> {
    let alloc = rt.alloc();
    let absent = XlsxError::WorksheetNotFound(String::from_str(alloc, "X")?);
    let no_end = XlsxError::Xml(XmlFault::Break {
        at: 7,
        why: BreakCause::EndMismatch,
    });
    for (answer, room, status, written) in [
        (Ok(()), 100, ExitCode::SUCCESS, ""),
        (Err(ToolError::Usage), 100, ExitCode::from(2), "usage\n"),
        (
            Err(ToolError::OutOfMemory),
            100,
            ExitCode::from(8),
            "out of memory\n",
        ),
        (
            Err(ToolError::Workbook(absent)),
            100,
            ExitCode::from(6),
            "Worksheet 'X' not found\n",
        ),
        (
            Err(ToolError::Workbook(no_end)),
            15,
            ExitCode::from(6),
            "Xml error: end ",
        ),
        (Err(ToolError::WriteFault), 0, ExitCode::from(7), ""),
    ] {
        let told = ending_of(alloc, &answer, room)?;
        assert!(rt;
            told.0 == status && told.1.as_str() == written,
            "of {written}"
        );
    }
    Ok(())
}
