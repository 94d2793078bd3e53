//! Runs over a workbook of sales, whose sink has too little room, or whose source fails.

use crate::tests::{EASY, Setting, run_on};
use std::test::Fail;
use test_tables::assert_text;

const SALES: &str = r##"{"version":1,"parts":[
{"name":"_rels/.rels","events":[["s","Relationships",""],
["s","Relationship",
" Id=\"rId1\" Type=\"x/relationships/officeDocument\" Target=\"xl/workbook.xml\""],
["e","Relationship"],["e","Relationships"]]},
{"name":"xl/_rels/workbook.xml.rels","events":[["s","Relationships",""],
["s","Relationship",
" Id=\"rId1\" Type=\"x/relationships/worksheet\" Target=\"worksheets/sheet1.xml\""],
["e","Relationship"],["e","Relationships"]]},
{"name":"xl/workbook.xml","events":[["s","workbook",""],["s","sheets",""],
["s","sheet"," name=\"Sales\" sheetId=\"1\" r:id=\"rId1\""],["e","sheet"],["e","sheets"],
["e","workbook"]]},
{"name":"xl/sharedStrings.xml","events":[["s","sst"," count=\"3\" uniqueCount=\"3\""],["s","si",""],
["s","t",""],["t","Date"],["e","t"],["e","si"],["s","si",""],["s","t",""],["t","Amount"],["e","t"],
["e","si"],["s","si",""],["s","t"," xml:space=\"preserve\""],["t"," Total"],["e","t"],["e","si"],
["e","sst"]]},
{"name":"xl/theme/theme1.xml","events":[["s","theme",""],["s","themeElements",""],
["s","clrScheme",""],["s","dk1",""],["s","srgbClr"," val=\"000000\""],["e","srgbClr"],["e","dk1"],
["e","clrScheme"],["e","themeElements"],["e","theme"]]},
{"name":"xl/styles.xml","events":[["s","styleSheet",""],["s","fonts"," count=\"1\""],
["s","font",""],["s","sz"," val=\"11\""],["e","sz"],["s","color"," theme=\"1\""],["e","color"],
["s","name"," val=\"Calibri\""],["e","name"],["s","family"," val=\"2\""],["e","family"],
["e","font"],["e","fonts"],["s","fills"," count=\"3\""],["s","fill",""],
["s","patternFill"," patternType=\"none\""],["e","patternFill"],["e","fill"],["s","fill",""],
["s","patternFill"," patternType=\"gray125\""],["e","patternFill"],["e","fill"],["s","fill",""],
["s","patternFill"," patternType=\"solid\""],
["s","fgColor"," theme=\"2\" tint=\"-0.0999786370433668\""],["e","fgColor"],
["s","bgColor"," indexed=\"64\""],["e","bgColor"],["e","patternFill"],["e","fill"],["e","fills"],
["s","borders"," count=\"1\""],["s","border",""],["s","left",""],["e","left"],["s","right",""],
["e","right"],["s","top",""],["e","top"],["s","bottom",""],["e","bottom"],["s","diagonal",""],
["e","diagonal"],["e","border"],["e","borders"],["s","cellXfs"," count=\"3\""],
["s","xf"," numFmtId=\"0\" fontId=\"0\" fillId=\"0\" borderId=\"0\""],["e","xf"],
["s","xf"," numFmtId=\"0\" fontId=\"0\" fillId=\"2\" borderId=\"0\""],["e","xf"],
["s","xf"," numFmtId=\"14\" fontId=\"0\" fillId=\"0\" borderId=\"0\""],["e","xf"],["e","cellXfs"],
["e","styleSheet"]]},
{"name":"xl/worksheets/sheet1.xml","events":[["s","worksheet",""],
["s","dimension"," ref=\"A1:C3\""],["e","dimension"],["s","sheetData",""],
["s","row"," r=\"1\" spans=\"1:3\""],["s","c"," r=\"A1\" s=\"1\" t=\"s\""],["s","v",""],["t","0"],
["e","v"],["e","c"],["s","c"," r=\"B1\" s=\"1\" t=\"s\""],["s","v",""],["t","1"],["e","v"],
["e","c"],["s","c"," r=\"C1\" s=\"1\" t=\"s\""],["s","v",""],["t","2"],["e","v"],["e","c"],
["e","row"],["s","row"," r=\"2\""],["s","c"," r=\"A2\" s=\"2\""],["s","v",""],["t","45292"],
["e","v"],["e","c"],["s","c"," r=\"B2\""],["s","v",""],["t","10.5"],["e","v"],["e","c"],
["s","c"," r=\"C2\""],["s","f"," t=\"shared\" ref=\"C2:C3\" si=\"0\""],["t","SUM(B$2:B2)"],
["e","f"],["s","v",""],["t","10.5"],["e","v"],["e","c"],["e","row"],["s","row"," r=\"3\""],
["s","c"," r=\"A3\" s=\"2\""],["s","v",""],["t","45293"],["e","v"],["e","c"],["s","c"," r=\"B3\""],
["s","v",""],["t","4"],["e","v"],["e","c"],["s","c"," r=\"C3\""],["s","f"," t=\"shared\" si=\"0\""],
["e","f"],["s","v",""],["t","14.5"],["e","v"],["e","c"],["e","row"],["e","sheetData"],
["e","worksheet"]]}]}"##;

const LINES: &str = "A1\ts:Date\t-\t#DDD9C3
B1\ts:Amount\t-\t#DDD9C3
C1\ts: Total\t-\t#DDD9C3
A2\tt:45292 date 1900\t-\t-
B2\tn:10.5\t-\t-
C2\tn:10.5\t=SUM(B$2:B2)\t-
A3\tt:45293 date 1900\t-\t-
B3\tn:4\t-\t-
C3\tn:14.5\t=SUM(B$2:B3)\t-
";

#[test]
fn a_sink_of_each_room_has_a_front_of_the_sales(rt: HostRuntime) -> Result<(), Fail> {
    let alloc = rt.alloc();
    for room in 0..LINES.len() {
        let setting = Setting { room, ..EASY };
        let told = run_on(alloc, "cells Sales", SALES.as_bytes(), setting)?;
        let front = std::str::from_utf8(&LINES.as_bytes()[..room])?;
        let wanted = format!(in alloc; "{front}7 write fault")?;
        assert_text(&told, &wanted, "a full sink")?;
    }
    Ok(())
}

/// The most bytes that a call of the source gives.
const PIECE: usize = 100;

#[test]
fn a_source_that_fails_at_each_call_is_told(rt: HostRuntime) -> Result<(), Fail> {
    let alloc = rt.alloc();
    let listed = format!(in alloc; "{LINES}0")?;
    for call in 0..1_000u64 {
        let setting = Setting {
            piece: PIECE,
            failing_read: Some(call),
            ..EASY
        };
        let told = run_on(alloc, "cells Sales", SALES.as_bytes(), setting)?;
        if told.as_str() != "3 read fault" {
            assert!(rt; call > (SALES.len() / PIECE) as u64, "at call {call}");
            return assert_text(&told, &listed, "behind the last call");
        }
    }
    Err(Fail::new("the source is asked more often than that"))
}
