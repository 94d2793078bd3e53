//! What number formats make of numbers.

use cell_data::{builtin_format_by_id, builtin_format_code_by_id, detect_custom_number_format};
use std::test::Fail;
use test_tables::{assert_text, cases, cut};

/// Number formats, and what they make of a number.
const FORMATS: &str = r#"
[hh]:mm
= TimeDelta

yyyy-mm-dd
= DateTime

0.00"d"
= Other

[Red]0;d
= Other

0 A/P
= DateTime

[hH]
= TimeDelta

[]0
= Other

[h
= Other

"d
= Other

\d_m0
= Other

\éd
= DateTime

[$-409]D
= DateTime


= Other
"#;

#[test]
fn formats_tell_dates_from_numbers(rt: HostRuntime) -> Result<(), Fail> {
    let alloc = rt.alloc();
    for case in cases(FORMATS) {
        let (format, wanted) = cut(case);
        let kind = format!(in alloc; "{:?}", detect_custom_number_format(format))?;
        assert_text(&kind, wanted, format)?;
    }
    Ok(())
}

/// Ids of built-in formats, and what they make of a number.
const BUILT_IN: &str = "
14
= DateTime

22
= DateTime

23
= Other

46
= TimeDelta

014
= Other
";

#[test]
fn built_in_formats_have_ids(rt: HostRuntime) -> Result<(), Fail> {
    let alloc = rt.alloc();
    for case in cases(BUILT_IN) {
        let (id, wanted) = cut(case);
        let kind = format!(in alloc; "{:?}", builtin_format_by_id(id))?;
        assert_text(&kind, wanted, id)?;
    }
    assert!(rt; builtin_format_code_by_id(22) == Some("m/d/yy h:mm"));
    assert!(rt; builtin_format_code_by_id(5) == None);
    Ok(())
}
