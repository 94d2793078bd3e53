//! Values under the codes of number formats, and numbers under General.

use cell_data::{CellErrorType, Data, Decimal, ExcelDateTime, ExcelDateTimeType};
use format_codes::ShownFormat;
use shown_text::{push_general, push_shown};
use std::alloc::Global;
use std::test::Fail;
use test_tables::{assert_text, cases, cut};

/// Codes, each with a value and the text that is shown of it, between bars. A code begins with
/// `1904:` in a workbook that counts from 1904. A value is the text of a number, `days:` and the
/// number of the days of a date, `text:` and a text, `true`, `false`, or an error.
const SHOWN: &str = r##"
General
= 0
= |0|

General
= -5
= |-5|

General
= 1234.5
= |1234.5|

General
= 0.30000000000000004
= |0.3|

General
= 1.2345678912
= |1.234567891|

General
= -1.2345678919
= |-1.234567892|

General
= 10000000000
= |10000000000|

General
= 100000000000
= |1E+11|

General
= 112345900000
= |1.12346E+11|

General
= 99999999999.9
= |1E+11|

General
= 12345678901.9
= |12345678902|

General
= 0.000000001
= |0.000000001|

General
= 1E-10
= |1E-10|

General
= 0.0001234567891
= |0.000123457|

General
= 0.00001234567891
= |1.23457E-05|

General
= 1.7976931348623157E+308
= |1.79769E+308|

General
= text:nut
= |nut|

General
= true
= |TRUE|

General
= #N/A
= |#N/A|

0
= 2.5
= |3|

0
= -0.5
= |-1|

0.00
= 2.675
= |2.68|

0.00
= 2.6749999999999998
= |2.68|

0.00
= 1.0049999999999999
= |1.01|

0.00
= -0.001
= |-0.00|

00000
= 1234
= |01234|

####.#
= 1234.59
= |1234.6|

#.000
= 8.9
= |8.900|

0.#
= 0.631
= |0.6|

#.0#
= 12
= |12.0|

#.0#
= 1234.568
= |1234.57|

???.???
= 2.8
= |  2.8  |

#.##
= 12
= |12.|

.00
= 0.5
= |.50|

0#
= 5
= |05|

000-00-0000
= 123456789
= |123-45-6789|

#,##0
= 1234567
= |1,234,567|

#,##0.00
= -1234.5
= |-1,234.50|

0,000
= 12
= |0,012|

,0
= 1234567
= |,1234567|

#,
= 12000
= |12|

0.0,,
= 12200000
= |12.2|

0%
= 0.285
= |29%|

0.00%
= -0.0123
= |-1.23%|

0.00%%
= 123.45
= |1234500.00%%|

"$"#,##0.00
= 1234.5
= |$1,234.50|

$0.00
= -12.3
= |-$12.30|

[$€-407]\ 0.00
= 3
= |€ 3.00|

#,##0.00\ [$€-40C]
= 1234.5
= |1,234.50 €|

0.00" kg"
= 5
= |5.00 kg|

\a $#.00" profit"
= -12.3
= |-a $12.30 profit|

0_)
= 5
= |5 |

0*-
= 5
= |5|

0.00;(0.00)
= -5
= |(5.00)|

0.00;(0.00)
= 0
= |0.00|

0.00;(0.00)
= -0.001
= |(0.00)|

0;-0;"zero"
= 0
= |zero|

0;;
= -5
= ||

;;;
= text:nut
= ||

[Red]0;[Blue]-0
= -5
= |-5|

_(* #,##0.00_);_(* \(#,##0.00\);_(* "-"??_);_(@_)
= -1234.5
= | (1,234.50)|

_(* #,##0.00_);_(* \(#,##0.00\);_(* "-"??_);_(@_)
= 0
= | -   |

_(* #,##0.00_);_(* \(#,##0.00\);_(* "-"??_);_(@_)
= text:nut
= | nut |

[>100]0.0;0.00
= 5
= |5.00|

[>=1000]0.0,"K";0
= 1500
= |1.5K|

[>999999]#,,"M";[>999]#,"K";#
= 1234567
= |1M|

[<10]0" few"
= 11
= |11|

[<0]"";0%
= -0.5
= ||

[<0]0.0;0
= -5
= |5.0|

[=0]?;0%
= 0
= | |

@
= text:nut
= |nut|

@
= 5
= |5|

"<"@">"
= text:nut
= |<nut>|

"<"@">"
= true
= |<TRUE>|

0.00
= text:nut
= |nut|

0.00
= true
= |TRUE|

;;;
= #DIV/0!
= |#DIV/0!|

0.00E+00
= 1234.5
= |1.23E+03|

0.00E+00
= 0.00012345
= |1.23E-04|

0.0E-0
= 1234.5
= |1.2E3|

0.0E+0
= 9.96
= |1.0E+1|

##0.0E+0
= 12345
= |12.3E+3|

##0.0E+0
= 0
= |000.0E+0|

# ?/?
= 3.25
= |3 1/4|

# ?/?
= 5
= |5    |

# ?/?
= 0.75
= | 3/4|

# ??/16
= 0.5
= |  8/16|

# ???/???
= 5.3
= |5   3/10 |

?/?
= 3.75
= |15/4|

yyyy-mm-dd
= 45292.5
= |2024-01-01|

dd.mm.yyyy
= 45657
= |31.12.2024|

m/d/yy h:mm
= 45292.5
= |1/1/24 12:00|

mm-dd-yy
= 45351
= |02-29-24|

d-mmm-yy
= 45292
= |1-Jan-24|

dddd, mmmm dd, yyyy
= 45292
= |Monday, January 01, 2024|

ddd
= 1
= |Sun|

mmmmm
= 45292
= |J|

m/d/yyyy
= 0
= |1/0/1900|

m/d/yyyy
= 60
= |2/29/1900|

m/d/yyyy
= 61
= |3/1/1900|

m/d/yyyy
= 2958466
= |2958466|

m/d/yyyy
= -1
= |-1|

1904:m/d/yyyy
= 0
= |1/1/1904|

1904:h:mm
= -0.25
= |-6:00|

h:mm AM/PM
= 0.5451388888888889
= |1:05 PM|

h:mm AM/PM
= 0.02
= |12:28 AM|

hh:mm:ss a/p
= 0.607951388888
= |02:35:27 p|

h:mm:ss
= 0.999999
= |0:00:00|

yyyy-mm-dd hh:mm:ss
= 45292.999999
= |2024-01-02 00:00:00|

yyyy-mm-dd
= 45292.999999
= |2024-01-01|

h:mm
= 0.999
= |23:58|

mm:ss.0
= 0.000694444
= |01:00.0|

hh:mm:ss.000
= 0.5
= |12:00:00.000|

[h]:mm:ss
= 1.5
= |36:00:00|

[mm]:ss
= 0.0442824074074
= |63:46|

[s].00
= 3.14159
= |271433.38|

[h]:mm
= -0.25
= |-6:00|

h "h" m "m"
= 0.5451388888888889
= |13 h 5 m|

[$-409]mmmm\ d\,\ yyyy;@
= 45292
= |January 1, 2024|

hh:mm;@
= text:nut
= |nut|

[DBNum1][$-804]General
= 5
= |5|

0;0;0;@;0
= 5
= |5|

0
= -0.4
= |-0|

0
= 0.5
= |1|

0
= 1E+15
= |1000000000000000|

0.00
= 1.005
= |1.01|

#,##0.00
= 44.274999999999999
= |44.28|

General
= 1E+15
= |1E+15|

General
= 123456789012
= |1.23457E+11|

General
= 44197.999988
= |44197.99999|

General
= 0.00001234
= |0.00001234|

0;-0;"zero"
= -0.4
= |-0|

0.00;(0.00);"-"
= 0
= |-|

0.00;(0.00);"-"
= 0.001
= |0.00|

[<=0]0;[Red]0
= -5
= |-5|

[>5]0
= -0.4
= |-0.4|

"hi"
= -5
= |-hi|

**\ #,###,#00,000.00,**
= 12345
= | 00,012.35|

[$-41E]#,##0
= 1234
= |1,234|

[$-D07041E]0
= 5.5
= |5.5|

[$-407]d. mmmm yyyy
= 45292
= |45292|

[$-407]d. mmmm yyyy
= days:45292.5
= |2024-01-01T12:00:00|

[$-407]dd.mm.yyyy
= 45657
= |31.12.2024|

[$-F800]dddd\,\ mmmm\ dd\,\ yyyy
= 45292
= |Monday, January 01, 2024|

yyyy-mm-dd
= days:45292.5
= |2024-01-01|

m/d/yyyy
= 59
= |2/28/1900|

1904:m/d/yyyy
= -1
= |-1/2/1904|

h:mm:ss
= 0.9999942
= |23:59:59|

h:mm
= 0.99999422
= |0:00|

[h]:mm
= 0.99999422
= |24:00|

h:mm AM/PM
= 0
= |12:00 AM|

h:mm AM/PM
= 0.5
= |12:00 PM|

[h]:mm:ss
= 2958466
= |71003184:00:00|
"##;

/// The value that a text of the table stands for.
pub fn value_of(alloc: Global, text: &str, is_1904: bool) -> Result<Data, Fail> {
    if let Some(days) = text.strip_prefix("days:") {
        let value = Decimal::parse(days).ok_or("no number")?;
        let kind = ExcelDateTimeType::DateTime;
        return Ok(Data::DateTime(ExcelDateTime {
            value,
            kind,
            is_1904,
        }));
    }
    if let Some(text) = text.strip_prefix("text:") {
        return Ok(Data::String(String::from_str(alloc, text)?));
    }
    if let Ok(error) = text.parse::<CellErrorType>() {
        return Ok(Data::Error(error));
    }
    match text {
        "true" => Ok(Data::Bool(true)),
        "false" => Ok(Data::Bool(false)),
        _ => Ok(Data::Decimal(Decimal::parse(text).ok_or("no number")?)),
    }
}

/// The text that is shown of a value, between bars.
pub fn shown(alloc: Global, code: &str, value: &Data, is_1904: bool) -> Result<String, Fail> {
    let format = ShownFormat::parse(alloc, code)?;
    let mut out = String::from_str(alloc, "|")?;
    push_shown(&mut out, &format, value, is_1904)?;
    out.push_str("|")?;
    Ok(out)
}

#[test]
fn values_are_shown_under_codes(rt: HostRuntime) -> Result<(), Fail> {
    let alloc = rt.alloc();
    for case in cases(SHOWN) {
        let (code, rest) = cut(case);
        let (value, wanted) = cut(rest);
        let from_1904 = code.strip_prefix("1904:");
        let is_1904 = from_1904.is_some();
        let value = value_of(alloc, value, is_1904)?;
        let found = shown(alloc, from_1904.unwrap_or(code), &value, is_1904)?;
        assert_text(&found, wanted, case)?;
    }
    Ok(())
}

/// Numbers and their texts under General.
const GENERAL: &str = "
0
= 0

-1234.5
= -1234.5

99999999999.9
= 1E+11

0.00001234567891
= 1.23457E-05

1E-10
= 1E-10

-1E-400
= -1E-400
";

#[test]
fn numbers_are_shown_under_general(rt: HostRuntime) -> Result<(), Fail> {
    let alloc = rt.alloc();
    for case in cases(GENERAL) {
        let (number, wanted) = cut(case);
        let number = Decimal::parse(number).ok_or("no number")?;
        let mut out = String::new(alloc);
        push_general(&mut out, &number)?;
        assert_text(&out, wanted, case)?;
    }
    Ok(())
}
