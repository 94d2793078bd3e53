//! Codes that are cut off, long, or met by no number, and values at the ends of what is shown.

use crate::shown_tests::{shown, value_of};
use std::alloc::{AllocError, Global};
use std::test::Fail;
use test_tables::{assert_text, cases, cut};

/// Codes that are cut off, or met by no number, and values at the ends of what is shown; each code
/// with a value and the text that is shown of it, between bars.
const ODD: &str = r#"
0\
= 5
= |5|

"open
= 5
= |open|

[Red
= 5.5
= |5.5|

[$-407
= 5.5
= |5.5|

0_
= 5
= |5 |

0*
= 5
= |5|

[>10]0.0
= 5
= |5|

[>1]0.0;[>2]0.00
= 5
= |5.0|

0E
= 5
= |5|

0;0;0;0;0
= text:nut
= |nut|

yyyy-mm-dd
= 2958465.9999
= |9999-12-31|

yyyy-mm-dd hh:mm:ss
= 45657.999999
= |2025-01-01 00:00:00|

m/d/yyyy
= 2958466
= |2958466|

0
= 1E+401
= |1E+401|

0.00E+00
= 1E-401
= |1E-401|

# ????/????
= 123456789012345
= |123456789012345          |

[Red
= -5.25
= |-5.25|

[Red]
= -5.25
= ||

[Red]0.
= -5.25
= |-5.|

[Red]0.0"
= -5.25
= |-5.3|

[Red]0.0"k
= -5.25
= |-5.3k|

[Red]0.0"kg";
= -5.25
= ||

[Red]0.0"kg";\
= -5.25
= ||

[Red]0.0"kg";\-
= -5.25
= |-|

[Red]0.0"kg";\-0_
= -5.25
= |-5 |

[Red]0.0"kg";\-0_)
= 5.25
= |5.3kg|

0.0E+
= 5.25
= |5.25|

0/
= 5.25
= |5/|

yyyy-
= 45292
= |2024-|

am/p
= 45292
= |a1/p|

[>10]0;[<0]0.0
= 5.25
= |5.25|

[>1E+999999]0;0.0
= 5.25
= |5.3|

m/d/yyyy h:mm
= 0.5
= |1/0/1900 12:00|

m/d/yyyy h:mm
= 60.5
= |2/29/1900 12:00|

m/d/yyyy h:mm
= 59.99999999
= |2/29/1900 0:00|

m/d/yyyy h:mm
= -0.000001
= |-0.000001|

m/d/yyyy h:mm
= -0.000000001
= |1/0/1900 0:00|

yyyy-mm-dd hh:mm:ss
= 2958465.99999999
= |2958466|

0.00
= 1E-400
= |0.00|

0.00
= -1E-400
= |-0.00|

0.00E+00
= 1E+400
= |1.00E+400|

0.00E+00
= 1E-400
= |1.00E-400|

# ????/????
= 12345678901.2345
= |12345678901  469/2000|

# ????/????
= 0.123456789012345
= |   10/81  |

# ????/????
= 0.99999
= |1          |
"#;

#[test]
fn odd_codes_show_the_value(rt: HostRuntime) -> Result<(), Fail> {
    let alloc = rt.alloc();
    for case in cases(ODD) {
        let (code, rest) = cut(case);
        let (value, wanted) = cut(rest);
        let value = value_of(alloc, value, false)?;
        assert_text(&shown(alloc, code, &value, false)?, wanted, case)?;
    }
    Ok(())
}

/// Texts one behind the other, each so many times.
fn text_of(alloc: Global, parts: &str) -> Result<String, Fail> {
    let mut out = String::new(alloc);
    for part in parts.split(' ') {
        let (text, count) = part.split_once('*').unwrap_or((part, "1"));
        push_times(&mut out, text, count.parse::<usize>().unwrap_or(0))?;
    }
    Ok(out)
}

/// A text so many times.
fn push_times(out: &mut String, text: &str, count: usize) -> Result<(), AllocError> {
    for _ in 0..count {
        out.push_str(text)?;
    }
    Ok(())
}

/// Long codes, each with a number and the text that is shown of it. `0*300` is `0` three hundred
/// times.
const LONG: &str = "
0*1024
= 5
= | 0*1023 5 |

0*1025
= 5
= | 5 |

0*300 . 0*300
= 1.5
= | 0*299 1.5 0*299 |

#*300 . #*300
= 1.5
= | 1.5 |

#*200
= 1234
= | 1234 |

#*200
= 0
= | |

0
= 1E+400
= | 1 0*400 |

0.0%
= 1E+399
= | 1 0*401 .0% |

0
= 1E+401
= | 1E+401 |
";

#[test]
fn long_codes_show_long_texts(rt: HostRuntime) -> Result<(), Fail> {
    let alloc = rt.alloc();
    for case in cases(LONG) {
        let (code, rest) = cut(case);
        let (value, wanted) = cut(rest);
        let value = value_of(alloc, value, false)?;
        let found = shown(alloc, &text_of(alloc, code)?, &value, false)?;
        assert_text(&found, &text_of(alloc, wanted)?, case)?;
    }
    Ok(())
}
