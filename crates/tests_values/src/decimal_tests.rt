//! Decimals: their texts and their form.

use decimals::Decimal;
use std::alloc::{AllocError, Global};
use std::test::Fail;
use test_tables::{assert_text, cases, cut};

/// The text of the number that a text writes, or that it writes none.
fn reprinted(alloc: Global, text: &str) -> Result<String, AllocError> {
    let mut out = String::new(alloc);
    match Decimal::parse(text) {
        Some(number) => number.push_to(&mut out)?,
        None => out.push_str("no number")?,
    }
    Ok(out)
}

/// Texts, and the numbers that they write.
const NUMBERS: &str = "
-0.50
= -0.5

1e3
= 1000

1E30
= 1E30

+.5
= 0.5

0E99999999999
= 0

-0
= 0

007.
= 7

7e20
= 700000000000000000000

7e21
= 7E21

12345e-2
= 123.45

-5e-20
= -0.00000000000000000005

5e-21
= 5E-21

1E-0000000000000000000000000000000000000000000000003
= 0.001

170141183460469231731687303715884105727
= 170141183460469231731687303715884105727

-1.70141183460469231731687303715884105728000000000000000000000000000
= -170141183460469231731687303715884105728E-38

17014118346046923173168730371588410572.6E1
= 170141183460469231731687303715884105726

10E2147483646
= 1E2147483647

0.1E-2147483647
= 1E-2147483648
";

#[test]
fn numbers_are_printed_in_one_form(rt: HostRuntime) -> Result<(), Fail> {
    let alloc = rt.alloc();
    for case in cases(NUMBERS) {
        let (text, wanted) = cut(case);
        let printed = reprinted(alloc, text)?;
        assert_text(&printed, wanted, text)?;
    }
    Ok(())
}

/// Texts that write no number.
const OTHERS: &str = "
170141183460469231731687303715884105728

10E2147483647

0.1E-2147483648

1E99999999999999999999999999999999999999999999999999

123456789012345678901234567890123456789012345678901234567890

.

1e



-

1.2.3

1e5.

1e+-5

 1

inf

nan

0x1
";

#[test]
fn other_texts_are_no_numbers(rt: HostRuntime) {
    for text in cases(OTHERS) {
        assert!(rt; Decimal::parse(text).is_none(), "at {text}");
    }
}

#[test]
fn a_number_is_a_whole_number_times_a_power(rt: HostRuntime) {
    if let Some(number) = Decimal::parse("-120.500e-3") {
        assert!(rt; number.mantissa() == -1205);
        assert!(rt; number.exponent() == -4);
        assert!(rt; Decimal::parse("-0.1205") == Some(number));
    } else {
        assert!(rt; false);
    }
}

#[test]
fn decimals_are_made_of_their_parts(rt: HostRuntime) -> Result<(), Fail> {
    let alloc = rt.alloc();
    let parts = [
        (0, i64::MAX, "0"),
        (1200, -1, "120"),
        (10, 2147483646, "1E2147483647"),
        (10, 2147483647, "none"),
        (10, -2147483649, "1E-2147483648"),
        (1, -2147483649, "none"),
        (100000000000000000000000000000000000000, i64::MAX, "none"),
        (i128::MIN, 0, "-170141183460469231731687303715884105728"),
    ];
    for (mantissa, exponent, wanted) in parts {
        let mut told = String::new(alloc);
        match Decimal::from_parts(mantissa, exponent) {
            Some(number) => number.push_to(&mut told)?,
            None => told.push_str("none")?,
        }
        assert_text(&told, wanted, wanted)?;
    }
    Ok(())
}

/// Numbers with how many digits they are rounded to, and what they are then.
const ROUNDED: &str = "
37.619999999999997
15
= 37.62

845.60000000000014
15
= 845.6

0.1
15
= 0.1

999999999999999.5
15
= 1000000000000000

0.0000001234567890123456
15
= 123456789012346E-21

-5E-324
15
= -5E-324

170141183460469231731687303715884105727
15
= 170141183460469E24

-170141183460469231731687303715884105728
38
= -170141183460469231731687303715884105730

1E2147483647
15
= 1E2147483647

95E2147483646
1
= no number

-2.5
1
= -3

12
0
= 0
";

/// The text of the number that a text writes, rounded to so many digits.
fn rounded(alloc: Global, text: &str, digits: &str) -> Result<String, AllocError> {
    let mut out = String::new(alloc);
    let number = Decimal::parse(text).zip(digits.parse().ok());
    match number.and_then(|(number, digits)| number.rounded(digits)) {
        Some(number) => number.push_to(&mut out)?,
        None => out.push_str("no number")?,
    }
    Ok(out)
}

#[test]
fn numbers_are_rounded_to_so_many_digits(rt: HostRuntime) -> Result<(), Fail> {
    let alloc = rt.alloc();
    for case in cases(ROUNDED) {
        let (asked, wanted) = cut(case);
        let (text, digits) = asked.split_once('\n').ok_or("no digits")?;
        assert_text(&rounded(alloc, text, digits)?, wanted, text)?;
    }
    Ok(())
}
