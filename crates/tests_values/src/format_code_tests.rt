use decimals::Decimal;
use format_codes::{
    ChosenSection, CodePiece, Comparison, Filler, HalfDay, SectionKind, ShownFormat, TimeUnit,
};
use std::alloc::{AllocError, Global};
use std::test::Fail;
use test_tables::{assert_text, cases, cut};

/// The letter of a unit. Minutes are `n`.
fn letter_of(unit: TimeUnit) -> char {
    match unit {
        TimeUnit::Year => 'y',
        TimeUnit::Month => 'm',
        TimeUnit::Day => 'd',
        TimeUnit::Hour => 'h',
        TimeUnit::Minute => 'n',
        TimeUnit::Second => 's',
    }
}

/// How a condition compares.
fn sign_of(comparison: Comparison) -> &'static str {
    match comparison {
        Comparison::Below => "<",
        Comparison::UpTo => "<=",
        Comparison::Above => ">",
        Comparison::From => ">=",
        Comparison::Equal => "=",
        Comparison::Unequal => "<>",
    }
}

/// A text so many times.
fn repeated(alloc: Global, sign: char, count: usize) -> Result<String, AllocError> {
    let mut out = String::new(alloc);
    for _ in 0..count {
        out.push(sign)?;
    }
    Ok(out)
}

/// A piece as one word.
fn word_of(alloc: Global, piece: CodePiece) -> Result<String, AllocError> {
    match piece {
        CodePiece::Literal(' ') => String::from_str(alloc, "space"),
        CodePiece::Literal(character) => format!(in alloc; "'{character}"),
        CodePiece::EmptyLiteral => String::from_str(alloc, "empty"),
        CodePiece::Figure(character) => format!(in alloc; "{character}"),
        CodePiece::Digit(Filler::Zero) => String::from_str(alloc, "0"),
        CodePiece::Digit(Filler::Nothing) => String::from_str(alloc, "#"),
        CodePiece::Digit(Filler::Space) => String::from_str(alloc, "?"),
        CodePiece::Exponent(letter, true) => format!(in alloc; "{letter}+"),
        CodePiece::Exponent(letter, false) => format!(in alloc; "{letter}-"),
        CodePiece::TimePart(unit, count) => repeated(alloc, letter_of(unit), count),
        CodePiece::Passed(unit, count) => {
            let letters = repeated(alloc, letter_of(unit), count)?;
            format!(in alloc; "[{letters}]")
        }
        CodePiece::SecondDigits(count) => {
            let zeros = repeated(alloc, '0', count)?;
            format!(in alloc; "({zeros})")
        }
        CodePiece::HalfDay(HalfDay::Letters(morning, evening)) => {
            format!(in alloc; "{morning}/{evening}")
        }
        CodePiece::Condition(condition) => {
            let (number, power) = condition.number;
            let sign = sign_of(condition.comparison);
            format!(in alloc; "[{sign}{number}E{power}]")
        }
        _ => String::from_str(alloc, sign_alone(piece)),
    }
}

/// The word of a piece that has no parts.
fn sign_alone(piece: CodePiece) -> &'static str {
    match piece {
        CodePiece::Point => ".",
        CodePiece::Comma => ",",
        CodePiece::Percent => "%",
        CodePiece::Slash => "/",
        CodePiece::TextPlace => "@",
        CodePiece::General => "General",
        CodePiece::HalfDay(_) => "AM/PM",
        CodePiece::Foreign => "foreign",
        CodePiece::Divider => ";",
        _ => "unknown",
    }
}

/// A word, and pieces behind it.
fn with_pieces(alloc: Global, word: &str, pieces: &[CodePiece]) -> Result<String, AllocError> {
    let mut out = String::from_str(alloc, word)?;
    for piece in pieces {
        out.push(' ')?;
        out.push_str(&word_of(alloc, *piece)?)?;
    }
    Ok(out)
}

/// A section that shows a number: what it is, whether it leaves the sign out, and its pieces.
fn told_of_number(alloc: Global, chosen: ChosenSection<'_>) -> Result<String, AllocError> {
    let kind = match chosen.kind {
        SectionKind::General => "General",
        SectionKind::Date => "Date",
        SectionKind::Number => "Number",
        SectionKind::Power => "Power",
        SectionKind::Fraction => "Fraction",
    };
    let sign = if chosen.is_unsigned { " unsigned" } else { "" };
    let word = format!(in alloc; "{kind}{sign}")?;
    with_pieces(alloc, &word, chosen.pieces)
}

/// The section of a code that shows a value, which is the word text or a number.
fn told(alloc: Global, code: &str, value: &str) -> Result<String, AllocError> {
    let format = ShownFormat::parse(alloc, code)?;
    if !format.is_supported() {
        return String::from_str(alloc, "not supported");
    }
    let told = match Decimal::parse(value) {
        Some(number) => match format.section_for(number) {
            Some(chosen) => told_of_number(alloc, chosen)?,
            None => String::from_str(alloc, "none")?,
        },
        None => match format.text_section() {
            Some(pieces) => with_pieces(alloc, "Texts", pieces)?,
            None => String::from_str(alloc, "none")?,
        },
    };
    Ok(told)
}

/// A code, a number or the word text, and the section that shows it: what it is, and its pieces,
/// each a word. A minute is an `n`, digits of a second stand in parentheses, and a character that
/// stands for itself has an apostrophe before it.
const SECTIONS: &str = r#"
General
= 5
= General General


= -5
= General General


= text
= none

#,##0.00
= 1
= Number # , # # 0 . 0 0

0.00
= text
= none

0.00;(0.00)
= 0
= Number 0 . 0 0

0.00;(0.00)
= -0.001
= Number unsigned '( 0 . 0 0 ')

0.00;(0.00);"-"
= 0.001
= Number 0 . 0 0

0.00;(0.00);"-"
= 0
= Number '-

0;;
= -5
= Number unsigned

0;;
= 0
= Number

;;;
= text
= Texts

_(* #,##0.00_);_(* \(#,##0.00\);_(* "-"??_);_(@_)
= 1234.5
= Number space # , # # 0 . 0 0 space

_(* #,##0.00_);_(* \(#,##0.00\);_(* "-"??_);_(@_)
= -1234.5
= Number unsigned space '( # , # # 0 . 0 0 ')

_(* #,##0.00_);_(* \(#,##0.00\);_(* "-"??_);_(@_)
= 0
= Number space '- ? ? space

_(* #,##0.00_);_(* \(#,##0.00\);_(* "-"??_);_(@_)
= text
= Texts space @ space

[Red]0;[Blue]-0
= -5
= Number unsigned '- 0

[Color 12]0
= 5
= Number 0

[Color]0
= 5
= not supported

[>100]0.0;0.00
= 100
= Number 0 . 0 0

[>100]0.0;0.00
= 100.5
= Number [>1E2] 0 . 0

[>=1000]0.0,"K";0
= 1500
= Number [>=1E3] 0 . 0 , 'K

[<10]0" few"
= 11
= none

[<10]0" few"
= 9.99
= Number [<1E1] 0 space 'f 'e 'w

[<0]"";0%
= -0.5
= Number unsigned [<0E0] empty

[<0]0.0;0
= -5
= Number unsigned [<0E0] 0 . 0

[<=0]0;[Red]0
= -5
= Number [<=0E0] 0

[=0]?;0%
= 0
= Number [=0E0] ?

[<>0.50]0
= 0.5
= none

[<>0.50]0
= 0.6
= Number [<>5E-1] 0

[>1E+999999]0;0.0
= 5
= Number 0 . 0

[<-1E+999999]0;0.0
= -5
= Number 0 . 0

[>1E-999999]0;0.0
= 5
= Number [>1E-999999] 0

[<0]0;[>0]0.0
= 0
= none

[>5]0;[<10]0.0;0.00
= 7
= Number [>5E0] 0

[>5]0;[<10]0.0;0.00
= 5
= Number [<1E1] 0 . 0

[>=x]0
= 5
= not supported

@
= text
= Texts @

@
= 5
= none

@@@@
= text
= Texts @ @ @ @

@@@@@
= text
= not supported

hh:mm;@
= text
= Texts @

hh:mm;@
= -5
= Date hh ': nn

h:mm AM/PM
= 1
= Date h ': nn space AM/PM

hh:mm:ss a/p
= 1
= Date hh ': nn ': ss space a/p

h "h" m "m"
= 1
= Date h space 'h space n space 'm

d-mmm-yy
= 1
= Date d '- mmm '- yy

m/d/yy h:mm
= 1
= Date m / d / yy space h ': nn

[h]:mm:ss
= 1
= Date [h] ': nn ': ss

[mm]:ss
= 1
= Date [nn] ': ss

mm:ss.0
= 1
= Date nn ': ss (0)

hh:mm:ss.000
= 1
= Date hh ': nn ': ss (000)

hh:mm:ss.0000
= 1
= not supported

[hh:mm]
= 1
= not supported

0.00E+00
= 1
= Power 0 . 0 0 E+ 0 0

0.0E-0
= 1
= Power 0 . 0 E- 0

E+0
= 1
= not supported

# ?/?
= 1
= Fraction # space ? / ?

# ??/16
= 1
= Fraction # space ? ? / 1 6

# ?/12345
= 1
= not supported

0.0/1
= 1
= not supported

[$€-407]\ 0.00
= 3
= Number '€ foreign space 0 . 0 0

[$-407]dd.mm.yyyy
= 1
= Date empty foreign dd . mm . yyyy

[$-407]d. mmmm yyyy
= 1
= not supported

[$-409]mmmm\ d
= 1
= Date empty mmmm space d

[$-F800]dddd
= 1
= Date empty dddd

[DBNum1][$-804]General
= 5
= not supported

[$-D07041E]0
= 5
= not supported

General" x"0
= 5
= not supported

0;0;0;@;0
= 5
= not supported

0;0;0;0
= text
= not supported

**\ #,###,#00,000.00,**
= 12345
= Number space # , # # # , # 0 0 , 0 0 0 . 0 0 ,

\
= 5
= Number empty

0\
= 5
= Number 0 empty

"abc
= 5
= Number 'a 'b 'c

0"
= 5
= Number 0 empty

0;"
= text
= none

0;"a;b"
= -5
= Number unsigned 'a '; 'b

[
= 5
= not supported

0[Red
= 5
= not supported

[]
= 5
= not supported

_
= 5
= Number space

0*
= 5
= Number 0

\€0
= 5
= Number '€ 0

_€0
= 5
= Number space 0

*€0
= 5
= Number 0

"€é"0
= 5
= Number '€ 'é 0

é0
= 5
= Number 'é 0

[$€
= 5
= not supported
"#;

#[test]
fn sections_show_values_by_their_pieces(rt: HostRuntime) -> Result<(), Fail> {
    for case in cases(SECTIONS) {
        let (code, rest) = cut(case);
        let (value, wanted) = cut(rest);
        assert_text(&told(rt.alloc(), code, value)?, wanted, case)?;
    }
    Ok(())
}

/// A code of so many zeros.
fn zeros(alloc: Global, count: usize) -> Result<String, AllocError> {
    repeated(alloc, '0', count)
}

#[test]
fn a_code_has_1024_bytes_at_most(rt: HostRuntime) -> Result<(), Fail> {
    for (bytes, is_supported) in [(1024, true), (1025, false)] {
        let format = ShownFormat::parse(rt.alloc(), &zeros(rt.alloc(), bytes)?)?;
        assert!(rt; format.is_supported() == is_supported);
    }
    Ok(())
}

/// Each place where a code is cut off gives a code that is cut, too.
#[test]
fn codes_are_cut_off_anywhere(rt: HostRuntime) -> Result<(), Fail> {
    let code = r#"[Red]_(* #,##0.00E+0_);[>=5][$€-409]\("é"0 ?/16);h:mm.0 a/p;@"#;
    for place in 0..code.len() {
        if code.is_char_boundary(place) {
            let (front, _) = code.split_at(place);
            ShownFormat::parse(rt.alloc(), front)?;
        }
    }
    Ok(())
}
