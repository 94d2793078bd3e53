//! Formulas that are checked.
ghost use Rattle.std.specs.Prelude.{◌<◌, IfOk};

use cell_data::{Cell, CellErrorType, Data, Decimal, ExcelDateTime, ExcelDateTimeType, Range};
use std::alloc::{AllocError, Global};
use std::test::Fail;
use test_tables::{assert_text, cases, cut};
use xlsx_check::{Computed, Outcome, Verdict, compute, verdict};

/// Cells, each by its row and its column, counted from 0, the kind of its value, and the value.
const CELLS: &str = "
0 1 n
= -1

0 2 t
= x

0 3 n
= 170141183460469231731687303715884105727

0 4 n
= -170141183460469231731687303715884105728

0 5 n
= 2

1 1 n
= 170141183460469231731687303715884105727

1 2 b
= true

1 3 n
= 170141183460469231731687303715884105727

1 4 n
= 170141183460469231731687303715884105727

1 5 t
= 7

2 1 n
= -170141183460469231731687303715884105728

2 2 e
= x

2 3 n
= -170141183460469231731687303715884105728

2 4 n
= 170141183460469231731687303715884105727

2 5 n
= 3

3 1 n
= 1E2147483647

3 2 d
= 45000.5

3 5 e
= x

4 1 n
= 5E2147483647

4 2 i
= 2023-03-15

5 1 n
= 85070591730234615865843651857942052864

5 2 w
= 10

6 1 n
= 5E-2147483648

6 2 b
= false

7 1 n
= 9E38

8 1 n
= 100000000000000000000000000000000000001

9 1 n
= -9E38

10 1 n
= 1E-2147483648
";

fn number(text: &str) -> Result<Decimal, Fail> {
    match Decimal::parse(text) {
        Some(number) => Ok(number),
        None => Err(Fail::new(format_args!("{text} is no number"))),
    }
}

/// The value of a kind, by its text.
fn value(alloc: Global, kind: &str, text: &str) -> Result<Data, Fail> {
    Ok(match kind {
        "n" => Data::Decimal(number(text)?),
        "w" => Data::Int(10),
        "t" => Data::String(String::from_str(alloc, text)?),
        "b" => Data::Bool(text == "true"),
        "d" => Data::DateTime(ExcelDateTime {
            value: number(text)?,
            kind: ExcelDateTimeType::DateTime,
            is_1904: false,
        }),
        "i" => Data::DateTimeIso(String::from_str(alloc, text)?),
        "e" => Data::Error(CellErrorType::NA),
        _ => Data::Empty,
    })
}

/// A row, a column and a word, with blanks between them.
fn placed(text: &str) -> Result<((u32, u32), &str), Fail>
    ensures { IfOk result (λ placed. (placed.0.0 < 65536) × (placed.0.1 < 256)) }
{
    if let Some((row, rest)) = text.split_once(' ') {
        if let Some((column, word)) = rest.split_once(' ') {
            if let (Ok(row), Ok(column)) = (row.parse::<u16>(), column.parse::<u8>()) {
                return Ok(((u32::from(row), u32::from(column)), word));
            }
        }
    }
    Err(Fail::new(format_args!("{text} has no position")))
}

/// A sheet of the cells of a table.
fn sheet(alloc: Global, table: &str) -> Result<Range<Data>, Fail> {
    let mut cells = Vec::new(alloc);
    for case in cases(table) {
        let (place, text) = cut(case);
        let (position, kind) = placed(place)?;
        cells.push(Cell::new(position, value(alloc, kind, text)?))?;
    }
    Ok(Range::from_sparse(alloc, cells, Data::Empty)?)
}

fn push_computed(out: &mut String, computed: Computed) -> Result<(), AllocError> {
    match computed {
        Computed::Number(number) => number.push_to(out),
        Computed::Truth(truth) => out.push_str(if truth { "true" } else { "false" }),
    }
}

/// What a formula comes to.
fn computed(alloc: Global, values: &Range<Data>, formula: &str) -> Result<String, AllocError> {
    let mut out = String::new(alloc);
    match compute(values, formula) {
        Outcome::Value(computed) => push_computed(&mut out, computed)?,
        Outcome::Unsupported => out.push_str("unsupported")?,
        Outcome::Overflow => out.push_str("overflow")?,
    }
    Ok(out)
}

/// What is said of a formula beside the value of its cell.
fn judged(
    alloc: Global,
    values: &Range<Data>,
    formula: &str,
    position: (u32, u32),
) -> Result<String, AllocError> {
    let mut out = String::new(alloc);
    match verdict(values, formula, position) {
        Verdict::Agrees => out.push_str("agrees")?,
        Verdict::Differs(computed) => {
            out.push_str("differs ")?;
            push_computed(&mut out, computed)?;
        }
        Verdict::NoValue => out.push_str("no value")?,
        Verdict::Unsupported => out.push_str("unsupported")?,
        Verdict::Overflow => out.push_str("overflow")?,
    }
    Ok(out)
}

/// Formulas, and what they come to.
const FORMULAS: &str = "
1-2-3
= -4

-2*3
= -6

2*-3
= -6

1+2*3-4
= 3

(1+2)*3
= 9

1--1
= 2

--1
= 1

1<-2
= false

1-2-3=-4
= true

2>=2
= true

2<>2
= false

1<=0
= false

+1
= unsupported

1+
= unsupported

=1
= unsupported

1<2<3
= unsupported

(1<2)<3
= unsupported

1< =2
= unsupported

1=<2
= unsupported

1 2
= unsupported

(1)(2)
= unsupported

()
= unsupported

A1:B2
= unsupported

1(
= unsupported

1)+(2
= unsupported

1/2
= unsupported

SUM(A1)-1
= -1

SUM(F1,F1:F3)
= 7

SUM(F3:F1)
= 5

sum( F1 , F3 )
= 5

SUM (F1)
= unsupported

SUM(1)
= unsupported

SUM()
= unsupported

SUM(F1,)
= unsupported

SUM((F1))
= unsupported

SUM(F1
= unsupported

007
= 7

.5
= 0.5

5.
= 5

.
= unsupported

1.2.3
= unsupported

1E5
= unsupported

1 + 1
= unsupported

\"1\"
= unsupported

S!B1
= unsupported

B1-B3
= 170141183460469231731687303715884105727

-B3
= overflow

0-B3
= overflow

B3-0
= -170141183460469231731687303715884105728

B4+0
= 1E2147483647

B4+1
= overflow

B4-B4
= 0

B5+B5
= overflow

B6*5
= overflow

2*B7
= 1E-2147483647

0*B4
= 0

SUM(D1:D3)
= overflow

SUM(E1:E3)
= 170141183460469231731687303715884105726

SUM(F1:F4)
= unsupported

SUM(E:E)
= 170141183460469231731687303715884105726

SUM($E$3:E1)
= 170141183460469231731687303715884105726

SUM(1:1)
= 0

SUM(F:F)
= unsupported

SUM(C1:C2)
= 0

C1
= unsupported

C2
= unsupported

C3
= unsupported

C4
= 45000.5

C5
= unsupported

C6+1
= 11

G9
= 0

B8>B9
= true

B10<B9
= true

B4>B11
= true

B4=B4
= true

B2+B2
= overflow

B2+B2=1
= overflow

B2+B2+LOG10(1)
= unsupported

B2+B2)
= unsupported

(B2+B2=1)+1
= unsupported

SUM(D1:D3)+C3
= unsupported
";

#[test]
fn formulas_are_computed_exactly_or_not_at_all(rt: HostRuntime) -> Result<(), Fail> {
    let alloc = rt.alloc();
    let values = sheet(alloc, CELLS)?;
    for case in cases(FORMULAS) {
        let (formula, wanted) = cut(case);
        let told = computed(alloc, &values, formula)?;
        assert_text(&told, wanted, formula)?;
    }
    Ok(())
}

/// Positions, formulas, and what is said of them.
const VERDICTS: &str = "
3 2 45000.5
= agrees

5 2 9+1
= agrees

0 1 0-1
= agrees

0 1 B1
= agrees

0 5 1=1
= differs true

0 2 1
= differs 1

2 2 1
= differs 1

4 2 1
= differs 1

1 2 1=1
= agrees

6 2 1=1
= differs true

1 2 1
= differs 1

8 6 1
= no value

8 6 LOG10(1)
= unsupported

8 6 B2+B2
= overflow

0 1 B2+B2=1
= overflow
";

#[test]
fn formulas_stand_beside_the_values_of_their_cells(rt: HostRuntime) -> Result<(), Fail> {
    let alloc = rt.alloc();
    let values = sheet(alloc, CELLS)?;
    for case in cases(VERDICTS) {
        let (place, wanted) = cut(case);
        let (position, formula) = placed(place)?;
        let told = judged(alloc, &values, formula, position)?;
        assert_text(&told, wanted, place)?;
    }
    Ok(())
}

/// Five cells, of which one has no value, and two that they name.
const COLUMN: &str = "
0 0 n
= 7

0 1 n
= 3

1 0 n
= 0

1 1 n
= 170141183460469231731687303715884105727

2 0 n
= 1

3 0 b
= true
";

/// Their formulas, and what is said of them.
const COLUMN_VERDICTS: &str = "
0 0 B1*2
= differs 6

1 0 B2+B2
= overflow

2 0 LOG10(B1)
= unsupported

3 0 1-2-3=-4
= agrees

4 0 B1
= no value
";

#[test]
fn each_formula_of_a_column_has_its_verdict(rt: HostRuntime) -> Result<(), Fail> {
    let alloc = rt.alloc();
    let values = sheet(alloc, COLUMN)?;
    for case in cases(COLUMN_VERDICTS) {
        let (place, wanted) = cut(case);
        let (position, formula) = placed(place)?;
        let told = judged(alloc, &values, formula, position)?;
        assert_text(&told, wanted, place)?;
    }
    Ok(())
}

/// A text, so many times.
fn push_times(out: &mut String, text: &str, count: usize) -> Result<(), AllocError> {
    for _ in 0..count {
        out.push_str(text)?;
    }
    Ok(())
}

/// One inside so many parentheses behind so many signs.
fn enclosed(alloc: Global, signs: usize, parentheses: usize) -> Result<String, AllocError> {
    let mut out = String::new(alloc);
    push_times(&mut out, "-", signs)?;
    push_times(&mut out, "(", parentheses)?;
    out.push_str("1")?;
    push_times(&mut out, ")", parentheses)?;
    Ok(out)
}

#[test]
fn sixty_four_parentheses_and_signs_are_read(rt: HostRuntime) -> Result<(), Fail> {
    let alloc = rt.alloc();
    let values = sheet(alloc, CELLS)?;
    let kinds = [
        (0, 64, "1"),
        (0, 65, "unsupported"),
        (64, 0, "1"),
        (65, 0, "unsupported"),
        (31, 33, "-1"),
        (32, 33, "unsupported"),
        (0, 1000000, "unsupported"),
    ];
    for (signs, parentheses, wanted) in kinds {
        let told = computed(alloc, &values, &enclosed(alloc, signs, parentheses)?)?;
        assert_text(&told, wanted, "parentheses and signs")?;
    }
    Ok(())
}

#[test]
fn long_chains_take_no_depth(rt: HostRuntime) -> Result<(), Fail> {
    let alloc = rt.alloc();
    let values = sheet(alloc, CELLS)?;
    let mut formula = String::from_str(alloc, "0")?;
    push_times(&mut formula, "+1", 100000)?;
    let told = computed(alloc, &values, &formula)?;
    assert_text(&told, "100000", "a long chain")
}
