//! The areas that formulas name.

use crate::formula_sheets::{areas_in, told_areas};
use std::test::Fail;
use test_tables::{assert_text, cases, cut};
use xlsx_precedents::areas_of;

/// A formula, and the areas that it names.
const NAMED: &str = r#"
SUM(B1:C2)+$D$4+Other!E5
= B1:C2 D4

A:A
= A1:A1048576

Other!E5
=

'S'!A1
=

S!A1
=

#REF!A1
=

!A1
=

[1]Data!A1
=

'S'! A1
= A1

S!A1,B2
= B2

A1!B2
=

LOG10(A1)
= A1

"A1"
=

'A1'
=

T[A1]
=

B2:A1
= A1:B2

B1:A2
= A1:B2

$C$3:A1
= A1:C3

5:2
= A2:XFD5

C:A
= A1:C1048576

A1_+_A1+E+A1:B
=

A1+A1
= A1 A1

B2+"A1
= B2

B2+'A1
= B2

B2+[A1
= B2

1:1048576
= A1:XFD1048576

xfd1048576+XFE1+A1048577
= XFD1048576


=
"#;

#[test]
fn formulas_name_areas(rt: HostRuntime) -> Result<(), Fail> {
    let alloc = rt.alloc();
    for case in cases(NAMED) {
        let (formula, wanted) = cut(case);
        let named = areas_of(alloc, formula)?;
        let found = told_areas(alloc, &named)?;
        let wanted = told_areas(alloc, &areas_in(alloc, wanted)?)?;
        assert_text(&found, &wanted, formula)?;
    }
    Ok(())
}
