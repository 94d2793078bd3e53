use crate::order_tests::{links_of, told};
use calculation_order::{Cycles, Links};
use std::alloc::{AllocError, Global};
use std::test::Fail;
use test_tables::{assert_text, cases, cut};

/// How many formulas there are and what each vertex leads to, `-` where it is nothing; the cycles;
/// which formulas are on one, `+` for each that is.
const ON_CYCLES: &str = r#"
3: -; 0; 1
=
= ---

2: 0; -
= 0
= +-

4: 1; 0; 3; 2
= 0 1, 2 3
= ++++

3: 1; 2; 0
= 0 1 2
= +++

2: 2; -; 0 1
= 0
= +-

3: 3; 3; -; 0 1
= 0 1
= ++-

5: 2; 3; 0; 4; 1
= 0 2, 1 3 4
= +++++

4: 1; 2; 1 3; -
= 1 2
= -++-

4: 4; 5; -; -; 1 2; 0 3
= 0 1
= ++--

6: 6; 7; 8; 6; 10; 8; 3 9; 4; 5 9; 10; 1
= 1 4, 3, 5
= -+-+++

5: 1; 2; 3; 1 4; 0
= 0 1 2 3 4
= +++++

1: -
=
= -

0: -
=
=
"#;

fn lists_told(alloc: Global, lists: &[Vec<usize>]) -> Result<String, AllocError> {
    let mut out = String::new(alloc);
    for list in lists {
        if !out.is_empty() {
            out.push_str(", ")?;
        }
        out.push_str(told(alloc, list)?.as_str())?;
    }
    Ok(out)
}

fn marks_told(alloc: Global, cycles: &Cycles, count: usize) -> Result<String, AllocError> {
    let mut out = String::new(alloc);
    for formula in 0..count {
        out.push(if cycles.is_on_cycle(formula) {
            '+'
        } else {
            '-'
        })?;
    }
    Ok(out)
}

#[test]
fn formulas_have_their_cycles(rt: HostRuntime) -> Result<(), Fail> {
    let alloc = rt.alloc();
    for case in cases(ON_CYCLES) {
        let (vertices, rest) = cut(case);
        let (lists, marks) = cut(rest);
        let links = links_of(alloc, vertices)?;
        assert!(rt; links.is_grouped());
        let cycles = links.cycles(alloc)?;
        assert_text(&lists_told(alloc, &cycles.lists(alloc)?)?, lists, case)?;
        assert_text(&marks_told(alloc, &cycles, links.formulas())?, marks, case)?;
    }
    Ok(())
}

/// Each formula needs the next one, and the last the first: so many that to go round for each of
/// them takes too long.
#[test]
fn a_long_ring_is_one_cycle(rt: HostRuntime) -> Result<(), Fail> {
    let alloc = rt.alloc();
    let last = 99_999;
    let mut links = Links::new(alloc, last + 1);
    for formula in 0..last {
        links.push(formula + 1)?;
        links.close()?;
    }
    links.push(0)?;
    links.close()?;
    assert!(rt; links.is_grouped());
    assert!(rt; links.order(alloc)?.is_empty());
    let cycles = links.cycles(alloc)?;
    assert!(rt; cycles.is_on_cycle(last));
    let lists = cycles.lists(alloc)?;
    assert_eq!(rt; lists.len(), 1);
    let formulas: Option<usize> = lists.first().map(|list| list.len());
    assert_eq!(rt; formulas, Some(last + 1));
    Ok(())
}
