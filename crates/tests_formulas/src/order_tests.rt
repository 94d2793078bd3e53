use calculation_order::Links;
use std::alloc::{AllocError, Global};
use std::test::Fail;
use test_tables::{assert_text, cases, cut};

/// How many formulas there are and what each vertex leads to, `-` where it is nothing; the order of
/// the formulas; which of them ask, `+` for one that does; the formulas that depend on these.
const ORDERED: &str = r#"
3: -; 0; 1
= 0 1 2
= +--
= 0 1 2

3: 1; 2; -
= 2 1 0
= -+-
= 0 1

4: 1 2; 3; 3; -
= 3 1 2 0
= -+--
= 0 1

4: 3; -; 3; -
= 1 3 0 2
= ---+
= 0 2 3

2: 1 1; -
= 1 0
= -+
= 0 1

2: 0; -
= 1
= +-
= 0

6: 1; 0; 3; 2; 0 2; -
= 5
= +-----
= 0 1 4

6: 1; 0; 3; 2; 0 2; -
= 5
= -----+
= 5

4: 4; -; -; 5; 5 6; 1 2; 3
= 1 2 3 0
= -+--
= 0 1 3

4: 4; -; -; 5; 5 6; 1 2; 3
= 1 2 3 0
= ---+
= 0 3

2: 2; -; 0 1
= 1
= -+
= 0 1

2: 2; 0; -
= 0 1
= +-
= 0 1

1: -
= 0
= -+
=

0: -
=
=
=

0:
=
= +
=
"#;

/// The number that a text is, or 0.
fn number(text: &str) -> usize {
    text.parse::<usize>().unwrap_or(0)
}

fn push_vertex(links: &mut Links, targets: &str) -> Result<(), AllocError> {
    for target in targets.split(' ') {
        if target != "-" {
            links.push(number(target))?;
        }
    }
    links.close()
}

pub(crate) fn links_of(alloc: Global, case: &str) -> Result<Links, AllocError> {
    let (formulas, vertices) = case.split_once(": ").unwrap_or((case, ""));
    let mut links = Links::new(alloc, number(formulas));
    if !vertices.is_empty() {
        for targets in vertices.split("; ") {
            push_vertex(&mut links, targets)?;
        }
    }
    Ok(links)
}

fn asks_of(alloc: Global, text: &str) -> Result<Vec<bool>, AllocError> {
    let mut asks = Vec::new(alloc);
    for letter in text.chars() {
        asks.push(letter == '+')?;
    }
    Ok(asks)
}

pub(crate) fn told(alloc: Global, numbers: &[usize]) -> Result<String, AllocError> {
    let mut out = String::new(alloc);
    for number in numbers {
        if !out.is_empty() {
            out.push(' ')?;
        }
        write!(out, "{number}")?;
    }
    Ok(out)
}

#[test]
fn formulas_have_their_order_and_dependents(rt: HostRuntime) -> Result<(), Fail> {
    let alloc = rt.alloc();
    for case in cases(ORDERED) {
        let (vertices, rest) = cut(case);
        let (order, rest) = cut(rest);
        let (asks, dependents) = cut(rest);
        let links = links_of(alloc, vertices)?;
        assert!(rt; links.is_grouped());
        assert_text(&told(alloc, &links.order(alloc)?)?, order, case)?;
        let found = links.dependents(alloc, &asks_of(alloc, asks)?)?;
        assert_text(&told(alloc, &found)?, dependents, case)?;
    }
    Ok(())
}

/// Each formula needs the next one: so many that to go over all of them for each takes too long.
#[test]
fn a_long_chain_has_its_order(rt: HostRuntime) -> Result<(), Fail> {
    let alloc = rt.alloc();
    let last = 100_000;
    let mut links = Links::new(alloc, last + 1);
    for formula in 0..last {
        links.push(formula + 1)?;
        links.close()?;
    }
    links.close()?;
    assert!(rt; links.is_grouped());
    let order = links.order(alloc)?;
    assert_eq!(rt; order.len(), last + 1);
    assert_eq!(rt; order.first(), Some(&last));
    assert_eq!(rt; order.last(), Some(&0));
    Ok(())
}

#[test]
fn links_that_lead_nowhere_or_back_are_not_grouped(rt: HostRuntime) -> Result<(), Fail> {
    let alloc = rt.alloc();
    for case in ["1: 1", "2: -", "0: 0", "1: -; 2; 1", "0: 1; 0"] {
        assert!(rt; !links_of(alloc, case)?.is_grouped());
    }
    Ok(())
}
