//! Areas by their rows: sorted by their first rows, as a tree by halving.
ghost use Rattle.std.specs.Prelude.{◌≡◌, ◌++◌, [], IfOk, IfNone, IfSome, OnOk};
ghost use Rattle.std.specs.List.Sorted.{IsNonDecreasingBy, IsPermutation};
ghost use Rattle.cell_refs.specs.Words.{is_in_area};
ghost use Rattle.xlsx_precedents.specs.Numbers.{numbers_where};
ghost use Rattle.xlsx_precedents.specs.Spans.{AreSearched, AreSearchedHalves, AreSpans, IsHalves};
ghost use Rattle.xlsx_precedents.specs.Spans.{KeepsSpans, greatest_from, SearchesIn, first_row};
ghost use Rattle.xlsx_precedents.specs.Spans.{numbered_from, numbers_having, spans_told};

use cell_refs::Dimensions;
use counted_steps::Steps;
use std::alloc::{AllocError, Global};
use std::sync::ledger::Ledger;

/// An area of an index with its number. What stands in the middle of a stretch of areas keeps the
/// greatest last row of the stretch, and so it is in what stands before it and behind it.
#[derive(Clone, Copy, Debug)]
pub(crate) struct Span {
    area: Dimensions,
    number: usize,
    greatest: u32,
}

/// Areas by the one in their middle, what stands before it, and what stands behind it.
#[derive(Clone, Copy, Debug)]
struct Halves<'a> {
    left: &'a [Span],
    middle: Span,
    right: &'a [Span],
}

/// Areas by their middle, if there are any.
fn split_middle(spans: &[Span]) -> Option<Halves<'_>>
    ensures none { IfNone result (spans.now ≡ []) }
    ensures halves { IfSome result (IsHalves spans.now) }
    ensures searched { AreSearched spans.now → IfSome result (AreSearchedHalves spans.now) }
{
    let (left, rest) = spans.split_at(spans.len() / 2);
    let (middle, right) = rest.split_first()?;
    Some(Halves {
        left,
        middle: *middle,
        right,
    })
}

/// Areas with their numbers, in order.
fn numbered(alloc: Global, areas: &[Dimensions]) -> Result<Vec<Span>, AllocError>
    ensures { IfOk result (λ spans. spans_told spans.items ≡ numbered_from 0 areas.now) }
{
    let mut spans = Vec::with_capacity(alloc, areas.len())?;
    for (number, area) in areas.iter().enumerate() {
        spans.push(Span {
            area: *area,
            number,
            greatest: area.end.0,
        })?;
    }
    Ok(spans)
}

/// Areas by their first rows.
fn by_first_row(spans: Vec<Span>) -> Vec<Span>
    ensures same { IsPermutation spans.items result.items }
    ensures rising { IsNonDecreasingBy first_row (spans_told result.items) }
{
    let mut spans = spans;
    spans.sort_unstable_by_key(|span| span.area.start.0);
    spans
}

/// The greatest last row of areas, and 0 where there are none.
fn greatest_row(spans: &[Span]) -> u32
    ensures { result ≡ greatest_from 0 (spans_told spans.now) }
{
    let mut greatest = 0;
    for span in spans {
        greatest = greatest.max(span.area.end.0);
    }
    greatest
}

/// Appends areas, halved.
fn push_halved(out: &mut Vec<Span>, sorted: &[Span]) -> Result<(), AllocError>
    ensures { OnOk result (KeepsSpans out.old.items out.new.items sorted.now) }
{
    let Some(own) = split_middle(sorted) else {
        return Ok(());
    };
    push_halved(out, own.left)?;
    out.push(Span {
        greatest: greatest_row(sorted),
        ..own.middle
    })?;
    push_halved(out, own.right)
}

/// The areas as they are searched.
pub(crate) fn spans_of(alloc: Global, areas: &[Dimensions]) -> Result<Vec<Span>, AllocError>
    ensures { IfOk result (λ spans. AreSpans areas.now spans.items) }
{
    let sorted = by_first_row(numbered(alloc, areas)?);
    let mut spans = Vec::with_capacity(alloc, sorted.len())?;
    push_halved(&mut spans, &sorted)?;
    Ok(spans)
}

/// Whether an area has a position.
fn is_in_area(area: Dimensions, pos: (u32, u32)) -> bool
    ensures { result ≡ is_in_area area pos }
{
    (area.start.0 <= pos.0 && pos.0 <= area.end.0) && (area.start.1 <= pos.1 && pos.1 <= area.end.1)
}

/// Appends the numbers of the areas that have a position. A step is a look at an area. It goes into
/// a stretch only where an area ends at the row or below it, and to the right only where the middle
/// begins at the row or above it.
fn push_having<L: Ledger>(
    spans: &[Span],
    pos: (u32, u32),
    numbers: &mut Vec<usize>,
    steps: &mut Steps<L>,
) -> Result<(), AllocError>
    requires { AreSearched spans.now }
    ensures having { OnOk result (numbers.new.items
        ≡ numbers.old.items ++ numbers_having pos (spans_told spans.now)) }
    ensures steps { SearchesIn pos.0 (spans_told spans.now) steps.old steps.new }
{
    let Some(own) = split_middle(spans) else {
        return Ok(());
    };
    steps.tick();
    if own.middle.greatest < pos.0 {
        return Ok(());
    }
    push_having(own.left, pos, numbers, steps)?;
    if pos.0 < own.middle.area.start.0 {
        return Ok(());
    }
    if is_in_area(own.middle.area, pos) {
        numbers.push(own.middle.number)?;
    }
    push_having(own.right, pos, numbers, steps)
}

/// The numbers of the areas that have a position, in order.
pub(crate) fn numbers_at<L: Ledger>(
    alloc: Global,
    areas: &[Dimensions],
    spans: &[Span],
    pos: (u32, u32),
    steps: &mut Steps<L>,
) -> Result<Vec<usize>, AllocError>
    requires { AreSpans areas.now spans.now }
    ensures having { IfOk result (λ numbers. numbers.items
        ≡ numbers_where (λ area. is_in_area area pos) 0 areas.now) }
    ensures steps { SearchesIn pos.0 (spans_told spans.now) steps.old steps.new }
{
    let mut numbers = Vec::new(alloc);
    push_having(spans, pos, &mut numbers, steps)?;
    numbers.sort_unstable();
    Ok(numbers)
}
