//! What the formulas under a fork cover, told by two areas.
ghost use Rattle.std.specs.Prelude.{◌≡◌, ◌≤◌, true, length, IfOk};
ghost use Rattle.std.specs.List.{slice_get};
ghost use Rattle.xlsx_graph.specs.Graph.{do_meet};
ghost use Rattle.xlsx_graph.specs.Hulls.{corners_of, joined_hull, may_meet, meets_all, shared};
ghost use Rattle.xlsx_graph.specs.Naming.{hull};
ghost use Rattle.xlsx_graph.specs.Tree.{AreHullsFrom, AreNumbers, IsHullOf, fork_count, is_hull};
ghost use Rattle.xlsx_graph.specs.Tree.{meets, under};

use crate::leaves::{number_at, placed_at};
use crate::named::BookArea;
use crate::range::hull;
use crate::workbook_graph::Placed;
use cell_refs::Dimensions;
use std::alloc::{AllocError, Global};

/// Whether two areas have a cell in common.
fn do_meet(a: Dimensions, b: Dimensions) -> bool
    ensures { result ≡ do_meet a b }
{
    (a.start.0 <= b.end.0 && b.start.0 <= a.end.0) && (a.start.1 <= b.end.1 && b.start.1 <= a.end.1)
}

/// Whether an area has a cell of those that a formula covers.
pub(crate) fn meets(area: BookArea, placed: Placed) -> bool
    ensures { result ≡ meets area placed }
{
    let sheet = placed.cell.sheet;
    (area.first <= sheet && sheet <= area.last) && do_meet(area.area, placed.covers)
}

/// What formulas cover. Sheets are counted from 0.
#[derive(Clone, Copy, Debug)]
pub(crate) struct Hull {
    /// The first and the last of their sheets.
    first: usize,
    last: usize,
    /// The least area that has all that they cover.
    all: Dimensions,
    /// From the last row and column in which one of them begins up to the first in which one ends:
    /// what meets it meets each, also where it is an area from its end to its start.
    each: Dimensions,
}

/// Whether an area may have a cell of what these formulas cover.
pub(crate) fn may_meet(area: BookArea, hull: Hull) -> bool
    ensures { result ≡ may_meet area hull }
{
    (area.first <= hull.last && hull.first <= area.last) && do_meet(area.area, hull.all)
}

/// Whether an area has cells of what each of them covers.
pub(crate) fn meets_all(area: BookArea, hull: Hull) -> bool
    ensures { result ≡ meets_all area hull }
{
    (area.first <= hull.first && hull.last <= area.last) && do_meet(area.area, hull.each)
}

/// The hull of what a formula covers.
fn corners_of(placed: Placed) -> Hull
    ensures { result ≡ corners_of placed }
{
    let Dimensions { start, end } = placed.covers;
    Hull {
        first: placed.cell.sheet,
        last: placed.cell.sheet,
        all: Dimensions {
            start: (start.0.min(end.0), start.1.min(end.1)),
            end: (start.0.max(end.0), start.1.max(end.1)),
        },
        each: placed.covers,
    }
}

/// From the later start of two areas up to the earlier end.
fn shared(a: Dimensions, b: Dimensions) -> Dimensions
    ensures { result ≡ shared a b }
{
    Dimensions {
        start: (a.start.0.max(b.start.0), a.start.1.max(b.start.1)),
        end: (a.end.0.min(b.end.0), a.end.1.min(b.end.1)),
    }
}

/// The hull of what two have.
fn joined_hull(a: Hull, b: Hull) -> Hull
    ensures { result ≡ joined_hull a b }
{
    Hull {
        first: a.first.min(b.first),
        last: a.last.max(b.last),
        all: hull(a.all, b.all),
        each: shared(a.each, b.each),
    }
}

/// A hull of nothing.
const NOWHERE: Hull = Hull {
    first: 0,
    last: 0,
    all: Dimensions {
        start: (0, 0),
        end: (0, 0),
    },
    each: Dimensions {
        start: (0, 0),
        end: (0, 0),
    },
};

/// The hull of a node: that of a fork stands among these.
fn node_hull(placed: &[Placed], order: &[usize], hulls: &[Hull], node: usize) -> Hull
    requires size { length order.now ≡ length placed.now }
    requires numbers { AreNumbers order.now }
    requires count { length hulls.now ≡ fork_count order.now }
    requires there { IsHullOf placed.now (slice_get hulls.now node) (under order.now node) }
    ensures { is_hull placed.now result (under order.now node) ≡ true }
{
    if node < hulls.len() {
        return hulls[node];
    }
    let Some(number) = number_at(order, node - hulls.len()) else {
        return NOWHERE;
    };
    match placed_at(placed, number) {
        Some(own) => corners_of(own),
        None => NOWHERE,
    }
}

/// The hulls of the forks of a tree whose leaves are these formulas.
pub(crate) fn hulls_of(
    alloc: Global,
    placed: &[Placed],
    order: &[usize],
) -> Result<Vec<Hull>, AllocError>
    requires size { length order.now ≡ length placed.now }
    requires numbers { AreNumbers order.now }
    ensures count { IfOk result (λ hulls. length hulls.items ≡ fork_count order.now) }
    ensures hulls { IfOk result (λ hulls. AreHullsFrom 0 placed.now order.now hulls.items) }
{
    let mut fork = order.len().saturating_sub(1);
    let mut hulls = vec![in alloc; NOWHERE; fork]?;
    'forks: while fork > 0 {
        fork -= 1;
        let left = node_hull(placed, order, &hulls, 2 * fork + 1);
        let right = node_hull(placed, order, &hulls, 2 * fork + 2);
        hulls[fork] = joined_hull(left, right);
    }
    Ok(hulls)
}
