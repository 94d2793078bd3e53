//! Which formulas are written as those of a group: each formula's head is found in one pass, then
//! the last row of each group, and then how each formula is written. For other programs each is
//! written by itself.
ghost use Rattle.std.specs.Prelude.{◌≡◌, ◌<◌, ◌≤◌, ◌↔◌, length, map, true, false, IfOk, IsTrue};
ghost use Rattle.std.specs.Prelude.{string_bytes, All};
ghost use Rattle.std.specs.Ordering.{is_lt};
ghost use Rattle.cell_refs.specs.Words.{position_cmp, is_rising};
ghost use Rattle.cell_data.specs.Words.{formula_pairs, AreInOrder};
ghost use Rattle.cell_data.proofs.Stepping.{meant};
ghost use Rattle.sorted_cells.specs.Words.{placed_left};
ghost use Rattle.xlsx_writer.specs.Groups.{is_same_position};
ghost use Rattle.xlsx_writer.specs.Grouping.{row_below, member_entry, member_head, AreHeads};
ghost use Rattle.xlsx_writer.specs.Grouping.{AreUpTo, ArePassed, StopsAt, AreLastRows, head_place};
ghost use Rattle.xlsx_writer.specs.Grouping.{moves_from, form_by, master_count};
ghost use Rattle.xlsx_writer.specs.declared.form.WrittenForm.TheVariants.{PackageText};
ghost use Rattle.xlsx_writer.specs.declared.form.WrittenForm.TheVariants.{WorkbookFile};
ghost use Rattle.xlsx_writer.specs.Writing.{form_entries, placed_forms, IsFormInSheet};

use crate::form::WrittenForm;
use formula_shift::expand_shared_formula_into;
use sorted_cells::PlacedCells;
use std::alloc::{AllocError, Global};

/// How a formula is written.
#[derive(Clone, Copy, Debug)]
pub enum FormulaForm {
    /// With its text alone.
    Plain,
    /// With its text, as the first of a group in its column down to this row, counted from 0.
    Master { last: u32, index: usize },
    /// Without a text, as one of the group of this index.
    Derived { index: usize },
}

/// A formula and how it is written.
#[derive(Clone, Copy, Debug)]
pub struct GroupedFormula<'a> {
    /// Its row and its column, counted from 0.
    pub position: (u32, u32),
    pub text: &'a str,
    pub form: FormulaForm,
}

/// A formula and the place of its head among the formulas.
#[derive(Clone, Copy, Debug)]
pub struct Member<'a> {
    /// Its row and its column, counted from 0.
    pub position: (u32, u32),
    pub text: &'a str,
    pub head: usize,
}

// ---- heads

/// Whether a position, a row further down, stands before another.
fn is_passed(one: (u32, u32), other: (u32, u32)) -> bool
    ensures { result ≡ is_lt (position_cmp (row_below one) other) }
{
    (u64::from(one.0) + 1, one.1) < (u64::from(other.0), other.1)
}

/// Whether a position is the one right above another.
fn is_above(one: (u32, u32), other: (u32, u32)) -> bool
    ensures { result ≡ is_same_position (row_below one) other }
{
    u64::from(one.0) + 1 == u64::from(other.0) && one.1 == other.1
}

/// The place of the first formula, from one on, that doesn't stand before the position right above
/// this one.
fn pass(members: &[Member<'_>], place: usize, position: (u32, u32)) -> usize
    requires { place ≤ length members.now }
    ensures from { place ≤ result }
    ensures within { result ≤ length members.now }
    ensures passed { ArePassed (map member_entry members.now) place result position }
    ensures stops { StopsAt (map member_entry members.now) result position }
{
    let mut next = place;
    'members: while next < members.len() && is_passed(members[next].position, position) {
        next += 1;
    }
    next
}

/// Whether the text of the formula at a place, moved to a position, is this text. It is moved in
/// `buffer`.
fn moves_from(
    buffer: &mut String,
    members: &[Member<'_>],
    place: usize,
    position: (u32, u32),
    text: &str,
) -> Result<bool, AllocError>
    requires { place < length members.now }
    ensures { IfOk result
        (λ moves. moves ≡ moves_from (map member_entry members.now) place position text.now) }
{
    let head = &members[place];
    expand_shared_formula_into(head.text, head.position, position, buffer)?;
    Ok(text == buffer.as_str())
}

/// The place of the head of the next formula: that of the formula at a place, where that stands
/// right above and the text of its head, moved, is this one; else its own. Texts are moved in
/// `buffer`.
fn head_of(
    buffer: &mut String,
    members: &[Member<'_>],
    above: usize,
    position: (u32, u32),
    text: &str,
) -> Result<usize, AllocError>
    requires { AreUpTo (map member_head members.now) }
    ensures { IfOk result (λ head. head ≡ head_place (map member_entry members.now)
        (map member_head members.now) above position text.now) }
{
    if above >= members.len() || !is_above(members[above].position, position) {
        return Ok(members.len());
    }
    let head = members[above].head;
    if moves_from(buffer, members, head, position, text)? {
        Ok(head)
    } else {
        Ok(members.len())
    }
}

/// Formulas with the places of their heads, in one pass.
fn members_of<'a>(
    alloc: Global,
    formulas: PlacedCells<'a, String>,
) -> Result<Vec<Member<'a>>, AllocError>
    requires { AreInOrder (placed_left formulas) }
    ensures entries { let placed = meant string_bytes (placed_left formulas.entry) in
        IfOk result (λ members. map member_entry members.items ≡ placed) }
    ensures heads { let placed = meant string_bytes (placed_left formulas.entry) in
        IfOk result (λ members. AreHeads placed (map member_head members.items)) }
{
    let mut members = Vec::new(alloc);
    let mut buffer = String::new(alloc);
    let mut above = 0;
    for (position, formula) in formulas {
        let text = formula.as_str();
        above = pass(&members, above, position);
        let head = head_of(&mut buffer, &members, above, position, text)?;
        members.push(Member {
            position,
            text,
            head,
        })?;
    }
    Ok(members)
}

// ---- last rows

/// The last row of each formula's group, as if the formula were its head: its own row, until a
/// formula comes that it is the head of.
fn last_rows_of(alloc: Global, members: &[Member<'_>]) -> Result<Vec<u32>, AllocError>
    requires rising { is_rising (map member_entry members.now) ≡ true }
    requires heads { AreHeads (map member_entry members.now) (map member_head members.now) }
    ensures count { IfOk result (λ rows. length rows.items ≡ length members.now) }
    ensures rows { IfOk result (λ rows. AreLastRows (map member_entry members.now) rows.items) }
{
    let mut rows = Vec::new(alloc);
    for member in members {
        rows.push(member.position.0)?;
        rows[member.head] = member.position.0;
    }
    Ok(rows)
}

// ---- how each formula is written

/// How a formula is written, by whether it is its own head, its row, the last row of its group, and
/// the group's index.
fn form_of(is_head: bool, row: u32, last: u32, index: usize) -> FormulaForm
    ensures { result ≡ form_by is_head row last index }
{
    if !is_head {
        return FormulaForm::Derived { index };
    }
    if row < last {
        FormulaForm::Master { last, index }
    } else {
        FormulaForm::Plain
    }
}

/// How many masters a formula is: one, or none.
fn masters_in(form: FormulaForm) -> usize
    ensures { result ≡ master_count form }
{
    match form {
        FormulaForm::Master { .. } => 1,
        FormulaForm::Plain | FormulaForm::Derived { .. } => 0,
    }
}

/// The formulas as they are written, with the number of masters before each as the index of its
/// group, if it is the first of one.
fn forms_of<'a>(
    alloc: Global,
    members: &[Member<'a>],
    last_rows: Vec<u32>,
) -> Result<Vec<GroupedFormula<'a>>, AllocError>
    requires order { AreInOrder (map member_entry members.now) }
    requires heads { AreHeads (map member_entry members.now) (map member_head members.now) }
    requires count { length last_rows.items ≡ length members.now }
    requires last_rows { AreLastRows (map member_entry members.now) last_rows.items }
    ensures forms { let written = placed_forms PackageText (map member_entry members.now) in
        IfOk result (λ formulas. form_entries formulas.items ≡ written) }
    ensures sheet { IfOk result (λ formulas. All IsFormInSheet formulas.items) }
{
    let mut indices = Vec::new(alloc);
    let mut formulas = Vec::new(alloc);
    let mut masters = 0;
    for member in members {
        let place = formulas.len();
        indices.push(masters)?;
        let index = indices[member.head];
        let form = form_of(
            member.head == place,
            member.position.0,
            last_rows[place],
            index,
        );
        masters += masters_in(form);
        formulas.push(GroupedFormula {
            position: member.position,
            text: member.text,
            form,
        })?;
    }
    Ok(formulas)
}

/// Formulas as they are written, row by row: those of a group, which are that of its head moved, by
/// the index of the group alone.
fn grouped<'a>(
    alloc: Global,
    formulas: PlacedCells<'a, String>,
) -> Result<Vec<GroupedFormula<'a>>, AllocError>
    requires { AreInOrder (placed_left formulas) }
    ensures forms { let written =
        placed_forms PackageText (meant string_bytes (placed_left formulas.entry)) in
        IfOk result (λ grouped. form_entries grouped.items ≡ written) }
    ensures sheet { IfOk result (λ grouped. All IsFormInSheet grouped.items) }
{
    let members = members_of(alloc, formulas)?;
    let last_rows = last_rows_of(alloc, &members)?;
    forms_of(alloc, &members, last_rows)
}

/// Formulas, row by row, each of which is written by itself.
fn alone<'a>(
    alloc: Global,
    formulas: PlacedCells<'a, String>,
) -> Result<Vec<GroupedFormula<'a>>, AllocError>
    requires { AreInOrder (placed_left formulas) }
    ensures forms { let written =
        placed_forms WorkbookFile (meant string_bytes (placed_left formulas.entry)) in
        IfOk result (λ listed. form_entries listed.items ≡ written) }
    ensures sheet { IfOk result (λ listed. All IsFormInSheet listed.items) }
{
    let mut listed = Vec::new(alloc);
    for (position, formula) in formulas {
        listed.push(GroupedFormula {
            position,
            text: formula.as_str(),
            form: FormulaForm::Plain,
        })?;
    }
    Ok(listed)
}

/// Formulas as they are written in a form, row by row.
pub fn formulas_by<'a>(
    alloc: Global,
    form: WrittenForm,
    formulas: PlacedCells<'a, String>,
) -> Result<Vec<GroupedFormula<'a>>, AllocError>
    requires { AreInOrder (placed_left formulas) }
    ensures forms { let written =
        placed_forms form (meant string_bytes (placed_left formulas.entry)) in
        IfOk result (λ listed. form_entries listed.items ≡ written) }
    ensures sheet { IfOk result (λ listed. All IsFormInSheet listed.items) }
{
    match form {
        WrittenForm::PackageText => grouped(alloc, formulas),
        WrittenForm::WorkbookFile => alone(alloc, formulas),
    }
}
