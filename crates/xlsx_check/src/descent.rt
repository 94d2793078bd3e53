//! A formula read once from the left, with what it comes to in place of its tree. What isn't
//! computed ends the reading; what is past the limits doesn't, since something that isn't computed
//! may follow.
ghost use Rattle.std.specs.Prelude.{◌≡◌, ◌≤◌, [], length, false};
ghost use Rattle.xlsx_check.specs.Denoting.{denoted_by, is_unsupported, values_of, tokens_ahead};
ghost use Rattle.xlsx_check.specs.Denoting.{value_read, rest_read, total_of_references};
ghost use Rattle.xlsx_check.specs.Denoting.{references_rest, factor_from, product_from, sum_from};
ghost use Rattle.xlsx_check.specs.Denoting.{comparison_from, references_from, opened_references};
ghost use Rattle.xlsx_check.specs.Denoting.{group_from};
ghost use Rattle.xlsx_check.specs.Reading.{cell_read};
ghost use Rattle.xlsx_check.specs.Trees.{cell_alone};

use crate::ahead::Ahead;
use crate::denotation::Denotation;
use crate::token::{Kind, Separator, Token};
use crate::values::{number_at, with_area, zero};
use cell_data::{Data, Range};
use formula_shift::Reference;

/// What a reference alone comes to: it is one of a single cell.
fn cell_alone(values: &Range<Data>, reference: Reference) -> Denotation
    ensures { denoted_by result ≡ value_read (values_of values.now)
        (cell_read [] (cell_alone reference reference.second)) }
{
    match reference.second {
        Some(_) => Denotation::Unsupported,
        None => number_at(values, reference.area_named().start),
    }
}

/// The total of the areas of references between commas, up to a closing parenthesis.
fn total(values: &Range<Data>, tokens: &mut Ahead<'_>) -> Denotation
    ensures value { denoted_by result
        ≡ total_of_references (values_of values.now) (references_from (tokens_ahead tokens.old)) }
    ensures rest { is_unsupported (denoted_by result) ≡ false →
        tokens_ahead tokens.new ≡ references_rest (references_from (tokens_ahead tokens.old)) }
    ensures shorter { length (tokens_ahead tokens.new) ≤ length (tokens_ahead tokens.old) }
{
    let mut total = zero();
    'references: loop {
        let Some(reference) = tokens.take_reference() else {
            return Denotation::Unsupported;
        };
        total = with_area(values, total, reference.area_named());
        match tokens.take_separator() {
            Some(Separator::Closing) => return total,
            Some(Separator::Comma) => {}
            None => return Denotation::Unsupported,
        }
    }
}

/// The total of the areas of references in parentheses.
fn opened_total(values: &Range<Data>, tokens: &mut Ahead<'_>) -> Denotation
    ensures value { denoted_by result
        ≡ total_of_references (values_of values.now) (opened_references (tokens_ahead tokens.old)) }
    ensures rest { is_unsupported (denoted_by result) ≡ false →
        tokens_ahead tokens.new ≡ references_rest (opened_references (tokens_ahead tokens.old)) }
    ensures shorter { length (tokens_ahead tokens.new) ≤ length (tokens_ahead tokens.old) }
{
    match tokens.take() {
        Some(Token::Opens) => total(values, tokens),
        _ => Denotation::Unsupported,
    }
}

/// What stands in parentheses, of which the first was taken, where so many levels are left.
#[cycle(descent)]
fn group(values: &Range<Data>, tokens: &mut Ahead<'_>, levels: u32) -> Denotation
    ensures value { denoted_by result ≡ value_read (values_of values.now)
        (group_from levels (tokens_ahead tokens.old)) }
    ensures rest { is_unsupported (denoted_by result) ≡ false →
        tokens_ahead tokens.new ≡ rest_read (group_from levels (tokens_ahead tokens.old)) }
    ensures shorter { length (tokens_ahead tokens.new) ≤ length (tokens_ahead tokens.old) }
{
    let inside = comparison(values, tokens, levels);
    if inside.is_unsupported() {
        return inside;
    }
    if tokens.take_closing() {
        inside
    } else {
        Denotation::Unsupported
    }
}

/// What a number, a cell, a total, or what stands behind a sign or in parentheses comes to, where
/// so many levels are left.
#[cycle(descent)]
fn factor(values: &Range<Data>, tokens: &mut Ahead<'_>, levels: u32) -> Denotation
    ensures value { denoted_by result ≡ value_read (values_of values.now)
        (factor_from levels (tokens_ahead tokens.old)) }
    ensures rest { is_unsupported (denoted_by result) ≡ false →
        tokens_ahead tokens.new ≡ rest_read (factor_from levels (tokens_ahead tokens.old)) }
    ensures shorter { length (tokens_ahead tokens.new) ≤ length (tokens_ahead tokens.old) }
{
    if levels == 0 {
        return Denotation::Unsupported;
    }
    let Some(token) = tokens.take() else {
        return Denotation::Unsupported;
    };
    match token {
        Token::Constant(number) => Denotation::Number(number),
        Token::Refers(reference) => cell_alone(values, reference),
        Token::Sign => factor(values, tokens, levels - 1).negated(),
        Token::Opens => group(values, tokens, levels - 1),
        Token::Sum => opened_total(values, tokens),
        Token::Plus
        | Token::Minus
        | Token::Times
        | Token::Closes
        | Token::Comma
        | Token::Compares(_)
        | Token::Stray => Denotation::Unsupported,
    }
}

/// What a product comes to, where so many levels are left.
#[cycle(descent)]
fn product(values: &Range<Data>, tokens: &mut Ahead<'_>, levels: u32) -> Denotation
    ensures value { denoted_by result ≡ value_read (values_of values.now)
        (product_from levels (tokens_ahead tokens.old)) }
    ensures rest { is_unsupported (denoted_by result) ≡ false →
        tokens_ahead tokens.new ≡ rest_read (product_from levels (tokens_ahead tokens.old)) }
    ensures shorter { length (tokens_ahead tokens.new) ≤ length (tokens_ahead tokens.old) }
{
    let mut left = factor(values, tokens, levels);
    'factors: while !left.is_unsupported() {
        let Some(token) = tokens.take_of(Kind::Multiplication) else {
            return left;
        };
        let right = factor(values, tokens, levels);
        left = left.joined(token, right);
    }
    left
}

/// What a sum comes to, where so many levels are left.
#[cycle(descent)]
fn sum(values: &Range<Data>, tokens: &mut Ahead<'_>, levels: u32) -> Denotation
    ensures value { denoted_by result ≡ value_read (values_of values.now)
        (sum_from levels (tokens_ahead tokens.old)) }
    ensures rest { is_unsupported (denoted_by result) ≡ false →
        tokens_ahead tokens.new ≡ rest_read (sum_from levels (tokens_ahead tokens.old)) }
    ensures shorter { length (tokens_ahead tokens.new) ≤ length (tokens_ahead tokens.old) }
{
    let mut left = product(values, tokens, levels);
    'terms: while !left.is_unsupported() {
        let Some(token) = tokens.take_of(Kind::Addition) else {
            return left;
        };
        let right = product(values, tokens, levels);
        left = left.joined(token, right);
    }
    left
}

/// What a comparison, or a sum alone, comes to, where so many levels are left.
#[cycle(descent)]
pub fn comparison(values: &Range<Data>, tokens: &mut Ahead<'_>, levels: u32) -> Denotation
    ensures value { denoted_by result ≡ value_read (values_of values.now)
        (comparison_from levels (tokens_ahead tokens.old)) }
    ensures rest { is_unsupported (denoted_by result) ≡ false →
        tokens_ahead tokens.new ≡ rest_read (comparison_from levels (tokens_ahead tokens.old)) }
    ensures shorter { length (tokens_ahead tokens.new) ≤ length (tokens_ahead tokens.old) }
{
    let left = sum(values, tokens, levels);
    if left.is_unsupported() {
        return left;
    }
    let Some(token) = tokens.take_of(Kind::Comparison) else {
        return left;
    };
    let right = sum(values, tokens, levels);
    left.joined(token, right)
}
