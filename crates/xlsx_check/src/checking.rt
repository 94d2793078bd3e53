ghost use Rattle.std.specs.Prelude.{◌≡◌, nat_abs, ◌==◌};
ghost use Rattle.cell_data.specs.Words.{value_of_data};
ghost use Rattle.decimals.specs.Words.{number_of};
ghost use Rattle.xlsx_check.specs.Denoting.{denoted_by, values_of};
ghost use Rattle.xlsx_check.specs.Evaluation.{denotation, value_looked_up, gap};
ghost use Rattle.xlsx_check.specs.Verdicts.{computed_of, outcome_of, without_kind, is_number};
ghost use Rattle.xlsx_check.specs.Verdicts.{agrees, judged, judged_value, verdict_of};
ghost use Rattle.xlsx_check.specs.Verdicts.{value_or_nothing};

use crate::ahead::Ahead;
use crate::denotation::{Denotation, compare_numbers};
use crate::descent::comparison;
use crate::outcome::{Computed, Outcome, Verdict};
use crate::values::number_in;
use cell_data::{Data, Decimal, Range};

/// A token may stand inside one parenthesis or sign less than these.
const LEVELS: u32 = 65;

/// What a formula comes to by the values that its cells have.
fn denotation(values: &Range<Data>, formula: &str) -> Denotation
    ensures { denoted_by result ≡ denotation (values_of values.now) formula.now }
{
    let mut tokens = Ahead::new(formula);
    let result = comparison(values, &mut tokens, LEVELS);
    if tokens.is_empty() {
        result
    } else {
        Denotation::Unsupported
    }
}

/// Computes a formula once, exactly, from the values that its cells hold. It takes no memory.
///
/// Sums, differences, products, comparisons and `SUM` are computed, over numbers, cells and
/// parentheses; all else is unsupported. A number fits a decimal or overflows, and is never
/// rounded. What is unsupported outranks what overflows, wherever it stands.
pub fn compute(values: &Range<Data>, formula: &str) -> Outcome
    ensures { outcome_of result ≡ without_kind (denotation (values_of values.now) formula.now) }
{
    match denotation(values, formula) {
        Denotation::Number(number) => Outcome::Value(Computed::Number(number)),
        Denotation::Truth(truth) => Outcome::Value(Computed::Truth(truth)),
        Denotation::NumberPast | Denotation::TruthPast => Outcome::Overflow,
        Denotation::Unsupported => Outcome::Unsupported,
    }
}

/// Whether a number is the same as what a value is in a formula.
fn is_number(number: Decimal, other: Denotation) -> bool
    ensures { result ≡ is_number (number_of number) (denoted_by other) }
{
    match other {
        Denotation::Number(other) => compare_numbers(number, other).is_eq(),
        _ => false,
    }
}

/// Whether a value is what was computed.
fn agrees(computed: Computed, value: &Data) -> bool
    ensures { result ≡ agrees (computed_of computed) (value_of_data value.now) }
{
    match (computed, value) {
        (Computed::Number(number), Data::Int(_) | Data::Decimal(_) | Data::DateTime(_)) => {
            is_number(number, number_in(value))
        }
        (Computed::Truth(truth), Data::Bool(other)) => truth == *other,
        _ => false,
    }
}

/// What is said of what was computed beside a cell's value.
fn judged(computed: Computed, value: Option<&Data>) -> Verdict
    ensures { verdict_of result
        ≡ judged_value (computed_of computed) (value_or_nothing value.entry) }
{
    match value {
        None | Some(Data::Empty) => Verdict::NoValue,
        Some(value) if agrees(computed, value) => Verdict::Agrees,
        Some(_) => Verdict::Differs(computed),
    }
}

/// Computes the formula of a cell at a position, a row and a column counted from 0, and compares
/// what it comes to with the value that the cell has. It takes no memory.
///
/// A number agrees with a number or a date that is the same number, and a boolean with the same
/// boolean; a text, an error or an ISO date differs. What isn't computed is told before a value
/// that is wanting.
pub fn verdict(values: &Range<Data>, formula: &str, pos: (u32, u32)) -> Verdict
    ensures { verdict_of result ≡ judged (denotation (values_of values.now) formula.now)
        (value_looked_up (values_of values.now) pos) }
{
    match compute(values, formula) {
        Outcome::Value(computed) => judged(computed, values.used_value(pos)),
        Outcome::Unsupported => Verdict::Unsupported,
        Outcome::Overflow => Verdict::Overflow,
    }
}
