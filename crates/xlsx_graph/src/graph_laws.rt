//! What holds of the graphs of all workbooks.
ghost use Rattle.std.specs.Prelude.{◌≡◌, ◌∷◌, ◌++◌, ℕ, List, false, true};
ghost use Rattle.calculation_order.specs.OrderLaws.{are_within};
ghost use Rattle.xlsx_graph.specs.Gathered.{Gathered, Gathers, IsMeasured, IsOver, is_too_large};
ghost use Rattle.xlsx_graph.specs.Gathered.{nothing_gathered};
ghost use Rattle.xlsx_graph.specs.Graph.{GraphFormula, needed};

/// The edges of a workbook's graph have the numbers of its formulas alone.
pub fn needed_are_within()
    ensures { (formulas : List GraphFormula) → are_within (needed formulas) ≡ true }
{}

/// Formulas that are gathered one after the other are refused for a limit exactly where those of
/// the workbook are too large together: while they are gathered the room that is left is that of a
/// workbook without what they take, so they aren't too large; and where the next one takes more
/// than that, they are, whatever stands behind it.
pub fn formulas_are_refused_together()
    ensures none { (names : ℕ) → IsMeasured (nothing_gathered names) }
    ensures one { (old new : Gathered) (f : GraphFormula) → IsMeasured old → Gathers old new f →
        IsMeasured new }
    ensures fits { (gathered : Gathered) → IsMeasured gathered →
        is_too_large gathered.formulas ≡ false }
    ensures over { (gathered : Gathered) (f : GraphFormula) (rest : List GraphFormula) →
        IsMeasured gathered → IsOver gathered f →
        is_too_large (gathered.formulas ++ f ∷ rest) ≡ true }
{}
