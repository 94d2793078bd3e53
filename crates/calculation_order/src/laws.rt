//! What holds of the order and of the cycles of all edges.
ghost use Rattle.std.specs.Prelude.{◌≡◌, ℕ, Bool, List, true};
ghost use Rattle.calculation_order.specs.Edges.{is_number_of, needs_of, reached};
ghost use Rattle.calculation_order.specs.OrderLaws.{EachStandsOnce, NeedsStandBefore};
ghost use Rattle.calculation_order.specs.OrderLaws.{OthersHaveCycles, are_within};

/// What a formula reaches is what it needs itself, and what those need that it reaches; and no
/// more, so it is within all that has both.
pub fn reached_is_all_needed()
    ensures itself { (edges : List (List ℕ)) (n m : ℕ)
        → is_number_of (needs_of edges n) m ≡ true → is_number_of (reached edges n) m ≡ true }
    ensures through { (edges : List (List ℕ)) → are_within edges ≡ true → (n k m : ℕ)
        → is_number_of (reached edges n) k ≡ true → is_number_of (needs_of edges k) m ≡ true
        → is_number_of (reached edges n) m ≡ true }
    ensures alone { (edges : List (List ℕ)) (is_in : ℕ → Bool)
        → ((k m : ℕ) → is_in k ≡ true → is_number_of (needs_of edges k) m ≡ true
        → is_in m ≡ true)
        → (n : ℕ) → ((m : ℕ) → is_number_of (needs_of edges n) m ≡ true → is_in m ≡ true)
        → (m : ℕ) → is_number_of (reached edges n) m ≡ true → is_in m ≡ true }
{}

/// Of each formula in the order all that it needs stands before it.
pub fn needs_stand_before()
    ensures { (edges : List (List ℕ)) → NeedsStandBefore edges }
{}

/// Each formula that isn't in the order is on a cycle, or needs one that is, itself or through
/// others. One that needs a number that is no formula's would be neither: so the edges are within.
pub fn others_have_cycles()
    ensures { (edges : List (List ℕ)) → are_within edges ≡ true → OthersHaveCycles edges }
{}

/// Each formula is once in the order, on one cycle, or behind a cycle, where the edges are within.
/// So cycles have no formula in common.
pub fn each_stands_once()
    ensures { (edges : List (List ℕ)) → are_within edges ≡ true → EachStandsOnce edges }
{}
