ghost use Rattle.std.specs.Prelude.{◌≡◌, ◌≤◌, List, Some};
ghost use Rattle.xlsx_check.specs.Tokens.{Token};
ghost use Rattle.xlsx_check.specs.Trees.{Tree, formula_tree, tree_tokens, IsLeftmost, enclosures};
ghost use Rattle.xlsx_check.specs.Reading.{tree_read};

/// Tokens that have a tree are what it is spelled as: each operator takes what stands to the left
/// of it, and at most 64 parentheses and signs are round a token.
pub fn trees_are_spelled_as_their_tokens()
    ensures { (tokens : List Token) (tree : Tree) → formula_tree tokens ≡ Some tree
        → (tree_tokens tree ≡ tokens) × IsLeftmost tree × (enclosures tree ≤ 64) }
{}

/// What such a tree is spelled as has that tree.
#[tactic(auto, using(crate::proofs::Agreeing::has_tree))]
pub fn leftmost_trees_are_those_of_their_tokens()
    ensures { (tree : Tree) → IsLeftmost tree → enclosures tree ≤ 64
        → formula_tree (tree_tokens tree) ≡ Some tree }
{}

/// Reading from the left by descent gives the tree that is split at the last operator, or none
/// where there is none.
#[tactic(auto, using(crate::proofs::Agreeing::reads_tree))]
pub fn descent_reads_the_tree_that_is_split()
    ensures { (tokens : List Token) → tree_read tokens ≡ formula_tree tokens }
{}
