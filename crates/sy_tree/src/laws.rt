//! What a reader expects of the grammar. Each function's contract is a law, and its body is empty.

ghost use Rattle.std.specs.Prelude.{◌≡◌, ℕ, ◌≤◌, true, List, []};
ghost use Rattle.sy_note.specs.declared.Spot.{Spot};
ghost use Rattle.sy_lex.specs.declared.Token.{Token};
ghost use Rattle.sy_tree.specs.declared.tree.Expr.{Expr};
ghost use Rattle.sy_tree.specs.Beginnings.{opens, first};
ghost use Rattle.sy_tree.specs.Examples.{main_tokens, main_unit, return_tokens, return_stmt};
ghost use Rattle.sy_tree.specs.Expressions.{Node, an_expr, a_stmt};
ghost use Rattle.sy_tree.specs.Grammar.{Derives, Passes};
ghost use Rattle.sy_tree.specs.Units.{IsUnit};

/// A tree of some height is one of each greater height, and what may stand at a tighter level may stand at a looser one.
pub fn bounds_are_upper_bounds()
    ensures taller { (n m : ℕ) → n ≤ m → (x : Node) (from rest : List Token) → Derives n x from rest → Derives m x from rest }
    ensures looser { (n tight loose : ℕ) → loose ≤ tight → (x : Expr) (from rest : List Token) → Derives n (an_expr tight x) from rest → Derives n (an_expr loose x) from rest }
{}

/// A tree has one token at least, and what follows it is the rest of the list.
pub fn trees_take_tokens()
    ensures { (n : ℕ) (x : Node) (from rest : List Token) → Derives n x from rest → Passes 1 from rest }
{}

/// By the first token of a tree it is known what sort of tree it may be.
pub fn trees_begin_with_their_words()
    ensures { (n : ℕ) (x : Node) (from rest : List Token) → Derives n x from rest → first (opens x) from ≡ true }
{}

/// `int main() {}` is a unit, and `return 1;` a statement of height 2.
pub fn small_sources_have_trees()
    ensures unit { (s : Spot) → IsUnit (main_tokens s) (main_unit s) }
    ensures statement { (s : Spot) → Derives 2 (a_stmt (return_stmt s)) (return_tokens s) [] }
{}
