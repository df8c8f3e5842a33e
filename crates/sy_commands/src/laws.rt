//! Laws of what is read of a lambda, and of what an answer says, each the contract of a function without parameters.

ghost use Rattle.std.specs.Prelude.{◌≡◌, List, ℕ, Result};
ghost use Rattle.sy_commands.specs.Closures.{IsClosureOf, lambda_of};
ghost use Rattle.sy_commands.specs.Listing.{SaysListed, listed_on};
ghost use Rattle.sy_commands.specs.declared.closures.Closure.{Closure};
ghost use Rattle.sy_meaning.specs.Expressions.{Lambda};
ghost use Rattle.sy_meaning.specs.Lambdas.{captures_of, parallel_for, single_task};
ghost use Rattle.sy_meaning.specs.Making.{Given};
ghost use Rattle.sy_meaning.specs.Outcomes.{Ex, Listed, with_list};
ghost use Rattle.sy_meaning.specs.Words.{Object};
ghost use Rattle.sy_meaning.specs.declared.outcomes.Evaluated.{Evaluated};
ghost use Rattle.sy_meaning.specs.declared.runs.Run.{Run};
ghost use Rattle.sy_meaning.specs.declared.runs.World.{World};

/// Of a lambda no more is read than what a closure has of it.
pub fn a_closure_is_all_that_is_read()
    ensures captures { (l : Lambda) (c : Closure) (r : Run) → IsClosureOf l c → captures_of (lambda_of c) r ≡ captures_of l r }
    ensures tasks { (l : Lambda) (c : Closure) (limit line : ℕ) (os : List Object) (w : World) → IsClosureOf l c → single_task limit line (lambda_of c) os w ≡ single_task limit line l os w }
    ensures kernels { (l : Lambda) (c : Closure) (limit line : ℕ) (xs : List Given) (os : List Object) (w : World) → IsClosureOf l c → parallel_for limit line (lambda_of c) xs os w ≡ parallel_for limit line l xs os w }
{}

/// What an answer says of operands is all that the rest of the expression has from them.
pub fn an_expression_goes_on_after_its_operands()
    ensures { (x : Result (List Object) Evaluated) (r : Run) (l : Listed) (go : List Object → Ex) → SaysListed x r l → with_list l go ≡ listed_on x go r }
{}
