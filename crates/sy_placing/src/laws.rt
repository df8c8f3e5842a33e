//! Laws of looks, each the contract of a function without parameters.

ghost use Rattle.std.specs.Prelude.{◌≡◌, ◌++◌, List, flat_map};
ghost use Rattle.sy_note.specs.declared.Diagnostic.{Diagnostic};
ghost use Rattle.sy_note.specs.declared.Spot.{Spot};
ghost use Rattle.sy_placing.specs.Placing.{HavePlaces};
ghost use Rattle.sy_rules.specs.Outcome.{Finding, placed, faults_found};
ghost use Rattle.sy_rules.specs.Walk.{block};
ghost use Rattle.sy_rules.specs.declared.names.Names.{Names};
ghost use Rattle.sy_rules.specs.declared.names.Within.{Within};
ghost use Rattle.sy_tree.specs.declared.tree.Block.{Block};

/// What is found in a block has its place, so that no statement round the block changes it; and so have broken rules, what
/// is found in a statement, and two lists of findings together.
pub fn blocks_place_what_they_find()
    ensures in_blocks { (b : Block) (n : Names) → HavePlaces (block b n).found }
    ensures in_statements { (w : Within) (s : Spot) (xs : List Finding) → HavePlaces (flat_map (placed w s) xs) }
    ensures faults { (ds : List Diagnostic) → HavePlaces (faults_found ds) }
    ensures together { (xs ys : List Finding) → HavePlaces xs → HavePlaces ys → HavePlaces (xs ++ ys) }
{}

/// Behind a block the threads' lambdas round the place are those before it.
pub fn looks_keep_the_threads()
    ensures { (b : Block) (n : Names) → (block b n).names.threads ≡ n.threads }
{}
