//! The readers of the grammar: what a parser of expressions, lambdas, declarations and statements does, as functions on
//! lists of tokens (in specs/), and the laws that tie them to the grammar.
#![tactic(auto)]

ghost use Rattle.sy_reading.specs.Laws.{ReadExprsAreRuns, ReadBlocksAreBlocks, RunsAreRead, BlocksAreRead, OneExpr, OneBlock};

#[cfg(test)]
mod tests;

/// What is read is in the grammar. The contract is the law, and the body is empty.
pub fn what_is_read_is_in_the_grammar()
    ensures expressions { ReadExprsAreRuns }
    ensures blocks { ReadBlocksAreBlocks }
{}

/// What is in the grammar is read. The contract is the law, and the body is empty.
pub fn what_is_in_the_grammar_is_read()
    ensures expressions { RunsAreRead }
    ensures blocks { BlocksAreRead }
{}

/// From one place on there is at most one expression up to what ends it, and at most one block, and each has one tree
/// at most. The contract is the law, and the body is empty.
pub fn there_is_one_tree_at_most()
    ensures expressions { OneExpr }
    ensures blocks { OneBlock }
{}
