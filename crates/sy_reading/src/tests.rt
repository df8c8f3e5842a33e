// The laws can be called.

use super::*;
use std::test::Fail;

#[test]
fn laws(_rt: HostRuntime) -> Result<(), Fail> {
    what_is_read_is_in_the_grammar();
    what_is_in_the_grammar_is_read();
    there_is_one_tree_at_most();
    Ok(())
}
