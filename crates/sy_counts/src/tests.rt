use crate::laws::{
    counts_tell_what_is_open, one_buffer_counts_once, one_entry_changes_its_counts,
    one_entry_more_is_counted, the_least_failed_node_is_kept,
};

#[test]
fn laws_are_called() {
    counts_tell_what_is_open();
    one_entry_more_is_counted();
    one_entry_changes_its_counts();
    the_least_failed_node_is_kept();
    one_buffer_counts_once();
}
