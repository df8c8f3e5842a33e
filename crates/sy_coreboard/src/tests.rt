use crate::laws::{
    a_new_core_stands, answers_keep_standing, asks_keep_standing, closes_keep_standing,
    copies_are_tallied, endings_are_told, outcomes_keep_standing, quiet_cores_have_settled,
    sources_are_kept, tasks_keep_standing, the_serial_choice, tickets_suit_their_runner,
};

#[test]
fn laws_are_called() {
    a_new_core_stands();
    outcomes_keep_standing();
    tasks_keep_standing();
    asks_keep_standing();
    closes_keep_standing();
    answers_keep_standing();
    endings_are_told();
    copies_are_tallied();
    quiet_cores_have_settled();
    the_serial_choice();
    sources_are_kept();
    tickets_suit_their_runner();
}
