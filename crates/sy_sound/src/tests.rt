use crate::laws::*;

#[test]
fn laws_are_called(_rt: HostRuntime) {
    turns_keep_boards_sound();
    states_are_sound();
    nodes_are_counted();
    inputs_fit();
    copies_are_few();
    commands_stay_known();
    programs_that_agree_run_alike();
}
