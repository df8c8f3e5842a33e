use super::*;

#[test]
fn laws_can_be_called(_rt: HostRuntime) {
    laws::readers_do_not_wait();
    laws::the_last_writer_decides();
    laws::commands_run_as_if_in_order();
    laws::what_leaves_the_pending_ones_took_effect();
    laws::a_host_access_gets_what_the_last_writers_left();
    laws::a_vector_gets_what_the_last_writer_left();
}
