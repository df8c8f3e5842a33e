use crate::laws::{
    answers_fit, due_answers_reach_their_threads, one_thread_has_one_order, threads_are_counted,
};

#[test]
fn laws_are_functions() {
    threads_are_counted();
    answers_fit();
    due_answers_reach_their_threads();
    one_thread_has_one_order();
}
