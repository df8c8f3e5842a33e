use crate::laws::{answers_fit_their_asks, asks_are_steps, threads_may_hear_first};

#[test]
fn laws_are_called() {
    threads_may_hear_first();
    asks_are_steps();
    answers_fit_their_asks();
}
