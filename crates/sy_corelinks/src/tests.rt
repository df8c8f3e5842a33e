use crate::laws::{copies_show_the_core, copies_stay_shown};

#[test]
fn laws_are_called() {
    copies_show_the_core();
    copies_stay_shown();
}
