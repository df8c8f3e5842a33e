use crate::laws::{
    deferred_effects_keep_step, effects_commute_with_asks, effects_commute_with_settling,
    legal_orders_are_orderly, one_effect_then_settling, order_is_kept, settling_keeps,
};

#[test]
fn laws_are_called() {
    one_effect_then_settling();
    effects_commute_with_asks();
    effects_commute_with_settling();
    settling_keeps();
    deferred_effects_keep_step();
    order_is_kept();
    legal_orders_are_orderly();
}
