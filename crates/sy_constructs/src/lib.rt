//! What every construct of an expression has (whether it is sound, its typed node, what its place takes, what it uses),
//! and the constructs without parts: names, literals and other leaves.
#![tactic(auto)]

mod leaves;
mod literals;
mod names;
mod nodes;
mod places;
mod settings;
mod uses;
mod whole;

pub use leaves::{
    access_tag, boolean, error_code, function_object, in_order, initialize_to_identity,
    is_compared, kind_written, parenthesized,
};
pub use literals::{character, integer, no_dimension, wide_literal};
pub use names::{is_misused_in, is_outside, is_unknown, may_share, name, type_of_name};
pub use nodes::{
    called_number, error_or_runtime, member_or_wait, named_node, number_in, typed, variable,
};
pub use places::{
    is_equality, taken_as, taken_before_member, taken_beside, taken_by_library, taken_by_member,
    taken_by_object, taken_inside,
};
pub use settings::{is_group, is_host, is_kernel};
pub use uses::{
    Foreign, called, foreign_barrier, foreign_function, foreign_index, foreign_name,
    foreign_object, used,
};
pub use whole::{both_known, is_known, settle, value};
