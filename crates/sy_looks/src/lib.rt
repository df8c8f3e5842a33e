//! Each form of an expression, once its parts were looked at: what is seen of it, its typed tree, and what is found.
#![tactic(auto)]

mod leaves;
mod library;
mod members;
mod operators;
mod settle;
mod steps;
mod walk;

pub use leaves::{
    judge_access_tag, judge_boolean, judge_character, judge_error_code, judge_function_object,
    judge_in_order, judge_initialize_to_identity, judge_integer, judge_name,
};
pub use library::{
    judge_call, judge_construct, judge_group_barrier, judge_library_call, judge_subscript,
};
pub use members::judge_member_call;
pub use operators::{
    judge_binary, judge_cast, judge_conditional, judge_functional_cast, judge_parenthesized,
    judge_postfix, judge_prefix, judge_static_cast, judge_unary,
};
pub use settle::{judge, judge_foreign};
pub use steps::{beside, pair, triple};
pub use walk::{Arguments, Part, Parts, Walk};
