//! What declarations and statements break beside their parts, from what is seen of those.
#![tactic(auto)]

mod declarations;
mod expressions;
mod literals;
mod objects;
mod statements;

pub use declarations::{
    Given, Specifiers, declarator, declared_constant, declared_type, redeclaration, shared_after,
};
pub use expressions::{assignment, expression};
pub use literals::{no_dimension, no_dimension_in_type, wide_in_type, wide_literal};
pub use objects::{
    device_vector, element_given, goes_over, object, unread_arguments, unread_each, vector,
};
pub use statements::{condition, leave_loop, return_from};
