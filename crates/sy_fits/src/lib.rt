//! How arguments fit what takes them: the sorts of types that are asked for, and what functions take and give.
#![tactic(auto)]

mod calls;
mod fits;
mod sorts;
#[cfg(test)]
mod tests;

pub use calls::{
    all_passed, can_be_passed, integer_of, is_const, is_reduction_call, library_row, returned_type,
    takes_references,
};
pub use fits::{
    all_integers, arguments_if, both, dimension_if, element_if, fit_count, fit_dimensions,
    fit_range, fit_range_type, is_lambda, nothing_given, one_given, one_lambda, row,
    same_dimensions, same_kind, wanted_of,
};
pub use sorts::{Sort, is_of, may_be, type_in};
