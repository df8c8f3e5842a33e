//! The lowest layer of the parser: a cursor over the tokens, what the texts of words stand for, and the parsers of the
//! parts of the grammar that hold no expression (types, captures, parameters and template arguments). Each computes a
//! reader of `sy_reading`.
#![tactic(auto)]

mod cursor;
mod parts;
mod steps;
mod tables;
#[cfg(test)]
mod tests;

pub use cursor::{MAX_HEIGHT, Stop, Tokens, WithHeight, check_height};
pub use parts::{
    captures, closing_text, const_specifier, declares_object, elements, empty_brackets,
    expect_close, expect_open, integral, maybe_parameters, maybe_template_argument, object_by,
    object_type, one_word, qualified_name, sees_type, type_specifier,
};
pub use steps::{beside, maybe_boxed, pair, triple};
pub use tables::{
    assignment_of, function_of, level, object_of, operator_of, step_of, tag_of, unary_of,
};
