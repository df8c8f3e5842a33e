//! Words: the numbers that objects are made of, what each of them says, and what the operators make of them. Each
//! function is its definition of `sy_meaning` or of what stands below it.
//!
//! An object is a list of words, `Values` where it is owned and a slice where it is read. A word needn't be in the range
//! of its kind, as the definitions don't ask it. A number that its type can't hold, as the number of a buffer from 2^32
//! on, is want of memory.
#![tactic(auto)]

mod extents;
mod handles;
mod numbers;
mod objects;
mod operators;
mod signs;
#[cfg(test)]
mod tests;
mod types;

pub use extents::{
    accessor_extents, buffer_extents, extents_of, global_extents, indexes, local_extents, range_in,
};
pub use handles::{
    accessor_first, accessor_owner, buffer_first, buffer_number, buffer_root, context_device,
    context_place, device_at, device_count, device_from, device_words, element_index,
    element_vector, queue_device, queue_number, reduction_index, reduction_keeps,
};
pub use numbers::{Word, convert, converted_num, identity, one, reduced, truth};
pub use objects::{
    as_thing, as_truth, bound, converted_to, copy_of, count_of, finish_of, is_zero, natural,
    naturals, nothing, number, number_as, object_from, of_natural, of_naturals, of_word, scalar_of,
    single, sized, taken_as, truth_of, unsigned_long, word, zero_of,
};
pub use operators::{applied, applied_one, combined};
pub use signs::{assignment_operator, cause_of, error_object, error_of, error_word, step_operator};
pub use types::{element_of, kind_in, width};
