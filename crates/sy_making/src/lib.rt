//! How objects of the library are made, and what their arguments say. Each function is its definition of `sy_meaning`.
//!
//! A number that its type can't hold, as the first element of a sub-buffer from 2^32 on, is want of memory.
#![tactic(auto)]

mod accessors;
mod arguments;
mod asked;
mod buffers;
mod objects;
mod queues;
#[cfg(test)]
mod tests;
mod vectors;

pub use accessors::{is_reduced_in, make_accessor, make_host, make_local, need_of};
pub use arguments::{
    Given, counts_in, has_identity_tag, has_in_order_tag, has_no_init_tag, range_at, type_at,
    value_at,
};
pub use asked::{asked_contents, asked_number, contents_in, done_in, trapped};
pub use buffers::{make_buffer, root_index};
pub use objects::{has_end, kept, live_of, make, make_temporary};
pub use queues::{device_or_whole, make_context, make_queue};
pub use vectors::{counted_values, length_limit, make_counted, make_team, make_vector};
