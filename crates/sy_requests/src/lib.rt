//! What the asks of a body are made of: extents and positions, regions of buffers, needs, command groups, and the
//! bytes of printed numbers. Each function is its definition of `sy_meaning`.
//!
//! A number that its type can't hold, as a product of extents from 2^64 on, is want of memory.
#![tactic(auto)]

mod extents;
mod groups;
mod needs;
mod positions;
mod printing;
mod regions;
#[cfg(test)]
mod tests;

pub use extents::{
    Pairing, both, divides, extents_of, linear_id, plus, product, quotient, range_of, remainder,
    times,
};
pub use groups::{
    add_local, add_need, add_node, add_reduction, has_need_on, is_reduced, operator_of,
    with_command,
};
pub use needs::{joint, need_index, with_need};
pub use positions::{
    coordinates, global_id, group_id, group_range, local_id, local_range, no_position,
};
pub use printing::printed_bytes;
pub use regions::{first_of_region, fit_in, is_contiguous, is_nd};
