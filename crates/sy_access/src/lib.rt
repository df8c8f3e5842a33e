//! What commands and host accesses touch: needs of buffers' elements, cells, the logs of what was
//! written, the small lists that requests are made of, and the compute units of devices.
#![tactic(auto)]

mod access;
mod cells;
mod devices;
mod lists;

pub use access::{
    Mode, Need, Needs, apart, conflict_is_a_shared_element, conflicts, needs_meet_both_ways,
};
pub use cells::{Cell, Log, a_log_names_each_cell_once};
pub use devices::{Device, PartStop, part_is_by_units, part_of, partition};
pub use lists::{Bytes, Numbers, Sizes, Values};

#[cfg(test)]
mod tests;
