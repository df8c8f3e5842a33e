//! What the work items of a group touch, and which of these touches clash.
//!
//! The cells of a command are numbered once; a group's footprint is a sparse set over these numbers,
//! and of the earlier groups a state is kept for each cell.
#![tactic(auto)]

mod earlier;
mod entries;
mod entry;
mod footprint;
mod numbering;
mod runs;
mod stops;

pub use earlier::{EarlierGroups, State};
pub use entry::Entry;
pub use footprint::Footprint;
pub use numbering::CellNumbers;
pub use stops::{AbsorbStop, NumberingStop, TouchStop};

#[cfg(test)]
mod tests;
