//! The walk over declarations, full expressions, printed items and constants of the file.
#![tactic(auto)]

mod constants;
mod declarations;
mod declarators;
mod expressions;
mod initializers;
mod names;
mod objects;
mod printing;

pub use constants::constant;
pub use declarations::declaration;
pub use expressions::full;
pub use printing::printed;
