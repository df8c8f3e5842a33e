//! The items of a file: its functions, over a function value that walks over blocks, and what its constants and functions
//! come to together.
#![tactic(auto)]

mod file;
mod functions;
mod items;

pub use file::File;
pub use functions::{function, narrowed};
pub use items::FileItems;
