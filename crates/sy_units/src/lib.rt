//! What a unit breaks beside its functions' bodies: no `main`, parameters and constants, and what functions hold back
//! until a kernel or group calls them.
#![tactic(auto)]

mod constants;
mod functions;
mod held;
mod parameters;

pub use constants::constant;
pub use functions::{
    count_functions, declare_function, in_function, no_main, place_of_main, returned_kind,
};
pub use held::held_back;
pub use parameters::{parameter, passed_to};
