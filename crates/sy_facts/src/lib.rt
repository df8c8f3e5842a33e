//! What is known of the parts of a typed tree before they are evaluated: types, the lines at which temporaries end,
//! whether there are any, and what an expression designates. Each function is a field of the part's meaning in
//! `sy_meaning`.
#![tactic(auto)]

mod arguments;
mod lines;
mod locations;
mod statements;
mod temporaries;
#[cfg(test)]
mod tests;

pub use arguments::{argument_last, argument_what, arguments_last};
pub use lines::{last_of, line_of};
pub use locations::{location_of, what_of};
pub use statements::{declaration_last, full_last, printed_last, printed_makes, statement_last};
pub use temporaries::{any_argument_makes, any_makes, argument_makes, makes};
