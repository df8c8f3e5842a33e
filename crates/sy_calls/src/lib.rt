//! Calls over what is seen of their arguments (functions of the source, the library's functions, members and objects):
//! what is seen of them, and which rules are broken at them.
#![tactic(auto)]

mod arguments;
mod calls;
mod library;

pub use calls::call;
pub use library::{construct, library_call, member_call, no_dimension_in_type, wide_in_type};
