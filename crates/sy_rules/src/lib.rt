//! The rules of typing, as definitions: which rules a source breaks and where, and the typed tree of one that
//! breaks none. The types are those that the definitions speak of; the laws are the contracts of `laws`.
#![tactic(auto)]

pub mod laws;
mod library;
mod names;
mod seen;
mod statements;

pub use library::{Fit, KernelIndex, Role, Row, Wanted};
pub use names::{
    Entries, Entry, Named, Names, Parameters, Passed, Setting, Signature, Signatures, Taken,
    ThreadScope, Threads, Within,
};
pub use seen::{Constant, Denotes, Seen, SeenArgument, SeenInitializer, SeenLambda};
pub use statements::{Shared, Standing};
