//! The plain program: a run of the one-copy machine as it is written, in which the least thread that
//! may step makes each step. It serves to compare other runtimes with, so it is plain and not fast.
#![tactic(auto)]

mod hosts;
mod run;

pub use run::run_plain;
