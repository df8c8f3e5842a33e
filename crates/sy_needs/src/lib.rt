//! What the needs of commands and host accesses decide: the numbers that a command starts with and
//! leaves, whether it needs the current version of a buffer, and which of two entries comes before the
//! other. These are definitions alone, which the crates above share.
#![tactic(auto)]
