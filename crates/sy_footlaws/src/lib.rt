//! Laws that tie the footprints of `sy_foot` to those by which a kernel's meaning is defined. There is
//! no code of the runtime here.
#![tactic(auto)]

pub mod laws;
