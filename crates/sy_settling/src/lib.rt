//! Laws of the one-copy machine on boards whose entries have not settled yet: settling before an ask
//! has its effect and after it is settling after it, and each entry may take effect in its turn. No
//! code of the runtime is here.
#![tactic(auto)]

pub mod laws;
#[cfg(test)]
mod tests;
