//! What host threads ask and are answered, the commands of queues with their outcomes, and the traits
//! of what stands behind them: hosts, runners and gates.
#![tactic(auto)]

mod asks;
mod commands;
mod endings;
mod hosts;
mod moves;
mod runners;

pub use asks::{Answer, Ask, Errc, Halt, NewBuffer, NewQueue, Submission, Why};
pub use commands::{Collect, Command, Form, Inputs, Kernel, Outcome, RedOp, Reduction};
pub use endings::{Cause, End, Ending, Fault, HostTrap, KernelError};
pub use hosts::{Host, HostStop};
pub use moves::{copied, filled, moves_are_read_back};
pub use runners::{Gate, Named, NoGate, Runner};

#[cfg(test)]
mod tests;
