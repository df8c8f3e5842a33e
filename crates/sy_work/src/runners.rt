// What runs commands, what stands between their start and their end, and the program of a run.

ghost use Rattle.std.specs.Prelude.{◌≡◌, ℕ, IfOk};
ghost use Rattle.sy_work.specs.Programs.{OutcomeOf, Program};
ghost use Rattle.sy_work.specs.Inputs.{InputsFit};

use crate::commands::{Command, Inputs, Outcome};
use std::alloc::AllocError;
use std::marker::Brand;
use std::thread::Threads;

/// What runs the commands.
pub trait Runner {
    ghost use Rattle.sy_work.specs.declared.commands.Command.{Command};

    /// The outcome of a command on inputs.
    ghost outcome: { Self → OutcomeOf };

    /// The commands that it can run.
    ghost knows: { Self → Command → Type 0 };

    fn run(&self, c: &Command, inputs: &Inputs) -> Result<Outcome, AllocError>
        requires known { knows self.now c.now }
        requires fit { InputsFit c.now inputs.now }
        ensures { IfOk result (λ o. o ≡ outcome self.now c.now inputs.now) };

    /// The same; it may start threads, and joins those that it starts.
    fn run_with<T: Threads + Sync>(
        &self,
        rt: &T,
        c: &Command,
        inputs: &Inputs,
    ) -> Result<Outcome, AllocError>
        requires known { knows self.now c.now }
        requires fit { InputsFit c.now inputs.now }
        ensures { IfOk result (λ o. o ≡ outcome self.now c.now inputs.now) };
}

/// What a worker calls outside the lock: `begin` before it runs a node's command, and `copy` while it
/// copies a buffer to a place. It changes nothing of the run.
pub trait Gate {
    fn begin(&self, node: u32);

    fn copy(&self, buffer: u32, to: u32);
}

/// The gate that does nothing.
#[derive(Clone, Copy, Debug)]
pub struct NoGate;

impl Gate for NoGate {
    fn begin(&self, _node: u32) {}

    fn copy(&self, _buffer: u32, _to: u32) {}
}

/// The program and the turns of a run. Each call of what runs a program picks them.
///
/// The turns are how many each thread of host code may take, counted for each thread by itself: one
/// for each start of a loop's body, each call of a function of the source, and each ask but `Finish`
/// and `Halt`. The turns of work items are those of their `Kernel`.
pub trait Named {
    ghost program: { Program };

    ghost turns: { ℕ };
}

impl Named for Brand {
    ghost use Rattle.sy_work.specs.Programs.{idle};

    ghost program = { idle };

    ghost turns = { 0 };
}
