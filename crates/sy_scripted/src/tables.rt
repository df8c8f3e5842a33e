// A runner that knows the outcomes of kernels by a table.

ghost use Rattle.std.specs.Prelude.{◌≡◌, ◌==◌, IfOk, find, ⊤};
ghost use Rattle.std.specs.Option.{option_copied};
ghost use Rattle.sy_scripted.specs.Tables.{outcome_at, tabled};

use std::alloc::{AllocError, Global};
use std::thread::Threads;
use sy_access::Log;
use sy_work::{Command, Inputs, Outcome, Runner, copied, filled};

/// The outcome of the kernels with one code number.
#[derive(Drop)]
pub struct TableRow {
    pub code: u32,
    pub outcome: Outcome,
}

/// A runner that answers a kernel's outcome by its code number, from the first row that has it, and
/// fills and copies. A kernel that no row has writes nothing.
#[derive(Drop)]
pub struct Tabled {
    alloc: Global,
    rows: Vec<TableRow>,
}

impl Tabled {
    pub fn new(alloc: Global, rows: Vec<TableRow>) -> Tabled
        ensures outcomes { ⟦<Tabled as Runner>⟧.outcome result ≡ tabled rows.items }
    {
        Tabled { alloc, rows }
    }

    fn row(&self, code: u32) -> Option<&TableRow>
        ensures { option_copied result ≡ find (λ row. row.code == code) self.now.rows.items }
    {
        self.rows.iter().find(|row| row.code == code)
    }

    fn kernel_outcome(&self, code: u32) -> Result<Outcome, AllocError>
        ensures { IfOk result (λ o. o ≡ outcome_at self.now.rows.items code) }
    {
        match self.row(code) {
            Some(row) => row.outcome.clone(),
            None => Ok(Outcome::Wrote(Log::of(Vec::new(self.alloc)))),
        }
    }
}

impl Runner for Tabled {
    ghost outcome = { λ s. tabled s.rows.items };

    ghost knows = { λ s command. ⊤ };

    fn run(&self, c: &Command, inputs: &Inputs) -> Result<Outcome, AllocError> {
        let inputs = inputs.items();
        match c {
            Command::Single(kernel) | Command::Plain(_, kernel) | Command::Nd(_, kernel) => {
                self.kernel_outcome(kernel.code)
            }
            Command::Reduce(reduction) => self.kernel_outcome(reduction.kernel.code),
            Command::Fill(target, number) => {
                Ok(Outcome::Wrote(filled(self.alloc, &inputs[*target as usize], *number)?))
            }
            Command::Copy(source, target) => {
                let source = &inputs[*source as usize];
                Ok(Outcome::Wrote(copied(self.alloc, source, &inputs[*target as usize])?))
            }
        }
    }

    fn run_with<T: Threads + Sync>(
        &self,
        _rt: &T,
        c: &Command,
        inputs: &Inputs,
    ) -> Result<Outcome, AllocError> {
        self.run(c, inputs)
    }
}
