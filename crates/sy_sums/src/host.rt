// A main that prints sums, as a host that is suspended at its asks.

ghost use Rattle.std.specs.Prelude.{◌≡◌, ℕ, ℤ, List, [], length, drop, None, IfOk, ⊤};
ghost use Rattle.std.specs.Fmt.{signed_decimal};
ghost use Rattle.sy_work.specs.declared.commands.Outcome.TheVariants.{Wrote};
ghost use Rattle.sy_work.specs.Programs.{NextAsk};
ghost use Rattle.sy_sums.specs.Hosts.{StandsFor, ahead, open_ask};
ghost use Rattle.sy_sums.specs.Sums.{ask_here, operands, statements_of};

use crate::asked::{Asked, kept};
use crate::places::next_operand;
use crate::sums::{Given, Operand, statements_of};
use itoa::Buffer;
use std::alloc::{AllocError, Global};
use std::thread::Threads;
use sy_access::{Bytes, Log, Values};
use sy_tree::Unit;
use sy_work::{Answer, Ask, Cause, Command, Halt, Host, HostStop, Inputs, Outcome, Runner};

/// A main that prints sums.
#[derive(Drop)]
pub struct Sums<'a> {
    alloc: Global,
    unit: &'a Unit,
    /// The statement of main that it is in, and how many of its items are done.
    at: usize,
    done: usize,
    /// How many turns are left.
    left: u64,
    /// The ask that is open, if one is.
    asked: Option<Asked>,
}

impl<'a> Sums<'a> {
    /// Main at its start.
    pub fn new(alloc: Global, unit: &'a Unit, turns: u64) -> Sums<'a>
        ensures closed { ⟦<Sums<'a> as Host>⟧.pending result ≡ None }
        ensures begins { (next : NextAsk) (at : ℕ) (captures : List ℤ) → StandsFor next 0 turns None (operands unit.now) → ⟦<Sums<'a> as Host>⟧.stands result next at captures [] }
    {
        Sums {
            alloc,
            unit,
            at: 0,
            done: 0,
            left: turns,
            asked: None,
        }
    }
}

/// A number in decimal.
fn decimal(alloc: Global, number: i128) -> Result<Bytes, AllocError>
    ensures { IfOk result (λ bytes. bytes ≡ signed_decimal number) }
{
    let mut digits = Buffer::new();
    let text = digits.format(number);
    Ok(Bytes::of(Vec::from_slice(alloc, text.as_bytes())?))
}

/// What main asks at this sum.
fn ask_here(alloc: Global, in_turns: bool, sum: Option<Operand>) -> Result<Ask, AllocError>
    ensures { IfOk result (λ ask. ask ≡ ask_here in_turns sum) }
{
    let Some(sum) = sum else {
        return Ok(Ask::Finish(0));
    };
    match sum.given {
        Given::Overflow(line) => Ok(Ask::Halt(Halt::Trapped(Cause::Overflow, line))),
        Given::Number(number) => {
            if in_turns {
                Ok(Ask::Print(decimal(alloc, number)?))
            } else {
                Ok(Ask::Halt(Halt::TurnsSpent(sum.line)))
            }
        }
    }
}

impl<'a> Host for Sums<'a> {
    ghost pending = { λ s. open_ask s.left s.asked };

    ghost left = { λ s. s.left };

    ghost stands = { λ s next at captures answers. StandsFor next (length answers) s.left s.asked (ahead s.done (drop s.at (statements_of s.unit.now.items))) };

    fn next(&mut self, _slice: u32) -> Result<HostStop, AllocError> {
        let found = next_operand(statements_of(self.unit), self.at, self.done);
        let ask = ask_here(self.alloc, 0 < self.left, found.operand)?;
        self.at = found.at;
        self.done = found.done;
        self.asked = Some(kept(found.operand));
        Ok(HostStop::Asked(ask))
    }

    fn answer(&mut self, _a: Answer) -> Result<(), AllocError> {
        self.left = self.left.saturating_sub(1);
        self.asked = None;
        Ok(())
    }

    /// It never starts a thread.
    fn child(&self, _body: u32, _captures: &Values) -> Result<Sums<'a>, AllocError> {
        Ok(Sums::new(self.alloc, self.unit, self.left))
    }
}

/// A runner for a source without commands: each leaves everything as it is.
#[derive(Drop)]
pub struct NoCommands {
    pub alloc: Global,
}

impl Runner for NoCommands {
    ghost outcome = { λ s command inputs. Wrote [] };

    ghost knows = { λ s command. ⊤ };

    fn run(&self, _c: &Command, _inputs: &Inputs) -> Result<Outcome, AllocError> {
        Ok(Outcome::Wrote(Log::of(Vec::new(self.alloc))))
    }

    fn run_with<T: Threads + Sync>(
        &self,
        _rt: &T,
        c: &Command,
        inputs: &Inputs,
    ) -> Result<Outcome, AllocError> {
        self.run(c, inputs)
    }
}
