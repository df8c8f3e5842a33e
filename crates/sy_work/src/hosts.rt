// A thread of host code that is suspended at its asks.

ghost use Rattle.std.specs.Prelude.{◌≡◌, ◌+◌, ◌≤◌, ◌++◌, List, [], ◌∷◌, ℤ, ℕ, OnOk, OnErr, IfOk, Option, Some, None};
ghost use Rattle.sy_work.specs.Programs.{NextAsk};
ghost use Rattle.sy_work.specs.Answers.{Fits};
ghost use Rattle.sy_work.specs.Stops.{MatchStop, TakesFewer};

use crate::asks::{Answer, Ask};
use std::alloc::AllocError;
use sy_access::Values;

/// Why a host stopped: it asks, or its slice of turns is spent.
#[derive(Debug, Drop)]
pub enum HostStop {
    Asked(Ask),
    Sliced,
}

/// A thread that is suspended at its asks.
pub trait Host: Sized {
    ghost use Rattle.sy_work.specs.declared.asks.Ask.{Ask};
    ghost use Rattle.sy_work.specs.declared.asks.Answer.{Answer};

    /// The ask that is open, if there is one.
    ghost pending: { Self → Option Ask };

    /// How many turns the thread may still take.
    ghost left: { Self → ℕ };

    /// The host stands for a body, captures and the answers so far, where this function gives next asks.
    ghost stands: { Self → NextAsk → ℕ → List ℤ → List Answer → Type 0 };

    /// Runs to the next ask, for at most `slice` turns.
    ///
    /// An ask takes its own turn when it is answered and not in the call that reaches it, so with a
    /// slice of 1 a thread whose first act is an ask gives that ask. It stops as `Sliced` once this
    /// call has taken `slice` turns of loops and calls.
    fn next(&mut self, slice: u32) -> Result<HostStop, AllocError>
        requires slice { 1 ≤ slice }
        requires answered { pending self.old ≡ None }
        ensures open { MatchStop result (λ ask. pending self.new ≡ Some ask) (pending self.new ≡ None) (pending self.new ≡ None) }
        ensures turns { MatchStop result (λ ask. TakesFewer slice (left self.old) (left self.new)) (left self.new + slice ≡ left self.old) (TakesFewer slice (left self.old) (left self.new)) }
        ensures asks { (n : NextAsk) (body : ℕ) (captures : List ℤ) (answers : List Answer) → stands self.old n body captures answers → MatchStop result (λ ask. ask ≡ n body captures answers) (Unit {0}) (Unit {0}) }
        ensures kept { (n : NextAsk) (body : ℕ) (captures : List ℤ) (answers : List Answer) → stands self.old n body captures answers → stands self.new n body captures answers };

    /// Gives the answer of the open ask.
    fn answer(&mut self, a: Answer) -> Result<(), AllocError>
        requires fits { (ask : Ask) × (pending self.old ≡ Some ask) × Fits ask a }
        ensures closed { OnOk result (pending self.new ≡ None) }
        ensures longer { (n : NextAsk) (body : ℕ) (captures : List ℤ) (answers : List Answer) → stands self.old n body captures answers → OnOk result (stands self.new n body captures (answers ++ a ∷ [])) }
        ensures failed { OnErr result (pending self.new ≡ pending self.old) }
        ensures kept { (n : NextAsk) (body : ℕ) (captures : List ℤ) (answers : List Answer) → stands self.old n body captures answers → OnErr result (stands self.new n body captures answers) };

    /// The thread that the open ask `Spawn` starts.
    fn child(&self, body: u32, captures: &Values) -> Result<Self, AllocError>
        requires { pending self.now ≡ Some (Ask.Spawn body captures.now) }
        ensures closed { IfOk result (λ host. pending host ≡ None) }
        ensures begins { (n : NextAsk) (parent : ℕ) (its_captures : List ℤ) (answers : List Answer) → stands self.now n parent its_captures answers → IfOk result (λ host. stands host n body captures.now []) };
}
