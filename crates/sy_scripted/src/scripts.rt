// A host whose threads ask what lists say, and look whether they are answered as the lists want.

ghost use Rattle.std.specs.Prelude.{◌≡◌, [], Some, None, IfOk, length, min, if◌then◌else◌, not, ◌||◌};
ghost use Rattle.std.specs.Arc.{arc_value};
ghost use Rattle.sy_scripted.specs.Answers.{same_answer, same_errc, suits};
ghost use Rattle.sy_scripted.specs.Scripts.{script_of, scripted, ask_at, suits_at, differ, next_at, place_after, Plays};

use std::alloc::{AllocError, Global};
use std::marker::Model;
use std::sync::Arc;
use sy_access::Values;
use sy_work::{Answer, Ask, Cause, Errc, Halt, Host, HostStop};

/// An ask, and the answer that is wanted, if one is.
#[derive(Drop)]
pub struct Line {
    pub ask: Ask,
    pub wants: Option<Answer>,
}

impl Line {
    /// An ask whose answer isn't looked at.
    pub fn of(ask: Ask) -> Line
        ensures ask { result.ask ≡ ask }
        ensures wants { result.wants ≡ None }
    {
        Line { ask, wants: None }
    }

    fn suits(&self, a: &Answer) -> bool
        ensures { result ≡ suits self.now.wants a.now }
    {
        match &self.wants {
            None => true,
            Some(wanted) => same_answer(wanted, a),
        }
    }
}

/// Whether two answers are the same.
fn same_answer(a: &Answer, b: &Answer) -> bool
    ensures { result ≡ same_answer a.now b.now }
{
    match (a, b) {
        (Answer::Done, Answer::Done) => true,
        (Answer::Number(m), Answer::Number(n)) => m == n,
        (Answer::Contents(v), Answer::Contents(w)) => v.items() == w.items(),
        (Answer::Refused(e), Answer::Refused(f)) => same_errc(*e, *f),
        _ => false,
    }
}

fn same_errc(a: Errc, b: Errc) -> bool
    ensures { result ≡ same_errc a b }
{
    matches!(
        (a, b),
        (Errc::Runtime, Errc::Runtime)
            | (Errc::NdRange, Errc::NdRange)
            | (Errc::KernelArgument, Errc::KernelArgument)
            | (Errc::Invalid, Errc::Invalid)
            | (Errc::MemoryAllocation, Errc::MemoryAllocation)
    )
}

/// The asks of one body, in order.
#[derive(Drop)]
pub struct Script {
    lines: Vec<Line>,
}

impl Model for Script {
    ghost use Rattle.std.specs.Prelude.{List};
    ghost use Rattle.sy_scripted.specs.declared.scripts.Line.{Line};

    ghost Value = { List Line };

    ghost view = { λ s. s.lines.items };
}

impl Script {
    pub fn of(lines: Vec<Line>) -> Script
        ensures { result ≡ lines.items }
    {
        Script { lines }
    }

    /// The ask after so many answers; a script that is over finishes with 0.
    fn ask(&self, at: usize) -> Result<Ask, AllocError>
        ensures { IfOk result (λ ask. ask ≡ ask_at self.now at) }
    {
        match self.lines.get(at) {
            Some(line) => line.ask.clone(),
            None => Ok(Ask::Finish(0)),
        }
    }

    /// Whether the answer of that ask is as wanted.
    fn suits(&self, at: usize, a: &Answer) -> bool
        ensures { result ≡ suits_at self.now at a.now }
    {
        match self.lines.get(at) {
            Some(line) => line.suits(a),
            None => true,
        }
    }

    fn len(&self) -> usize
        ensures { result ≡ length self.now }
    {
        self.lines.len()
    }
}

/// A thread of scripts, one for each body. Before its next ask it spends whole slices of the turns
/// that it has left. Once an answer isn't as wanted it asks nothing but to end the run by a trap.
#[derive(Drop)]
pub struct Scripted {
    scripts: Arc<Vec<Script>>,
    body: u32,
    at: usize,
    differs: bool,
    asked: bool,
    turns: u64,
}

impl Scripted {
    /// The thread of `body`, with no ask open and `turns` turns left.
    pub fn new(
        alloc: Global,
        scripts: Vec<Script>,
        body: u32,
        turns: u64,
    ) -> Result<Scripted, AllocError>
        ensures closed { IfOk result (λ host. ⟦<Scripted as Host>⟧.pending host ≡ None) }
        ensures turns { IfOk result (λ host. ⟦<Scripted as Host>⟧.left host ≡ turns) }
        ensures begins { IfOk result (λ host. ⟦<Scripted as Host>⟧.stands host (scripted scripts.items) body [] []) }
    {
        let scripts = Arc::new(alloc, scripts)?;
        Ok(Scripted {
            scripts,
            body,
            at: 0,
            differs: false,
            asked: false,
            turns,
        })
    }

    /// The ask that comes next.
    fn ask(&self) -> Result<Ask, AllocError>
        ensures { IfOk result (λ ask. ask ≡ next_at (script_of (arc_value self.now.scripts).items self.now.body) self.now.differs self.now.at) }
    {
        if self.differs {
            return Ok(Ask::Halt(Halt::Trapped(Cause::Index, 0)));
        }
        match self.scripts.get(self.body as usize) {
            Some(script) => script.ask(self.at),
            None => Ok(Ask::Finish(0)),
        }
    }

    /// Whether this answer, or one before it, isn't as wanted.
    fn differs(&self, a: &Answer) -> bool
        ensures { result ≡ (self.now.differs || not (suits_at (script_of (arc_value self.now.scripts).items self.now.body) self.now.at a.now)) }
    {
        if self.differs {
            return true;
        }
        match self.scripts.get(self.body as usize) {
            Some(script) => !script.suits(self.at, a),
            None => false,
        }
    }

    /// The place in the script after one more answer.
    fn place_after(&self) -> usize
        ensures { result ≡ place_after self.now.at (length (script_of (arc_value self.now.scripts).items self.now.body)) }
    {
        let count = match self.scripts.get(self.body as usize) {
            Some(script) => script.len(),
            None => 0,
        };
        if self.at < count {
            self.at + 1
        } else {
            self.at
        }
    }
}

impl Host for Scripted {
    ghost pending = { λ s. if s.asked then Some (next_at (script_of (arc_value s.scripts).items s.body) s.differs s.at) else None };

    ghost left = { λ s. s.turns };

    ghost stands = { λ s next body captures answers. Plays next (arc_value s.scripts).items × (s.body ≡ body) × (s.at ≡ min (length answers) (length (script_of (arc_value s.scripts).items body))) × (s.differs ≡ differ answers (script_of (arc_value s.scripts).items body)) };

    fn next(&mut self, slice: u32) -> Result<HostStop, AllocError> {
        let slice = slice as u64;
        if slice <= self.turns {
            self.turns -= slice;
            return Ok(HostStop::Sliced);
        }
        let ask = self.ask()?;
        self.asked = true;
        Ok(HostStop::Asked(ask))
    }

    fn answer(&mut self, a: Answer) -> Result<(), AllocError> {
        self.differs = self.differs(&a);
        self.at = self.place_after();
        self.asked = false;
        Ok(())
    }

    fn child(&self, body: u32, _captures: &Values) -> Result<Scripted, AllocError> {
        Ok(Scripted {
            scripts: self.scripts.clone()?,
            body,
            at: 0,
            differs: false,
            asked: false,
            turns: self.turns,
        })
    }
}
