// The state of the machine, and what one ask of a thread does to it.

ghost use Rattle.std.specs.Prelude.{◌≡◌, ◌≢◌, ◌+◌, ◌<◌, ◌≤◌, ◌^◌, length, nat_le, nat_lt, IfOk, OnOk, ℕ, ℤ, List, [], ◌∷◌, None, Some, slice_get};
ghost use Rattle.sy_onecopy.specs.declared.Stage.TheVariants.{Pending};
ghost use Rattle.sy_range.specs.LinearIds.{product};
ghost use Rattle.sy_work.specs.declared.asks.Submission.{Submission};
ghost use Rattle.sy_work.specs.Inputs.{InputsFit};
ghost use Rattle.sy_onecopy.specs.State.{Board, opening};
ghost use Rattle.sy_onecopy.specs.Before.{is_free};
ghost use Rattle.sy_onecopy.specs.Outcome.{inputs};
ghost use Rattle.sy_onecopy.specs.Settle.{await, reply, with_stage, to_stage, took, first_of, effect, settle_one, settle_upto, settle};
ghost use Rattle.sy_onecopy.specs.Each.{changed_at};
ghost use Rattle.sy_onecopy.specs.Step.{stop, after_print, new_buffer, add_buffer, made_buffer, made_part, add_entry, with_end, mark_ended, end_root, end_buffer, access_entry, opened_host, put_back, after_close, close_at, close_found, access_from, made_context, made_queue, node_entry, holds_together, after_submit, throw_queue, after_spawn, add_node, wait_if, apply, is_due, give_all, begin_ask, turn, once_heard};
ghost use Rattle.sy_sound.specs.Sound.{IsSound};
ghost use Rattle.sy_sound.specs.Known.{AllKnown, IsKnown};
ghost use Rattle.sy_board.specs.Sizes.{HasRoom};
ghost use Rattle.sy_entries.specs.Sizes.{AreNumbered};
ghost use Rattle.sy_board.specs.Turns.{give_one, due_of, hear_one};

use std::alloc::{AllocError, Global};
use std::marker::Model;
use std::mem;
use sy_access::{Bytes, Log, Mode, Need, Needs, Numbers, Values};
use sy_entries::cells::{buffers_after, buffers_put, inputs, values_at};
use sy_entries::needs::{
    are_below, are_root_needs, count_of, fitting, has_count, has_needs, is_root, is_root_need,
};
use sy_entries::order::is_free;
use sy_entries::waits::{
    access_at, accesses, ending_by, error_on, has_finished, node_done, queue_done,
};
use sy_onecopy::{Buffer, Entry, Origin, Queue, Stage, Waits, Work};
use sy_range::{Range, count};
use sy_work::{
    Answer, Ask, Command, Ending, Errc, Inputs, NewBuffer, NewQueue, Outcome, Runner, Submission,
    Why,
};

/// What a step reads and changes beside the answers of the threads.
#[derive(Drop)]
pub struct OneCopy {
    pub(crate) buffers: Vec<Buffer>,
    pub(crate) queues: Vec<Queue>,
    pub(crate) places: u32,
    pub(crate) entries: Vec<Entry>,
    pub(crate) nodes: u32,
    pub(crate) waits: Vec<Waits>,
    pub(crate) output: Bytes,
    pub(crate) ended: Option<Ending>,
    pub(crate) steps: u32,
}

impl Model for OneCopy {
    ghost use Rattle.sy_onecopy.specs.State.{Board};

    ghost Value = { Board };

    ghost view = { λ s. record { buffers = s.buffers.items; queues = s.queues.items; places = s.places; entries = s.entries.items; nodes = s.nodes; waits = s.waits.items; output = s.output; ended = s.ended; steps = s.steps } };
}

impl OneCopy {
    /// Thread 0 is ready, and nothing else is there.
    pub fn new(alloc: Global) -> Result<OneCopy, AllocError>
        ensures { IfOk result (λ b. b ≡ opening) }
    {
        Ok(OneCopy {
            buffers: Vec::new(alloc),
            queues: Vec::new(alloc),
            places: 2,
            entries: Vec::new(alloc),
            nodes: 0,
            waits: vec![in alloc; Waits::Ready]?,
            output: Bytes::of(Vec::new(alloc)),
            ended: None,
            steps: 0,
        })
    }

    fn await_at(&mut self, t: usize, w: Waits)
        ensures { self.new ≡ await self.old t w }
    {
        if t < self.waits.len() {
            self.waits[t] = w;
        }
    }

    fn await_on(&mut self, t: u32, w: Waits)
        ensures { self.new ≡ await self.old t w }
    {
        self.await_at(t as usize, w);
    }

    fn reply(&mut self, t: u32, a: Answer)
        ensures { self.new ≡ reply self.old t a }
    {
        self.await_on(t, Waits::Due(a));
    }

    fn stop(&mut self, e: Ending)
        ensures { self.new ≡ stop self.old e }
    {
        self.ended = Some(e);
    }

    fn add_entry(&mut self, e: Entry) -> Result<(), AllocError>
        ensures { OnOk result (self.new ≡ add_entry self.old e) }
    {
        self.entries.push(e)?;
        Ok(())
    }

    fn to_stage(&mut self, k: usize, s: Stage)
        ensures { self.new ≡ to_stage self.old k s }
    {
        set_stage(&mut self.entries, k, s);
    }

    /// The node at k takes its outcome.
    #[tactic(auto, unfolding(sy_onecopy::specs::Settle::took))]
    fn take(
        &mut self,
        alloc: Global,
        k: usize,
        needs: &[Need],
        outcome: Outcome,
    ) -> Result<(), AllocError>
        requires { AreNumbered self.old.buffers }
        ensures { OnOk result (self.new ≡ took self.old k needs.now outcome) }
    {
        match outcome {
            Outcome::Wrote(log) => {
                self.buffers = buffers_after(alloc, needs, &log, self.buffers.as_slice())?;
                self.to_stage(k, Stage::Done);
                Ok(())
            }
            Outcome::Failed(fault) => {
                let log = Log::of(Vec::new(alloc));
                self.buffers = buffers_after(alloc, needs, &log, self.buffers.as_slice())?;
                self.to_stage(k, Stage::Failed(fault));
                Ok(())
            }
        }
    }

    /// The entry at k takes effect.
    #[tactic(auto, unfolding(sy_onecopy::specs::Settle::effect))]
    fn effect<R: Runner>(&mut self, alloc: Global, k: usize, runner: &R) -> Result<(), AllocError>
        requires here { k < length self.old.entries }
        requires sound { IsSound self.old }
        requires known { AllKnown (R.knows runner.now) self.old.entries }
        ensures { (e : Entry) → slice_get self.old.entries k ≡ Some e → OnOk result (self.new ≡ effect (R.outcome runner.now) self.old k e e.work) }
    {
        let e = &self.entries[k];
        match &e.work {
            Work::Node(_, _, command) => {
                let given = inputs(alloc, self.buffers.as_slice(), e.needs.items())?;
                let outcome = runner.run(command, &given)?;
                let needs = e.needs.copy(alloc)?;
                self.take(alloc, k, needs.items(), outcome)?;
                Ok(())
            }
            Work::Access(t, _) => {
                let t = *t;
                let given = inputs(alloc, self.buffers.as_slice(), e.needs.items())?;
                let values = first_of(alloc, &given)?;
                self.to_stage(k, Stage::Granted);
                self.reply(t, Answer::Contents(values));
                Ok(())
            }
            Work::End(t, r) => {
                let t = *t;
                let values = Vec::from_slice(alloc, values_at(self.buffers.as_slice(), *r))?;
                self.to_stage(k, Stage::Done);
                self.reply(t, Answer::Contents(Values::of(values)));
                Ok(())
            }
        }
    }

    /// The entry at k takes effect, if it may.
    #[tactic(auto, unfolding(sy_onecopy::specs::Settle::settle_entry))]
    fn settle_at<R: Runner>(
        &mut self,
        alloc: Global,
        k: usize,
        runner: &R,
    ) -> Result<(), AllocError>
        requires sound { IsSound self.old }
        requires known { AllKnown (R.knows runner.now) self.old.entries }
        ensures { OnOk result (self.new ≡ settle_one (R.outcome runner.now) k self.old) }
    {
        if k < self.entries.len() && is_free(self.entries.as_slice(), k, &self.entries[k]) {
            return self.effect(alloc, k, runner);
        }
        Ok(())
    }

    /// One pass over the entries.
    fn settle<R: Runner>(&mut self, alloc: Global, runner: &R) -> Result<(), AllocError>
        requires sound { IsSound self.old }
        requires known { AllKnown (R.knows runner.now) self.old.entries }
        ensures { OnOk result (self.new ≡ settle (R.outcome runner.now) self.old) }
    {
        for k in 0..self.entries.len() {
            self.settle_at(alloc, k, runner)?;
        }
        Ok(())
    }

    #[tactic(auto, unfolding(sy_onecopy::specs::Step::after_print))]
    fn print(&mut self, t: u32, bytes: &Bytes) -> Result<(), AllocError>
        ensures { OnOk result (self.new ≡ after_print self.old t bytes.now) }
    {
        if self.output.items().len() + bytes.items().len() <= 1 << 24 {
            self.output.append(bytes)?;
            self.reply(t, Answer::Done);
            return Ok(());
        }
        self.stop(Ending::OutputFull);
        Ok(())
    }

    fn add_buffer(&mut self, t: u32, x: Buffer) -> Result<(), AllocError>
        requires { length self.old.buffers < 2 ^ 32 }
        ensures { OnOk result (self.new ≡ add_buffer self.old t x) }
    {
        let number = self.buffers.len() as u32;
        self.buffers.push(x)?;
        self.reply(t, Answer::Number(number));
        Ok(())
    }

    #[tactic(auto, unfolding(sy_onecopy::specs::Step::made_buffer))]
    fn make_buffer(&mut self, alloc: Global, t: u32, m: &NewBuffer) -> Result<(), AllocError>
        requires room { HasRoom self.old }
        ensures { OnOk result (self.new ≡ made_buffer self.old t m.now) }
    {
        if !has_count(&m.range, &m.init) {
            return Ok(());
        }
        match fitting(self.buffers.as_slice(), &m.range) {
            Some(elements) => {
                let x = new_buffer(alloc, m, elements)?;
                self.add_buffer(t, x)?;
                Ok(())
            }
            None => {
                self.reply(t, Answer::Refused(Errc::MemoryAllocation));
                Ok(())
            }
        }
    }

    #[tactic(auto, unfolding(sy_onecopy::specs::Step::made_part))]
    fn make_part(
        &mut self,
        alloc: Global,
        t: u32,
        parent: u32,
        base: u32,
        range: &Range,
    ) -> Result<(), AllocError>
        requires { length self.old.buffers < 2 ^ 32 }
        ensures { OnOk result (self.new ≡ made_part self.old t parent base (product range.now)) }
    {
        if is_root(self.buffers.as_slice(), parent)
            && ends_within(base, range, count_of(self.buffers.as_slice(), parent))
        {
            let x = Buffer {
                values: Values::of(Vec::new(alloc)),
                origin: Origin::Part,
                ended: false,
            };
            self.add_buffer(t, x)?;
        }
        Ok(())
    }

    fn mark_ended(&mut self, r: u32)
        ensures { self.new ≡ mark_ended self.old r }
    {
        set_ended(&mut self.buffers, r as usize);
    }

    #[tactic(auto, unfolding(sy_onecopy::specs::Step::end_root))]
    fn end_root(
        &mut self,
        alloc: Global,
        t: u32,
        r: u32,
        elements: u32,
        origin: Origin,
    ) -> Result<(), AllocError>
        ensures { (x : Buffer) → length x.values ≡ elements → OnOk result (self.new ≡ end_root self.old t r x origin) }
    {
        self.mark_ended(r);
        match origin {
            Origin::Vector => {
                let need = Need {
                    buffer: r,
                    mode: Mode::ReadWrite,
                    no_init: false,
                    from: 0,
                    to: elements,
                };
                self.add_entry(host_entry(alloc, Work::End(t, r), need)?)?;
                self.await_on(t, Waits::OnEntry);
            }
            Origin::Range => self.reply(t, Answer::Done),
            Origin::Part => self.reply(t, Answer::Done),
        }
        Ok(())
    }

    #[tactic(auto, unfolding(sy_onecopy::specs::Step::end_buffer))]
    fn end_buffer(&mut self, alloc: Global, t: u32, r: u32) -> Result<(), AllocError>
        requires { AreNumbered self.old.buffers }
        ensures { OnOk result (self.new ≡ end_buffer self.old t r (slice_get self.old.buffers r)) }
    {
        match self.buffers.get(r as usize) {
            Some(x) => {
                if x.ended {
                    return Ok(());
                }
                let origin = x.origin;
                let elements = x.values.items().len() as u32;
                self.end_root(alloc, t, r, elements, origin)?;
                Ok(())
            }
            None => Ok(()),
        }
    }

    #[tactic(auto, unfolding(sy_onecopy::specs::Step::opened_host))]
    fn open_host(&mut self, alloc: Global, t: u32, n: &Need) -> Result<(), AllocError>
        requires { length self.old.entries < 2 ^ 32 }
        ensures { OnOk result (self.new ≡ opened_host self.old t n.now) }
    {
        if is_root_need(self.buffers.as_slice(), n) {
            let number = accesses(self.entries.as_slice(), t) as u32;
            self.add_entry(host_entry(alloc, Work::Access(t, number), *n)?)?;
            self.await_on(t, Waits::OnEntry);
        }
        Ok(())
    }

    #[tactic(auto, unfolding(sy_onecopy::specs::Step::put_back))]
    fn put_back(&mut self, alloc: Global, n: &Need, values: &[i128]) -> Result<(), AllocError>
        requires { length self.old.buffers < 2 ^ 32 }
        ensures { OnOk result (self.new ≡ put_back self.old n.now values.now) }
    {
        if n.mode.writes() {
            self.buffers = buffers_put(alloc, n, values, self.buffers.as_slice())?;
        }
        Ok(())
    }

    /// The access at entry k, of this need, is closed with these numbers.
    #[tactic(auto, unfolding(sy_onecopy::specs::Step::after_close))]
    fn close(
        &mut self,
        alloc: Global,
        t: u32,
        values: &[i128],
        k: usize,
        n: &Need,
    ) -> Result<(), AllocError>
        requires { length self.old.buffers < 2 ^ 32 }
        ensures { OnOk result (self.new ≡ after_close self.old t values.now k n.now) }
    {
        if values.len() == n.to.saturating_sub(n.from) as usize {
            self.put_back(alloc, n, values)?;
            self.to_stage(k, Stage::Done);
            self.reply(t, Answer::Done);
        }
        Ok(())
    }

    #[tactic(auto, unfolding(sy_onecopy::specs::Step::close_at, sy_onecopy::specs::Step::close_entry))]
    fn close_at(
        &mut self,
        alloc: Global,
        t: u32,
        values: &[i128],
        k: usize,
    ) -> Result<(), AllocError>
        requires { length self.old.buffers < 2 ^ 32 }
        ensures { OnOk result (self.new ≡ close_at self.old t values.now k (slice_get self.old.entries k)) }
    {
        let Some(e) = self.entries.get(k) else {
            return Ok(());
        };
        match (e.stage, e.needs.items().first()) {
            (Stage::Granted, Some(n)) => {
                let n = *n;
                self.close(alloc, t, values, k, &n)?;
                Ok(())
            }
            _ => Ok(()),
        }
    }

    #[tactic(auto, unfolding(sy_onecopy::specs::Step::close_found))]
    fn close_host(
        &mut self,
        alloc: Global,
        t: u32,
        number: u32,
        values: &[i128],
    ) -> Result<(), AllocError>
        requires { length self.old.buffers < 2 ^ 32 }
        ensures { OnOk result (self.new ≡ close_found self.old t values.now (access_from 0 self.old.entries t number)) }
    {
        match access_at(self.entries.as_slice(), t, number) {
            Some(k) => {
                self.close_at(alloc, t, values, k)?;
                Ok(())
            }
            None => Ok(()),
        }
    }

    #[tactic(auto, unfolding(sy_onecopy::specs::Step::made_context))]
    fn make_context(&mut self, t: u32)
        requires { self.old.places + 1 < 2 ^ 32 }
        ensures { self.new ≡ made_context self.old t }
    {
        if self.places < 17 {
            let place = self.places;
            self.places += 1;
            self.reply(t, Answer::Number(place));
        } else {
            self.reply(t, Answer::Refused(Errc::Runtime));
        }
    }

    #[tactic(auto, unfolding(sy_onecopy::specs::Step::made_queue))]
    fn make_queue(&mut self, t: u32, m: &NewQueue) -> Result<(), AllocError>
        requires { length self.old.queues < 2 ^ 32 }
        ensures { OnOk result (self.new ≡ made_queue self.old t m.now) }
    {
        if 0 < m.context && m.context < self.places {
            let number = self.queues.len() as u32;
            self.queues.push(Queue {
                place: m.context,
                in_order: m.in_order,
            })?;
            self.reply(t, Answer::Number(number));
        }
        Ok(())
    }

    #[tactic(auto, unfolding(sy_onecopy::specs::Step::holds_together))]
    fn holds_together(&self, s: &Submission) -> bool
        ensures { result ≡ holds_together self.now s.now }
    {
        are_root_needs(self.buffers.as_slice(), s.needs.items())
            && (are_below(self.nodes, s.after.items()) && has_needs(s.needs.items(), &s.command))
    }

    fn add_node(&mut self, t: u32, e: Entry) -> Result<(), AllocError>
        requires { self.old.nodes + 1 < 2 ^ 32 }
        ensures { OnOk result (self.new ≡ add_node self.old t e) }
    {
        let number = self.nodes;
        self.entries.push(e)?;
        self.nodes = number + 1;
        self.reply(t, Answer::Number(number));
        Ok(())
    }

    #[tactic(auto, unfolding(sy_onecopy::specs::Step::after_submit))]
    fn submit(&mut self, alloc: Global, t: u32, s: &Submission) -> Result<(), AllocError>
        requires { self.old.nodes + 1 < 2 ^ 32 }
        ensures { OnOk result (self.new ≡ after_submit self.old t s.now (slice_get self.old.queues s.now.queue)) }
    {
        let Some(x) = self.queues.get(s.queue as usize) else {
            return Ok(());
        };
        let x = *x;
        if self.holds_together(s) {
            let e = node_entry(alloc, self.nodes, s, x)?;
            self.add_node(t, e)?;
        }
        Ok(())
    }

    fn wait_node(&mut self, t: u32, n: u32)
        ensures { self.new ≡ wait_if (nat_lt n self.old.nodes) self.old t (Waits.OnNode n) }
    {
        if n < self.nodes {
            self.await_on(t, Waits::OnNode(n));
        }
    }

    fn wait_queue(&mut self, t: u32, q: u32)
        ensures { self.new ≡ wait_if (nat_lt q (length self.old.queues)) self.old t (Waits.OnQueue q self.old.nodes) }
    {
        if (q as usize) < self.queues.len() {
            let nodes = self.nodes;
            self.await_on(t, Waits::OnQueue(q, nodes));
        }
    }

    fn join(&mut self, t: u32, u: u32)
        ensures { self.new ≡ wait_if (nat_lt u (length self.old.waits)) self.old t (Waits.OnThread u) }
    {
        if (u as usize) < self.waits.len() {
            self.await_on(t, Waits::OnThread(u));
        }
    }

    #[tactic(auto, unfolding(sy_onecopy::specs::Step::throw_queue))]
    fn throw(&mut self, t: u32, q: u32)
        ensures { self.new ≡ throw_queue self.old t q }
    {
        if (q as usize) < self.queues.len() {
            match error_on(q, self.entries.as_slice()) {
                None => self.reply(t, Answer::Done),
                Some(e) => self.stop(Ending::KernelFailed(e)),
            }
        }
    }

    #[tactic(auto, unfolding(sy_onecopy::specs::Step::after_spawn))]
    fn spawn(&mut self, t: u32) -> Result<(), AllocError>
        ensures { OnOk result (self.new ≡ after_spawn self.old t) }
    {
        if self.waits.len() < 64 {
            let number = self.waits.len() as u32;
            self.waits.push(Waits::Ready)?;
            self.reply(t, Answer::Number(number));
            return Ok(());
        }
        self.stop(Ending::Terminated(Why::Threads));
        Ok(())
    }

    /// The ask's own effect.
    #[tactic(auto, unfolding(sy_onecopy::specs::Step::apply))]
    fn apply(&mut self, alloc: Global, t: u32, ask: &Ask) -> Result<(), AllocError>
        requires { HasRoom self.old }
        ensures { OnOk result (self.new ≡ apply self.old t ask.now) }
    {
        match ask {
            Ask::Print(bytes) => self.print(t, bytes)?,
            Ask::MakeBuffer(m) => self.make_buffer(alloc, t, m)?,
            Ask::MakeSub(parent, base, range) => {
                self.make_part(alloc, t, *parent, *base, range)?
            }
            Ask::EndBuffer(r) => self.end_buffer(alloc, t, *r)?,
            Ask::OpenHost(n) => self.open_host(alloc, t, n)?,
            Ask::CloseHost(k, values) => self.close_host(alloc, t, *k, values.items())?,
            Ask::MakeContext(_) => self.make_context(t),
            Ask::MakeQueue(m) => self.make_queue(t, m)?,
            Ask::Submit(s) => self.submit(alloc, t, s)?,
            Ask::WaitNode(n) => self.wait_node(t, *n),
            Ask::WaitQueue(q) => self.wait_queue(t, *q),
            Ask::ThrowQueue(q) => self.throw(t, *q),
            Ask::Spawn(_, _) => self.spawn(t)?,
            Ask::Join(u) => self.join(t, *u),
            Ask::Finish(v) => self.await_on(t, Waits::Finished(*v)),
            Ask::Halt(halt) => self.stop(ending_by(t, *halt)),
            Ask::Barrier(_, _) => {}
            Ask::Collect(_, _, _) => {}
        }
        Ok(())
    }

    /// Whether what thread k waits for has come.
    fn is_due(&self, k: usize) -> bool
        requires { k < length self.now.waits }
        ensures { (w : Waits) → slice_get self.now.waits k ≡ Some w → result ≡ is_due self.now w }
    {
        match &self.waits[k] {
            Waits::OnNode(n) => node_done(self.entries.as_slice(), *n),
            Waits::OnQueue(q, n) => queue_done(self.entries.as_slice(), *q, *n),
            Waits::OnThread(u) => has_finished(self.waits.as_slice(), *u),
            _ => false,
        }
    }

    /// The wait of thread k is answered, if it is over.
    fn give(&mut self, k: usize)
        ensures { self.new ≡ give_one k self.old }
    {
        if k >= self.waits.len() {
            return;
        }
        if self.is_due(k) {
            self.await_at(k, Waits::Due(Answer::Done));
        }
    }

    /// Every wait that is over is answered.
    fn give_all(&mut self)
        ensures { self.new ≡ give_all self.old }
    {
        for k in 0..self.threads() {
            self.give(k);
        }
    }

    fn begin(&mut self, t: u32)
        requires { self.old.steps < 2 ^ 24 }
        ensures { self.new ≡ begin_ask self.old t }
    {
        self.steps += 1;
        self.await_on(t, Waits::Never);
    }

    /// Thread t's ask has its effect, the entries settle, and the answers that are due are given.
    #[tactic(auto, unfolding(sy_onecopy::specs::Step::turn))]
    pub fn turn<R: Runner>(
        &mut self,
        alloc: Global,
        t: u32,
        ask: &Ask,
        runner: &R,
    ) -> Result<(), AllocError>
        requires sound { IsSound self.old }
        requires time { self.old.steps < 2 ^ 24 }
        requires known { AllKnown (R.knows runner.now) self.old.entries }
        requires ask { IsKnown (R.knows runner.now) ask.now }
        ensures { OnOk result (self.new ≡ turn (R.outcome runner.now) self.old t ask.now) }
    {
        self.begin(t);
        self.apply(alloc, t, ask)?;
        self.settle(alloc, runner)?;
        self.give_all();
        Ok(())
    }

    /// The answer that is due to thread k, which has then reached it.
    pub fn hear(&mut self, k: usize) -> Option<Answer>
        ensures answer { result ≡ due_of (slice_get self.old.waits k) }
        ensures heard { self.new ≡ hear_one k self.old }
    {
        take_at(&mut self.waits, k)
    }

    /// How many threads there are.
    pub fn threads(&self) -> usize
        ensures { result ≡ length self.now.waits }
    {
        self.waits.len()
    }

    /// The bytes printed, in the end.
    pub fn into_output(self) -> Bytes
        ensures { result ≡ self.output }
    {
        self.output
    }
}

/// The answer that is due, after which nothing is.
fn take_due(wait: &mut Waits) -> Option<Answer>
    ensures answer { result ≡ due_of (Some wait.old) }
    ensures heard { wait.new ≡ once_heard wait.old }
{
    match mem::replace(wait, Waits::Ready) {
        Waits::Due(answer) => Some(answer),
        other => {
            *wait = other;
            None
        }
    }
}

/// The answer that is due to thread k, after which nothing is.
fn take_at(waits: &mut Vec<Waits>, k: usize) -> Option<Answer>
    ensures answer { result ≡ due_of (slice_get waits.old.items k) }
    ensures heard { waits.new.items ≡ changed_at once_heard k waits.old.items }
{
    if k >= waits.len() {
        return None;
    }
    take_due(&mut waits[k])
}

fn set_stage(entries: &mut Vec<Entry>, k: usize, s: Stage)
    ensures { entries.new.items ≡ changed_at (with_stage s) k entries.old.items }
{
    if k < entries.len() {
        entries[k].stage = s;
    }
}

fn set_ended(buffers: &mut Vec<Buffer>, k: usize)
    ensures { buffers.new.items ≡ changed_at with_end k buffers.old.items }
{
    if k < buffers.len() {
        buffers[k].ended = true;
    }
}

/// The numbers of the first input.
fn first_of(alloc: Global, given: &Inputs) -> Result<Values, AllocError>
    ensures { IfOk result (λ v. v ≡ first_of given.now) }
{
    match given.items().first() {
        Some(x) => Ok(x.2.copy(alloc)?),
        None => Ok(Values::of(Vec::new(alloc))),
    }
}

/// The buffer to be made, of so many elements.
fn new_buffer(alloc: Global, m: &NewBuffer, elements: usize) -> Result<Buffer, AllocError>
    requires { elements ≡ product m.now.range }
    ensures { IfOk result (λ x. x ≡ new_buffer m.now) }
{
    match &m.init {
        Some(values) => Ok(Buffer {
            values: values.copy(alloc)?,
            origin: Origin::Vector,
            ended: false,
        }),
        None => Ok(Buffer {
            values: Values::of(vec![in alloc; 0; elements]?),
            origin: Origin::Range,
            ended: false,
        }),
    }
}

/// An entry of host code, which has one need.
fn host_entry(alloc: Global, work: Work, need: Need) -> Result<Entry, AllocError>
    ensures { IfOk result (λ (e : Entry). e ≡ record { work = work; needs = need ∷ []; after = []; in_order = None; place = 0; stage = Pending }) }
{
    Ok(Entry {
        work,
        needs: Needs::of(vec![in alloc; need]?),
        after: Numbers::of(Vec::new(alloc)),
        in_order: None,
        place: 0,
        stage: Stage::Pending,
    })
}

fn copy_of(command: &Command) -> Result<Command, AllocError>
    ensures { IfOk result (λ c. c ≡ command.now) }
{
    command.clone()
}

/// The entry of node n, of that submission to that queue.
fn node_entry(alloc: Global, n: u32, s: &Submission, x: Queue) -> Result<Entry, AllocError>
    ensures { IfOk result (λ e. e ≡ node_entry n s.now x) }
{
    Ok(Entry {
        work: Work::Node(n, s.queue, copy_of(&s.command)?),
        needs: s.needs.copy(alloc)?,
        after: s.after.copy(alloc)?,
        in_order: if x.in_order { Some(s.queue) } else { None },
        place: x.place,
        stage: Stage::Pending,
    })
}

/// Whether a range of elements from the base on ends within so many.
fn ends_within(base: u32, range: &Range, elements: usize) -> bool
    ensures { result ≡ nat_le (base + product range.now) elements }
{
    match count(range) {
        Some(n) => match n.checked_add(base as u64) {
            Some(end) => end <= elements as u64,
            None => false,
        },
        None => false,
    }
}
