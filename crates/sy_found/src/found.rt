//! What was found so far.

ghost use Rattle.std.specs.Prelude.{◌≡◌, [], ◌∷◌, List, Option, None, OnOk, OnErr};
ghost use Rattle.sy_constructs.specs.Uses.{foreign_found, used, called};
ghost use Rattle.sy_findings.specs.Told.{told};
ghost use Rattle.sy_found.specs.Noted.{Notes, nothing_noted, held_for, found_in};
ghost use Rattle.sy_found.specs.declared.parts.Place.{Place as ThePlace};
ghost use Rattle.sy_note.specs.declared.Diagnostic.{Diagnostic as Broken};
ghost use Rattle.sy_rules.specs.Faults.{sooner};
ghost use Rattle.sy_rules.specs.Outcome.{Finding, foreign, faults_found};

use crate::parts::{Call, Place};
use std::alloc::{AllocError, Global};
use std::marker::Model;
use std::mem;
use sy_constructs::Foreign;
use sy_findings::Findings;
use sy_note::{Code, Diagnostic, Spot};
use sy_rules::{Named, Within};

/// Of broken rules only the first is kept; calls and uses are kept in their order.
#[derive(Drop)]
pub struct Found {
    first: Findings,
    for_kernels: Findings,
    for_groups: Findings,
    calls: Vec<Call>,
    used: Vec<Named>,
}

impl Model for Found {
    ghost use Rattle.sy_found.specs.Noted.{Notes};

    ghost Value = { Notes };

    ghost view = { λ f. record { first = f.first; for_kernels = f.for_kernels; for_groups = f.for_groups; calls = f.calls.items; used = f.used.items } };
}

/// Tells the rule, if one is broken.
#[tactic(auto, using(crate::proofs::FoundLemmas::or_none))]
fn tell_also(findings: &mut Findings, broken: Option<Diagnostic>)
    ensures { findings.new ≡ sooner findings.old broken }
{
    match broken {
        None => {}
        Some(d) => findings.tell(d.code, d.spot),
    }
}

impl Found {
    pub fn new(alloc: Global) -> Found
        ensures { result ≡ nothing_noted }
    {
        Found {
            first: Findings::new(),
            for_kernels: Findings::new(),
            for_groups: Findings::new(),
            calls: Vec::new(alloc),
            used: Vec::new(alloc),
        }
    }

    /// Adds the rules that were told to an accumulator of their own.
    pub fn add(&mut self, own: Findings)
        ensures { (p : Option ThePlace) (ds : List Broken) → own ≡ told None ds → self.new ≡ found_in p self.old (faults_found ds) }
    {
        match own.first() {
            None => {}
            Some(d) => self.first.tell(d.code, d.spot),
        }
    }

    /// A statement here breaks a rule if a kernel or group calls the function.
    fn hold(&mut self, of: Within, statement: Spot)
        ensures { self.new ≡ held_for of statement self.old }
    {
        match of {
            Within::Host => {}
            Within::Kernel => self.for_kernels.tell(Code::NotInKernel, statement),
            Within::Group => self.for_groups.tell(Code::NotInGroup, statement),
        }
    }

    /// Adds a use that a kernel or group may not have.
    pub fn add_use_against(&mut self, place: Option<Place>, of: Within)
        ensures { self.new ≡ found_in place self.old (foreign of ∷ []) }
    {
        let Some(p) = place else {
            return;
        };
        match (p.within, of) {
            (Within::Host, _) => self.hold(of, p.statement),
            (Within::Group, Within::Group) => self.first.tell(Code::NotInGroup, p.statement),
            (Within::Kernel, Within::Kernel) => self.first.tell(Code::NotInKernel, p.statement),
            _ => {}
        }
    }

    /// Adds that a construct may not stand in kernels or in groups.
    pub fn add_foreign(&mut self, place: Option<Place>, foreign: Foreign)
        ensures { self.new ≡ found_in place self.old (foreign_found foreign) }
    {
        if foreign.to_kernels {
            self.add_use_against(place, Within::Kernel);
        }
        if foreign.to_groups {
            self.add_use_against(place, Within::Group);
        }
    }

    /// Adds a use of a local variable, if it is one.
    pub fn add_use(&mut self, variable: Option<Named>) -> Result<(), AllocError>
        ensures ok { OnOk result ((p : Option ThePlace) → self.new ≡ found_in p self.old (used variable)) }
        ensures err { OnErr result (self.new ≡ self.old) }
    {
        if let Some(v) = variable {
            self.used.push(v)?;
        }
        Ok(())
    }

    /// Adds a call of the function, if there is one.
    pub fn add_call(&mut self, from: Within, function: Option<u32>) -> Result<(), AllocError>
        ensures ok { OnOk result ((p : Option ThePlace) → self.new ≡ found_in p self.old (called from function)) }
        ensures err { OnErr result (self.new ≡ self.old) }
    {
        if let Some(to) = function {
            self.calls.push(Call { from, to })?;
        }
        Ok(())
    }

    /// The broken rule that is told first.
    pub fn first(&self) -> Option<Diagnostic>
        ensures { result ≡ self.now.first }
    {
        self.first.first()
    }

    /// What is told first if a kernel calls the function.
    pub fn for_kernels(&self) -> Option<Diagnostic>
        ensures { result ≡ self.now.for_kernels }
    {
        self.for_kernels.first()
    }

    /// What is told first if a group calls the function.
    pub fn for_groups(&self) -> Option<Diagnostic>
        ensures { result ≡ self.now.for_groups }
    {
        self.for_groups.first()
    }

    /// What is called, in the order of the source.
    pub fn calls(&self) -> &[Call]
        ensures { result.now ≡ self.now.calls }
    {
        &self.calls
    }

    /// The local variables that are used, in the order of the source.
    pub fn used(&self) -> &[Named]
        ensures { result.now ≡ self.now.used }
    {
        &self.used
    }

    /// Puts the broken rule aside that is told first, so that a part's own can be told from it.
    pub fn set_aside(&mut self) -> Findings
        ensures first { result ≡ self.old.first }
        ensures others { self.new ≡ record self.old { first = None } }
    {
        mem::replace(&mut self.first, Findings::new())
    }

    /// Puts back what was put aside before a part of the source.
    pub fn put_back(&mut self, aside: Findings)
        ensures { (p : Option ThePlace) (t : Notes) (xs : List Finding) → aside ≡ t.first → self.old ≡ found_in p (record t { first = None }) xs → self.new ≡ found_in p t xs }
    {
        let own = mem::replace(&mut self.first, aside);
        tell_also(&mut self.first, own.first());
    }
}
