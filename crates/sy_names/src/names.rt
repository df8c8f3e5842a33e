//! The names at a place of a source, with what surrounds it.

ghost use Rattle.std.specs.Prelude.{◌≡◌, ◌++◌, ◌+◌, ◌-◌, ◌^◌, ◌↔◌, [], ◌∷◌, List, length, drop, reverse, OnOk, OnErr, IfOk, IsErrOf, IsTrue};
ghost use Rattle.std.specs.Option.{option_copied};
ghost use Rattle.sy_rules.specs.Calls.{signature_at};
ghost use Rattle.sy_tree.specs.declared.tree.Function.{Function};
ghost use Rattle.sy_rules.specs.Names.{look_up, is_here, entered, left, with_entry, declared_as, with_setting};
ghost use Rattle.sy_rules.specs.Units.{at_start};
ghost use Rattle.sy_rules.specs.Walk.{within_thread};
ghost use Rattle.sy_names.specs.declared.names.NamesStop.TheVariants.{Memory};

use crate::declarations::Declarations;
use std::alloc::{AllocError, Global};
use std::marker::Model;
use sy_rules::{Constant, Named, Setting, Signature, Taken, ThreadScope, Within};
use sy_tree::Lexeme;
use sy_typed::Thing;
use thiserror::Error;

/// Why a name isn't declared.
#[derive(Clone, Copy, PartialEq, Eq, Debug, Error)]
pub enum NamesStop {
    #[error("the innermost scope has the name")]
    Twice,
    #[error("out of memory")]
    Memory,
}

impl From<AllocError> for NamesStop {
    ghost from_gives = { λ _ e. e ≡ Memory };

    fn from(_e: AllocError) -> NamesStop {
        NamesStop::Memory
    }
}

/// What a declaration says of its name: its type, unless that couldn't be found out; whether its value stays; the
/// value, if it is known before the program runs; and whether it stands for an element of a vector.
#[derive(Clone, Copy, PartialEq, Eq, Debug)]
pub struct Declared {
    pub what: Option<Thing>,
    pub fixed: bool,
    pub constant: Constant,
    pub names_element: bool,
}

/// The declared names, the functions, the threads' lambdas round the place, how many scopes are round it, and the
/// numbers of the next declaration and the next body.
#[derive(Drop)]
pub struct Names {
    alloc: Global,
    declarations: Declarations,
    functions: Vec<Signature>,
    outermost_first: Vec<ThreadScope>,
    depth: u32,
    next: u32,
    next_body: u32,
    setting: Setting,
}

impl Model for Names {
    ghost use Rattle.std.specs.Prelude.{reverse};
    ghost use Rattle.sy_rules.specs.declared.names.Names.{Names as Seen};

    ghost Value = { Seen };

    ghost view = { λ n. record { entries = n.declarations; functions = n.functions.items; threads = reverse n.outermost_first.items; depth = n.depth; next = n.next; next_body = n.next_body; setting = n.setting } };
}

impl Names {
    /// The start of a source with so many functions, whose bodies come before those of lambdas.
    pub fn new(alloc: Global, functions: u32) -> Names
        ensures { (fs : List Function) → length fs ≡ functions → result ≡ at_start fs }
    {
        let setting = Setting {
            within: Within::Host,
            function: None,
            returned: None,
            in_loop: false,
            kernel: None,
            taken: Taken::Nothing,
        };
        Names {
            alloc,
            declarations: Declarations::new(alloc),
            functions: Vec::new(alloc),
            outermost_first: Vec::new(alloc),
            depth: 0,
            next: 0,
            next_body: functions,
            setting,
        }
    }

    /// What the innermost scope that has the name knows of it.
    pub fn find(&self, name: &[u8]) -> Option<Named>
        ensures { result ≡ look_up self.now.entries name.now }
    {
        self.declarations.find(name)
    }

    /// The innermost scope has the name.
    pub fn is_here(&self, name: &[u8]) -> bool
        ensures { result ≡ is_here self.now name.now }
    {
        match self.find(name) {
            Some(named) => named.depth == self.depth,
            None => false,
        }
    }

    pub fn depth(&self) -> u32
        ensures { result ≡ self.now.depth }
    {
        self.depth
    }

    /// The number of the next declaration.
    pub fn next(&self) -> u32
        ensures { result ≡ self.now.next }
    {
        self.next
    }

    pub fn setting(&self) -> Setting
        ensures { result ≡ self.now.setting }
    {
        self.setting
    }

    /// The place stands in another setting; the scopes stay.
    pub fn set(&mut self, setting: Setting)
        ensures { self.new ≡ with_setting (λ s. setting) self.old }
    {
        self.setting = setting;
    }

    /// Begins a scope, unless there are 2^32 - 1 already.
    pub fn enter(&mut self) -> Result<(), AllocError>
        ensures ok { OnOk result (self.new ≡ entered self.old) }
        ensures err { OnErr result (self.new ≡ self.old) }
        ensures full { OnErr result (self.old.depth ≡ 2 ^ 32 - 1) }
    {
        let Some(depth) = self.depth.checked_add(1) else {
            return Err(AllocError);
        };
        self.depth = depth;
        Ok(())
    }

    /// Ends the innermost scope.
    pub fn leave(&mut self)
        ensures { self.new ≡ left self.old }
    {
        self.declarations.leave(self.depth);
        self.depth = self.depth.saturating_sub(1);
    }

    /// Declares a name as what is known of it says, whether or not the innermost scope has it.
    pub fn add_entry(&mut self, name: &[u8], named: Named) -> Result<(), AllocError>
        ensures ok { OnOk result (self.new ≡ with_entry name.now named self.old) }
        ensures err { OnErr result (self.new ≡ self.old) }
    {
        self.declarations.push(self.alloc, name, named)
    }

    /// Declares a name in the innermost scope, whether or not that has it, and answers its number.
    pub fn add(&mut self, name: &Lexeme, told: Declared) -> Result<u32, AllocError>
        ensures ok { OnOk result (self.new ≡ declared_as told.names_element name.now told.what told.fixed told.constant self.old) }
        ensures number { IfOk result (λ n. n ≡ self.old.next) }
        ensures err { OnErr result (self.new ≡ self.old) }
    {
        let number = self.next;
        let Some(next) = number.checked_add(1) else {
            return Err(AllocError);
        };
        let named = Named {
            number,
            what: told.what,
            spot: name.spot,
            fixed: told.fixed,
            names_element: told.names_element,
            depth: self.depth,
            constant: told.constant,
            function: None,
        };
        self.add_entry(name.text.items(), named)?;
        self.next = next;
        Ok(number)
    }

    /// Declares a name in the innermost scope, unless that has it, and answers its number.
    pub fn declare(&mut self, name: &Lexeme, told: Declared) -> Result<u32, NamesStop>
        ensures ok { OnOk result (self.new ≡ declared_as told.names_element name.now told.what told.fixed told.constant self.old) }
        ensures number { IfOk result (λ n. n ≡ self.old.next) }
        ensures err { OnErr result (self.new ≡ self.old) }
        ensures twice { IsErrOf result NamesStop.Twice ↔ IsTrue (is_here self.old name.now.text) }
    {
        if self.is_here(name.text.items()) {
            return Err(NamesStop::Twice);
        }
        Ok(self.add(name, told)?)
    }

    /// The functions that are declared so far, the first of the source first.
    pub fn functions(&self) -> &[Signature]
        ensures { result.now ≡ self.now.functions }
    {
        &self.functions
    }

    /// What a call of the function at this index needs to know of it.
    pub fn signature(&self, index: u32) -> Option<&Signature>
        ensures { option_copied result ≡ signature_at self.now.functions index }
    {
        self.functions.get(index as usize)
    }

    /// Adds a function behind the others. Its name is declared by [`Names::add_entry`].
    pub fn add_function(&mut self, signature: Signature) -> Result<(), AllocError>
        ensures ok { OnOk result (self.new ≡ record self.old { functions = self.old.functions ++ signature ∷ [] }) }
        ensures err { OnErr result (self.new ≡ self.old) }
    {
        self.functions.push(signature)?;
        Ok(())
    }

    /// The threads' lambdas round the place, the outermost first.
    pub fn threads(&self) -> &[ThreadScope]
        ensures { reverse result.now ≡ self.now.threads }
    {
        &self.outermost_first
    }

    /// What follows is in this thread's lambda too.
    pub fn enter_thread(&mut self, thread: ThreadScope) -> Result<(), AllocError>
        ensures ok { OnOk result (self.new ≡ within_thread (Some thread) self.old) }
        ensures err { OnErr result (self.new ≡ self.old) }
    {
        self.outermost_first.push(thread)?;
        Ok(())
    }

    /// What follows is no longer in the innermost thread's lambda.
    pub fn leave_thread(&mut self)
        ensures { self.new ≡ record self.old { threads = drop 1 self.old.threads } }
    {
        let _ = self.outermost_first.pop();
    }

    /// The number of the next body, which the next one no longer has.
    pub fn take_body(&mut self) -> Result<u32, AllocError>
        ensures number { IfOk result (λ n. n ≡ self.old.next_body) }
        ensures ok { OnOk result (self.new ≡ record self.old { next_body = self.old.next_body + 1 }) }
        ensures err { OnErr result (self.new ≡ self.old) }
        ensures full { OnErr result (self.old.next_body ≡ 2 ^ 32 - 1) }
    {
        let number = self.next_body;
        let Some(next) = number.checked_add(1) else {
            return Err(AllocError);
        };
        self.next_body = next;
        Ok(number)
    }
}
