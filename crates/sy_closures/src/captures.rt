//! The names that a lambda lists, and the threads' lambdas round a place. (C++17, [expr.prim.lambda.capture])

ghost use Rattle.std.specs.Prelude.{◌≡◌, OnOk, IfOk, length, map};
ghost use Rattle.sy_captures.specs.Taken.{name_found};
ghost use Rattle.sy_found.specs.Noted.{found_in};
ghost use Rattle.sy_rules.specs.Names.{entered, left};
ghost use Rattle.sy_rules.specs.Walk.{all_captures, within_thread};
ghost use Rattle.sy_rules.specs.declared.names.Names.{Names as TheNames};

use std::alloc::AllocError;
use sy_captures::{add_captures, declare_captures, names_found};
use sy_looks::Walk;
use sy_names::Names;
use sy_rules::{Named, ThreadScope};
use sy_tree::Capture;
use sy_typed::TypedCapture;

/// What a lambda takes by its list, and what the names outside know of each name of it.
pub fn listed_names(
    w: &mut Walk,
    t: Option<ThreadScope>,
    cs: &[Capture],
) -> Result<(Vec<TypedCapture>, Vec<Option<Named>>), AllocError>
    ensures walk { OnOk result ((n : TheNames) → w.new ≡ record w.old { found = found_in w.old.place w.old.found (all_captures w.old.names t cs.now n).found }) }
    ensures taken { IfOk result (λ both. (n : TheNames) → both.0.items ≡ (all_captures w.old.names t cs.now n).what) }
    ensures outside { IfOk result (λ both. both.1.items ≡ map (name_found w.old.names) cs.now) }
{
    let mut captures = Vec::new(w.alloc);
    add_captures(&mut w.found, &mut captures, &w.names, t, cs)?;
    let outside = names_found(w.alloc, &w.names, cs)?;
    Ok((captures, outside))
}

/// What follows is in this thread's lambda too, if it is a thread's.
fn enter_thread(names: &mut Names, t: Option<ThreadScope>) -> Result<(), AllocError>
    ensures { OnOk result (names.new ≡ within_thread t names.old) }
{
    match t {
        None => Ok(()),
        Some(thread) => {
            names.enter_thread(thread)?;
            Ok(())
        }
    }
}

/// What follows is in the threads' lambdas that held the place outside.
fn leave_thread(names: &mut Names, t: Option<ThreadScope>)
    ensures { (n : TheNames) → names.old.threads ≡ (within_thread t n).threads → names.new ≡ record names.old { threads = n.threads } }
{
    match t {
        None => {}
        Some(_) => names.leave_thread(),
    }
}

/// Begins the scope of a lambda, with the names that it lists.
pub fn enter_lambda(
    w: &mut Walk,
    t: Option<ThreadScope>,
    cs: &[Capture],
    outside: &[Option<Named>],
) -> Result<(), AllocError>
    requires { length cs.now ≡ length outside.now }
    ensures { OnOk result ((n : TheNames) → outside.now ≡ map (name_found n) cs.now → w.new ≡ record w.old { names = within_thread t (all_captures n t cs.now (entered w.old.names)).names }) }
{
    w.names.enter()?;
    declare_captures(&mut w.names, t, cs, outside)?;
    enter_thread(&mut w.names, t)?;
    Ok(())
}

/// Ends it.
pub fn leave_lambda(w: &mut Walk, t: Option<ThreadScope>)
    ensures { (n : TheNames) → w.old.names.threads ≡ (within_thread t n).threads → w.new ≡ record w.old { names = record (left w.old.names) { threads = n.threads } } }
{
    w.names.leave();
    leave_thread(&mut w.names, t);
}
