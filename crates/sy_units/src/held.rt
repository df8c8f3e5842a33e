//! What functions hold back until a kernel or group calls them, itself or through others.
//! (SYCL 2020, "Language restrictions for device functions", "Command group scope")

ghost use Rattle.std.specs.Prelude.{◌≡◌, ◌++◌, ◌<◌, ℕ, List, [], OnOk, length, map, nat_eq, flat_map, false, ◌||◌, get_or, reverse};
ghost use Rattle.std.specs.List.{list_any};
ghost use Rattle.sy_findings.specs.Told.{told};
ghost use Rattle.sy_found.specs.Noted.{Notes};
ghost use Rattle.sy_rules.specs.Outcome.{Finding};
ghost use Rattle.sy_rules.specs.Units.{Piece, called_in, held_if, held_back, is_among, last_first};
ghost use Rattle.sy_units.specs.Calls.{within_of, makes, makes_to, first_held, noted_of, notes_of, Agrees};

use std::alloc::{AllocError, Global};
use sy_findings::Findings;
use sy_found::{Call, Found};
use sy_note::Diagnostic;
use sy_rules::Within;

fn within_of(in_kernels: bool) -> Within
    ensures { result ≡ within_of in_kernels }
{
    if in_kernels {
        Within::Kernel
    } else {
        Within::Group
    }
}

/// What is told first of a function that kernels call, or groups.
fn first_held(in_kernels: bool, f: &Found) -> Option<Diagnostic>
    ensures { result ≡ first_held in_kernels f.now }
{
    if in_kernels {
        f.for_kernels()
    } else {
        f.for_groups()
    }
}

/// A kernel (or group) makes the call: in its own text, or in a function that it calls.
fn makes(in_kernels: bool, is_called: bool, c: Call) -> bool
    ensures { result ≡ makes in_kernels is_called c }
{
    match c.from {
        Within::Host => is_called,
        Within::Kernel => in_kernels,
        Within::Group => !in_kernels,
    }
}

fn mark(called: &mut [bool], to: u32)
    ensures len { length called.new ≡ length called.old }
    ensures marked { (i : ℕ) → i < length called.old → get_or called.new i false ≡ (nat_eq i to || get_or called.old i false) }
{
    if (to as usize) < called.len() {
        called[to as usize] = true;
    }
}

/// Marks the functions that are called, by the calls that a kernel (or group) makes.
fn mark_calls(called: &mut [bool], in_kernels: bool, is_called: bool, calls: &[Call])
    ensures len { length called.new ≡ length called.old }
    ensures marked { (i : ℕ) → i < length called.old → get_or called.new i false ≡ (list_any (makes_to in_kernels is_called i) calls.now || get_or called.old i false) }
{
    for c in calls {
        if makes(in_kernels, is_called, *c) {
            mark(called, c.to);
        }
    }
}

/// Tells what the function holds back, if it is called.
fn tell_if_called(findings: &mut Findings, is_called: bool, in_kernels: bool, f: &Found)
    ensures { (xs : List Finding) → f.now ≡ noted_of xs → findings.new ≡ told findings.old (held_if is_called (within_of in_kernels) xs) }
{
    if !is_called {
        return;
    }
    match first_held(in_kernels, f) {
        None => {}
        Some(d) => findings.tell(d.code, d.spot),
    }
}

/// Tells what the function at this place holds back, if it is called, and marks what it calls.
fn tell_held(findings: &mut Findings, called: &mut [bool], in_kernels: bool, i: usize, f: &Found)
    requires { i < length called.old }
    ensures len { length called.new ≡ length called.old }
    ensures told { (is : List ℕ) (xs : List Finding) → f.now ≡ noted_of xs → Agrees called.old is → findings.new ≡ told findings.old (held_if (is_among i is) (within_of in_kernels) xs) }
    ensures marked { (is : List ℕ) (xs : List Finding) → f.now ≡ noted_of xs → Agrees called.old is → Agrees called.new (flat_map (called_in (within_of in_kernels) (is_among i is)) xs ++ is) }
{
    let is_called = called[i];
    tell_if_called(findings, is_called, in_kernels, f);
    mark_calls(called, in_kernels, is_called, f.calls());
}

/// Tells what the functions hold back that kernels call, or groups, from the last of the source to the first.
fn tell_all_held(
    findings: &mut Findings,
    called: &mut [bool],
    in_kernels: bool,
    functions: &[Found],
)
    requires { length called.old ≡ length functions.now }
    ensures { (ps : List Piece) → functions.now ≡ notes_of ps → Agrees called.old [] → findings.new ≡ told findings.old (held_back (within_of in_kernels) [] (last_first ps)) }
{
    let mut left = functions.len();
    while left > 0 {
        left -= 1;
        tell_held(findings, called, in_kernels, left, &functions[left]);
    }
}

/// Tells what is broken in functions that kernels call, themselves or through others, or that groups call so.
/// `functions` has what was found in each, in the order of the source.
pub fn held_back(
    alloc: Global,
    findings: &mut Findings,
    in_kernels: bool,
    functions: &[Found],
) -> Result<(), AllocError>
    ensures { OnOk result ((ps : List Piece) → functions.now ≡ notes_of ps → findings.new ≡ told findings.old (held_back (within_of in_kernels) [] (last_first ps))) }
{
    let mut called = vec![in alloc; false; functions.len()]?;
    tell_all_held(findings, &mut called, in_kernels, functions);
    Ok(())
}
