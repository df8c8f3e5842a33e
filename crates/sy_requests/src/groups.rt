// A command group, as far as its lambda has come (SYCL 2020, "handler class").

ghost use Rattle.std.specs.Prelude.{◌≡◌, ◌++◌, ◌==◌, [], ◌∷◌, Some, IfOk};
ghost use Rattle.std.specs.List.{list_any};
ghost use Rattle.sy_meaning.specs.Making.{add_need, add_local};
ghost use Rattle.sy_meaning.specs.Lambdas.{add_reduction};
ghost use Rattle.sy_meaning.specs.Combining.{operator_of};

use crate::needs::with_need;
use std::alloc::{AllocError, Global};
use sy_access::{Need, Needs, Numbers, Sizes};
use sy_meaning::Group;
use sy_tree::FunctionObject;
use sy_work::{Command, RedOp};

/// The operator of a function object (SYCL 2020, "Function objects").
pub fn operator_of(function: FunctionObject) -> RedOp
    ensures { result ≡ operator_of function }
{
    match function {
        FunctionObject::Plus => RedOp::Plus,
        FunctionObject::Multiplies => RedOp::Times,
        FunctionObject::Minimum => RedOp::Min,
        FunctionObject::Maximum => RedOp::Max,
        FunctionObject::BitAnd => RedOp::And,
        FunctionObject::BitOr => RedOp::Or,
        FunctionObject::BitXor => RedOp::Xor,
    }
}

fn put_last(alloc: Global, numbers: &Numbers, number: u32) -> Result<Numbers, AllocError>
    ensures { IfOk result (λ made. made ≡ numbers.now ++ number ∷ []) }
{
    let mut made = Vec::from_slice(alloc, numbers.items())?;
    made.push(number)?;
    Ok(Numbers::of(made))
}

fn put_first(alloc: Global, number: u32, numbers: &Numbers) -> Result<Numbers, AllocError>
    ensures { IfOk result (λ made. made ≡ number ∷ numbers.now) }
{
    let mut made = Vec::new(alloc);
    made.push(number)?;
    made.extend_from_slice(numbers.items())?;
    Ok(Numbers::of(made))
}

fn put_last_size(alloc: Global, sizes: &Sizes, size: u64) -> Result<Sizes, AllocError>
    ensures { IfOk result (λ made. made ≡ sizes.now ++ size ∷ []) }
{
    let mut made = Vec::from_slice(alloc, sizes.items())?;
    made.push(size)?;
    Ok(Sizes::of(made))
}

/// The group with one more need.
pub fn add_need(alloc: Global, need: &Need, group: Group) -> Result<Group, AllocError>
    ensures { IfOk result (λ made. made ≡ add_need need.now group) }
{
    let needs = with_need(alloc, need, group.needs.items())?;
    Ok(Group {
        needs: Needs::of(needs),
        locals: group.locals,
        after: group.after,
        reduced: group.reduced,
        command: group.command,
    })
}

/// The group with one more local accessor, of so many elements.
pub fn add_local(alloc: Global, size: u64, group: Group) -> Result<Group, AllocError>
    ensures { IfOk result (λ made. made ≡ add_local size group) }
{
    let locals = put_last_size(alloc, &group.locals, size)?;
    Ok(Group {
        needs: group.needs,
        locals,
        after: group.after,
        reduced: group.reduced,
        command: group.command,
    })
}

/// The group with a reduction's need.
pub fn add_reduction(alloc: Global, need: &Need, group: Group) -> Result<Group, AllocError>
    ensures { IfOk result (λ made. made ≡ add_reduction need.now group) }
{
    let needs = with_need(alloc, need, group.needs.items())?;
    let reduced = put_first(alloc, need.buffer, &group.reduced)?;
    Ok(Group {
        needs: Needs::of(needs),
        locals: group.locals,
        after: group.after,
        reduced,
        command: group.command,
    })
}

/// The group behind one more node.
pub fn add_node(alloc: Global, node: u32, group: Group) -> Result<Group, AllocError>
    ensures { IfOk result (λ made. made ≡ record group { after = group.after ++ node ∷ [] }) }
{
    let after = put_last(alloc, &group.after, node)?;
    Ok(Group {
        needs: group.needs,
        locals: group.locals,
        after,
        reduced: group.reduced,
        command: group.command,
    })
}

/// The group with its command.
pub fn with_command(command: Command, group: Group) -> Group
    ensures { result ≡ record group { command = Some command } }
{
    Group {
        needs: group.needs,
        locals: group.locals,
        after: group.after,
        reduced: group.reduced,
        command: Some(command),
    }
}

/// Whether a reduction of the group has the root.
pub fn is_reduced(root: u32, group: &Group) -> bool
    ensures { result ≡ list_any (λ one. one == root) group.now.reduced }
{
    let mut rest = group.reduced.items();
    while let [one, others @ ..] = rest {
        if *one == root {
            return true;
        }
        rest = others;
    }
    false
}

/// Whether a need of the group is on the root.
pub fn has_need_on(root: u32, group: &Group) -> bool
    ensures { result ≡ list_any (λ need. need.buffer == root) group.now.needs }
{
    let mut rest = group.needs.items();
    while let [one, others @ ..] = rest {
        if one.buffer == root {
            return true;
        }
        rest = others;
    }
    false
}
