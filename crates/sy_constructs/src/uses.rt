//! What is found at a construct beside broken rules: that kernels or groups may not have it, and what it uses.

ghost use Rattle.std.specs.Prelude.{◌≡◌, List};
ghost use Rattle.sy_constructs.specs.Uses.{foreign_found, used, called};
ghost use Rattle.sy_note.specs.declared.Spot.{Spot};
ghost use Rattle.sy_rules.specs.ExprTypes.{use_of, call_of};
ghost use Rattle.sy_rules.specs.Foreign.{foreign_uses};
ghost use Rattle.sy_rules.specs.Names.{look_up};
ghost use Rattle.sy_rules.specs.declared.names.Names.{Names as TheNames};
ghost use Rattle.sy_rules.specs.declared.seen.Seen.{Seen as Whole};
ghost use Rattle.sy_rules.specs.declared.seen.SeenArgument.{SeenArgument};
ghost use Rattle.sy_tree.specs.declared.parts.Brackets.{Brackets};
ghost use Rattle.sy_tree.specs.declared.parts.Lexeme.{Lexeme};
ghost use Rattle.sy_tree.specs.declared.parts.Qualified.{Qualified};
ghost use Rattle.sy_tree.specs.declared.tree.Argument.TheOpen.{Expr-F};

use crate::names::type_of_name;
use sy_fits::is_reduction_call;
use sy_names::Names;
use sy_objects::{foreign_to, is_accessor, is_made_in};
use sy_rules::{Named, Seen, Within};
use sy_tree::{LibraryFunction, ObjectType};

/// Whether kernels may not have a construct, and whether groups may not.
#[derive(Clone, Copy, PartialEq, Eq, Debug)]
pub struct Foreign {
    pub to_kernels: bool,
    pub to_groups: bool,
}

/// Of a name, with what the innermost scope that has it knows of it.
pub fn foreign_name(names: &Names, found: Option<Named>) -> Foreign
    ensures { (x : Lexeme) → found ≡ look_up names.now.entries x.text → foreign_uses names.now (Expr-F.Name x) ≡ foreign_found result }
{
    let taken = names.setting().taken;
    match type_of_name(found) {
        None => Foreign {
            to_kernels: false,
            to_groups: false,
        },
        Some(t) => Foreign {
            to_kernels: foreign_to(Within::Kernel, taken, t),
            to_groups: foreign_to(Within::Group, taken, t),
        },
    }
}

/// Of an object without a name.
pub fn foreign_object(t: &ObjectType) -> Foreign
    ensures { (n : TheNames) (b : Brackets) (s e : Spot) (xs : List SeenArgument) → foreign_uses n (Expr-F.Construct t.now b s xs e) ≡ foreign_found result }
{
    Foreign {
        to_kernels: !is_made_in(Within::Kernel, t),
        to_groups: !is_made_in(Within::Group, t),
    }
}

/// Of a barrier.
pub fn foreign_barrier() -> Foreign
    ensures { (n : TheNames) (q : Qualified) (a : Whole) (e : Spot) → foreign_uses n (Expr-F.GroupBarrier q a e) ≡ foreign_found result }
{
    Foreign {
        to_kernels: false,
        to_groups: true,
    }
}

/// Of a call of a function of the library.
pub fn foreign_function(function: LibraryFunction) -> Foreign
    ensures { (n : TheNames) (q : Qualified) (xs : List SeenArgument) (e : Spot) → foreign_uses n (Expr-F.LibraryCall q function xs e) ≡ foreign_found result }
{
    let is_reduction = is_reduction_call(function);
    Foreign {
        to_kernels: is_reduction,
        to_groups: !is_reduction,
    }
}

/// Of an index on this.
pub fn foreign_index(a: Seen) -> Foreign
    ensures { (n : TheNames) (s e : Spot) (i : Whole) → foreign_uses n (Expr-F.Subscript a s i e) ≡ foreign_found result }
{
    let to_groups = match a.what {
        None => false,
        Some(t) => is_accessor(t),
    };
    Foreign {
        to_kernels: false,
        to_groups,
    }
}

/// The local variable that a name uses.
pub fn used(found: Option<Named>) -> Option<Named>
    ensures { use_of found ≡ used result }
{
    match found {
        None => None,
        Some(v) => { if v.depth > 0 { found } else { None } }
    }
}

/// The number of the function that a call of this calls.
pub fn called(found: Option<Named>) -> Option<u32>
    ensures { (n : TheNames) → call_of n found ≡ called n.setting.within result }
{
    match found {
        None => None,
        Some(v) => v.function,
    }
}
