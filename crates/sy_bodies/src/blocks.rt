//! Lists of statements. (C++17, [stmt.block])

ghost use Rattle.std.specs.Prelude.{map};
ghost use Rattle.sy_bodies.specs.Inside.{LooksAtStatements};
ghost use Rattle.sy_looks.specs.Looked.{Looked};
ghost use Rattle.sy_rules.specs.declared.statements.Standing.TheVariants as standing;
ghost use Rattle.sy_rules.specs.Outcome.{in_turn};
ghost use Rattle.sy_rules.specs.Walk.{stmt, block};

use sqlite_items::Items;
use std::alloc::AllocError;
use sy_looks::Walk;
use sy_rules::Standing;
use sy_tree::{Block, Stmt};
use sy_typed::{TypedBlock, TypedStmt};

fn one_in_list<S: Fn(&mut Walk, usize, Standing, &Stmt) -> Result<TypedStmt, AllocError>>(
    look: &S,
    depth: usize,
    w: &mut Walk,
    s: &Stmt,
) -> Result<TypedStmt, AllocError>
    requires { LooksAtStatements depth (S.pre look.now) (S.post look.now) }
    ensures { Looked (stmt s.now standing.InList) w.old result w.new }
{
    look(w, depth, Standing::InList, s)
}

fn in_list<S: Fn(&mut Walk, usize, Standing, &Stmt) -> Result<TypedStmt, AllocError>>(
    look: &S,
    depth: usize,
    w: &mut Walk,
    ss: &[Stmt],
) -> Result<Items<TypedStmt>, AllocError>
    requires { LooksAtStatements depth (S.pre look.now) (S.post look.now) }
    ensures { Looked (in_turn (map (λ s. stmt s standing.InList) ss.now)) w.old result w.new }
{
    let mut all = Items::new(w.alloc);
    for s in ss {
        let tree = one_in_list(look, depth, w, s)?;
        all.push(tree)?;
    }
    Ok(all)
}

/// The statements of a block from its first to its last, over the walk of a statement to this depth.
pub fn statements<S: Fn(&mut Walk, usize, Standing, &Stmt) -> Result<TypedStmt, AllocError>>(
    look: &S,
    depth: usize,
    w: &mut Walk,
    b: &Block,
) -> Result<TypedBlock, AllocError>
    requires { LooksAtStatements depth (S.pre look.now) (S.post look.now) }
    ensures { Looked (block b.now) w.old result w.new }
{
    let all = in_list(look, depth, w, b.statements.as_slice())?;
    Ok(TypedBlock {
        statements: all,
        close: b.close,
    })
}
