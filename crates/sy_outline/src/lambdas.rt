//! The lambdas in a program, in the order of their `[`: an outer one before those in it.
//!
//! Each function `in_..` adds those in a part of the tree behind what was found before it.

ghost use Rattle.std.specs.Prelude.{◌≡◌, ◌∷◌, ◌++◌, [], IfOk};
ghost use Rattle.std.specs.Option.{option_copied};
ghost use Rattle.sy_meaning.specs.Bodies.{lambdas_in, lambdas_of};
ghost use Rattle.sy_outline.specs.Parts.{Added, of_all, of_argument, of_declaration, of_declarator, of_full, of_initializer, of_maybe, of_node, of_printed, of_statement, of_typed, of_whole, pointed};

use sqlite_items::Boxed;
use std::alloc::{AllocError, Global};
use sy_typed::{
    Program, Typed, TypedArgument, TypedBlock, TypedDeclaration, TypedDeclarator, TypedFull,
    TypedFunction, TypedInitializer, TypedLambda, TypedNode, TypedPrinted, TypedStmt,
};

/// How deep trees may nest: deeper than any that memory holds. A walk that runs out of depth is want of memory.
const DEPTH: usize = usize::MAX;

fn add<'a>(found: &mut Vec<&'a TypedLambda>, lambda: &'a TypedLambda) -> Result<(), AllocError>
    ensures { Added found.old.items result found.new.items (lambda.now ∷ []) }
{
    found.push(lambda)?;
    Ok(())
}

/// The expression in a declarator.
fn value_of(declarator: &TypedDeclarator) -> Option<&Typed>
    ensures { of_maybe of_typed (option_copied result) ≡ of_declarator declarator.now }
{
    match declarator {
        TypedDeclarator::Uninitialized(_) => None,
        TypedDeclarator::Equal(_, e) => Some(e),
        TypedDeclarator::Bracketed(_, e, _) => Some(e),
    }
}

/// The expression that is printed.
fn operand_of(printed: &TypedPrinted) -> Option<&Typed>
    ensures { of_maybe of_typed (option_copied result) ≡ of_printed printed.now }
{
    match printed {
        TypedPrinted::Operand(_, e) => Some(e),
        TypedPrinted::Bytes(_, _, _) => None,
        TypedPrinted::EndLine(_, _) => None,
    }
}

#[cycle(walk)]
fn in_typed<'a>(
    found: &mut Vec<&'a TypedLambda>,
    depth: usize,
    x: &'a Typed,
) -> Result<(), AllocError>
    ensures { Added found.old.items result found.new.items (of_typed x.now) }
{
    if depth == 0 {
        return Err(AllocError);
    }
    in_node(found, depth - 1, &x.node)
}

#[cycle(walk)]
fn in_node<'a>(
    found: &mut Vec<&'a TypedLambda>,
    depth: usize,
    n: &'a TypedNode,
) -> Result<(), AllocError>
    ensures { Added found.old.items result found.new.items (of_node n.now) }
{
    match n {
        TypedNode::Call(_, xs, _) => in_all_typed(found, depth, xs.as_slice()),
        TypedNode::Parenthesized(a, _) => in_typed(found, depth, a.get()),
        TypedNode::StaticCast(a, _) => in_typed(found, depth, a.get()),
        TypedNode::FunctionalCast(a, _) => in_typed(found, depth, a.get()),
        TypedNode::Construct(xs, _) => in_arguments(found, depth, xs.as_slice()),
        TypedNode::GroupBarrier(a, _) => in_typed(found, depth, a.get()),
        TypedNode::LibraryCall(_, xs, _) => in_arguments(found, depth, xs.as_slice()),
        TypedNode::Subscript(a, i, _) => in_two(found, depth, a.get(), i.get()),
        TypedNode::MemberCall(a, _, xs, _) => {
            in_typed(found, depth, a.get())?;
            in_arguments(found, depth, xs.as_slice())
        }
        TypedNode::Postfix(a, _) => in_typed(found, depth, a.get()),
        TypedNode::Prefix(_, a) => in_typed(found, depth, a.get()),
        TypedNode::Unary(_, a) => in_typed(found, depth, a.get()),
        TypedNode::Cast(a) => in_typed(found, depth, a.get()),
        TypedNode::Binary(a, _, b) => in_two(found, depth, a.get(), b.get()),
        TypedNode::Conditional(c, a, b) => {
            in_typed(found, depth, c.get())?;
            in_two(found, depth, a.get(), b.get())
        }
        _ => Ok(()),
    }
}

#[cycle(walk)]
fn in_two<'a>(
    found: &mut Vec<&'a TypedLambda>,
    depth: usize,
    a: &'a Typed,
    b: &'a Typed,
) -> Result<(), AllocError>
    ensures { Added found.old.items result found.new.items (of_typed a.now ++ of_typed b.now) }
{
    in_typed(found, depth, a)?;
    in_typed(found, depth, b)
}

#[cycle(walk)]
fn in_all_typed<'a>(
    found: &mut Vec<&'a TypedLambda>,
    depth: usize,
    xs: &'a [Typed],
) -> Result<(), AllocError>
    ensures { Added found.old.items result found.new.items (of_all of_typed xs.now) }
{
    for x in xs {
        in_typed(found, depth, x)?;
    }
    Ok(())
}

#[cycle(walk)]
fn in_maybe_typed<'a>(
    found: &mut Vec<&'a TypedLambda>,
    depth: usize,
    x: Option<&'a Typed>,
) -> Result<(), AllocError>
    ensures { Added found.old.items result found.new.items (of_maybe of_typed (option_copied x.entry)) }
{
    match x {
        Some(x) => in_typed(found, depth, x),
        None => Ok(()),
    }
}

#[cycle(walk)]
fn in_argument<'a>(
    found: &mut Vec<&'a TypedLambda>,
    depth: usize,
    x: &'a TypedArgument,
) -> Result<(), AllocError>
    ensures { Added found.old.items result found.new.items (of_argument x.now) }
{
    match x {
        TypedArgument::Value(e) => in_typed(found, depth, e),
        TypedArgument::Braced(es, _) => in_all_typed(found, depth, es.as_slice()),
        TypedArgument::Lambda(l) => in_lambda(found, depth, l),
    }
}

#[cycle(walk)]
fn in_arguments<'a>(
    found: &mut Vec<&'a TypedLambda>,
    depth: usize,
    xs: &'a [TypedArgument],
) -> Result<(), AllocError>
    ensures { Added found.old.items result found.new.items (of_all of_argument xs.now) }
{
    for x in xs {
        in_argument(found, depth, x)?;
    }
    Ok(())
}

/// A lambda itself, and those in it.
#[cycle(walk)]
fn in_lambda<'a>(
    found: &mut Vec<&'a TypedLambda>,
    depth: usize,
    lambda: &'a TypedLambda,
) -> Result<(), AllocError>
    ensures { Added found.old.items result found.new.items (of_whole lambda.now) }
{
    if depth == 0 {
        return Err(AllocError);
    }
    add(found, lambda)?;
    in_block(found, depth - 1, &lambda.body)
}

#[cycle(walk)]
fn in_block<'a>(
    found: &mut Vec<&'a TypedLambda>,
    depth: usize,
    block: &'a TypedBlock,
) -> Result<(), AllocError>
    ensures { Added found.old.items result found.new.items (lambdas_in block.now) }
{
    in_statements(found, depth, block.statements.as_slice())
}

#[cycle(walk)]
fn in_statements<'a>(
    found: &mut Vec<&'a TypedLambda>,
    depth: usize,
    ss: &'a [TypedStmt],
) -> Result<(), AllocError>
    ensures { Added found.old.items result found.new.items (of_all of_statement ss.now) }
{
    for s in ss {
        in_statement(found, depth, s)?;
    }
    Ok(())
}

#[cycle(walk)]
fn in_full<'a>(
    found: &mut Vec<&'a TypedLambda>,
    depth: usize,
    x: &'a TypedFull,
) -> Result<(), AllocError>
    ensures { Added found.old.items result found.new.items (of_full x.now) }
{
    match x {
        TypedFull::Plain(e) => in_typed(found, depth, e),
        TypedFull::Assignment(a, _, _, b) => in_two(found, depth, a, b),
    }
}

#[cycle(walk)]
fn in_declarators<'a>(
    found: &mut Vec<&'a TypedLambda>,
    depth: usize,
    ds: &'a [TypedDeclarator],
) -> Result<(), AllocError>
    ensures { Added found.old.items result found.new.items (of_all of_declarator ds.now) }
{
    for d in ds {
        in_maybe_typed(found, depth, value_of(d))?;
    }
    Ok(())
}

#[cycle(walk)]
fn in_initializer<'a>(
    found: &mut Vec<&'a TypedLambda>,
    depth: usize,
    x: &'a TypedInitializer,
) -> Result<(), AllocError>
    ensures { Added found.old.items result found.new.items (of_initializer x.now) }
{
    match x {
        TypedInitializer::Copy(e) => in_typed(found, depth, e),
        TypedInitializer::Direct(_, xs, _) => in_arguments(found, depth, xs.as_slice()),
    }
}

#[cycle(walk)]
fn in_maybe_initializer<'a>(
    found: &mut Vec<&'a TypedLambda>,
    depth: usize,
    x: &'a Option<TypedInitializer>,
) -> Result<(), AllocError>
    ensures { Added found.old.items result found.new.items (of_maybe of_initializer x.now) }
{
    match x {
        Some(x) => in_initializer(found, depth, x),
        None => Ok(()),
    }
}

#[cycle(walk)]
fn in_declaration<'a>(
    found: &mut Vec<&'a TypedLambda>,
    depth: usize,
    d: &'a TypedDeclaration,
) -> Result<(), AllocError>
    ensures { Added found.old.items result found.new.items (of_declaration d.now) }
{
    match d {
        TypedDeclaration::Values(ds, _) => in_declarators(found, depth, ds.as_slice()),
        TypedDeclaration::Vector(_, i, _) => in_maybe_initializer(found, depth, i),
        TypedDeclaration::DeviceVector(_, i, _) => in_maybe_initializer(found, depth, i),
        TypedDeclaration::ThreadVector(_, _) => Ok(()),
        TypedDeclaration::Thread(_, l, _) => in_lambda(found, depth, l),
        TypedDeclaration::Object(_, i, _) => in_maybe_initializer(found, depth, i),
    }
}

#[cycle(walk)]
fn in_all_printed<'a>(
    found: &mut Vec<&'a TypedLambda>,
    depth: usize,
    ps: &'a [TypedPrinted],
) -> Result<(), AllocError>
    ensures { Added found.old.items result found.new.items (of_all of_printed ps.now) }
{
    for p in ps {
        in_maybe_typed(found, depth, operand_of(p))?;
    }
    Ok(())
}

#[cycle(walk)]
fn in_maybe_full<'a>(
    found: &mut Vec<&'a TypedLambda>,
    depth: usize,
    x: &'a Option<TypedFull>,
) -> Result<(), AllocError>
    ensures { Added found.old.items result found.new.items (of_maybe of_full x.now) }
{
    match x {
        Some(x) => in_full(found, depth, x),
        None => Ok(()),
    }
}

#[cycle(walk)]
fn in_else<'a>(
    found: &mut Vec<&'a TypedLambda>,
    depth: usize,
    x: &'a Option<Boxed<TypedStmt>>,
) -> Result<(), AllocError>
    ensures { Added found.old.items result found.new.items (of_maybe of_statement x.now) }
{
    match x {
        Some(x) => in_statement(found, depth, x.get()),
        None => Ok(()),
    }
}

#[cycle(walk)]
fn in_statement<'a>(
    found: &mut Vec<&'a TypedLambda>,
    depth: usize,
    s: &'a TypedStmt,
) -> Result<(), AllocError>
    ensures { Added found.old.items result found.new.items (of_statement s.now) }
{
    if depth == 0 {
        return Err(AllocError);
    }
    in_form(found, depth - 1, s)
}

/// A statement, by its form.
#[cycle(walk)]
fn in_form<'a>(
    found: &mut Vec<&'a TypedLambda>,
    depth: usize,
    s: &'a TypedStmt,
) -> Result<(), AllocError>
    ensures { Added found.old.items result found.new.items (of_statement s.now) }
{
    match s {
        TypedStmt::Compound(b) => in_block(found, depth, b),
        TypedStmt::Null(_) => Ok(()),
        TypedStmt::Declaration(d) => in_declaration(found, depth, d),
        TypedStmt::Expression(f, _) => in_full(found, depth, f),
        TypedStmt::Print(ps, _) => in_all_printed(found, depth, ps.as_slice()),
        TypedStmt::Break(_, _) => Ok(()),
        TypedStmt::Continue(_, _) => Ok(()),
        TypedStmt::Return(_, e, _) => in_maybe_typed(found, depth, e.as_ref()),
        TypedStmt::If(_, c, a, b) => {
            in_typed(found, depth, c)?;
            in_statement(found, depth, a.get())?;
            in_else(found, depth, b)
        }
        TypedStmt::While(_, c, b) => {
            in_typed(found, depth, c)?;
            in_statement(found, depth, b.get())
        }
        TypedStmt::Do(_, b, c, _) => {
            in_statement(found, depth, b.get())?;
            in_typed(found, depth, c)
        }
        TypedStmt::For(_, head, c, step, b) => {
            in_statement(found, depth, head.get())?;
            in_maybe_typed(found, depth, c.as_ref())?;
            in_maybe_full(found, depth, step)?;
            in_statement(found, depth, b.get())
        }
        TypedStmt::RangeFor(_, _, _, _, b) => in_statement(found, depth, b.get()),
        TypedStmt::Try(_, b, _, h) => {
            in_block(found, depth, b)?;
            in_block(found, depth, h)
        }
    }
}

fn in_functions<'a>(
    found: &mut Vec<&'a TypedLambda>,
    functions: &'a [TypedFunction],
) -> Result<(), AllocError>
    ensures { Added found.old.items result found.new.items (of_all (λ f. lambdas_in f.body) functions.now) }
{
    for f in functions {
        in_block(found, DEPTH, &f.body)?;
    }
    Ok(())
}

/// All lambdas, in the order of their bodies' numbers.
pub fn lambdas_of(alloc: Global, program: &Program) -> Result<Vec<&TypedLambda>, AllocError>
    ensures { IfOk result (λ found. pointed found.items ≡ lambdas_of program.now) }
{
    let mut found = Vec::new(alloc);
    in_functions(&mut found, program.functions.as_slice())?;
    Ok(found)
}
