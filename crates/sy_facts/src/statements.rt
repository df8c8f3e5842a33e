// Statements, declarations and printed items: the lines of their last tokens.

ghost use Rattle.std.specs.Prelude.{◌≡◌, ℕ, IfOk};
ghost use Rattle.sy_facts.specs.Parts.{declaration, full_statement, printing};
ghost use Rattle.sy_meaning.specs.Expressions.{Calls};
ghost use Rattle.sy_meaning.specs.Turns.{statement};

use crate::lines::last_of;
use crate::locations::DEPTH;
use crate::temporaries::makes;
use std::alloc::AllocError;
use sy_typed::{TypedDeclaration, TypedFull, TypedPrinted, TypedStmt};

/// A full expression's.
pub fn full_last(f: &TypedFull) -> Result<u32, AllocError>
    ensures { (calls : Calls) (limit : ℕ) → IfOk result (λ n. n ≡ (full_statement calls limit f.now).last) }
{
    match f {
        TypedFull::Plain(e) => last_of(e),
        TypedFull::Assignment(_, _, _, b) => last_of(b),
    }
}

/// A declaration's.
pub fn declaration_last(d: &TypedDeclaration) -> u32
    ensures { (calls : Calls) (limit : ℕ) → result ≡ (declaration calls limit d.now).last }
{
    match d {
        TypedDeclaration::Values(_, s) => s.line,
        TypedDeclaration::Vector(_, _, s) => s.line,
        TypedDeclaration::DeviceVector(_, _, s) => s.line,
        TypedDeclaration::ThreadVector(_, s) => s.line,
        TypedDeclaration::Thread(_, _, s) => s.line,
        TypedDeclaration::Object(_, _, s) => s.line,
    }
}

/// A printed item's.
pub fn printed_last(p: &TypedPrinted) -> Result<u32, AllocError>
    ensures { (calls : Calls) (limit : ℕ) → IfOk result (λ n. n ≡ (printing calls limit p.now).last) }
{
    match p {
        TypedPrinted::Operand(_, e) => last_of(e),
        TypedPrinted::Bytes(_, _, last) => Ok(last.line),
        TypedPrinted::EndLine(_, last) => Ok(last.line),
    }
}

/// Whether a temporary in a printed item has an end.
pub fn printed_makes(p: &TypedPrinted) -> Result<bool, AllocError>
    ensures { (calls : Calls) (limit : ℕ) → IfOk result (λ b. b ≡ (printing calls limit p.now).makes) }
{
    match p {
        TypedPrinted::Operand(_, e) => makes(e),
        TypedPrinted::Bytes(_, _, _) => Ok(false),
        TypedPrinted::EndLine(_, _) => Ok(false),
    }
}

fn statement_last_in(depth: usize, s: &TypedStmt) -> Result<u32, AllocError>
    ensures { (calls : Calls) (limit : ℕ) → IfOk result (λ n. n ≡ (statement calls limit s.now).last) }
{
    if depth == 0 {
        return Err(AllocError);
    }
    match s {
        TypedStmt::Compound(b) => Ok(b.close.line),
        TypedStmt::Null(s) => Ok(s.line),
        TypedStmt::Declaration(d) => Ok(declaration_last(d)),
        TypedStmt::Expression(_, s) => Ok(s.line),
        TypedStmt::Print(_, s) => Ok(s.line),
        TypedStmt::Break(_, e) => Ok(e.line),
        TypedStmt::Continue(_, e) => Ok(e.line),
        TypedStmt::Return(_, _, last) => Ok(last.line),
        TypedStmt::If(_, _, a, b) => match b {
            Some(b) => statement_last_in(depth - 1, b.get()),
            None => statement_last_in(depth - 1, a.get()),
        },
        TypedStmt::While(_, _, b) => statement_last_in(depth - 1, b.get()),
        TypedStmt::Do(_, _, _, last) => Ok(last.line),
        TypedStmt::For(_, _, _, _, b) => statement_last_in(depth - 1, b.get()),
        TypedStmt::RangeFor(_, _, _, _, b) => statement_last_in(depth - 1, b.get()),
        TypedStmt::Try(_, _, _, h) => Ok(h.close.line),
    }
}

/// A statement's.
pub fn statement_last(s: &TypedStmt) -> Result<u32, AllocError>
    ensures { (calls : Calls) (limit : ℕ) → IfOk result (λ n. n ≡ (statement calls limit s.now).last) }
{
    statement_last_in(DEPTH, s)
}
