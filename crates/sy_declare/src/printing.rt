//! What is printed.

ghost use Rattle.std.specs.Prelude.{◌≡◌, IfOk};
ghost use Rattle.sy_declare.specs.Trees.{printed};
ghost use Rattle.sy_looks.specs.Looked.{Looked};
ghost use Rattle.sy_rules.specs.Literals.{string_bytes_of};
ghost use Rattle.sy_rules.specs.Walk.{expr, printed_faults, printed_step};
ghost use Rattle.sy_findings.specs.Told.{told};
ghost use Rattle.sy_tree.specs.declared.tree.Argument.TheOpen.{Printed-F};
ghost use Rattle.sy_walk.specs.Below.{LooksBelow};

use std::alloc::{AllocError, Global};
use sy_findings::{Findings, no_integer, unread};
use sy_lex::Text;
use sy_looks::{Part, Walk};
use sy_note::Spot;
use sy_rules::{Role, Seen, SeenLambda, Taken};
use sy_strings::string_bytes;
use sy_tree::{Expr, Lambda, Lexeme, Printed};
use sy_typed::{TypedLambda, TypedPrinted};
use sy_walk::Below;

/// What is printed is an integer, and is read.
fn operand_faults(findings: &mut Findings, a: Seen)
    ensures { findings.new ≡ told findings.old (printed_faults a) }
{
    no_integer(findings, a);
    unread(findings, a);
}

fn operand<
    E: Fn(&mut Walk, usize, &Expr) -> Result<Part, AllocError>,
    L: Fn(&mut Walk, usize, Role, &Lambda) -> Result<(SeenLambda, TypedLambda), AllocError>,
>(below: &Below<E, L>, w: &mut Walk, s: Spot, a: &Expr) -> Result<TypedPrinted, AllocError>
    requires { LooksBelow below.now.depth (E.pre below.now.expr) (E.post below.now.expr) (L.pre below.now.lambda) (L.post below.now.lambda) }
    ensures { Looked (printed_step (Printed-F.Operand s (expr a.now))) w.old result w.new }
{
    let (seen, tree) = below.part(w, Taken::Nothing, a)?;
    let mut own = Findings::new();
    operand_faults(&mut own, seen);
    w.found.add(own);
    Ok(TypedPrinted::Operand(s, tree))
}

/// The bytes that a string literal stands for.
fn literal_bytes(alloc: Global, x: &Lexeme) -> Result<Text, AllocError>
    ensures { IfOk result (λ text. text ≡ string_bytes_of x.now.text) }
{
    let bytes = string_bytes(alloc, x.text.items())?;
    Text::copied(alloc, bytes.as_slice())
}

/// A printed item.
pub fn printed<
    E: Fn(&mut Walk, usize, &Expr) -> Result<Part, AllocError>,
    L: Fn(&mut Walk, usize, Role, &Lambda) -> Result<(SeenLambda, TypedLambda), AllocError>,
>(below: &Below<E, L>, w: &mut Walk, p: &Printed) -> Result<TypedPrinted, AllocError>
    requires { LooksBelow below.now.depth (E.pre below.now.expr) (E.post below.now.expr) (L.pre below.now.lambda) (L.post below.now.lambda) }
    ensures { Looked (printed p.now) w.old result w.new }
{
    match p {
        Printed::Operand(s, a) => operand(below, w, *s, a),
        Printed::Text(s, x) => {
            let text = literal_bytes(w.alloc, x)?;
            Ok(TypedPrinted::Bytes(*s, text, x.spot))
        }
        Printed::EndLine(s, q) => Ok(TypedPrinted::EndLine(*s, q.name)),
    }
}
