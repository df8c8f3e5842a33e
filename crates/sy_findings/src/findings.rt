//! The broken rule that is told first.

ghost use Rattle.std.specs.Prelude.{◌≡◌, [], ◌∷◌, None};
ghost use Rattle.sy_findings.specs.Told.{told};
ghost use Rattle.sy_rules.specs.Faults.{table_place, rank, at};
ghost use Rattle.sy_rules.specs.Seen.{when};

use std::marker::Model;
use sy_note::{Code, Diagnostic, Spot};

/// The place of a rule in the table.
pub fn table_place(code: Code) -> u8
    ensures { result ≡ table_place code }
{
    match code {
        Code::Lexical => 0,
        Code::Grammar => 1,
        Code::NoMain => 2,
        Code::UnknownName => 3,
        Code::Redeclared => 4,
        Code::BadLiteral => 5,
        Code::BadConstant => 6,
        Code::BadDimension => 7,
        Code::BadDeclaration => 8,
        Code::WrongArguments => 9,
        Code::UnknownMember => 10,
        Code::WrongOperand => 11,
        Code::BadElement => 12,
        Code::NotAssignable => 13,
        Code::ModeBroken => 14,
        Code::NotInKernel => 15,
        Code::NotInGroup => 16,
        Code::NotInHost => 17,
        Code::BadLambda => 18,
        Code::KernelCapture => 19,
        Code::ThreadCapture => 20,
        Code::BadReturn => 21,
        Code::LoopWord => 22,
        Code::BadCall => 23,
        Code::NotBuilt => 24,
    }
}

/// The line, the column and the place in the table as one number.
fn rank(d: Diagnostic) -> u128
    ensures { result ≡ rank d }
{
    let place = (d.spot.line as u128) * 4294967296 + d.spot.column as u128;
    place * 32 + table_place(d.code) as u128
}

/// The broken rule with the least place, and there the one that stands first in the table.
#[derive(Debug, Drop)]
pub struct Findings {
    first: Option<Diagnostic>,
}

impl Model for Findings {
    ghost use Rattle.std.specs.Prelude.{Option};
    ghost use Rattle.sy_note.specs.declared.Diagnostic.{Diagnostic};

    ghost Value = { Option Diagnostic };

    ghost view = { λ f. f.first };
}

impl Findings {
    /// Nothing is broken yet.
    pub fn new() -> Findings
        ensures { result ≡ None }
    {
        Findings { first: None }
    }

    /// The rule is broken at this place.
    pub fn tell(&mut self, code: Code, spot: Spot)
        ensures { self.new ≡ told self.old (at code (spot ∷ [])) }
    {
        let next = Diagnostic { spot, code };
        self.first = match self.first {
            None => Some(next),
            Some(first) => Some(if rank(next) < rank(first) {
                next
            } else {
                first
            }),
        };
    }

    /// The rule is broken at this place if the flag is set.
    pub fn tell_if(&mut self, is_broken: bool, code: Code, spot: Spot)
        ensures { self.new ≡ told self.old (at code (when is_broken spot)) }
    {
        if is_broken {
            self.tell(code, spot);
        }
    }

    /// The rule that is told first.
    pub fn first(&self) -> Option<Diagnostic>
        ensures { result ≡ self.now }
    {
        self.first
    }
}
