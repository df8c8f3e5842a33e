//! Places in a source, the rules that a source can break, and the text that tells a person of it.
#![tactic(auto)]

ghost use Rattle.std.specs.Prelude.{◌≡◌, IfOk};
ghost use Rattle.sy_note.specs.Notes.{rule_text, note_line};

use itoa::Buffer;
use std::alloc::{AllocError, Global};
use thiserror::Error;

#[cfg(test)]
mod tests;

/// A place in a source: the line and the column, in bytes, both counted from 1.
#[derive(Clone, Copy, PartialEq, Eq, Debug)]
pub struct Spot {
    pub line: u32,
    pub column: u32,
}

impl Spot {
    /// The first byte of a source.
    pub const START: Spot = Spot { line: 1, column: 1 };
}

/// The rule that a source breaks. Those of one place stand in the order in which they are reported.
#[derive(Clone, Copy, PartialEq, Eq, Debug)]
pub enum Code {
    Lexical,
    Grammar,
    NoMain,
    UnknownName,
    Redeclared,
    BadLiteral,
    BadConstant,
    BadDimension,
    BadDeclaration,
    WrongArguments,
    UnknownMember,
    WrongOperand,
    BadElement,
    NotAssignable,
    ModeBroken,
    NotInKernel,
    NotInGroup,
    NotInHost,
    BadLambda,
    KernelCapture,
    ThreadCapture,
    BadReturn,
    LoopWord,
    BadCall,
    /// An accepted form of the language that this program can't run yet.
    NotBuilt,
}

/// Why a source is refused: the first broken rule, and the place where it is broken.
#[derive(Clone, Copy, PartialEq, Eq, Debug)]
pub struct Diagnostic {
    pub spot: Spot,
    pub code: Code,
}

/// Why a layer of the front end answers no result.
#[derive(Clone, Copy, PartialEq, Eq, Debug, Error)]
pub enum FrontStop {
    #[error("the source breaks a rule")]
    Refused(Diagnostic),
    #[error("out of memory")]
    Memory,
}

impl Code {
    /// The words that tell a person of the rule.
    pub fn text(&self) -> &'static [u8]
        ensures { result.now ≡ rule_text self.now }
    {
        match self {
            Code::Lexical => b"no token",
            Code::Grammar => b"not in the grammar",
            Code::NoMain => b"no main",
            Code::UnknownName => b"unknown name",
            Code::Redeclared => b"declared twice",
            Code::BadLiteral => b"literal too wide",
            Code::BadConstant => b"not a constant",
            Code::BadDimension => b"bad dimension",
            Code::BadDeclaration => b"bad declaration",
            Code::WrongArguments => b"wrong arguments",
            Code::UnknownMember => b"unknown member",
            Code::WrongOperand => b"wrong operand",
            Code::BadElement => b"element kinds differ",
            Code::NotAssignable => b"not assignable",
            Code::ModeBroken => b"against the mode",
            Code::NotInKernel => b"not in a kernel",
            Code::NotInGroup => b"not in a command group",
            Code::NotInHost => b"only in a group or kernel",
            Code::BadLambda => b"wrong lambda",
            Code::KernelCapture => b"kernel capture",
            Code::ThreadCapture => b"thread capture",
            Code::BadReturn => b"wrong return",
            Code::LoopWord => b"outside a loop",
            Code::BadCall => b"wrong call",
            Code::NotBuilt => b"not built",
        }
    }
}

/// The text of a diagnostic, as `1:20: unknown name`, without the end of the line.
pub fn line(alloc: Global, d: &Diagnostic) -> Result<Vec<u8>, AllocError>
    ensures { IfOk result (λ text. text.items ≡ note_line d.now) }
{
    let mut digits = Buffer::new();
    let mut text = Vec::with_capacity(alloc, 48)?;
    text.extend_from_slice(digits.format(d.spot.line).as_bytes())?;
    text.extend_from_slice(b":")?;
    text.extend_from_slice(digits.format(d.spot.column).as_bytes())?;
    text.extend_from_slice(b": ")?;
    text.extend_from_slice(d.code.text())?;
    Ok(text)
}
