// What is written into the elements of roots.

ghost use Rattle.std.specs.Prelude.{◌≡◌, ◌+◌, length};
ghost use Rattle.sy_work.specs.Moves.{writes_from};

use std::marker::Model;
use sy_access::Log;

/// The numbers that a command or a host access leaves: those of a log, or those of a run of one root's
/// elements, which are seen as the log that names each of them.
#[derive(Drop)]
pub struct Written<'a> {
    pub kind: Kind<'a>,
}

/// A log, or a root, the first element of a run in it, and the numbers of the run.
#[derive(Clone, Copy)]
pub enum Kind<'a> {
    Log(&'a Log),
    Run(u32, u32, &'a [i128]),
}

impl<'a> Model for Written<'a> {
    ghost use Rattle.std.specs.Prelude.{List, ℤ};
    ghost use Rattle.sy_access.specs.declared.cells.Cell.{Cell};
    ghost use Rattle.sy_copies.specs.Written.{log_of, Fits};

    ghost Value = { List (Cell × ℤ) };

    ghost view = { λ s. log_of s.kind };

    ghost invariant = { λ s. Fits s.kind };
}

impl<'a> Written<'a> {
    pub fn by_log(log: &'a Log) -> Written<'a>
        ensures { result ≡ log.now }
    {
        Written {
            kind: Kind::Log(log),
        }
    }

    /// The numbers of the elements from `from` up to `to`.
    pub fn by_run(root: u32, from: u32, to: u32, values: &'a [i128]) -> Written<'a>
        requires { from + length values.now ≡ to }
        ensures { result ≡ writes_from root from values.now }
    {
        Written {
            kind: Kind::Run(root, from, values),
        }
    }
}
