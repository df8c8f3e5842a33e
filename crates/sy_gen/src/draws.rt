// The draws that choose the groups.
ghost use Rattle.std.specs.Prelude.{◌≡◌, ◌<◌};
ghost use Rattle.sy_gen.specs.Draws.{next_draw, draw};
ghost use Rattle.sy_gen.specs.Groups.{function_of, group_after};

use crate::{Function, Group};

#[derive(Drop)]
pub(crate) struct Draws {
    last: u32,
    ghost in_range: { last < 65537 },
}

impl Draws {
    pub(crate) fn new(seed: u32) -> Draws
        requires { seed < 65537 }
        ensures { result.last ≡ seed }
    {
        Draws { last: seed }
    }

    fn next(&mut self) -> u32
        ensures value { result ≡ next_draw self.old.last }
        ensures last { self.new.last ≡ result }
    {
        self.last = (75 * self.last + 74) % 65537;
        self.last
    }

    // The group that the next five draws make.
    pub(crate) fn next_group(&mut self) -> Group
        ensures group { result ≡ group_after self.old.last 0 }
        ensures last { self.new.last ≡ draw self.old.last 5 }
    {
        let function = function_for(self.next());
        let queue = self.next() % 2;
        let target = self.next() % 4;
        let other = (target + 1 + self.next() % 3) % 4;
        let number = self.next() % 100;
        Group {
            function,
            queue,
            target,
            other,
            number,
        }
    }
}

fn function_for(draw: u32) -> Function
    ensures { result ≡ function_of draw }
{
    match draw % 3 {
        0 => Function::Add,
        1 => Function::Mul,
        _ => Function::Flip,
    }
}
