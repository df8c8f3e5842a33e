// What a part of a body comes to. A number is a line.

use sy_access::Values;
use sy_work::{Answer, Ask, Errc};

/// What an ask comes to: its answer, or the ask itself where the answers are at their end.
#[derive(Drop)]
pub enum Reply {
    Answered(Answer),
    Stopped(Ask),
}

/// What an expression comes to. An error is thrown only while a `try` is open.
#[derive(Drop)]
pub enum Evaluated {
    Gives(Values),
    Threw(Errc, u32),
    Stopped(Ask),
}

/// What a statement comes to.
#[derive(Drop)]
pub enum Flow {
    Normal,
    Broke(u32),
    Continued(u32),
    Returned(Values, u32),
    Threw(Errc, u32),
    Stopped(Ask),
}
