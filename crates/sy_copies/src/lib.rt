//! The copies of buffers, place by place: which places have the current numbers of a buffer, what a
//! command leaves of the buffers that it writes, and the room that this takes.
//!
//! A buffer from a range keeps its zeros once for all places. A place's own cells are taken when room
//! is reserved or a copy is installed, and stay with the place until the buffer is dropped, so that
//! publishing what a command wrote takes no memory.
#![tactic(auto)]

mod buffer;
mod cells;
mod copies;
mod needs;
mod slots;
mod written;

pub use copies::Copies;

#[cfg(test)]
mod tests;
