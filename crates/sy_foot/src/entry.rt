// What a group keeps of a cell that it has touched.

/// What is kept of one cell: whether the group wrote it, its number, and the turns of the phase's first
/// touch and last write of it.
///
/// A turn is an item in a phase, and 0 stands for none.
#[derive(Clone, Copy, Debug, PartialEq, Eq)]
pub struct Entry {
    pub cell: u32,
    pub wrote: bool,
    pub number: i128,
    pub touch: u64,
    pub write: u64,
}
