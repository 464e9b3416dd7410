//! The blocks of the external memory, and the accesses to them.

/// A region of the external memory. The chunk of input bucket b for target i is the block `b * B + i` of `Mid`.
#[derive(Clone, Copy, PartialEq, Eq, Debug)]
pub enum Region {
    /// A block for each bucket of the batch: its envelopes.
    Input,
    /// A block for each pair of an input bucket and a target: a chunk.
    Mid,
    /// A block for each target: what the stash still held for it at the end.
    Tail,
    /// A block for each bucket of the shuffled batch: its items.
    Output,
}

/// A block of the external memory.
#[derive(Clone, Copy, PartialEq, Eq, Debug)]
pub struct Slot {
    /// The region.
    pub region: Region,
    /// The place in the region, from 0 on.
    pub index: u32,
}

/// What is asked of a block.
#[derive(Clone, Copy, PartialEq, Eq, Debug)]
pub enum Op {
    /// The block is read.
    Read,
    /// The block is written.
    Write,
}

/// One access to the external memory, as an observer sees it.
#[derive(Clone, Copy, PartialEq, Eq, Debug)]
pub struct Access {
    /// What is asked.
    pub op: Op,
    /// The region of the block.
    pub region: Region,
    /// The place of the block in its region, from 0 on.
    pub index: u32,
    /// The length of the block in bytes.
    pub length: u32,
    /// The nonce that is written, or that the block must carry where it is read.
    pub nonce: u64,
    /// The attempt in which the access is made, from 0 on.
    pub attempt: u32,
}
