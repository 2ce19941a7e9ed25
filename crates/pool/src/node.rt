ghost use Rattle.std.specs.Prelude.{◌≡◌, ◌+◌, ◌^◌, ◌<◌};

use std::ops::Range;

// The most slots that a node has.
pub const SLOTS: usize = 8;

// The highest that an array may be.
pub const MAX_HEIGHT: u8 = 32;

// The encoding of a Flat array; an open builder has 0, which no array has.
pub const FLAT: u8 = 1;

// One node: the fields of an array, the slots that name its children, and how it is held. Encodings and kinds are
// numbers, since sets of them are open. Children are named by node numbers, since nodes lie in lent memory of a fixed
// size; for the same reason an open builder and a free node are told by a 0, and no Option stands around them.
#[derive(Clone, Copy)]
pub struct Node {
    pub encoding: u8,
    pub kind: u8,
    pub len: u16,
    pub parameter: u32,
    // the number of slots that the array has; the others are always absent, since there is fixed room for eight
    pub arity: u8,
    pub slots: [Option<u8>; SLOTS],
    pub height: u8,
    // the share count; a node is in use where it is not 0
    pub count: u16,
    // where its run of words starts, and how many words it has: a part of the pool's words, and no slice
    pub start: u16,
    pub run: u16,
}

impl Node {
    // What a node is while it is not in use.
    pub const FREE: Node = Node {
        encoding: 0,
        kind: 0,
        len: 0,
        parameter: 0,
        arity: 0,
        slots: [None; SLOTS],
        height: 0,
        count: 0,
        start: 0,
        run: 0,
    };

    // The places of its run of words.
    pub fn words(&self) -> Range<usize>
        ensures start { result.start ≡ self.now.start }
        ensures end { result.end ≡ self.now.start + self.now.run }
        ensures low { result.end < 2 ^ 17 }
    {
        let start = self.start as usize;
        start..start + self.run as usize
    }
}

// Why the pool refuses.
#[derive(Clone, Copy, PartialEq, Eq, Debug)]
pub enum PoolFault {
    Height,
    Nodes,
    Words,
}
