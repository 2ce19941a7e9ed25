use crate::node::Node;

pub const NODES: usize = 256;

pub const WORDS: usize = 8192;

// The memory that a planner may be lent. It is lent as two arrays, which need not lie together.
#[derive(Drop)]
pub struct Tables {
    pub nodes: [Node; NODES],
    pub words: [u32; WORDS],
}

impl Tables {
    // Tables with nothing in use.
    pub const EMPTY: Tables = Tables {
        nodes: [Node::FREE; NODES],
        words: [0; WORDS],
    };
}

// Nodes and words that are lent, and changed in place. How many there may be is asked by each operation that needs it,
// and by no ghost field: that would ask it of pools whose makers need it not. `Tables` has the sizes of a planner's
// pool; here any other serves too, as in tests.
#[derive(Drop)]
pub struct Pool<'a> {
    pub nodes: &'a mut [Node],
    pub words: &'a mut [u32],
}
