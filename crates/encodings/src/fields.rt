ghost use Rattle.std.specs.Prelude.{◌≡◌};
ghost use Rattle.encodings.specs.Meaning.{in_range};
ghost use Rattle.encodings.specs.Rows.{fields_of, shape_of};

use crate::matcher::Head;
use pool::node::{Node, SLOTS};
use rows::kinds::RowKinds;
use rows::row::MAX_ROWS;

// The fields of an array, with the numbers that a node has: what a matcher sees, and the number of slots.
#[derive(Clone, Copy)]
pub struct Fields {
    pub encoding: u8,
    pub kind: u8,
    pub len: u16,
    pub parameter: u32,
    pub arity: u8,
}

impl Fields {
    // What a matcher sees of the array.
    pub fn head(&self) -> Head
        ensures encoding { result.encoding ≡ self.now.encoding }
        ensures kind { result.kind ≡ self.now.kind }
        ensures len { result.len ≡ self.now.len }
        ensures parameter { result.parameter ≡ self.now.parameter }
    {
        Head {
            encoding: self.encoding,
            kind: self.kind,
            len: self.len,
            parameter: self.parameter,
        }
    }

    // Whether the kind exists, and length and number of slots are in range.
    pub fn are_in_range<K: RowKinds>(&self, kinds: &K) -> bool
        ensures { result ≡ in_range (K.RowKinds.kinds kinds.now) self.now }
    {
        kinds.has(self.kind) && self.len <= MAX_ROWS && usize::from(self.arity) <= SLOTS
    }
}

impl From<Node> for Fields {
    ghost from_gives = { λ node fields. fields ≡ fields_of node };

    fn from(node: Node) -> Fields {
        Fields {
            encoding: node.encoding,
            kind: node.kind,
            len: node.len,
            parameter: node.parameter,
            arity: node.arity,
        }
    }
}

// What an array sees of a child.
#[derive(Clone, Copy)]
pub struct Shape {
    pub kind: u8,
    pub len: u16,
}

impl From<Node> for Shape {
    ghost from_gives = { λ node shape. shape ≡ shape_of node };

    fn from(node: Node) -> Shape {
        Shape {
            kind: node.kind,
            len: node.len,
        }
    }
}
