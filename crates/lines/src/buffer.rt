ghost use Rattle.std.specs.Prelude.{◌≡◌, ◌↔◌, ℕ, ◌≤◌, List, [], ◌∷◌, ◌++◌, take, IsTrue, IfOk, vec_len, vec_capacity};

use std::alloc::{AllocError, Global};

mod lend;

// The line so far, of which it keeps the first `limit` bytes and forgets the others.
#[derive(Drop)]
pub struct LineBuffer {
    bytes: Vec<u8>,
    // how many bytes are kept at most; the Vec may have room for more
    limit: usize,
    ghost room: { limit ≤ vec_capacity bytes },
    ghost short: { vec_len bytes ≤ limit },
}

impl LineBuffer {
    // An empty line, with the room for `limit` bytes.
    pub fn new(heap: Global, limit: usize) -> Result<LineBuffer, AllocError>
        ensures { IfOk result (λ b. (b.bytes.items ≡ []) × (b.limit ≡ limit)) }
    {
        let bytes = Vec::with_capacity(heap, limit)?;
        Ok(LineBuffer { bytes, limit })
    }

    // Whether no byte is kept.
    pub fn is_empty(&self) -> bool
        ensures { IsTrue result ↔ (self.now.bytes.items ≡ []) }
    {
        self.bytes.is_empty()
    }

    // One byte more, forgotten where the line has reached the limit.
    pub fn push(&mut self, byte: u8)
        ensures held { self.new.bytes.items ≡ take self.old.limit (self.old.bytes.items ++ byte ∷ []) }
        ensures limit { self.new.limit ≡ self.old.limit }
        ensures all { (whole : List ℕ) → self.old.bytes.items ≡ take self.old.limit whole → self.new.bytes.items ≡ take self.old.limit (whole ++ byte ∷ []) }
    {
        if self.bytes.len() < self.limit {
            self.bytes.push_reserved(byte);
        }
    }

    // An empty line again.
    pub fn clear(&mut self)
        ensures held { self.new.bytes.items ≡ [] }
        ensures limit { self.new.limit ≡ self.old.limit }
    {
        self.bytes.clear();
    }
}
