// SPDX-License-Identifier: Apache-2.0
// SPDX-FileCopyrightText: Copyright the Vortex contributors
// Changed: ported from Rust to Rattle, over nodes and runs of words in a pool.

ghost use Rattle.std.specs.Prelude.{◌≡◌, ℕ, ◌+◌, ◌<◌, ◌≤◌, length, replicate};
ghost use Rattle.pool.specs.Building.{opened, append_row, append_rows, finished, Open};
ghost use Rattle.pool.specs.Seen.{memory_of};

use crate::node::{FLAT, Node, PoolFault};
use crate::pool::Pool;
use rows::kinds::RowKinds;
use rows::row::Row;

// An open builder: its node, by number as in a slot, and the rows that it has so far.
#[derive(Clone, Copy)]
pub struct Builder {
    pub node: u8,
    pub filled: u16,
}

impl Pool<'_> {
    // A builder of n rows of a kind, with its node and its whole run of words.
    pub fn open_builder<K: RowKinds>(
        &mut self,
        kinds: &K,
        kind: u8,
        n: u16,
    ) -> Result<u8, PoolFault>
        requires rows { n ≤ 1024 }
        requires sized { (length self.old.nodes.now ≤ 256) × (length self.old.words.now ≤ 65535) }
        ensures { (result, memory_of self.new) ≡ opened (memory_of self.old) kind n (((K.RowKinds.kinds kinds.now).kind kind).words n) }
    {
        let run = kinds.words(kind, n);
        let node = self.lowest_free().ok_or(PoolFault::Nodes)?;
        let start = self.find_run(run).ok_or(PoolFault::Words)?;
        self.nodes[node as usize] = Node {
            kind,
            len: n,
            height: 1,
            count: 1,
            start,
            run,
            ..Node::FREE
        };
        Ok(node)
    }

    // One row more in an open builder.
    pub fn append<K: RowKinds>(&mut self, kinds: &K, builder: &mut Builder, row: Row)
        requires { Open (K.RowKinds.kinds kinds.now) (memory_of self.old) builder.old.node builder.old.filled row }
        ensures after { memory_of self.new ≡ append_row (K.RowKinds.kinds kinds.now) (memory_of self.old) builder.old.node builder.old.filled row }
        ensures node { builder.new.node ≡ builder.old.node }
        ensures filled { builder.new.filled ≡ builder.old.filled + 1 }
    {
        let node = self.nodes[builder.node as usize];
        let run = &mut self.words[node.words()];
        builder.filled = kinds.append(node.kind, run, node.len, builder.filled, row);
    }

    // A row n times more in an open builder.
    pub fn append_n<K: RowKinds>(&mut self, kinds: &K, builder: &mut Builder, row: Row, n: u16)
        requires { (k : ℕ) → k < n → Open (K.RowKinds.kinds kinds.now) (memory_of self.old) builder.old.node (builder.old.filled + k) row }
        ensures after { memory_of self.new ≡ append_rows (K.RowKinds.kinds kinds.now) (memory_of self.old) builder.old.node builder.old.filled (replicate n row) }
        ensures node { builder.new.node ≡ builder.old.node }
        ensures filled { builder.new.filled ≡ builder.old.filled + n }
    {
        for _ in 0..n {
            self.append(kinds, builder, row);
        }
    }

    // The Flat array that a builder has become.
    pub fn finish(&mut self, builder: Builder) -> u8
        requires { builder.node < length self.old.nodes.now }
        ensures value { result ≡ builder.node }
        ensures after { memory_of self.new ≡ finished (memory_of self.old) builder.node }
    {
        self.nodes[builder.node as usize].encoding = FLAT;
        builder.node
    }
}
