// SPDX-License-Identifier: Apache-2.0
// SPDX-FileCopyrightText: Copyright the Vortex contributors
// Changed: ported from Rust to Rattle, over nodes and runs of words in a pool.

ghost use Rattle.std.specs.Prelude.{◌≡◌, ℕ, ◌+◌, ◌<◌};
ghost use Rattle.pool.specs.Memory.{count_at, height_at};
ghost use Rattle.pool.specs.Counts.{Falling, Owed, OwedAll, tallest};
ghost use Rattle.pool.specs.Order.{Within};
ghost use Rattle.pool.specs.Sharing.{retained, released, each_slot};
ghost use Rattle.pool.specs.Seen.{memory_of};

use crate::node::{Node, SLOTS};
use crate::pool::Pool;

impl Pool<'_> {
    // One holder of n more.
    pub fn retain(&mut self, n: u8)
        requires used { 0 < count_at self.old.nodes.now n }
        requires room { count_at self.old.nodes.now n < 65535 }
        ensures { memory_of self.new ≡ retained (memory_of self.old) n }
    {
        self.nodes[n as usize].count += 1;
    }

    // One holder of n less; where it was the last, n and its words are free, and what its slots name is released.
    #[cycle(release_release_slots)]
    pub fn release(&mut self, n: u8)
        requires owed { Owed self.old.nodes.now n }
        requires falling { Falling self.old.nodes.now }
        requires within { Within self.old.nodes.now self.old.words.now }
        ensures { (f : ℕ) → height_at self.old.nodes.now n < f → memory_of self.new ≡ released f (memory_of self.old) n }
    {
        let node = self.nodes[n as usize];
        if node.count != 1 {
            self.nodes[n as usize].count = node.count - 1;
            return;
        }
        self.nodes[n as usize] = Node::FREE;
        self.words[node.words()].fill(0);
        self.release_slots(node.slots);
    }

    // One holder less of all that the slots name.
    #[cycle(release_release_slots)]
    fn release_slots(&mut self, slots: [Option<u8>; SLOTS])
        requires owed { OwedAll self.old.nodes.now slots }
        requires falling { Falling self.old.nodes.now }
        requires within { Within self.old.nodes.now self.old.words.now }
        ensures { (f : ℕ) → tallest self.old.nodes.now slots < f → memory_of self.new ≡ each_slot (released f) (memory_of self.old) slots }
    {
        // not `flatten` of the array itself, whose iterator first takes over each slot: a release then took 2.7 times the
        // instructions
        for child in slots.iter().filter_map(|slot| *slot) {
            self.release(child);
        }
    }
}
