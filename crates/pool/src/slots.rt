// SPDX-License-Identifier: Apache-2.0
// SPDX-FileCopyrightText: Copyright the Vortex contributors
// Changed: ported from Rust to Rattle, over node numbers and share counts in place of `Arc`.
ghost use Rattle.std.specs.Prelude.{◌≡◌, ℕ, ◌+◌, ◌<◌, ◌≤◌, List, ◌∷◌, length, Some, None};
ghost use Rattle.pool.specs.Memory.{count_at, run_at};
ghost use Rattle.pool.specs.Counts.{names, times, Owed, tallest};
ghost use Rattle.pool.specs.Order.{Ordered};
ghost use Rattle.pool.specs.Sharing.{retained, each_slot};
ghost use Rattle.pool.specs.Slots.{owned, slot_at, slot_taken, slot_put, Taken, Put};
ghost use Rattle.pool.specs.Seen.{memory_of};

use crate::node::{MAX_HEIGHT, Node, PoolFault, SLOTS};
use crate::pool::Pool;

impl Pool<'_> {
    // One holder more of all that the slots name. Not one function with `release_slots`, which calls back into
    // `release`.
    pub(crate) fn retain_slots(&mut self, slots: [Option<u8>; SLOTS])
        requires used { (c : ℕ) → 0 < times c (names slots) → 0 < count_at self.old.nodes.now c }
        requires room { (k : ℕ) → count_at self.old.nodes.now k + 8 < 65536 }
        ensures { memory_of self.new ≡ each_slot retained (memory_of self.old) slots }
    {
        for child in slots.iter().filter_map(|slot| *slot) {
            self.retain(child);
        }
    }

    // A node that only the caller holds, with what n has: n itself, or a copy where others hold n too.
    fn own(&mut self, n: u8) -> Result<u8, PoolFault>
        requires owed { Owed self.old.nodes.now n }
        requires sized { length self.old.nodes.now ≤ 256 }
        requires room { (k : ℕ) → count_at self.old.nodes.now k + 8 < 65536 }
        ensures { (result, memory_of self.new) ≡ owned (memory_of self.old) n }
    {
        let node = self.nodes[n as usize];
        if node.count == 1 {
            return Ok(n);
        }
        let copy = self.lowest_free().ok_or(PoolFault::Nodes)?;
        self.nodes[n as usize].count = node.count - 1;
        self.retain_slots(node.slots);
        self.nodes[copy as usize] = Node { count: 1, ..node };
        Ok(copy)
    }

    // The height of the tallest child that the slots name.
    pub(crate) fn tallest(&self, slots: [Option<u8>; SLOTS]) -> u8
        requires { (c : ℕ) → 0 < times c (names slots) → c < length self.now.nodes.now }
        ensures { result ≡ tallest self.now.nodes.now slots }
    {
        slots
            .iter()
            .filter_map(|slot| *slot)
            .map(|child| self.nodes[child as usize].height)
            .max()
            .unwrap_or(0)
    }

    // Takes the child out of a slot: the parent with the slot absent, and the child.
    // A parent that others hold too stays as it was, and a copy takes its part.
    pub fn take_slot_unchecked(&mut self, parent: u8, slot: u8) -> Result<(u8, u8), PoolFault>
        requires held { (hs : List ℕ) × (length hs ≤ 4096) × Ordered (memory_of self.old) (parent ∷ hs) }
        requires inside { slot < 8 }
        requires present { (c : ℕ) × (slot_at (memory_of self.old) parent slot ≡ Some c) }
        ensures value { (result, memory_of self.new) ≡ slot_taken (memory_of self.old) parent slot }
        ensures change { (hs : List ℕ) → Ordered (memory_of self.old) (parent ∷ hs) → Taken (memory_of self.old) (memory_of self.new) parent slot hs result }
    {
        let child = self.nodes[parent as usize].slots[slot as usize].unwrap();
        let parent = self.own(parent)?;
        let node = self.nodes[parent as usize];
        let mut slots = node.slots;
        slots[slot as usize] = None;
        let height = self.tallest(slots) + 1;
        self.nodes[parent as usize] = Node {
            slots,
            height,
            ..node
        };
        Ok((parent, child))
    }

    // Puts a child that the caller holds into an absent slot of the parent.
    // A parent that others hold too stays as it was, and a copy takes its part.
    // The last steps are those of taking; a function for these three would be as long as what it saves.
    pub fn put_slot_unchecked(&mut self, parent: u8, slot: u8, child: u8) -> Result<u8, PoolFault>
        requires held { (hs : List ℕ) × (length hs ≤ 4096) × Ordered (memory_of self.old) (parent ∷ (child ∷ hs)) }
        requires inside { slot < 8 }
        requires absent { slot_at (memory_of self.old) parent slot ≡ None }
        requires bare { run_at self.old.nodes.now parent ≡ 0 }
        ensures value { (result, memory_of self.new) ≡ slot_put (memory_of self.old) parent slot child }
        ensures change { (hs : List ℕ) → Ordered (memory_of self.old) (parent ∷ (child ∷ hs)) → Put (memory_of self.old) (memory_of self.new) parent slot child hs result }
    {
        let mut slots = self.nodes[parent as usize].slots;
        slots[slot as usize] = Some(child);
        let height = self.tallest(slots);
        if height >= MAX_HEIGHT {
            return Err(PoolFault::Height);
        }
        let parent = self.own(parent)?;
        let node = self.nodes[parent as usize];
        self.nodes[parent as usize] = Node {
            slots,
            height: height + 1,
            ..node
        };
        Ok(parent)
    }
}
