ghost use Rattle.std.specs.Prelude.{◌≡◌, ℕ, ◌<◌, ◌≤◌, List, length};
ghost use Rattle.pool.specs.Memory.{count_at};
ghost use Rattle.pool.specs.Counts.{names, times};
ghost use Rattle.pool.specs.Order.{Ordered};
ghost use Rattle.pool.specs.Inserting.{inserted, Inserted};
ghost use Rattle.pool.specs.Seen.{memory_of};

use crate::node::{MAX_HEIGHT, Node, PoolFault};
use crate::pool::Pool;

impl Pool<'_> {
    // A node of its own for an array, at the height that its slots give it and held once; its children have one holder
    // more each. Too high an array is refused before a node is sought.
    pub fn insert(&mut self, node: Node) -> Result<u8, PoolFault>
        requires held { (hs : List ℕ) × (length hs ≤ 4097) × Ordered (memory_of self.old) hs }
        requires used { (c : ℕ) → 0 < times c (names node.slots) → 0 < count_at self.old.nodes.now c }
        requires bare { (node.start ≡ 0) × (node.run ≡ 0) }
        ensures value { (result, memory_of self.new) ≡ inserted (memory_of self.old) node }
        ensures change { (hs : List ℕ) → Ordered (memory_of self.old) hs → Inserted (memory_of self.old) (memory_of self.new) node hs result }
    {
        let height = self.tallest(node.slots);
        if height >= MAX_HEIGHT {
            return Err(PoolFault::Height);
        }
        let place = self.lowest_free().ok_or(PoolFault::Nodes)?;
        self.retain_slots(node.slots);
        self.nodes[place as usize] = Node {
            height: height + 1,
            count: 1,
            ..node
        };
        Ok(place)
    }
}
