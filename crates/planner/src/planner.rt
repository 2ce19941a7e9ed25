ghost use Rattle.std.specs.Prelude.{◌≡◌, ◌≤◌, length};
ghost use Rattle.pool.specs.Counts.{names, Counts, Heights};
ghost use Rattle.pool.specs.Order.{Low, Eight, Within, Slotless, Cleared};
ghost use Rattle.planner.specs.Invariant.{Disjoint, Vacant};

use crate::session::Session;
use pool::pool::{Pool, Tables};
use std::mem::size_of;

// The number of roots.
pub const ROOTS: usize = 32;

// The bytes of all tables: nodes, words and roots.
pub const TABLE_BYTES: usize = size_of::<Tables>() + size_of::<[Option<u8>; ROOTS]>();

// The bytes of all tables, which fit 64 KiB.
pub fn table_bytes() -> usize
    ensures value { result ≡ 41024 }
    ensures bound { result ≤ 65536 }
{
    TABLE_BYTES
}

// A pool and the roots that hold its arrays, over what its session gives. Its type parameters stay four, since each has
// a trait of its own that clauses name. The ghost fields say that the pool is in order, with the roots for its only
// holders.
#[derive(Drop)]
pub struct Planner<'a, K, E, B, M> {
    pub pool: Pool<'a>,
    // the node of each root's array, by number as in a slot
    pub roots: [Option<u8>; ROOTS],
    pub session: Session<K, E, B, M>,
    ghost roots_long: { length roots ≡ 32 },
    ghost nodes_long: { length pool.nodes.now ≡ 256 },
    ghost words_long: { length pool.words.now ≡ 8192 },
    ghost counts: { Counts pool.nodes.now (names roots) },
    ghost heights: { Heights pool.nodes.now },
    ghost low: { Low pool.nodes.now },
    ghost eight: { Eight pool.nodes.now },
    ghost within: { Within pool.nodes.now pool.words.now },
    ghost apart: { Disjoint pool.nodes.now },
    ghost slotless: { Slotless pool.nodes.now },
    ghost freed: { Vacant pool.nodes.now },
    ghost cleared: { Cleared pool.nodes.now pool.words.now },
}
