// SPDX-License-Identifier: Apache-2.0
// SPDX-FileCopyrightText: Copyright the Vortex contributors
// Changed: ported from Rust to Rattle, over nodes and runs of words in a pool.

ghost use Rattle.std.specs.Prelude.{◌≡◌, ℕ, ◌+◌, ◌<◌, ◌≤◌, not, List, ◌∷◌, length, Some};
ghost use Rattle.std.specs.Option.{unwrap_or};
ghost use Rattle.rows.specs.Kind.{Kinds};
ghost use Rattle.rows.specs.Ours.{number};
ghost use Rattle.pool.specs.Memory.{node_at, part};
ghost use Rattle.pool.specs.Slots.{slot_at};
ghost use Rattle.pool.specs.Order.{Ordered, Within};
ghost use Rattle.pool.specs.Counts.{names, times, Owed, Falling};
ghost use Rattle.pool.specs.Sharing.{release};
ghost use Rattle.pool.specs.Building.{finished};
ghost use Rattle.encodings.specs.declared.step.ExecutionStep.TheVariants.{Done};
ghost use Rattle.pool.specs.Seen.{memory_of};
ghost use Rattle.encodings.specs.Meaning.{Encodings, LawfulEncodings, no_gap};
ghost use Rattle.encodings.specs.Rows.{slots_of, StandsAt};
ghost use Rattle.encodings.specs.Flattening.{Filling, Filled, flat_given, first_encoded, flattening_step};

use crate::step::{ANY_CANONICAL, ExecutionStep, StepFault};
use pool::builder::Builder;
use pool::node::{FLAT, Node, SLOTS};
use pool::pool::Pool;
use rows::kind::RowKind;
use rows::kinds::RowKinds;
use rows::number::Number;
use rows::row::Row;

// An encoding that appends all its rows to a builder, once every child is Flat. It does not ask for `Encoding`, since the
// step there calls this.
pub trait AppendToBuilder {
    ghost means: { Self → Kinds → Encodings };

    // Appends the rows of the array to a builder that has none yet, or says that there are none.
    fn append_to_builder<K: RowKinds>(
        &self,
        kinds: &K,
        pool: &mut Pool,
        array: u8,
        builder: &mut Builder,
    ) -> Result<(), StepFault>
        requires filling { Filling (K.RowKinds.kinds kinds.now) (means self.now (K.RowKinds.kinds kinds.now)) (memory_of pool.old) array builder.old.node }
        requires none_yet { builder.old.filled ≡ 0 }
        ensures filled { Filled (K.RowKinds.kinds kinds.now) (memory_of pool.old) (memory_of pool.new) builder.old.node (flat_given (K.RowKinds.kinds kinds.now) (means self.now (K.RowKinds.kinds kinds.now)) (memory_of pool.old) array) result }
        ensures node { builder.new.node ≡ builder.old.node };

    ghost lawful: { (s : Self) (ks : Kinds) → LawfulEncodings ks (means s ks) };
}

// A Flat child of an array, whose rows are read one by one. It is a copy of its node, since the pool changes meanwhile.
#[derive(Clone, Copy)]
pub struct FlatChild {
    pub node: Node,
}

impl FlatChild {
    // The child in a slot that is present.
    pub fn of(pool: &Pool, array: u8, slot: usize) -> FlatChild
        requires inside { (array < length pool.now.nodes.now) × (slot < 8) }
        requires present { (c : ℕ) × (c < length pool.now.nodes.now) × (slot_at (memory_of pool.now) array slot ≡ Some c) }
        ensures { result.node ≡ node_at (memory_of pool.now) (unwrap_or (slot_at (memory_of pool.now) array slot) 0) }
    {
        let child = pool.nodes[array as usize].slots[slot].unwrap();
        FlatChild {
            node: pool.nodes[child as usize],
        }
    }

    // Its row k.
    pub fn row<K: RowKinds>(&self, kinds: &K, pool: &Pool, k: u16) -> Row
        requires { self.now.node.start + self.now.node.run ≤ length pool.now.words.now }
        ensures { result ≡ ((K.RowKinds.kinds kinds.now).kind self.now.node.kind).row self.now.node.len (part pool.now.words.now self.now.node.start self.now.node.run) k }
    {
        let run = &pool.words[self.node.words()];
        kinds.read(self.node.kind, run, self.node.len, k)
    }

    // Its row k as a number.
    pub fn number(&self, pool: &Pool, k: u16) -> u32
        requires { self.now.node.start + self.now.node.run ≤ length pool.now.words.now }
        ensures { result ≡ (number.row self.now.node.len (part pool.now.words.now self.now.node.start self.now.node.run) k).value }
    {
        let run = &pool.words[self.node.words()];
        Number.read(run, self.node.len, k).value
    }
}

// The first slot whose child is not Flat.
fn first_encoded(pool: &Pool, slots: [Option<u8>; SLOTS]) -> Option<u8>
    requires { (c : ℕ) → 0 < times c (names slots) → c < length pool.now.nodes.now }
    ensures { result ≡ first_encoded (memory_of pool.now) slots 0 }
{
    slots
        .iter()
        .position(|slot| slot.is_some_and(|child| pool.nodes[child as usize].encoding != FLAT))
        // the cast loses nothing: there are eight slots
        .map(|i| i as u8)
}

// Whether one of the slots that an array has is absent.
fn has_gap(node: &Node) -> bool
    ensures { result ≡ not (no_gap (slots_of node.now)) }
{
    node.slots
        .iter()
        .take(node.arity as usize)
        .any(Option::is_none)
}

// The array is done: the Flat array that a builder has become is in its place, and it is released.
pub fn replace(pool: &mut Pool, array: u8, builder: Builder) -> ExecutionStep
    requires inside { builder.node < length pool.old.nodes.now }
    requires owed { Owed (finished (memory_of pool.old) builder.node).nodes array }
    requires falling { Falling (finished (memory_of pool.old) builder.node).nodes }
    requires within { Within (finished (memory_of pool.old) builder.node).nodes pool.old.words.now }
    ensures value { result ≡ Done builder.node }
    ensures after { memory_of pool.new ≡ release (finished (memory_of pool.old) builder.node) array }
{
    let done = pool.finish(builder);
    pool.release(array);
    ExecutionStep::Done { array: done }
}

// The step of an encoding that asks for its first slot that is not Flat, and is Done with a Flat array once there is none.
pub fn flatten<K: RowKinds, E: AppendToBuilder>(
    encoding: &E,
    kinds: &K,
    pool: &mut Pool,
    array: u8,
) -> Result<ExecutionStep, StepFault>
    requires held { (hs : List ℕ) × (length hs ≤ 4096) × Ordered (memory_of pool.old) (array ∷ hs) }
    requires stands { StandsAt (E.AppendToBuilder.means encoding.now (K.RowKinds.kinds kinds.now)) (memory_of pool.old) array }
    ensures { (result, memory_of pool.new) ≡ flattening_step (K.RowKinds.kinds kinds.now) (E.AppendToBuilder.means encoding.now (K.RowKinds.kinds kinds.now)) (memory_of pool.old) array }
{
    let node = pool.nodes[array as usize];
    if let Some(slot) = first_encoded(pool, node.slots) {
        return Ok(ExecutionStep::ExecuteSlot {
            slot,
            target: ANY_CANONICAL,
        });
    }
    if has_gap(&node) {
        return Err(StepFault::NoRows);
    }
    let mut builder = Builder {
        node: pool.open_builder(kinds, node.kind, node.len)?,
        filled: 0,
    };
    if let Err(fault) = encoding.append_to_builder(kinds, pool, array, &mut builder) {
        pool.release(builder.node);
        return Err(fault);
    }
    Ok(replace(pool, array, builder))
}
