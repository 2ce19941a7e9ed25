ghost use Rattle.std.specs.Prelude.{◌≡◌, ℕ, ◌<◌, ◌==◌, [], ◌∷◌, length, drop, refl};
ghost use Rattle.pool.specs.Memory.{node_at};
ghost use Rattle.pool.specs.Counts.{names, times};
ghost use Rattle.pool.specs.Seen.{memory_of};
ghost use Rattle.encodings.specs.Meaning.{no_gap};
ghost use Rattle.encodings.specs.Rows.{slots_of};
ghost use Rattle.encodings.proofs.Known.{one_id};
ghost use Rattle.trials.specs.Stack.{stack_encodings, last_present, slot_step, stack_steps};
ghost use Rattle.trials.specs.Stacks.{stack_lawful, stack_keeps};

use arrays::dict::DICT;
use arrays::pair::Pair;
use arrays::six::{Six, six};
use encodings::encoding::{Beside, Encoding};
use encodings::fields::{Fields, Shape};
use encodings::matcher::{Head, Matcher};
use encodings::step::{ANY_CANONICAL, BY_ENCODING, ExecutionStep, StepFault};
use pool::node::{FLAT, Node, SLOTS};
use pool::pool::Pool;
use rows::kinds::RowKinds;

// Its id, and the parameter with which it is done with a copy of itself, at parameter 0.
pub const STACK: u8 = 20;

const COPIED: u32 = 1;

// The rows of its children, the last child first.
#[derive(Clone, Copy)]
pub struct Stack;

// The six encodings with Stack joined to them.
pub type Seven = Pair<Six, Stack>;

// The set of the seven.
pub fn seven() -> Seven {
    Pair {
        first: six(),
        second: Stack,
    }
}

impl Beside<Stack> for Six {
    ghost disjoint = { refl };
}

// Whether none of the slots that an array has is absent.
fn all_present(node: &Node) -> bool
    ensures { result ≡ no_gap (slots_of node.now) }
{
    node.slots
        .iter()
        .take(node.arity as usize)
        .all(Option::is_some)
}

// The last slot that is present, with the child there.
fn last_present(node: &Node) -> Option<(u8, u8)>
    requires { names (drop node.now.arity node.now.slots) ≡ [] }
    ensures { result ≡ last_present (slots_of node.now) 0 }
{
    let slot = node.slots.iter().rposition(Option::is_some)?;
    node.slots[slot].map(|child| (slot as u8, child))
}

// The step of an array that is done slot by slot: the child in its last present slot is appended, if it is Flat, and
// else executed; with no slot present the array is done.
fn slot_step(pool: &Pool, array: u8) -> ExecutionStep
    requires inside { array < length pool.now.nodes.now }
    requires named { (c : ℕ) → 0 < times c (names (node_at (memory_of pool.now) array).slots) → c < length pool.now.nodes.now }
    requires no_more { names (drop (node_at (memory_of pool.now) array).arity (node_at (memory_of pool.now) array).slots) ≡ [] }
    ensures { result ≡ slot_step (memory_of pool.now) array }
{
    let node = pool.nodes[array as usize];
    let Some((slot, child)) = last_present(&node) else {
        return ExecutionStep::Done { array };
    };
    let target = match pool.nodes[child as usize].encoding {
        FLAT => return ExecutionStep::AppendChild { slot },
        DICT => ANY_CANONICAL,
        _ => BY_ENCODING + DICT,
    };
    ExecutionStep::ExecuteSlot { slot, target }
}

impl Matcher for Stack {
    ghost takes = { λ _ head. (head.encoding == 20) };

    fn matches(&self, head: Head) -> bool {
        head.encoding == STACK
    }
}

impl Encoding for Stack {
    ghost ids = { 20 ∷ [] };

    ghost means = { λ _ ks. stack_encodings ks };

    ghost steps = { λ _ ks. stack_steps ks };

    ghost lawful = { λ _ ks. stack_lawful ks };

    ghost keeps = { λ _ ks law. stack_keeps ks law };

    ghost known = { λ _ ks id. one_id id 20 };

    ghost own = { λ _ ks head. refl };

    fn fields_fit<K: RowKinds>(&self, kinds: &K, fields: Fields) -> bool {
        fields.are_in_range(kinds) && fields.parameter <= COPIED
    }

    fn count_fits<K: RowKinds>(&self, _kinds: &K, fields: Fields) -> bool {
        fields.arity > 0 && usize::from(fields.arity) <= SLOTS
    }

    fn kinds_fit<K: RowKinds>(&self, _kinds: &K, fields: Fields, shapes: &[Shape]) -> bool {
        shapes.iter().all(|shape| shape.kind == fields.kind)
    }

    fn lengths_fit<K: RowKinds>(&self, _kinds: &K, fields: Fields, shapes: &[Shape]) -> bool {
        shapes.iter().map(|shape| u32::from(shape.len)).sum::<u32>() == u32::from(fields.len)
    }

    fn execute<K: RowKinds>(
        &self,
        _kinds: &K,
        pool: &mut Pool,
        array: u8,
    ) -> Result<ExecutionStep, StepFault> {
        let node = pool.nodes[array as usize];
        if node.parameter != COPIED || !all_present(&node) {
            return Ok(slot_step(pool, array));
        }
        let copy = pool.insert(Node {
            parameter: 0,
            start: 0,
            run: 0,
            ..node
        })?;
        pool.release(array);
        Ok(ExecutionStep::Done { array: copy })
    }
}
