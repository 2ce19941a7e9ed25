ghost use Rattle.std.specs.Prelude.{◌≡◌, ◌==◌, [], ◌∷◌, refl};
ghost use Rattle.encodings.specs.Chunked.{first_present, chunked_encodings, chunked_steps};
ghost use Rattle.encodings.proofs.Known.{one_id};
ghost use Rattle.encodings.proofs.Chunked.{chunked_lawful, chunked_keeps};

use encodings::encoding::Encoding;
use encodings::fields::{Fields, Shape};
use encodings::flatten::replace;
use encodings::matcher::{Head, Matcher};
use encodings::step::{ANY_CANONICAL, ExecutionStep, StepFault};
use pool::builder::Builder;
use pool::node::{FLAT, SLOTS};
use pool::pool::Pool;
use rows::kinds::RowKinds;

// Its id.
pub const CHUNKED: u8 = 5;

// The rows of its children, one child after another.
#[derive(Clone, Copy)]
pub struct Chunked;

impl Matcher for Chunked {
    ghost takes = { λ _ head. (head.encoding == 5) };

    fn matches(&self, head: Head) -> bool {
        head.encoding == CHUNKED
    }
}

impl Encoding for Chunked {
    ghost ids = { 5 ∷ [] };

    ghost means = { λ _ ks. chunked_encodings ks };

    ghost steps = { λ _ ks. chunked_steps ks };

    ghost lawful = { λ _ ks. chunked_lawful ks };

    ghost keeps = { λ _ ks law. chunked_keeps ks law };

    ghost known = { λ _ ks id. one_id id 5 };

    ghost own = { λ _ ks head. refl };

    fn fields_fit<K: RowKinds>(&self, kinds: &K, fields: Fields) -> bool {
        fields.are_in_range(kinds) && fields.parameter == 0
    }

    fn count_fits<K: RowKinds>(&self, _kinds: &K, _fields: Fields) -> bool {
        true
    }

    fn kinds_fit<K: RowKinds>(&self, _kinds: &K, fields: Fields, shapes: &[Shape]) -> bool {
        shapes.iter().all(|shape| shape.kind == fields.kind)
    }

    fn lengths_fit<K: RowKinds>(&self, _kinds: &K, fields: Fields, shapes: &[Shape]) -> bool {
        shapes.iter().map(|shape| u32::from(shape.len)).sum::<u32>() == u32::from(fields.len)
    }

    fn execute<K: RowKinds>(
        &self,
        kinds: &K,
        pool: &mut Pool,
        array: u8,
    ) -> Result<ExecutionStep, StepFault> {
        let node = pool.nodes[array as usize];
        match first_present(node.slots) {
            Some((slot, child)) if pool.nodes[child as usize].encoding == FLAT => {
                Ok(ExecutionStep::AppendChild { slot })
            }
            Some((slot, _)) => Ok(ExecutionStep::ExecuteSlot {
                slot,
                target: ANY_CANONICAL,
            }),
            None if node.arity > 0 => Ok(ExecutionStep::Done { array }),
            // it never had slots, and an empty Flat array takes its place
            None => {
                let node = pool.open_builder(kinds, node.kind, node.len)?;
                Ok(replace(pool, array, Builder { node, filled: 0 }))
            }
        }
    }
}

// The first slot that is present, with the child there.
fn first_present(slots: [Option<u8>; SLOTS]) -> Option<(u8, u8)>
    ensures { result ≡ first_present slots 0 }
{
    let slot = slots.iter().position(Option::is_some)?;
    Some((slot as u8, slots[slot]?))
}
