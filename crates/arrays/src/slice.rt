ghost use Rattle.std.specs.Prelude.{◌==◌, [], ◌∷◌, refl};
ghost use Rattle.encodings.specs.Slice.{slice_encodings};
ghost use Rattle.encodings.specs.Flattening.{flattening_steps};
ghost use Rattle.encodings.proofs.Known.{one_id};
ghost use Rattle.encodings.proofs.Slice.{slice_lawful, slice_keeps};

use encodings::encoding::Encoding;
use encodings::fields::{Fields, Shape};
use encodings::flatten::{AppendToBuilder, FlatChild, flatten};
use encodings::matcher::{Head, Matcher};
use encodings::step::{ExecutionStep, StepFault};
use pool::builder::Builder;
use pool::pool::Pool;
use rows::kinds::RowKinds;

// Its id, and its slot.
pub const SLICE: u8 = 6;

const CHILD: usize = 0;

// Rows of its child, from the offset that is its parameter on.
#[derive(Clone, Copy)]
pub struct Slice;

impl Matcher for Slice {
    ghost takes = { λ _ head. (head.encoding == 6) };

    fn matches(&self, head: Head) -> bool {
        head.encoding == SLICE
    }
}

impl Encoding for Slice {
    ghost ids = { 6 ∷ [] };

    ghost means = { λ _ ks. slice_encodings ks };

    ghost steps = { λ _ ks. flattening_steps ks (slice_encodings ks) };

    ghost lawful = { λ _ ks. slice_lawful ks };

    ghost keeps = { λ _ ks law. slice_keeps ks law };

    ghost known = { λ _ ks id. one_id id 6 };

    ghost own = { λ _ ks head. refl };

    fn fields_fit<K: RowKinds>(&self, kinds: &K, fields: Fields) -> bool {
        fields.are_in_range(kinds)
    }

    fn count_fits<K: RowKinds>(&self, _kinds: &K, fields: Fields) -> bool {
        fields.arity == 1
    }

    fn kinds_fit<K: RowKinds>(&self, _kinds: &K, fields: Fields, shapes: &[Shape]) -> bool {
        matches!(shapes, [child] if child.kind == fields.kind)
    }

    fn lengths_fit<K: RowKinds>(&self, _kinds: &K, fields: Fields, shapes: &[Shape]) -> bool {
        let end = u64::from(fields.parameter) + u64::from(fields.len);
        matches!(shapes, [child] if end <= u64::from(child.len))
    }

    fn execute<K: RowKinds>(
        &self,
        kinds: &K,
        pool: &mut Pool,
        array: u8,
    ) -> Result<ExecutionStep, StepFault> {
        flatten(self, kinds, pool, array)
    }
}

impl AppendToBuilder for Slice {
    ghost means = { λ _ ks. slice_encodings ks };

    ghost lawful = { λ _ ks. slice_lawful ks };

    fn append_to_builder<K: RowKinds>(
        &self,
        kinds: &K,
        pool: &mut Pool,
        array: u8,
        builder: &mut Builder,
    ) -> Result<(), StepFault> {
        let node = pool.nodes[array as usize];
        let child = FlatChild::of(pool, array, CHILD);
        // the cast loses nothing: an offset lies within the child
        let offset = node.parameter as u16;
        for k in 0..node.len {
            let row = child.row(kinds, pool, offset + k);
            pool.append(kinds, builder, row);
        }
        Ok(())
    }
}
