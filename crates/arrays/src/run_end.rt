ghost use Rattle.std.specs.Prelude.{◌==◌, [], ◌∷◌, refl};
ghost use Rattle.encodings.specs.RunEnd.{run_end_encodings};
ghost use Rattle.encodings.specs.Flattening.{flattening_steps};
ghost use Rattle.encodings.proofs.Known.{one_id};
ghost use Rattle.encodings.proofs.RunEnd.{run_end_lawful, run_end_keeps};

use encodings::encoding::Encoding;
use encodings::fields::{Fields, Shape};
use encodings::flatten::{AppendToBuilder, FlatChild, flatten};
use encodings::matcher::{Head, Matcher};
use encodings::step::{ExecutionStep, StepFault};
use pool::builder::Builder;
use pool::pool::Pool;
use rows::kinds::{NUMBER, RowKinds};

// Its id, and its slots.
pub const RUN_END: u8 = 3;

const ENDS: usize = 0;

const VALUES: usize = 1;

// Runs of one value each, told by the rows where they end.
#[derive(Clone, Copy)]
pub struct RunEnd;

impl Matcher for RunEnd {
    ghost takes = { λ _ head. (head.encoding == 3) };

    fn matches(&self, head: Head) -> bool {
        head.encoding == RUN_END
    }
}

impl Encoding for RunEnd {
    ghost ids = { 3 ∷ [] };

    ghost means = { λ _ ks. run_end_encodings ks };

    ghost steps = { λ _ ks. flattening_steps ks (run_end_encodings ks) };

    ghost lawful = { λ _ ks. run_end_lawful ks };

    ghost keeps = { λ _ ks law. run_end_keeps ks law };

    ghost known = { λ _ ks id. one_id id 3 };

    ghost own = { λ _ ks head. refl };

    fn fields_fit<K: RowKinds>(&self, kinds: &K, fields: Fields) -> bool {
        fields.are_in_range(kinds) && fields.parameter == 0
    }

    fn count_fits<K: RowKinds>(&self, _kinds: &K, fields: Fields) -> bool {
        fields.arity == 2
    }

    fn kinds_fit<K: RowKinds>(&self, _kinds: &K, fields: Fields, shapes: &[Shape]) -> bool {
        matches!(shapes, [ends, values] if ends.kind == NUMBER && values.kind == fields.kind)
    }

    fn lengths_fit<K: RowKinds>(&self, _kinds: &K, _fields: Fields, shapes: &[Shape]) -> bool {
        matches!(shapes, [ends, values] if ends.len == values.len)
    }

    fn execute<K: RowKinds>(
        &self,
        kinds: &K,
        pool: &mut Pool,
        array: u8,
    ) -> Result<ExecutionStep, StepFault> {
        flatten(self, kinds, pool, array)
    }
}

impl AppendToBuilder for RunEnd {
    ghost means = { λ _ ks. run_end_encodings ks };

    ghost lawful = { λ _ ks. run_end_lawful ks };

    fn append_to_builder<K: RowKinds>(
        &self,
        kinds: &K,
        pool: &mut Pool,
        array: u8,
        builder: &mut Builder,
    ) -> Result<(), StepFault> {
        let len = pool.nodes[array as usize].len;
        let ends = FlatChild::of(pool, array, ENDS);
        let values = FlatChild::of(pool, array, VALUES);
        let mut start = 0;
        for k in 0..ends.node.len {
            let end = ends.number(pool, k);
            if end <= u32::from(start) || end > u32::from(len) {
                return Err(StepFault::NoRows);
            }
            // the cast loses nothing: the end is within a length
            let end = end as u16;
            let value = values.row(kinds, pool, k);
            pool.append_n(kinds, builder, value, end - start);
            start = end;
        }
        if start == len {
            Ok(())
        } else {
            Err(StepFault::NoRows)
        }
    }
}
