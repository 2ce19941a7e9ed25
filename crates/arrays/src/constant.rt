ghost use Rattle.std.specs.Prelude.{◌==◌, [], ◌∷◌, refl};
ghost use Rattle.encodings.specs.Constant.{constant_encodings};
ghost use Rattle.encodings.specs.Flattening.{flattening_steps};
ghost use Rattle.encodings.proofs.Known.{one_id};
ghost use Rattle.encodings.proofs.Constant.{constant_lawful, constant_keeps};

use encodings::encoding::Encoding;
use encodings::fields::{Fields, Shape};
use encodings::flatten::{AppendToBuilder, flatten};
use encodings::matcher::{Head, Matcher};
use encodings::step::{ExecutionStep, StepFault};
use pool::builder::Builder;
use pool::pool::Pool;
use rows::kinds::RowKinds;

// Its id.
pub const CONSTANT: u8 = 2;

// An array of one value, which its parameter stands for.
#[derive(Clone, Copy)]
pub struct Constant;

impl Matcher for Constant {
    ghost takes = { λ _ head. (head.encoding == 2) };

    fn matches(&self, head: Head) -> bool {
        head.encoding == CONSTANT
    }
}

impl Encoding for Constant {
    ghost ids = { 2 ∷ [] };

    ghost means = { λ _ ks. constant_encodings ks };

    ghost steps = { λ _ ks. flattening_steps ks (constant_encodings ks) };

    ghost lawful = { λ _ ks. constant_lawful ks };

    ghost keeps = { λ _ ks law. constant_keeps ks law };

    ghost known = { λ _ ks id. one_id id 2 };

    ghost own = { λ _ ks head. refl };

    fn fields_fit<K: RowKinds>(&self, kinds: &K, fields: Fields) -> bool {
        fields.are_in_range(kinds)
            && kinds.takes(fields.kind, kinds.constant(fields.kind, fields.parameter))
    }

    fn count_fits<K: RowKinds>(&self, _kinds: &K, fields: Fields) -> bool {
        fields.arity == 0
    }

    fn kinds_fit<K: RowKinds>(&self, _kinds: &K, _fields: Fields, shapes: &[Shape]) -> bool {
        shapes.is_empty()
    }

    fn lengths_fit<K: RowKinds>(&self, _kinds: &K, _fields: Fields, shapes: &[Shape]) -> bool {
        shapes.is_empty()
    }

    fn execute<K: RowKinds>(
        &self,
        kinds: &K,
        pool: &mut Pool,
        array: u8,
    ) -> Result<ExecutionStep, StepFault> {
        flatten(self, kinds, pool, array)
    }
}

impl AppendToBuilder for Constant {
    ghost means = { λ _ ks. constant_encodings ks };

    ghost lawful = { λ _ ks. constant_lawful ks };

    fn append_to_builder<K: RowKinds>(
        &self,
        kinds: &K,
        pool: &mut Pool,
        array: u8,
        builder: &mut Builder,
    ) -> Result<(), StepFault> {
        let node = pool.nodes[array as usize];
        let row = kinds.constant(node.kind, node.parameter);
        pool.append_n(kinds, builder, row, node.len);
        Ok(())
    }
}
