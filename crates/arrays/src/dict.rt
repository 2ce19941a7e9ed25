ghost use Rattle.std.specs.Prelude.{◌==◌, [], ◌∷◌, refl};
ghost use Rattle.encodings.specs.Dict.{dict_encodings};
ghost use Rattle.encodings.specs.Flattening.{flattening_steps};
ghost use Rattle.encodings.proofs.Known.{one_id};
ghost use Rattle.encodings.proofs.Dict.{dict_lawful, dict_keeps};

use encodings::encoding::Encoding;
use encodings::fields::{Fields, Shape};
use encodings::flatten::{AppendToBuilder, FlatChild, flatten};
use encodings::matcher::{Head, Matcher};
use encodings::step::{ExecutionStep, StepFault};
use pool::builder::Builder;
use pool::pool::Pool;
use rows::kinds::{NUMBER, RowKinds};

// Its id, and its slots.
pub const DICT: u8 = 4;

const CODES: usize = 0;

const VALUES: usize = 1;

// Codes, and the values that they number.
#[derive(Clone, Copy)]
pub struct Dict;

impl Matcher for Dict {
    ghost takes = { λ _ head. (head.encoding == 4) };

    fn matches(&self, head: Head) -> bool {
        head.encoding == DICT
    }
}

impl Encoding for Dict {
    ghost ids = { 4 ∷ [] };

    ghost means = { λ _ ks. dict_encodings ks };

    ghost steps = { λ _ ks. flattening_steps ks (dict_encodings ks) };

    ghost lawful = { λ _ ks. dict_lawful ks };

    ghost keeps = { λ _ ks law. dict_keeps ks law };

    ghost known = { λ _ ks id. one_id id 4 };

    ghost own = { λ _ ks head. refl };

    fn fields_fit<K: RowKinds>(&self, kinds: &K, fields: Fields) -> bool {
        fields.are_in_range(kinds) && fields.parameter == 0
    }

    fn count_fits<K: RowKinds>(&self, _kinds: &K, fields: Fields) -> bool {
        fields.arity == 2
    }

    fn kinds_fit<K: RowKinds>(&self, _kinds: &K, fields: Fields, shapes: &[Shape]) -> bool {
        matches!(shapes, [codes, values] if codes.kind == NUMBER && values.kind == fields.kind)
    }

    fn lengths_fit<K: RowKinds>(&self, _kinds: &K, fields: Fields, shapes: &[Shape]) -> bool {
        matches!(shapes, [codes, _] if codes.len == fields.len)
    }

    fn execute<K: RowKinds>(
        &self,
        kinds: &K,
        pool: &mut Pool,
        array: u8,
    ) -> Result<ExecutionStep, StepFault> {
        flatten(self, kinds, pool, array)
    }
}

impl AppendToBuilder for Dict {
    ghost means = { λ _ ks. dict_encodings ks };

    ghost lawful = { λ _ ks. dict_lawful ks };

    fn append_to_builder<K: RowKinds>(
        &self,
        kinds: &K,
        pool: &mut Pool,
        array: u8,
        builder: &mut Builder,
    ) -> Result<(), StepFault> {
        let codes = FlatChild::of(pool, array, CODES);
        let values = FlatChild::of(pool, array, VALUES);
        for k in 0..codes.node.len {
            let code = codes.number(pool, k);
            if code >= u32::from(values.node.len) {
                return Err(StepFault::NoRows);
            }
            // the cast loses nothing: the code is below a length
            let row = values.row(kinds, pool, code as u16);
            pool.append(kinds, builder, row);
        }
        Ok(())
    }
}
