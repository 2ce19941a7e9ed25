ghost use Rattle.std.specs.Prelude.{◌==◌, [], ◌∷◌, refl};
ghost use Rattle.encodings.specs.Flat.{flat_encodings, flat_steps};
ghost use Rattle.encodings.proofs.Flat.{flat_lawful, flat_set, flat_keeps};
ghost use Rattle.encodings.proofs.Known.{one_id};

use encodings::encoding::{Encoding, EncodingSet};
use encodings::fields::{Fields, Shape};
use encodings::matcher::{Head, Matcher};
use encodings::step::{ExecutionStep, StepFault};
use pool::pool::Pool;
use rows::kinds::RowKinds;

// An array whose rows lie in its own run of words.
#[derive(Clone, Copy)]
pub struct Flat;

impl Matcher for Flat {
    ghost takes = { λ _ head. (head.encoding == 1) };

    fn matches(&self, head: Head) -> bool {
        head.is_flat()
    }
}

impl Encoding for Flat {
    ghost ids = { 1 ∷ [] };

    ghost means = { λ _ ks. flat_encodings ks };

    ghost steps = { λ _ ks. flat_steps };

    ghost lawful = { λ _ ks. flat_lawful ks };

    ghost keeps = { λ _ ks law. flat_keeps ks law };

    ghost known = { λ _ ks id. one_id id 1 };

    ghost own = { λ _ ks head. refl };

    fn fields_fit<K: RowKinds>(&self, kinds: &K, fields: Fields) -> bool {
        fields.are_in_range(kinds) && fields.parameter == 0
    }

    fn count_fits<K: RowKinds>(&self, _kinds: &K, fields: Fields) -> bool {
        fields.arity == 0
    }

    fn kinds_fit<K: RowKinds>(&self, _kinds: &K, _fields: Fields, shapes: &[Shape]) -> bool {
        shapes.is_empty()
    }

    fn lengths_fit<K: RowKinds>(&self, _kinds: &K, _fields: Fields, shapes: &[Shape]) -> bool {
        shapes.is_empty()
    }

    fn execute<K: RowKinds>(
        &self,
        _kinds: &K,
        _pool: &mut Pool,
        array: u8,
    ) -> Result<ExecutionStep, StepFault> {
        Ok(ExecutionStep::Done { array })
    }
}

impl EncodingSet for Flat {
    ghost complete = { λ _ ks. flat_set ks };
}
