// SPDX-License-Identifier: Apache-2.0
// SPDX-FileCopyrightText: Copyright the Vortex contributors
// Changed: ported from Rust to Rattle; what an encoding means is stated by ghost members.

ghost use Rattle.std.specs.Prelude.{◌≡◌, ℕ, ◌≤◌, true, List, ◌∷◌, length};
ghost use Rattle.rows.specs.Kind.{Kinds};
ghost use Rattle.encodings.specs.declared.matcher.Head.{Head};
ghost use Rattle.encodings.specs.Meaning.{Encodings, LawfulEncodings, LawfulSet};
ghost use Rattle.encodings.specs.Ids.{member, apart};
ghost use Rattle.encodings.specs.Rows.{StandsAt};
ghost use Rattle.encodings.specs.Step.{Steps, LawfulSteps};
ghost use Rattle.pool.specs.Order.{Ordered};
ghost use Rattle.pool.specs.Seen.{memory_of};
ghost use Rattle.rows.specs.Ours.{LawfulKinds};

use crate::fields::{Fields, Shape};
use crate::matcher::Matcher;
use crate::step::{ExecutionStep, StepFault};
use pool::pool::Pool;
use rows::kinds::RowKinds;

// An encoding, or a set of encodings told apart by id: which fields and children fit, and which rows an array has.
// Every encoding is the matcher of its own arrays.
pub trait Encoding: Matcher {
    // the ids that it has
    ghost ids: { List ℕ };

    ghost means: { Self → Kinds → Encodings };

    ghost steps: { Self → Kinds → Steps };

    // Whether the fields of an array of the set are in range.
    fn fields_fit<K: RowKinds>(&self, kinds: &K, fields: Fields) -> bool
        ensures { result ≡ (means self.now (K.RowKinds.kinds kinds.now)).fields_fit fields };

    // Whether an array of the set may have so many slots.
    fn count_fits<K: RowKinds>(&self, kinds: &K, fields: Fields) -> bool
        ensures { result ≡ (means self.now (K.RowKinds.kinds kinds.now)).count_fits fields };

    // Whether its children may have these kinds.
    fn kinds_fit<K: RowKinds>(&self, kinds: &K, fields: Fields, shapes: &[Shape]) -> bool
        requires { length shapes.now ≤ 8 }
        ensures { result ≡ (means self.now (K.RowKinds.kinds kinds.now)).kinds_fit fields shapes.now };

    // Whether its children may have these lengths.
    fn lengths_fit<K: RowKinds>(&self, kinds: &K, fields: Fields, shapes: &[Shape]) -> bool
        requires { length shapes.now ≤ 8 }
        ensures { result ≡ (means self.now (K.RowKinds.kinds kinds.now)).lengths_fit fields shapes.now };

    // One step of the array, which the caller holds: what it asks for, or the array that its holder has in its place.
    fn execute<K: RowKinds>(
        &self,
        kinds: &K,
        pool: &mut Pool,
        array: u8,
    ) -> Result<ExecutionStep, StepFault>
        requires held { (hs : List ℕ) × (length hs ≤ 4096) × Ordered (memory_of pool.old) (array ∷ hs) }
        requires stands { StandsAt (means self.now (K.RowKinds.kinds kinds.now)) (memory_of pool.old) array }
        ensures { (result, memory_of pool.new) ≡ (steps self.now (K.RowKinds.kinds kinds.now)).stepped (memory_of pool.old) array };

    ghost lawful: { (s : Self) (ks : Kinds) → LawfulEncodings ks (means s ks) };

    ghost keeps: { (s : Self) (ks : Kinds) → LawfulKinds ks → LawfulSteps ks (means s ks) (steps s ks) };

    ghost known: { (s : Self) (ks : Kinds) (id : ℕ) → (means s ks).has id ≡ member id ids };

    ghost own: { (s : Self) (ks : Kinds) (head : Head) → Self.Matcher.takes s head ≡ (means s ks).has head.encoding };
}

// Two sets of encodings that share no id but Flat's.
pub trait Beside<B: Encoding>: Encoding {
    ghost disjoint: { apart Self.Encoding.ids B.Encoding.ids ≡ true };
}

// A set of encodings with Flat among them, as a planner needs it.
pub trait EncodingSet: Encoding {
    ghost complete: { (s : Self) (ks : Kinds) → LawfulSet ks (Self.Encoding.means s ks) };
}
