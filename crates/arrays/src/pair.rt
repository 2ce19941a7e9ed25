ghost use Rattle.std.specs.Prelude.{◌||◌, ◌++◌};
ghost use Rattle.encodings.specs.Pairing.{paired, paired_steps};
ghost use Rattle.encodings.proofs.Pairing.{paired_lawful, paired_keeps, paired_known, paired_own, paired_set, apart_known};

use encodings::encoding::{Beside, Encoding, EncodingSet};
use encodings::fields::{Fields, Shape};
use encodings::matcher::{Head, Matcher};
use encodings::step::{ExecutionStep, StepFault};
use pool::pool::Pool;
use rows::kinds::RowKinds;

// Two sets of encodings, which share no id but Flat's, as one: the first that matches gives rows and step.
#[derive(Clone, Copy)]
pub struct Pair<A, B> {
    pub first: A,
    pub second: B,
}

impl<A: Encoding + Beside<B>, B: Encoding> Matcher for Pair<A, B> {
    ghost takes = { λ p head. A.Matcher.takes p.first head || B.Matcher.takes p.second head };

    fn matches(&self, head: Head) -> bool {
        self.first.matches(head) || self.second.matches(head)
    }
}

impl<A: Encoding + Beside<B>, B: Encoding> Encoding for Pair<A, B> {
    ghost ids = { A.Encoding.ids ++ B.Encoding.ids };

    ghost means = { λ p ks. paired (A.Encoding.means p.first ks) (B.Encoding.means p.second ks) };

    ghost steps = { λ p ks. paired_steps (A.Encoding.means p.first ks) (A.Encoding.steps p.first ks) (B.Encoding.steps p.second ks) };

    ghost lawful = { λ p ks. paired_lawful ks (A.Encoding.means p.first ks) (B.Encoding.means p.second ks) (A.Encoding.lawful p.first ks) (B.Encoding.lawful p.second ks) };

    ghost keeps = { λ p ks law. paired_keeps ks (A.Encoding.means p.first ks) (B.Encoding.means p.second ks) (A.Encoding.steps p.first ks) (B.Encoding.steps p.second ks) (B.Encoding.lawful p.second ks) (apart_known (A.Encoding.means p.first ks) (B.Encoding.means p.second ks) A.Encoding.ids B.Encoding.ids (A.Encoding.known p.first ks) (B.Encoding.known p.second ks) A.Beside.disjoint) (A.Encoding.keeps p.first ks law) (B.Encoding.keeps p.second ks law) };

    ghost known = { λ p ks. paired_known (A.Encoding.means p.first ks) (B.Encoding.means p.second ks) A.Encoding.ids B.Encoding.ids (A.Encoding.known p.first ks) (B.Encoding.known p.second ks) };

    ghost own = { λ p ks head. paired_own (A.Matcher.takes p.first head) (B.Matcher.takes p.second head) (A.Encoding.means p.first ks) (B.Encoding.means p.second ks) head.encoding (A.Encoding.own p.first ks head) (B.Encoding.own p.second ks head) };

    fn fields_fit<K: RowKinds>(&self, kinds: &K, fields: Fields) -> bool {
        if self.first.matches(fields.head()) {
            self.first.fields_fit(kinds, fields)
        } else {
            self.second.fields_fit(kinds, fields)
        }
    }

    fn count_fits<K: RowKinds>(&self, kinds: &K, fields: Fields) -> bool {
        if self.first.matches(fields.head()) {
            self.first.count_fits(kinds, fields)
        } else {
            self.second.count_fits(kinds, fields)
        }
    }

    fn kinds_fit<K: RowKinds>(&self, kinds: &K, fields: Fields, shapes: &[Shape]) -> bool {
        if self.first.matches(fields.head()) {
            self.first.kinds_fit(kinds, fields, shapes)
        } else {
            self.second.kinds_fit(kinds, fields, shapes)
        }
    }

    fn lengths_fit<K: RowKinds>(&self, kinds: &K, fields: Fields, shapes: &[Shape]) -> bool {
        if self.first.matches(fields.head()) {
            self.first.lengths_fit(kinds, fields, shapes)
        } else {
            self.second.lengths_fit(kinds, fields, shapes)
        }
    }

    fn execute<K: RowKinds>(
        &self,
        kinds: &K,
        pool: &mut Pool,
        array: u8,
    ) -> Result<ExecutionStep, StepFault> {
        let fields = Fields::from(pool.nodes[array as usize]);
        if self.first.matches(fields.head()) {
            self.first.execute(kinds, pool, array)
        } else {
            self.second.execute(kinds, pool, array)
        }
    }
}

impl<A: EncodingSet + Beside<B>, B: Encoding> EncodingSet for Pair<A, B> {
    ghost complete = { λ p ks. paired_set ks (A.Encoding.means p.first ks) (B.Encoding.means p.second ks) (A.EncodingSet.complete p.first ks) (B.Encoding.lawful p.second ks) };
}
