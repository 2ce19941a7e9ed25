ghost use Rattle.std.specs.Prelude.{◌≡◌, ◌*◌, ◌<◌, ◌≤◌, true, length, is_some};
ghost use Rattle.pool.specs.Building.{built};
ghost use Rattle.pool.specs.Seen.{memory_of};
ghost use Rattle.planner.specs.Called.{in_range, sized, parsed_row, parsed_rows, rows_made};
ghost use Rattle.planner.specs.Calls.{make};
ghost use Rattle.planner.specs.Contract.{outcome, rows_parsed};
ghost use Rattle.planner.specs.Seen.{Answers};

use crate::call::{Refusal, RowBytes};
use crate::planner::Planner;
use encodings::encoding::EncodingSet;
use encodings::matcher::Matcher;
use optimizer::Bank;
use pool::builder::Builder;
use pool::node::PoolFault;
use pool::pool::Pool;
use rows::kinds::RowKinds;
use rows::row::{MAX_ROWS, Row};

// The kinds are a parameter and no field: they would stay borrowed while `make` changes the planner.
impl RowBytes<'_> {
    // Whether the kind exists and the length is in range.
    pub fn is_in_range<K: RowKinds>(&self, kinds: &K) -> bool
        ensures { result ≡ in_range (K.RowKinds.kinds kinds.now) self.now.kind self.now.len }
    {
        kinds.has(self.kind) && self.len <= MAX_ROWS
    }

    // Whether there are as many bytes as the rows need; not asked where kind or length is out of range.
    fn is_sized<K: RowKinds>(&self, kinds: &K) -> bool
        ensures { result ≡ sized (K.RowKinds.kinds kinds.now) self.now.kind self.now.len self.now.bytes.now }
    {
        !self.is_in_range(kinds)
            || self.bytes.len() == usize::from(self.len) * usize::from(kinds.width(self.kind))
    }

    // Row k, if its bytes stand for one.
    fn row<K: RowKinds>(&self, kinds: &K, k: u16) -> Option<Row>
        requires inside { k < self.now.len }
        requires bytes { length self.now.bytes.now ≡ self.now.len * ((K.RowKinds.kinds kinds.now).kind self.now.kind).width }
        ensures { result ≡ parsed_row ((K.RowKinds.kinds kinds.now).kind self.now.kind) self.now.bytes.now k }
    {
        let width = usize::from(kinds.width(self.kind));
        let start = usize::from(k) * width;
        kinds.parse(self.kind, &self.bytes[start..start + width])
    }

    // Whether kind and length are in range, and each of the rows is one that the kind takes.
    fn are_rows<K: RowKinds>(&self, kinds: &K) -> bool
        requires { sized (K.RowKinds.kinds kinds.now) self.now.kind self.now.len self.now.bytes.now ≡ true }
        ensures { result ≡ is_some (rows_made (K.RowKinds.kinds kinds.now) self.now.kind self.now.len self.now.bytes.now) }
    {
        self.is_in_range(kinds) && (0..self.len).all(|k| self.row(kinds, k).is_some())
    }

    // A Flat array of the rows that the bytes stand for.
    fn build<K: RowKinds>(&self, kinds: &K, pool: &mut Pool) -> Result<u8, PoolFault>
        requires sized { (length pool.old.nodes.now ≡ 256) × ((length pool.old.words.now ≡ 8192) × (self.now.len ≤ 1024)) }
        requires bytes { length self.now.bytes.now ≡ self.now.len * ((K.RowKinds.kinds kinds.now).kind self.now.kind).width }
        requires parse { is_some (parsed_rows ((K.RowKinds.kinds kinds.now).kind self.now.kind) self.now.len self.now.bytes.now) ≡ true }
        ensures { (result, memory_of pool.new) ≡ built (K.RowKinds.kinds kinds.now) (memory_of pool.old) self.now.kind self.now.len (rows_parsed ((K.RowKinds.kinds kinds.now).kind self.now.kind) self.now.len self.now.bytes.now) }
    {
        let node = pool.open_builder(kinds, self.kind, self.len)?;
        let mut builder = Builder { node, filled: 0 };
        // by number, and not by chunks of the bytes: a kind may have rows of no bytes
        for k in 0..self.len {
            let row = self.row(kinds, k).unwrap();
            pool.append(kinds, &mut builder, row);
        }
        Ok(pool.finish(builder))
    }
}

impl<K: RowKinds, E: EncodingSet, B: Bank, M: Matcher> Planner<'_, K, E, B, M> {
    // Puts a Flat array of the rows that bytes stand for under a root.
    pub fn make(&mut self, root: u8, rows: RowBytes) -> Result<(), Refusal>
        ensures { Answers K.RowKinds.kinds E.Encoding.means self.old self.new (make root rows.entry.kind rows.entry.len rows.entry.bytes.now) (outcome result) }
    {
        if !rows.is_sized(&self.session.kinds) {
            return Err(Refusal::Line);
        }
        if self.root(root)?.is_some() {
            return Err(Refusal::RootTaken);
        }
        if !rows.are_rows(&self.session.kinds) {
            return Err(Refusal::Field);
        }
        let node = rows.build(&self.session.kinds, &mut self.pool)?;
        self.roots[root as usize] = Some(node);
        Ok(())
    }
}
