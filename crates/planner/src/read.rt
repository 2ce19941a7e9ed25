ghost use Rattle.std.specs.Prelude.{◌≡◌, ◌<◌};
ghost use Rattle.pool.specs.Seen.{nodes_used, words_used};
ghost use Rattle.planner.specs.Calls.{read};
ghost use Rattle.planner.specs.Contract.{read_outcome, roots_used};
ghost use Rattle.planner.specs.Law.{History, Reached, Law};
ghost use Rattle.planner.specs.Seen.{state_of, means_in, Answers};

use crate::call::{Reading, Refusal};
use crate::planner::Planner;
use encodings::encoding::EncodingSet;
use encodings::matcher::Matcher;
use optimizer::Bank;
use pool::node::FLAT;
use rows::kinds::RowKinds;

// How much is in use.
#[derive(Clone, Copy, PartialEq, Eq, Debug)]
pub struct Usage {
    pub roots: usize,
    pub nodes: usize,
    pub words: usize,
}

impl<K: RowKinds, E: EncodingSet, B: Bank, M: Matcher> Planner<'_, K, E, B, M> {
    // The run of words of the Flat array under a root, as it lies in the pool.
    pub fn read(&self, root: u8) -> Result<Reading<'_>, Refusal>
        ensures { Answers K.RowKinds.kinds E.Encoding.means self.now self.now (read root) (read_outcome result) }
    {
        let n = self.held(root)?;
        let node = self.pool.nodes[n as usize];
        if node.encoding != FLAT {
            return Err(Refusal::NotFlat);
        }
        let (place, words) = self.pool.read(n);
        Ok(Reading {
            kind: node.kind,
            len: node.len,
            place,
            words,
        })
    }

    // The roots occupied, and the nodes and words in use.
    pub fn inspect(&self) -> Usage
        ensures roots { result.roots ≡ roots_used self.now.roots }
        ensures nodes { result.nodes ≡ nodes_used self.now.pool.nodes.now }
        ensures words { result.words ≡ words_used self.now.pool.nodes.now }
        ensures law { (h : History) → Reached (K.RowKinds.kinds self.now.session.kinds) (means_in K.RowKinds.kinds E.Encoding.means self.now.session) h (state_of self.now) → Law (K.RowKinds.kinds self.now.session.kinds) (means_in K.RowKinds.kinds E.Encoding.means self.now.session) h }
    {
        Usage {
            roots: self.roots.iter().filter(|root| root.is_some()).count(),
            nodes: self.pool.nodes_used(),
            words: self.pool.words_used(),
        }
    }
}
