ghost use Rattle.std.specs.Prelude.{◌≡◌, []};
ghost use Rattle.planner.specs.Called.{new_state};
ghost use Rattle.planner.specs.Law.{Reached};
ghost use Rattle.planner.specs.Seen.{state_of, means_in};

use crate::planner::{Planner, ROOTS};
use crate::session::Session;
use encodings::encoding::EncodingSet;
use encodings::matcher::Matcher;
use optimizer::Bank;
use pool::node::Node;
use pool::pool::{NODES, Pool, WORDS};
use rows::kinds::RowKinds;

impl<'a, K: RowKinds, E: EncodingSet, B: Bank, M: Matcher> Planner<'a, K, E, B, M> {
    // A planner over any lent memory, with nothing in use and every root empty.
    pub fn new(
        nodes: &'a mut [Node; NODES],
        words: &'a mut [u32; WORDS],
        session: Session<K, E, B, M>,
    ) -> Planner<'a, K, E, B, M>
        ensures state { state_of result ≡ new_state }
        ensures reached { Reached (K.RowKinds.kinds session.kinds) (means_in K.RowKinds.kinds E.Encoding.means session) [] (state_of result) }
        ensures session { result.session ≡ session }
    {
        Planner {
            pool: Pool::new(nodes, words),
            roots: [None; ROOTS],
            session,
        }
    }
}
