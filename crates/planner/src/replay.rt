ghost use Rattle.std.specs.Prelude.{◌≡◌, [], ◌∷◌, map};
ghost use Rattle.pool.specs.Seen.{nodes_used, words_used};
ghost use Rattle.planner.specs.Calls.{told, Hears};
ghost use Rattle.planner.specs.Contract.{Handed, answers, roots_used};
ghost use Rattle.planner.specs.Law.{Law, state_after};
ghost use Rattle.planner.specs.Seen.{means_in, called_on, played_in, Answers};

use crate::answer::{answer, read_answer};
use crate::call::{Answer, Call};
use crate::listener::Listener;
use crate::planner::Planner;
use crate::read::Usage;
use crate::session::Session;
use encodings::encoding::EncodingSet;
use encodings::matcher::Matcher;
use optimizer::Bank;
use pool::node::Node;
use pool::pool::{NODES, WORDS};
use rows::kinds::RowKinds;

impl<K: RowKinds, E: EncodingSet, B: Bank, M: Matcher> Planner<'_, K, E, B, M> {
    // Makes one call, and hands its answer, which may lend words of the pool, to `hand`, with the row kinds and `out`.
    // This is the one place that tells calls apart by what they do.
    pub fn answer_with<S, R, F: FnOnce(&K, Answer, &mut S) -> R>(
        &mut self,
        call: Call,
        out: &mut S,
        hand: F,
    ) -> R
        requires { F.IsAlwaysCallable hand }
        ensures handed { Handed F.FnOnce hand self.old.session.kinds (called_on K.RowKinds.kinds E.Encoding.means self.old (told call.entry)).0 out.old result out.new }
        ensures answers { Answers K.RowKinds.kinds E.Encoding.means self.old self.new (told call.entry) (called_on K.RowKinds.kinds E.Encoding.means self.old (told call.entry)).0 }
    {
        let res = match call {
            Call::Make { root, rows } => self.make(root, rows),
            Call::Assemble { root, parts } => self.assemble(root, parts),
            Call::Share { to, from } => self.share(to, from),
            Call::Release { root } => self.release(root),
            Call::Read { root } => {
                return hand(&self.session.kinds, read_answer(self.read(root)), out);
            }
        };
        hand(&self.session.kinds, answer(res), out)
    }

    // One call, and its answer handed to a listener.
    pub fn serve<L: Listener>(&mut self, call: Call, listener: &mut L)
        ensures heard { Hears L.Listener.hears listener.old listener.new ((called_on K.RowKinds.kinds E.Encoding.means self.old (told call.entry)).0 ∷ []) }
        ensures answers { Answers K.RowKinds.kinds E.Encoding.means self.old self.new (told call.entry) (called_on K.RowKinds.kinds E.Encoding.means self.old (told call.entry)).0 }
    {
        self.answer_with(call, listener, |_, answer, listener| listener.hear(answer));
    }
}

// Plays a list of calls on a new planner, hands each answer to a listener, and says how much is in use then.
pub fn replay<
    K: RowKinds + Drop,
    E: EncodingSet + Drop,
    B: Bank + Drop,
    M: Matcher + Drop,
    L: Listener,
>(
    nodes: &mut [Node; NODES],
    words: &mut [u32; WORDS],
    session: Session<K, E, B, M>,
    calls: &[Call],
    listener: &mut L,
) -> Usage
    ensures heard { Hears L.Listener.hears listener.old listener.new (answers (played_in K.RowKinds.kinds E.Encoding.means session (map told calls.now))) }
    ensures law { Law (K.RowKinds.kinds session.kinds) (means_in K.RowKinds.kinds E.Encoding.means session) (played_in K.RowKinds.kinds E.Encoding.means session (map told calls.now)) }
    ensures roots { result.roots ≡ roots_used (state_after (played_in K.RowKinds.kinds E.Encoding.means session (map told calls.now))).roots }
    ensures nodes { result.nodes ≡ nodes_used (state_after (played_in K.RowKinds.kinds E.Encoding.means session (map told calls.now))).memory.nodes }
    ensures words { result.words ≡ words_used (state_after (played_in K.RowKinds.kinds E.Encoding.means session (map told calls.now))).memory.nodes }
{
    let mut planner = Planner::new(nodes, words, session);
    for call in calls {
        planner.serve(*call, listener);
    }
    planner.inspect()
}
