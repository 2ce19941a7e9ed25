ghost use Rattle.std.specs.Prelude.{◌≡◌};
ghost use Rattle.planner.specs.Called.{root_in, held_in};
ghost use Rattle.planner.specs.Calls.{share, release};
ghost use Rattle.planner.specs.Contract.{outcome};
ghost use Rattle.planner.specs.Seen.{state_of, Answers};

use crate::call::Refusal;
use crate::planner::Planner;
use encodings::encoding::EncodingSet;
use encodings::matcher::Matcher;
use optimizer::Bank;
use rows::kinds::RowKinds;

impl<K: RowKinds, E: EncodingSet, B: Bank, M: Matcher> Planner<'_, K, E, B, M> {
    // The node under a root, if any. A root that does not exist is refused.
    pub(crate) fn root(&self, root: u8) -> Result<Option<u8>, Refusal>
        ensures { result ≡ root_in (state_of self.now) root }
    {
        self.roots
            .get(root as usize)
            .copied()
            .ok_or(Refusal::RootRange)
    }

    // The node under a root. A root that does not exist or is empty is refused.
    pub(crate) fn held(&self, root: u8) -> Result<u8, Refusal>
        ensures { result ≡ held_in (state_of self.now) root }
    {
        self.root(root)?.ok_or(Refusal::RootEmpty)
    }

    // Puts the array under `from` under the root `to` too.
    pub fn share(&mut self, to: u8, from: u8) -> Result<(), Refusal>
        ensures { Answers K.RowKinds.kinds E.Encoding.means self.old self.new (share to from) (outcome result) }
    {
        let target = self.root(to)?;
        let node = self.held(from)?;
        if target.is_some() {
            return Err(Refusal::RootTaken);
        }
        self.pool.retain(node);
        self.roots[to as usize] = Some(node);
        Ok(())
    }

    // Empties a root, and releases the array that it held.
    pub fn release(&mut self, root: u8) -> Result<(), Refusal>
        ensures { Answers K.RowKinds.kinds E.Encoding.means self.old self.new (release root) (outcome result) }
    {
        let node = self.held(root)?;
        self.roots[root as usize] = None;
        self.pool.release(node);
        Ok(())
    }
}
