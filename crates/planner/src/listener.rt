ghost use Rattle.std.specs.Prelude.{List, [], ◌∷◌};
ghost use Rattle.planner.specs.Calls.{Said, said, Hears};

use crate::call::Answer;

// Hears the answers to a list of calls, one by one. Since an answer may lend words of the pool, a listener keeps what
// it likes of it: `hears` says which lists of answers it may have heard.
pub trait Listener {
    ghost hears: { Self → List Said → Type 0 };

    fn hear(&mut self, answer: Answer)
        ensures { Hears hears self.old self.new (said answer.entry ∷ []) };
}
