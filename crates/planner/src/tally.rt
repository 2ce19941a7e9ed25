ghost use Rattle.std.specs.Prelude.{◌≡◌, ◌^◌, ◌<◌, length};
ghost use Rattle.planner.specs.Tally.{accepted_in, refused_in};

use crate::answer::is_accepted;
use crate::call::Answer;
use crate::listener::Listener;

// A listener that counts the answers.
#[derive(Clone, Copy, PartialEq, Eq, Debug, Default)]
pub struct Tally {
    pub accepted: u32,
    pub refused: u32,
}

impl Listener for Tally {
    ghost hears = { λ t xs. (length xs < 2 ^ 32 → (t.accepted ≡ accepted_in xs) × (t.refused ≡ refused_in xs)) };

    fn hear(&mut self, answer: Answer) {
        if is_accepted(answer) {
            self.accepted = self.accepted.saturating_add(1);
        } else {
            self.refused = self.refused.saturating_add(1);
        }
    }
}
