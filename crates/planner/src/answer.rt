ghost use Rattle.std.specs.Prelude.{◌≡◌};
ghost use Rattle.planner.specs.Calls.{said};
ghost use Rattle.planner.specs.Law.{accepted};
ghost use Rattle.planner.specs.Contract.{outcome, read_outcome};

use crate::call::{Answer, Reading, Refusal, Reply};

// The answer to a call that hands nothing out. Two functions of one line, here and below, are plainer than a generic
// one with a `From` for each.
pub fn answer<'a>(res: Result<(), Refusal>) -> Answer<'a>
    ensures { said result ≡ outcome res }
{
    res.map(|()| Reply::Done)
}

// The answer to a reading.
pub fn read_answer<'a>(res: Result<Reading<'a>, Refusal>) -> Answer<'a>
    ensures { said result ≡ read_outcome res.entry }
{
    res.map(Reply::Rows)
}

// Whether a call was accepted.
pub fn is_accepted(answer: Answer) -> bool
    ensures { result ≡ accepted (said answer.entry) }
{
    answer.is_ok()
}
