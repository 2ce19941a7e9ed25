ghost use Rattle.lines.specs.Parse as parses;
ghost use Rattle.lines.specs.Respond.{Responds};

use crate::parse::read_line;
use crate::write::write_answer;
use encodings::encoding::EncodingSet;
use encodings::matcher::Matcher;
use optimizer::Bank;
use planner::call::Refusal;
use planner::planner::Planner;
use rows::kinds::RowKinds;
use std::alloc::AllocError;

// Answers one line of digits: the planner is given the call that it stands for, and the digits of the answer are
// written in place of what `out` held. The line is decoded in place.
pub fn respond<K: RowKinds, E: EncodingSet, B: Bank, M: Matcher>(
    planner: &mut Planner<'_, K, E, B, M>,
    line: &mut [u8],
    out: &mut Vec<u8>,
) -> Result<(), AllocError>
    ensures { Responds K.RowKinds.kinds E.Encoding.means planner.old planner.new (parses.asked (K.RowKinds.kinds planner.old.session.kinds) line.old) result out.old out.new }
{
    match read_line(&planner.session.kinds, line) {
        Some(call) => planner.answer_with(call, out, write_answer),
        None => write_answer(&planner.session.kinds, Err(Refusal::Line), out),
    }
}
