#![tactic(auto)]

#[cfg(test)]
mod tests;

use lines::buffer::LineBuffer;
use lines::parse::longest;
use lines::respond::respond;
use planner::planner::Planner;
use planner::session::{BasePlanner, Session};
use pool::pool::Tables;
use std::alloc::Global;
use std::io::{self, BufRead, BufReader, Write};

// Answers the line that is waiting, and sends the answer on its way.
fn answer_line(
    planner: &mut BasePlanner<'_>,
    line: &mut LineBuffer,
    out: &mut Vec<u8>,
    output: &mut impl Write,
) -> io::Result<()> {
    respond(planner, line.line(), out)?;
    line.clear();
    out.push(b'\n')?;
    output.write_all(out.as_slice())
}

// Answers the lines of the input, each before more is asked of it. The last line may lack its line feed.
fn answer_lines(
    heap: Global,
    planner: &mut BasePlanner<'_>,
    input: &mut impl BufRead,
    output: &mut impl Write,
) -> io::Result<()> {
    let digits = longest(&planner.session.kinds);
    let mut line = LineBuffer::new(heap, digits + 1)?;
    let mut out = Vec::with_capacity(heap, digits + 1)?;
    // a number of turns, since a loop that waits on input has nothing that goes down; over `bytes()`, which has it
    // within, the program takes a third more instructions
    for _ in 0..u64::MAX {
        let chunk = input.fill_buf()?;
        if chunk.is_empty() {
            break;
        }
        for byte in chunk {
            match *byte {
                b'\n' => answer_line(planner, &mut line, &mut out, output)?,
                byte => line.push(byte),
            }
        }
        let length = chunk.len();
        input.consume(length);
    }
    // a line that is begun keeps a byte
    if !line.is_empty() {
        answer_line(planner, &mut line, &mut out, output)?;
    }
    Ok(())
}

// One call a line from standard input, and one answer a line, at once, to standard output.
fn main(rt: HostRuntime) -> io::Result<()> {
    let heap = rt.alloc();
    let mut tables = Tables::EMPTY;
    let mut planner = Planner::new(&mut tables.nodes, &mut tables.words, Session::base());
    let mut input = BufReader::new(heap, rt.stdin())?;
    answer_lines(heap, &mut planner, &mut input, &mut rt.stdout())
}
