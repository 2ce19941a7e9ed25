use crate::answer_lines;
use planner::planner::Planner;
use planner::session::Session;
use pool::pool::Tables;
use std::cell::Cell;
use std::io::{self, BufReader, Read, Write};
use std::test::Fail;

// Gives one line a call, and fails where a line that it gave is not answered by then.
#[derive(Drop)]
struct Asker<'a> {
    lines: &'a [&'a [u8]],
    asked: usize,
    answered: &'a Cell<usize>,
}

impl Read for Asker<'_> {
    fn read(&mut self, buf: &mut [u8]) -> io::Result<usize> {
        if self.answered.get() != self.asked {
            return Err(io::ErrorKind::Other.into());
        }
        let Some(line) = self.lines.get(self.asked) else {
            return Ok(0);
        };
        if buf.len() < line.len() {
            return Err(io::ErrorKind::InvalidInput.into());
        }
        buf[..line.len()].copy_from_slice(line);
        self.asked = self.asked.saturating_add(1);
        Ok(line.len())
    }
}

// Counts the lines that it is given.
#[derive(Drop)]
struct Hearer<'a>(&'a Cell<usize>);

impl Write for Hearer<'_> {
    fn write(&mut self, buf: &[u8]) -> io::Result<usize> {
        let lines = buf.iter().filter(|byte| **byte == b'\n').count();
        self.0.set(self.0.get().saturating_add(lines));
        Ok(buf.len())
    }

    fn flush(&mut self) -> io::Result<()> {
        Ok(())
    }
}

#[test]
fn a_line_is_answered_before_the_next_is_read(rt: HostRuntime) -> Result<(), Fail> {
    let heap = rt.alloc();
    let answered = Cell::new(0);
    let lines = [
        b"01000100010000002A\n".as_slice(),
        b"0900\n".as_slice(),
        b"\n".as_slice(),
        b"0400\n".as_slice(),
    ];
    let mut input = BufReader::new(
        heap,
        Asker {
            lines: &lines,
            asked: 0,
            answered: &answered,
        },
    )?;
    let mut tables = Tables::EMPTY;
    let mut planner = Planner::new(&mut tables.nodes, &mut tables.words, Session::base());
    answer_lines(heap, &mut planner, &mut input, &mut Hearer(&answered))?;
    assert_eq!(rt; answered.get(), 4);
    Ok(())
}
