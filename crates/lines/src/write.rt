ghost use Rattle.std.specs.Prelude.{◌≡◌, ◌≤◌, true, is_ok, vec_capacity};
ghost use Rattle.std.specs.List.{flat_map};
ghost use Rattle.rows.specs.Kind as kinded;
ghost use Rattle.planner.specs.Calls as calls;
ghost use Rattle.lines.specs.Written as writes;
ghost use Rattle.lines.specs.Append.{Appends, Wrote};
ghost use Rattle.lines.specs.Parse.{longest};

use crate::text::{push_byte, push_bytes};
use planner::call::{Answer, Reading, Refusal, Reply};
use pool::node::PoolFault;
use rows::kinds::RowKinds;
use rows::row::Row;
use std::alloc::AllocError;

// The number of a refusal. A function and not a `From`, as for the layer: a refusal is of the planner's crate, which
// knows no format.
pub fn number(refusal: Refusal) -> u8
    ensures { result ≡ writes.number refusal }
{
    match refusal {
        Refusal::Line => 1,
        Refusal::RootRange => 2,
        Refusal::RootEmpty => 3,
        Refusal::RootTaken => 4,
        Refusal::Field => 5,
        Refusal::Slots => 6,
        Refusal::Pool(PoolFault::Height) => 7,
        Refusal::Pool(PoolFault::Nodes) => 8,
        Refusal::Pool(PoolFault::Words) => 9,
        Refusal::NotFlat => 15,
    }
}

// The layer that refuses: 0 the line, 1 the pool.
pub fn layer(refusal: Refusal) -> u8
    ensures { result ≡ writes.layer refusal }
{
    match refusal {
        Refusal::Pool(_) => 1,
        _ => 0,
    }
}

// Appends the digits of one row. Kinds and `out` stay two parameters, here and below, as a function for `answer_with`
// has them.
fn write_row<K: RowKinds>(
    kinds: &K,
    kind: u8,
    row: Row,
    out: &mut Vec<u8>,
) -> Result<(), AllocError>
    requires { ((K.RowKinds.kinds kinds.now).kind kind).takes row ≡ true }
    ensures { Appends result out.old out.new (((K.RowKinds.kinds kinds.now).kind kind).written row) }
{
    // by number: a kind gives the bytes of a row one by one, since it has no memory to lend them from
    for j in 0..kinds.width(kind) {
        push_byte(out, kinds.byte(kind, row, j))?;
    }
    Ok(())
}

// Appends the digits of the rows of a reading.
#[tactic(auto, using(crate::proofs::Spelling::appending))]
fn write_rows<K: RowKinds>(
    kinds: &K,
    reading: Reading<'_>,
    out: &mut Vec<u8>,
) -> Result<(), AllocError>
    ensures { Appends result out.old out.new (flat_map ((K.RowKinds.kinds kinds.now).kind reading.entry.kind).written (kinded.rows ((K.RowKinds.kinds kinds.now).kind reading.entry.kind) reading.entry.len reading.entry.words.now)) }
{
    // by number, since a kind reads a row by its place
    for k in 0..reading.len {
        let row = kinds.read(reading.kind, reading.words, reading.len, k);
        write_row(kinds, reading.kind, row, out)?;
    }
    Ok(())
}

// Appends the digits of a reading: a zero, kind and length, then the rows.
#[tactic(auto, using(crate::proofs::Spelling::appending))]
fn write_reading<K: RowKinds>(
    kinds: &K,
    reading: Reading<'_>,
    out: &mut Vec<u8>,
) -> Result<(), AllocError>
    ensures { Appends result out.old out.new (writes.bytes_of (K.RowKinds.kinds kinds.now) (calls.rows reading.entry.kind reading.entry.len reading.entry.place reading.entry.words.now)) }
{
    let [high, low] = reading.len.to_be_bytes();
    push_bytes(out, &[0, reading.kind, high, low])?;
    write_rows(kinds, reading, out)
}

// Writes the digits of an answer, in place of what `out` held. Room for the longest call is room for any answer.
pub fn write_answer<K: RowKinds>(
    kinds: &K,
    answer: Answer<'_>,
    out: &mut Vec<u8>,
) -> Result<(), AllocError>
    ensures digits { Wrote result out.old out.new (writes.written (K.RowKinds.kinds kinds.now) (calls.said answer.entry)) }
    ensures capacity { vec_capacity out.old ≤ vec_capacity out.new }
    ensures room { writes.Short (calls.said answer.entry) → longest (K.RowKinds.kinds kinds.now) ≤ vec_capacity out.old → is_ok result ≡ true }
{
    out.clear();
    match answer {
        Ok(Reply::Done) => push_bytes(out, &[0]),
        Ok(Reply::Rows(reading)) => write_reading(kinds, reading, out),
        Err(refusal) => push_bytes(out, &[number(refusal), layer(refusal)]),
    }
}
