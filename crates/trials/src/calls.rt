use crate::wide::WIDE_KINDS;
use arrays::flat::Flat;
use encodings::encoding::EncodingSet;
use encodings::matcher::{AnyArray, Matcher};
use lines::buffer::LineBuffer;
use lines::respond::respond;
use lines::text::decode;
use optimizer::{Bank, EmptyBank};
use planner::planner::Planner;
use planner::session::Session;
use pool::pool::{Tables, WORDS};
use rows::kinds::{BaseKinds, RowKinds};
use std::alloc::Global;
use std::process::Abort;
use std::test::Fail;

// A session with these row kinds, whose matcher takes every array.
fn session<K>(kinds: K) -> Session<K, Flat, EmptyBank, AnyArray> {
    Session {
        kinds,
        encodings: Flat,
        bank: EmptyBank,
        matcher: AnyArray,
    }
}

// Whether a line is answered so.
fn answers<K: RowKinds, E: EncodingSet, B: Bank, M: Matcher>(
    rt: &impl Abort,
    heap: Global,
    planner: &mut Planner<'_, K, E, B, M>,
    line: &[u8],
    answer: &[u8],
) -> Result<(), Fail> {
    let mut text = line.to_vec(heap)?;
    let mut out = Vec::new(heap);
    respond(planner, text.as_mut_slice(), &mut out)?;
    assert!(rt; out.as_slice() == answer);
    Ok(())
}

// A kind of two words a row, joined to the set, goes through lines, planner and pool as the others do.
#[test]
fn a_joined_kind_is_made_and_read(rt: HostRuntime) -> Result<(), Fail> {
    let mut tables = Tables {
        words: [7; WORDS],
        ..Tables::EMPTY
    };
    let mut planner = Planner::new(&mut tables.nodes, &mut tables.words, session(WIDE_KINDS));
    let heap = rt.alloc();
    answers(
        &rt,
        heap,
        &mut planner,
        b"01000300020000012C000001C2",
        b"00",
    )?;
    answers(
        &rt,
        heap,
        &mut planner,
        b"0900",
        b"000300020000012C000001C2",
    )?;
    assert_eq!(rt; planner.inspect().words, 4);
    answers(&rt, heap, &mut planner, b"0101020002010", b"0100")?;
    answers(&rt, heap, &mut planner, b"01010200020100", b"00")?;
    answers(&rt, heap, &mut planner, b"0102040001", b"0500")?;
    answers(&rt, heap, &mut planner, b"0901", b"000200020100")
}

// An array shared under eight roots is freed with the last of them, in whatever order they go.
#[test]
fn shares_are_released_in_any_order(rt: HostRuntime) -> Result<(), Fail> {
    let mut tables = Tables::EMPTY;
    let mut planner = Planner::new(&mut tables.nodes, &mut tables.words, session(BaseKinds));
    let heap = rt.alloc();
    answers(&rt, heap, &mut planner, b"010001000100000009", b"00")?;
    for to in 1..8 {
        assert!(rt; planner.share(to, to - 1).is_ok());
    }
    for root in [3, 0, 7, 5, 1, 6, 2] {
        assert!(rt; planner.release(root).is_ok());
        assert_eq!(rt; planner.inspect().words, 1);
    }
    answers(&rt, heap, &mut planner, b"0904", b"0001000100000009")?;
    answers(&rt, heap, &mut planner, b"0404", b"00")?;
    assert_eq!(rt; planner.inspect().nodes, 0);
    Ok(())
}

#[test]
fn digits_are_upper_case_pairs(rt: HostRuntime) {
    let table = [
        (*b"0904", true),
        (*b"AF5C", true),
        (*b"af5c", false),
        (*b"0G00", false),
        (*b"00 1", false),
        (*b"/:@G", false),
        (*b"090\r", false),
    ];
    for (text, good) in table {
        let mut line = text;
        assert_eq!(rt; decode(&mut line).is_some(), good);
    }
    assert_eq!(rt; decode(&mut [b'0', b'9', b'0']), None);
    assert_eq!(rt; decode(&mut []), Some(0));
}

#[test]
fn a_line_is_cut_at_its_limit(rt: HostRuntime) -> Result<(), Fail> {
    let mut line = LineBuffer::new(rt.alloc(), 4)?;
    for byte in b"040500" {
        line.push(*byte);
    }
    assert!(rt; &*line.line() == b"0405".as_slice());
    line.clear();
    line.push(b'0');
    assert!(rt; &*line.line() == b"0".as_slice());
    Ok(())
}

#[test]
fn a_line_is_empty_until_it_is_begun(rt: HostRuntime) -> Result<(), Fail> {
    let mut line = LineBuffer::new(rt.alloc(), 1)?;
    assert!(rt; line.is_empty());
    line.push(b'0');
    line.push(b'4');
    assert!(rt; !line.is_empty());
    line.clear();
    assert!(rt; line.is_empty());
    Ok(())
}
