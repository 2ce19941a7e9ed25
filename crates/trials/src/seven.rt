use crate::making::{numbers, with};
use crate::short::Short;
use crate::stack::{STACK, seven};
use crate::steps::{play, step};
use arrays::dict::DICT;
use arrays::slice::SLICE;
use encodings::fields::Fields;
use encodings::matcher::Matcher;
use encodings::step::{ANY_CANONICAL, BY_ENCODING, ExecutionStep, StepFault};
use optimizer::EmptyBank;
use planner::call::{Call, Parts, RowBytes};
use planner::planner::Planner;
use planner::session::Session;
use planner::tally::Tally;
use pool::node::Node;
use pool::pool::Tables;
use rows::kinds::{BaseKinds, NUMBER};
use std::process::Abort;

// The root of the array that is stepped.
const STEPPED: u8 = 7;

// Two numbers, 1 and 0.
const TWO: RowBytes<'static> = RowBytes {
    kind: NUMBER,
    len: 2,
    bytes: &[0, 0, 0, 1, 0, 0, 0, 0],
};

// What one step of this array answers, and the node under its root then, with Stack among the encodings. Its roots may be
// of two numbers (0), of a Slice of them (1), and of a Dict whose codes and values they are (2).
fn stepped(rt: &impl Abort, parts: Parts<'_>) -> (Result<ExecutionStep, StepFault>, Node) {
    let mut tables = Tables::EMPTY;
    let session = Session {
        kinds: BaseKinds,
        encodings: seven(),
        bank: EmptyBank,
        matcher: Short {
            len: 2,
            parameter: 0,
        },
    };
    let mut planner = Planner::new(&mut tables.nodes, &mut tables.words, session);
    let mut tally = Tally::default();
    let calls = [
        Call::Make { root: 0, rows: TWO },
        Call::Assemble {
            root: 1,
            parts: numbers(SLICE, 2, &[0]),
        },
        Call::Assemble {
            root: 2,
            parts: numbers(DICT, 2, &[0, 0]),
        },
        Call::Assemble {
            root: STEPPED,
            parts,
        },
    ];
    play(&mut planner, &calls, &mut tally);
    assert_eq!(rt; tally.refused, 0);
    let array = planner.roots[STEPPED as usize];
    assert!(rt; array.is_some());
    let answer = step(&mut planner, STEPPED);
    let array = planner.roots[STEPPED as usize].unwrap_or(0);
    let node = planner.pool.nodes[array as usize];
    (answer, node)
}

#[test]
fn a_stack_appends_its_last_child_first(rt: HostRuntime) {
    let (answer, _) = stepped(&rt, numbers(STACK, 6, &[1, 2, 0]));
    assert_eq!(rt; answer, Ok(ExecutionStep::AppendChild { slot: 2 }));
}

#[test]
fn a_stack_asks_for_a_dict_and_then_for_flat(rt: HostRuntime) {
    let (answer, _) = stepped(&rt, numbers(STACK, 4, &[0, 1]));
    let target = BY_ENCODING + DICT;
    assert_eq!(rt; answer, Ok(ExecutionStep::ExecuteSlot { slot: 1, target }));
    let (answer, _) = stepped(&rt, numbers(STACK, 4, &[0, 2]));
    let target = ANY_CANONICAL;
    assert_eq!(rt; answer, Ok(ExecutionStep::ExecuteSlot { slot: 1, target }));
}

#[test]
fn a_stack_with_a_parameter_is_done_with_one_without(rt: HostRuntime) {
    let (answer, node) = stepped(&rt, with(1, numbers(STACK, 2, &[0])));
    assert!(rt; matches!(answer, Ok(ExecutionStep::Done { .. })));
    assert!(rt; node.encoding == STACK && node.parameter == 0);
}

#[test]
fn short_arrays_are_told_by_length_and_parameter(rt: HostRuntime) {
    let short = Short {
        len: 2,
        parameter: 0,
    };
    for (len, parameter, taken) in [(2, 0, true), (0, 0, true), (3, 0, false), (2, 1, false)] {
        let fields = Fields {
            encoding: SLICE,
            kind: NUMBER,
            len,
            parameter,
            arity: 1,
        };
        assert_eq!(rt; short.matches(fields.head()), taken);
    }
}
