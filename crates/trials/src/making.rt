ghost use Rattle.std.specs.Prelude.{◌≤◌, length};

use arrays::chunked::CHUNKED;
use arrays::constant::CONSTANT;
use arrays::dict::DICT;
use arrays::run_end::RUN_END;
use arrays::slice::SLICE;
use encodings::fields::Fields;
use planner::call::{Parts, Refusal, RowBytes};
use planner::planner::{Planner, ROOTS};
use planner::read::Usage;
use planner::session::{BasePlanner, Session};
use pool::node::{FLAT, PoolFault};
use pool::pool::{NODES, Tables};
use rows::kinds::{MARK, NUMBER};
use std::process::Abort;

// The roots of three numbers, three marks and two numbers, and two that are empty, the second for what is made.
const THREE: u8 = 0;

const MARKS: u8 = 1;

const TWO: u8 = 2;

const EMPTY: u8 = 30;

const SPARE: u8 = 31;

// Nothing is in use.
const NOTHING: Usage = Usage {
    roots: 0,
    nodes: 0,
    words: 0,
};

// How much is in use, the node under each root, and how many hold each node.
#[derive(Clone, Copy, PartialEq, Eq)]
pub(crate) struct Held {
    pub(crate) usage: Usage,
    roots: [Option<u8>; ROOTS],
    counts: [u16; NODES],
}

impl Held {
    pub(crate) fn by(planner: &BasePlanner) -> Held {
        let mut counts = [0; NODES];
        for (count, node) in counts.iter_mut().zip(planner.pool.nodes.iter()) {
            *count = node.count;
        }
        Held {
            usage: planner.inspect(),
            roots: planner.roots,
            counts,
        }
    }
}

// A planner with arrays of rows of 0 under the first three roots.
fn laid<'a>(rt: &impl Abort, tables: &'a mut Tables) -> BasePlanner<'a> {
    let mut planner = Planner::new(&mut tables.nodes, &mut tables.words, Session::base());
    let bytes = [0; 12];
    for (root, kind, len, bytes) in [
        (THREE, NUMBER, 3, &bytes[..]),
        (MARKS, MARK, 3, &bytes[..3]),
        (TWO, NUMBER, 2, &bytes[..8]),
    ] {
        assert_eq!(rt; planner.make(root, RowBytes { kind, len, bytes }), Ok(()));
    }
    planner
}

// An array of numbers over these roots, without a parameter.
pub(crate) fn numbers(encoding: u8, len: u16, roots: &[u8]) -> Parts<'_>
    requires { length roots.now ≤ 8 }
{
    let fields = Fields {
        encoding,
        kind: NUMBER,
        len,
        parameter: 0,
        arity: roots.len() as u8,
    };
    Parts { fields, roots }
}

// The same array of a kind.
pub(crate) fn of(kind: u8, parts: Parts<'_>) -> Parts<'_> {
    let fields = Fields {
        kind,
        ..parts.fields
    };
    Parts { fields, ..parts }
}

// The same array with a parameter.
pub(crate) fn with(parameter: u32, parts: Parts<'_>) -> Parts<'_> {
    let fields = Fields {
        parameter,
        ..parts.fields
    };
    Parts { fields, ..parts }
}

// The same array with so many slots, whatever the roots.
fn slots(arity: u8, parts: Parts<'_>) -> Parts<'_> {
    let fields = Fields {
        arity,
        ..parts.fields
    };
    Parts { fields, ..parts }
}

// Makes an array, which must be accepted.
fn accepts(rt: &impl Abort, planner: &mut BasePlanner, root: u8, parts: Parts) {
    let Fields { encoding, len, .. } = parts.fields;
    assert_eq!(rt;
        planner.assemble(root, parts),
        Ok(()),
        "encoding {encoding}, {len} rows"
    );
}

// Tries to make an array, which must be refused so, and leave all that is held as it was.
fn refuses(rt: &impl Abort, planner: &mut BasePlanner, root: u8, parts: Parts, refusal: Refusal) {
    let Fields { encoding, len, .. } = parts.fields;
    let before = Held::by(planner);
    assert_eq!(rt;
        planner.assemble(root, parts),
        Err(refusal),
        "encoding {encoding}, {len} rows"
    );
    assert!(rt;
        Held::by(planner) == before,
        "encoding {encoding}, {len} rows"
    );
}

// Empties a root.
fn releases(rt: &impl Abort, planner: &mut BasePlanner, root: u8) {
    assert_eq!(rt; planner.release(root), Ok(()), "root {root}");
}

#[test]
fn a_field_out_of_range_is_refused(rt: HostRuntime) {
    let mut tables = Tables::EMPTY;
    let mut planner = laid(&rt, &mut tables);
    for parts in [
        numbers(FLAT, 3, &[]),
        numbers(0, 3, &[]),
        numbers(7, 3, &[]),
        numbers(255, 3, &[]),
        of(0, numbers(CONSTANT, 3, &[])),
        of(3, numbers(CONSTANT, 3, &[])),
        numbers(CONSTANT, 1_025, &[]),
        with(2, of(MARK, numbers(CONSTANT, 3, &[]))),
        with(1, numbers(RUN_END, 3, &[TWO, TWO])),
        with(1, numbers(DICT, 3, &[THREE, TWO])),
        with(1, numbers(CHUNKED, 3, &[THREE])),
    ] {
        refuses(&rt, &mut planner, SPARE, parts, Refusal::Field);
    }
}

#[test]
fn nine_slots_are_out_of_range_whatever_roots_are_named(rt: HostRuntime) {
    let mut tables = Tables::EMPTY;
    let mut planner = laid(&rt, &mut tables);
    let parts = slots(9, numbers(CHUNKED, 3, &[]));
    for roots in [&[][..], &[THREE; 9][..], &[SPARE][..], &[200; 20][..]] {
        refuses(
            &rt,
            &mut planner,
            SPARE,
            Parts { roots, ..parts },
            Refusal::Field,
        );
    }
}

#[test]
fn there_are_as_many_roots_as_slots(rt: HostRuntime) {
    let mut tables = Tables::EMPTY;
    let mut planner = laid(&rt, &mut tables);
    let parts = numbers(CHUNKED, 2, &[]);
    for (arity, roots) in [
        (0, &[TWO][..]),
        (1, &[][..]),
        (2, &[TWO][..]),
        (2, &[TWO; 3][..]),
        (8, &[TWO; 7][..]),
        (8, &[TWO; 9][..]),
    ] {
        let parts = slots(arity, Parts { roots, ..parts });
        refuses(&rt, &mut planner, SPARE, parts, Refusal::Line);
    }
}

#[test]
fn a_root_that_does_not_exist_is_refused(rt: HostRuntime) {
    let mut tables = Tables::EMPTY;
    let mut planner = laid(&rt, &mut tables);
    for (root, roots) in [
        (32, [TWO; 3]),
        (255, [TWO; 3]),
        (SPARE, [32, TWO, TWO]),
        (SPARE, [TWO, TWO, 32]),
    ] {
        let parts = numbers(CHUNKED, 6, &roots);
        refuses(&rt, &mut planner, root, parts, Refusal::RootRange);
    }
}

#[test]
fn an_empty_root_is_no_child(rt: HostRuntime) {
    let mut tables = Tables::EMPTY;
    let mut planner = laid(&rt, &mut tables);
    for roots in [[EMPTY, TWO, TWO], [TWO, TWO, EMPTY], [TWO, SPARE, TWO]] {
        let parts = numbers(CHUNKED, 6, &roots);
        refuses(&rt, &mut planner, SPARE, parts, Refusal::RootEmpty);
    }
}

#[test]
fn a_taken_root_is_refused_even_among_its_own_children(rt: HostRuntime) {
    let mut tables = Tables::EMPTY;
    let mut planner = laid(&rt, &mut tables);
    for (root, child) in [(MARKS, TWO), (TWO, TWO)] {
        let roots = [child];
        let parts = numbers(SLICE, 2, &roots);
        refuses(&rt, &mut planner, root, parts, Refusal::RootTaken);
    }
}

#[test]
fn each_encoding_has_its_number_of_slots(rt: HostRuntime) {
    let mut tables = Tables::EMPTY;
    let mut planner = laid(&rt, &mut tables);
    for parts in [
        numbers(CONSTANT, 2, &[TWO]),
        numbers(RUN_END, 2, &[]),
        numbers(RUN_END, 2, &[TWO]),
        numbers(RUN_END, 2, &[TWO; 3]),
        numbers(DICT, 2, &[]),
        numbers(DICT, 2, &[TWO]),
        numbers(DICT, 2, &[TWO; 3]),
        numbers(SLICE, 2, &[]),
        numbers(SLICE, 2, &[TWO; 2]),
    ] {
        refuses(&rt, &mut planner, SPARE, parts, Refusal::Slots);
    }
}

#[test]
fn children_have_the_kinds_that_fit(rt: HostRuntime) {
    let mut tables = Tables::EMPTY;
    let mut planner = laid(&rt, &mut tables);
    for parts in [
        numbers(RUN_END, 3, &[MARKS, THREE]),
        numbers(RUN_END, 3, &[THREE, MARKS]),
        of(MARK, numbers(RUN_END, 3, &[MARKS, MARKS])),
        of(MARK, numbers(RUN_END, 3, &[THREE, THREE])),
        numbers(DICT, 3, &[MARKS, THREE]),
        numbers(DICT, 3, &[THREE, MARKS]),
        of(MARK, numbers(DICT, 3, &[MARKS, MARKS])),
        of(MARK, numbers(DICT, 3, &[THREE, THREE])),
        numbers(CHUNKED, 6, &[THREE, MARKS]),
        of(MARK, numbers(CHUNKED, 3, &[THREE])),
        numbers(SLICE, 2, &[MARKS]),
        of(MARK, numbers(SLICE, 2, &[THREE])),
    ] {
        refuses(&rt, &mut planner, SPARE, parts, Refusal::Slots);
    }
}

#[test]
fn children_have_the_lengths_that_fit(rt: HostRuntime) {
    let mut tables = Tables::EMPTY;
    let mut planner = laid(&rt, &mut tables);
    for parts in [
        numbers(RUN_END, 3, &[THREE, TWO]),
        numbers(RUN_END, 3, &[TWO, THREE]),
        numbers(DICT, 2, &[THREE, TWO]),
        numbers(DICT, 4, &[THREE, TWO]),
        numbers(CHUNKED, 4, &[THREE, TWO]),
        numbers(CHUNKED, 6, &[THREE, TWO]),
        numbers(CHUNKED, 1, &[]),
        numbers(SLICE, 4, &[THREE]),
    ] {
        refuses(&rt, &mut planner, SPARE, parts, Refusal::Slots);
    }
}

#[test]
fn offset_and_length_reach_no_further_than_the_child(rt: HostRuntime) {
    let mut tables = Tables::EMPTY;
    let mut planner = laid(&rt, &mut tables);
    for (offset, len) in [
        (2, 2),
        (4, 0),
        (1 << 16, 3),
        (u32::MAX, 1),
        (u32::MAX, 3),
        (u32::MAX - 1, 2),
    ] {
        let parts = with(offset, numbers(SLICE, len, &[THREE]));
        refuses(&rt, &mut planner, SPARE, parts, Refusal::Slots);
    }
    for (offset, len) in [(0, 3), (1, 2), (3, 0)] {
        let parts = with(offset, numbers(SLICE, len, &[THREE]));
        accepts(&rt, &mut planner, SPARE, parts);
        releases(&rt, &mut planner, SPARE);
    }
}

#[test]
fn only_a_flat_array_is_read(rt: HostRuntime) {
    let mut tables = Tables::EMPTY;
    let mut planner = laid(&rt, &mut tables);
    for parts in [
        numbers(CONSTANT, 3, &[]),
        numbers(RUN_END, 3, &[TWO, TWO]),
        numbers(DICT, 3, &[THREE, TWO]),
        numbers(CHUNKED, 3, &[THREE]),
        numbers(SLICE, 3, &[THREE]),
    ] {
        accepts(&rt, &mut planner, SPARE, parts);
        let before = Held::by(&planner);
        assert!(rt; matches!(planner.read(SPARE), Err(Refusal::NotFlat)));
        assert!(rt; Held::by(&planner) == before);
        releases(&rt, &mut planner, SPARE);
    }
}

// One number of 0.
const ONE: RowBytes<'static> = RowBytes {
    kind: NUMBER,
    len: 1,
    bytes: &[0; 4],
};

#[test]
fn over_a_flat_array_stand_at_most_31_slices(rt: HostRuntime) {
    let mut tables = Tables::EMPTY;
    let mut planner = Planner::new(&mut tables.nodes, &mut tables.words, Session::base());
    assert_eq!(rt; planner.make(0, ONE), Ok(()));
    for root in 1..32 {
        let roots = [root - 1];
        accepts(&rt, &mut planner, root, numbers(SLICE, 1, &roots));
    }
    releases(&rt, &mut planner, 0);
    let parts = numbers(SLICE, 1, &[31]);
    refuses(
        &rt,
        &mut planner,
        0,
        parts,
        Refusal::Pool(PoolFault::Height),
    );
}

// A pile of 31 Slices over a Flat array, the highest under the root. The others are under none.
fn pile(rt: &impl Abort, planner: &mut BasePlanner, root: u8) {
    assert_eq!(rt; planner.make(root, ONE), Ok(()));
    let roots = [root];
    for _ in 1..32 {
        accepts(rt, planner, SPARE, numbers(SLICE, 1, &roots));
        releases(rt, planner, root);
        assert_eq!(rt; planner.share(root, SPARE), Ok(()));
        releases(rt, planner, SPARE);
    }
}

// A planner with every node in use, by piles under the first eight roots.
fn full<'a>(rt: &impl Abort, tables: &'a mut Tables) -> BasePlanner<'a> {
    let mut planner = Planner::new(&mut tables.nodes, &mut tables.words, Session::base());
    for root in 0..8 {
        pile(rt, &mut planner, root);
    }
    planner
}

#[test]
fn piles_use_all_nodes_with_few_roots(rt: HostRuntime) {
    let mut tables = Tables::EMPTY;
    let mut planner = full(&rt, &mut tables);
    let mut usage = Usage {
        roots: 8,
        nodes: NODES,
        words: 8,
    };
    assert_eq!(rt; planner.inspect(), usage);
    let parts = numbers(CONSTANT, 1, &[]);
    refuses(
        &rt,
        &mut planner,
        SPARE,
        parts,
        Refusal::Pool(PoolFault::Nodes),
    );
    releases(&rt, &mut planner, 0);
    accepts(&rt, &mut planner, SPARE, parts);
    usage.nodes -= 31;
    usage.words -= 1;
    assert_eq!(rt; planner.inspect(), usage);
}

// Each call has the faults of those below it too, as far as they can be together.
#[test]
fn the_first_fault_is_the_answer(rt: HostRuntime) {
    let mut tables = Tables::EMPTY;
    let mut planner = full(&rt, &mut tables);
    let line = Parts {
        roots: &[EMPTY, 32, 1],
        ..numbers(SLICE, 1_025, &[1, 1])
    };
    for (root, parts, refusal) in [
        (32, line, Refusal::Line),
        (0, numbers(SLICE, 1_025, &[EMPTY, 32]), Refusal::RootRange),
        (32, numbers(SLICE, 1_025, &[EMPTY, 1]), Refusal::RootRange),
        (0, numbers(SLICE, 1_025, &[1, EMPTY]), Refusal::RootEmpty),
        (0, numbers(SLICE, 1_025, &[1, 1]), Refusal::RootTaken),
        (SPARE, numbers(SLICE, 1_025, &[1, 1]), Refusal::Field),
        (SPARE, numbers(SLICE, 1, &[1, 1]), Refusal::Slots),
        (
            SPARE,
            numbers(SLICE, 1, &[1]),
            Refusal::Pool(PoolFault::Height),
        ),
        (
            SPARE,
            numbers(CONSTANT, 1, &[]),
            Refusal::Pool(PoolFault::Nodes),
        ),
    ] {
        refuses(&rt, &mut planner, root, parts, refusal);
    }
}

// How many hold a node.
fn holders(planner: &BasePlanner, node: u8) -> u16 {
    planner.pool.nodes[node as usize].count
}

// How often the array that was made under root 0 is held: once by the root, and by each array over it once for each of
// its slots.
fn slots_over(planner: &BasePlanner) -> u16 {
    let mut count: u16 = 0;
    for (root, slots) in planner.roots.iter().zip([1, 8, 2, 2, 1]) {
        if root.is_some() {
            count = count.saturating_add(slots);
        }
    }
    count
}

// An array under root 0, and four that share it under the roots after it.
fn lay_shares(rt: &impl Abort, planner: &mut BasePlanner) -> u8 {
    assert_eq!(rt; planner.make(0, ONE), Ok(()));
    let node = planner.roots[0].expect(rt, "it is made");
    for (root, parts, count) in [
        (1, numbers(CHUNKED, 8, &[0; 8]), 9),
        (2, numbers(DICT, 1, &[0; 2]), 11),
        (3, numbers(RUN_END, 1, &[0; 2]), 13),
        (4, numbers(SLICE, 1, &[0]), 14),
    ] {
        accepts(rt, planner, root, parts);
        assert_eq!(rt; holders(planner, node), count);
    }
    node
}

// The numbers from 0 to 4, in the order of that number out of 120.
fn order(number: usize) -> [u8; 5] {
    let mut roots = [0, 1, 2, 3, 4];
    let mut rest = number;
    for place in 0..5 {
        let left = 5 - place;
        roots.swap(place, place + rest % left);
        rest /= left;
    }
    roots
}

#[test]
fn an_array_is_held_once_for_each_slot_that_names_it(rt: HostRuntime) {
    let mut tables = Tables::EMPTY;
    let mut planner = Planner::new(&mut tables.nodes, &mut tables.words, Session::base());
    for number in 0..120 {
        let node = lay_shares(&rt, &mut planner);
        for root in order(number) {
            releases(&rt, &mut planner, root);
            assert_eq!(rt;
                holders(&planner, node),
                slots_over(&planner),
                "order {number}"
            );
        }
        assert_eq!(rt; planner.inspect(), NOTHING);
    }
}
