use crate::fill::{fill, fill_wide};
use crate::wide::{WIDE, WIDE_KINDS};
use rows::kind::RowKind;
use rows::kinds::{BaseKinds, MARK, RowKinds};
use rows::mark::Mark;
use rows::number::Number;
use rows::row::Row;

const ON: Row = Row { value: 1 };

const OFF: Row = Row { value: 0 };

#[test]
fn marks_lie_lowest_bit_first(rt: HostRuntime) {
    let mut run = [0];
    // the worked example of a validity bitmap in the Apache Arrow Columnar Format
    fill(&BaseKinds, MARK, &mut run, &[ON, ON, OFF, ON, OFF, ON]);
    assert_eq!(rt; run[0], 0b00101011);
    assert_eq!(rt; BaseKinds.read(MARK, &run, 6, 2), OFF);
    assert_eq!(rt; BaseKinds.read(MARK, &run, 6, 3), ON);
}

#[test]
fn a_mark_may_lie_in_the_next_word(rt: HostRuntime) {
    let mut run = [0, 0];
    Mark.write(&mut run, 40, 33, ON);
    assert_eq!(rt; run[0], 0);
    assert_eq!(rt; run[1], 2);
}

#[test]
fn a_mark_is_a_byte_0_or_1(rt: HostRuntime) {
    assert_eq!(rt; Mark.parse(&[1]), Some(ON));
    assert_eq!(rt; Mark.parse(&[2]), None);
    assert_eq!(rt; Mark.parse(&[0, 0]), None);
}

#[test]
fn a_number_is_four_bytes(rt: HostRuntime) {
    assert_eq!(rt; Number.parse(&[0, 0, 1, 0x2C]), Some(Row { value: 300 }));
    let row = Row { value: 300 };
    assert_eq!(rt; Number.byte(row, 0), 0);
    assert_eq!(rt; Number.byte(row, 1), 0);
    assert_eq!(rt; Number.byte(row, 2), 1);
    assert_eq!(rt; Number.byte(row, 3), 0x2C);
}

#[test]
fn a_joined_kind_is_read_back(rt: HostRuntime) {
    assert!(rt; WIDE_KINDS.has(WIDE));
    assert!(rt; !BaseKinds.has(WIDE));
    let given = [
        Row { value: 7 },
        Row { value: 0 },
        Row {
            value: 4_000_000_000,
        },
    ];
    let mut run = [0; 6];
    fill_wide(&mut run, &given);
    assert_eq!(rt; WIDE_KINDS.read(WIDE, &run, 3, 0), given[0]);
    assert_eq!(rt; WIDE_KINDS.read(WIDE, &run, 3, 1), given[1]);
    assert_eq!(rt; WIDE_KINDS.read(WIDE, &run, 3, 2), given[2]);
    assert_eq!(rt; run[1], u32::MAX - 7);
}
