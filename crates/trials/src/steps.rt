ghost use Rattle.std.specs.Prelude.{◌≡◌, true, is_some};
ghost use Rattle.planner.specs.Called.{root_at};
ghost use Rattle.planner.specs.Seen.{state_of};
ghost use Rattle.trials.specs.Steps.{Led, held_after};

use encodings::encoding::EncodingSet;
use encodings::matcher::Matcher;
use encodings::step::{ExecutionStep, StepFault};
use optimizer::Bank;
use planner::call::Call;
use planner::listener::Listener;
use planner::planner::Planner;
use rows::kinds::RowKinds;

// Makes these calls, one after another.
pub fn play<K: RowKinds, E: EncodingSet, B: Bank, M: Matcher, L: Listener>(
    planner: &mut Planner<'_, K, E, B, M>,
    calls: &[Call],
    listener: &mut L,
)
    requires { Led K.RowKinds.kinds E.Encoding.means planner.old }
    ensures { Led K.RowKinds.kinds E.Encoding.means planner.new }
{
    for call in calls {
        planner.serve(*call, listener);
    }
}

// What the holder of an array has once a step of it is answered so.
fn held_after(array: u8, answer: Result<ExecutionStep, StepFault>) -> u8
    ensures { result ≡ held_after array answer }
{
    match answer {
        Ok(ExecutionStep::Done { array }) => array,
        _ => array,
    }
}

// One step of the array under a root. The step takes the array over, and what it leaves is under the root then.
pub fn step<K: RowKinds, E: EncodingSet, B: Bank, M: Matcher>(
    planner: &mut Planner<'_, K, E, B, M>,
    root: u8,
) -> Result<ExecutionStep, StepFault>
    requires held { is_some (root_at (state_of planner.old) root) ≡ true }
    requires led { Led K.RowKinds.kinds E.Encoding.means planner.old }
{
    let array = planner.roots[root as usize].take().unwrap();
    let kinds = &planner.session.kinds;
    let answer = planner
        .session
        .encodings
        .execute(kinds, &mut planner.pool, array);
    planner.roots[root as usize] = Some(held_after(array, answer));
    answer
}

#[cfg(test)]
mod tests {
    use super::*;
    use crate::making::{Held, numbers, of, with};
    use arrays::chunked::CHUNKED;
    use arrays::constant::CONSTANT;
    use arrays::dict::DICT;
    use arrays::run_end::RUN_END;
    use arrays::slice::SLICE;
    use planner::call::{Parts, RowBytes};
    use planner::session::{BasePlanner, Session};
    use planner::tally::Tally;
    use pool::node::PoolFault;
    use pool::pool::Tables;
    use rows::kinds::{MARK, NUMBER};
    use std::alloc::{AllocError, Global};
    use std::process::Abort;
    use std::test::Fail;

    // The root of the array that is stepped.
    const STEPPED: u8 = 7;

    // Numbers as the bytes of a making, the high byte of each first.
    fn bytes(heap: Global, rows: &[u32]) -> Result<Vec<u8>, AllocError> {
        rows.iter().flat_map(|row| row.to_be_bytes()).collect(heap)
    }

    // The making of a Flat array.
    fn make(root: u8, kind: u8, len: u16, bytes: &[u8]) -> Call<'_> {
        let rows = RowBytes { kind, len, bytes };
        Call::Make { root, rows }
    }

    // The making of the array that is stepped.
    fn assemble(parts: Parts<'_>) -> Call<'_> {
        let root = STEPPED;
        Call::Assemble { root, parts }
    }

    // One step on a new planner, once these calls are made, of which none must be refused: the planner then, what was
    // held before the step, and its answer.
    fn one_step<'a>(
        rt: &impl Abort,
        tables: &'a mut Tables,
        calls: &[Call],
    ) -> (BasePlanner<'a>, Held, Result<ExecutionStep, StepFault>) {
        let mut planner = Planner::new(&mut tables.nodes, &mut tables.words, Session::base());
        let mut tally = Tally::default();
        play(&mut planner, calls, &mut tally);
        assert_eq!(rt; tally.refused, 0);
        let array = planner.roots[STEPPED as usize];
        assert!(rt; array.is_some());
        let before = Held::by(&planner);
        let answer = step(&mut planner, STEPPED);
        (planner, before, answer)
    }

    // Whether one step is Done with a Flat array that has these words, and as many nodes are in use then.
    fn gives(rt: &impl Abort, calls: &[Call], words: &[u32]) {
        let mut tables = Tables::EMPTY;
        let (planner, before, answer) = one_step(rt, &mut tables, calls);
        assert!(rt; matches!(answer, Ok(ExecutionStep::Done { .. })));
        assert!(rt; matches!(planner.read(STEPPED), Ok(reading) if reading.words == words));
        assert_eq!(rt; planner.inspect().nodes, before.usage.nodes);
    }

    // Whether one step is answered so, and leaves all that is held as it was.
    fn answers(rt: &impl Abort, calls: &[Call], wanted: Result<ExecutionStep, StepFault>) {
        let mut tables = Tables::EMPTY;
        let (planner, before, answer) = one_step(rt, &mut tables, calls);
        assert_eq!(rt; answer, wanted);
        assert!(rt; Held::by(&planner) == before);
    }

    // The worked example of the run-end encoded layout in the Apache Arrow Columnar Format, with a 5 for its null.
    #[test]
    fn each_run_gives_its_value_up_to_its_end(rt: HostRuntime) -> Result<(), Fail> {
        let ends = bytes(rt.alloc(), &[4, 6, 7])?;
        let values = bytes(rt.alloc(), &[1, 5, 2])?;
        let calls = [
            make(0, NUMBER, 3, &ends),
            make(1, NUMBER, 3, &values),
            assemble(numbers(RUN_END, 7, &[0, 1])),
        ];
        gives(&rt, &calls, &[1, 1, 1, 1, 5, 5, 2]);
        Ok(())
    }

    // That of its dictionary-encoded layout, with numbers for its strings, and without its null.
    #[test]
    fn each_code_gives_its_value(rt: HostRuntime) -> Result<(), Fail> {
        let codes = bytes(rt.alloc(), &[0, 1, 0, 1, 2])?;
        let values = bytes(rt.alloc(), &[10, 20, 30])?;
        let calls = [
            make(0, NUMBER, 5, &codes),
            make(1, NUMBER, 3, &values),
            assemble(numbers(DICT, 5, &[0, 1])),
        ];
        gives(&rt, &calls, &[10, 20, 10, 20, 30]);
        Ok(())
    }

    // The first row is the lowest bit of the word.
    #[test]
    fn runs_and_codes_have_marks_for_values_too(rt: HostRuntime) -> Result<(), Fail> {
        let ends = bytes(rt.alloc(), &[4, 6, 7])?;
        let runs = [
            make(0, NUMBER, 3, &ends),
            make(1, MARK, 3, &[1, 0, 1]),
            assemble(of(MARK, numbers(RUN_END, 7, &[0, 1]))),
        ];
        gives(&rt, &runs, &[0b1001111]);
        let codes = bytes(rt.alloc(), &[0, 1, 0, 1, 2])?;
        let dict = [
            make(0, NUMBER, 5, &codes),
            make(1, MARK, 3, &[1, 0, 1]),
            assemble(of(MARK, numbers(DICT, 5, &[0, 1]))),
        ];
        gives(&rt, &dict, &[0b10101]);
        Ok(())
    }

    #[test]
    fn a_constant_gives_its_value_in_each_row(rt: HostRuntime) {
        let number = assemble(with(5, numbers(CONSTANT, 4, &[])));
        gives(&rt, &[number], &[5; 4]);
        let mark = assemble(with(1, of(MARK, numbers(CONSTANT, 40, &[]))));
        gives(&rt, &[mark], &[u32::MAX, 0xFF]);
    }

    #[test]
    fn a_slice_gives_rows_from_its_offset_on(rt: HostRuntime) -> Result<(), Fail> {
        let rows = bytes(rt.alloc(), &[7, 8, 9, 10])?;
        let calls = [
            make(0, NUMBER, 4, &rows),
            assemble(with(1, numbers(SLICE, 2, &[0]))),
        ];
        gives(&rt, &calls, &[8, 9]);
        Ok(())
    }

    #[test]
    fn no_chunks_give_no_rows(rt: HostRuntime) {
        gives(&rt, &[assemble(numbers(CHUNKED, 0, &[]))], &[]);
    }

    // Two numbers.
    const TWO: Call<'static> = Call::Make {
        root: 0,
        rows: RowBytes {
            kind: NUMBER,
            len: 2,
            bytes: &[0; 8],
        },
    };

    #[test]
    fn a_slice_of_a_dict_asks_for_it_first(rt: HostRuntime) {
        let root = 1;
        let parts = numbers(DICT, 2, &[0, 0]);
        let calls = [
            TWO,
            Call::Assemble { root, parts },
            assemble(numbers(SLICE, 1, &[1])),
        ];
        let slot = 0;
        // the code of AnyCanonical
        let target = 0x01;
        answers(&rt, &calls, Ok(ExecutionStep::ExecuteSlot { slot, target }));
    }

    #[test]
    fn a_flat_chunk_is_appended_at_once(rt: HostRuntime) {
        let calls = [TWO, assemble(numbers(CHUNKED, 4, &[0, 0]))];
        answers(&rt, &calls, Ok(ExecutionStep::AppendChild { slot: 0 }));
    }

    #[test]
    fn a_code_past_the_values_gives_no_rows(rt: HostRuntime) -> Result<(), Fail> {
        let values = bytes(rt.alloc(), &[10, 20, 30])?;
        for code in [3, 4, 1 << 16, u32::MAX] {
            let codes = bytes(rt.alloc(), &[0, code])?;
            let calls = [
                make(0, NUMBER, 2, &codes),
                make(1, NUMBER, 3, &values),
                assemble(numbers(DICT, 2, &[0, 1])),
            ];
            answers(&rt, &calls, Err(StepFault::NoRows));
        }
        Ok(())
    }

    #[test]
    fn ends_rise_from_above_0_to_the_length(rt: HostRuntime) -> Result<(), Fail> {
        for (ends, len) in [
            ([2, 2], 2),
            ([0, 3], 3),
            ([2, 1], 2),
            ([1, 2], 3),
            ([1, 4], 3),
            ([1, 1 << 16], 1),
            ([0, 1], 0),
            ([0, 0], 0),
        ] {
            let ends = bytes(rt.alloc(), &ends)?;
            let calls = [
                make(0, NUMBER, 2, &ends),
                assemble(numbers(RUN_END, len, &[0, 0])),
            ];
            answers(&rt, &calls, Err(StepFault::NoRows));
        }
        Ok(())
    }

    // A Dict of one row, with a code past its values.
    fn without_rows() -> [Call<'static>; 3] {
        [
            make(0, NUMBER, 1, &[0, 0, 0, 1]),
            make(1, NUMBER, 1, &[0; 4]),
            assemble(numbers(DICT, 1, &[0, 1])),
        ]
    }

    // Puts a pile of so many arrays under a root, by way of two roots that are empty then.
    fn pile(calls: &mut Vec<Call>, to: u8, height: u8) -> Result<(), AllocError> {
        let from = STEPPED;
        calls.push(make(0, NUMBER, 1, &[0; 4]))?;
        for _ in 1..height {
            calls.extend_from_slice(&[
                assemble(numbers(SLICE, 1, &[0])),
                Call::Release { root: 0 },
                Call::Share { to: 0, from },
                Call::Release { root: from },
            ])?;
        }
        calls.extend_from_slice(&[Call::Share { to, from: 0 }, Call::Release { root: 0 }])
    }

    // The pool is full with the last pile at its full height, and has one node free where it is one array lower.
    #[test]
    fn nodes_are_looked_for_before_rows(rt: HostRuntime) -> Result<(), Fail> {
        for (height, fault) in [
            (29, StepFault::Pool(PoolFault::Nodes)),
            (28, StepFault::NoRows),
        ] {
            let mut calls = Vec::new(rt.alloc());
            for to in 8..15 {
                pile(&mut calls, to, 32)?;
            }
            pile(&mut calls, 15, height)?;
            calls.extend_from_slice(&without_rows())?;
            answers(&rt, &calls, Err(fault));
        }
        Ok(())
    }

    // The same of the words.
    #[test]
    fn words_are_looked_for_before_rows(rt: HostRuntime) -> Result<(), Fail> {
        let rows = [0; 4096];
        for (len, fault) in [
            (1_022, StepFault::Pool(PoolFault::Words)),
            (1_021, StepFault::NoRows),
        ] {
            let mut calls = Vec::new(rt.alloc());
            for root in 8..15 {
                calls.push(make(root, NUMBER, 1_024, &rows))?;
            }
            calls.push(make(15, NUMBER, len, &rows[..4 * len as usize]))?;
            calls.extend_from_slice(&without_rows())?;
            answers(&rt, &calls, Err(fault));
        }
        Ok(())
    }
}
