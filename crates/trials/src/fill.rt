ghost use Rattle.std.specs.Prelude.{◌≡◌, ◌*◌, ◌≤◌, length};
ghost use Rattle.rows.specs.Kind.{Taken, rows};
ghost use Rattle.trials.specs.Wide.{wide};

use crate::wide::{WIDE, WIDE_KINDS};
use rows::kinds::RowKinds;
use rows::row::Row;

// Appends the rows to an empty run, one after another. The run then means just these rows.
pub fn fill<S: RowKinds>(set: &S, kind: u8, run: &mut [u32], given: &[Row])
    requires few { length given.now ≤ 1024 }
    requires whole { length run.old ≡ ((S.RowKinds.kinds set.now).kind kind).words (length given.now) }
    requires taken { Taken ((S.RowKinds.kinds set.now).kind kind) given.now }
    ensures { rows ((S.RowKinds.kinds set.now).kind kind) (length given.now) run.new ≡ given.now }
{
    // the cast loses nothing, since there are at most 1,024 rows
    let n = given.len() as u16;
    let mut filled = 0;
    // `append` says how many rows there are then, so the count is carried along
    for row in given {
        filled = set.append(kind, run, n, filled, *row);
    }
}

// The same of a kind that the base set has not, and a larger set has.
pub fn fill_wide(run: &mut [u32], given: &[Row])
    requires few { length given.now ≤ 1024 }
    requires whole { length run.old ≡ 2 * length given.now }
    ensures { rows wide (length given.now) run.new ≡ given.now }
{
    fill(&WIDE_KINDS, WIDE, run, given);
}
