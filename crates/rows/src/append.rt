// SPDX-License-Identifier: Apache-2.0
// SPDX-FileCopyrightText: Copyright the Vortex contributors
// Changed: ported from Rust to Rattle, over nodes and runs of words in a pool.

ghost use Rattle.std.specs.Prelude.{◌≡◌, ◌+◌, ◌<◌, true, [], ◌∷◌, ◌++◌, length, take};
ghost use Rattle.rows.specs.Kind.{rows};

use crate::kind::RowKind;
use crate::row::Row;

// Appends a row to the first `filled` of the n rows in a run, whatever their kind, and says how many there are then.
pub fn append<K: RowKind>(kind: &K, run: &mut [u32], n: u16, filled: u16, row: Row) -> u16
    requires whole { length run.old ≡ (K.RowKind.means kind.now).words n }
    requires inside { filled < n }
    requires taken { (K.RowKind.means kind.now).takes row ≡ true }
    ensures value { result ≡ filled + 1 }
    ensures after { run.new ≡ (K.RowKind.means kind.now).put n run.old filled row }
    ensures rows { take (filled + 1) (rows (K.RowKind.means kind.now) n run.new) ≡ take filled (rows (K.RowKind.means kind.now) n run.old) ++ row ∷ [] }
{
    kind.write(run, n, filled, row);
    filled + 1
}
