ghost use Rattle.std.specs.Prelude.{◌≡◌, ◌+◌, ◌<◌, ◌≤◌, true, not, ◌&&◌, length, ◌==◌, slice_index};
ghost use Rattle.rows.specs.Kind.{Kinds};
ghost use Rattle.rows.specs.Ours.{LawfulKinds, base_kinds, joined_kinds};
ghost use Rattle.rows.specs.Sets.{base_kinds_lawful, joined_kinds_lawful};

use crate::append::append;
use crate::kind::RowKind;
use crate::mark::Mark;
use crate::number::Number;
use crate::row::Row;

// The number of Number in every set.
pub const NUMBER: u8 = 1;

// The number of Mark in every set.
pub const MARK: u8 = 2;

// A set of row kinds told apart by number, in which 1 is Number and 2 is Mark. A number and no enum tells them apart,
// since sets are open: `Joined` has kinds that the set within it does not know. A set has the members of a kind again,
// under a number, since it cannot hand out a kind: by value it would ask each kind to be `Copy`, which no kind owes; a
// borrowed one of either type is no associated type, and a `dyn` may not be handed out.
pub trait RowKinds {
    ghost kinds: { Self → Kinds };

    // Whether a kind has the number.
    fn has(&self, kind: u8) -> bool
        ensures { result ≡ (kinds self.now).has kind };

    // Whether the kind takes the row.
    fn takes(&self, kind: u8, row: Row) -> bool
        ensures { result ≡ ((kinds self.now).kind kind).takes row };

    // The row of the kind that the parameter of a constant array stands for. The kind need not take it.
    fn constant(&self, kind: u8, parameter: u32) -> Row
        ensures { result ≡ ((kinds self.now).kind kind).constant parameter };

    // The words that n rows of the kind need.
    fn words(&self, kind: u8, n: u16) -> u16
        requires { n ≤ 1024 }
        ensures { result ≡ ((kinds self.now).kind kind).words n };

    // Row k of the n rows of the kind in a run.
    fn read(&self, kind: u8, run: &[u32], n: u16, k: u16) -> Row
        ensures { result ≡ ((kinds self.now).kind kind).row n run.now k };

    // Appends a row to the first `filled` of the n rows of the kind in a run, and says how many there are then.
    fn append(&self, kind: u8, run: &mut [u32], n: u16, filled: u16, row: Row) -> u16
        requires whole { length run.old ≡ ((kinds self.now).kind kind).words n }
        requires inside { filled < n }
        requires taken { ((kinds self.now).kind kind).takes row ≡ true }
        ensures value { result ≡ filled + 1 }
        ensures after { run.new ≡ ((kinds self.now).kind kind).put n run.old filled row };

    // The bytes of a row of the kind in a line, and of the widest row of any kind.
    fn width(&self, kind: u8) -> u8
        ensures { result ≡ ((kinds self.now).kind kind).width };

    fn widest(&self) -> u8
        ensures { result ≡ (kinds self.now).widest };

    // The row of the kind that the bytes stand for, if they stand for one.
    fn parse(&self, kind: u8, bytes: &[u8]) -> Option<Row>
        ensures { result ≡ ((kinds self.now).kind kind).parsed bytes.now };

    // Byte j of those that stand for a row of the kind.
    fn byte(&self, kind: u8, row: Row, j: u8) -> u8
        requires { ((kinds self.now).kind kind).takes row ≡ true }
        ensures { result ≡ slice_index (((kinds self.now).kind kind).written row) j };

    ghost lawful: { (s : Self) → LawfulKinds (kinds s) };
}

// Number and Mark. Each member asks for the kind by itself, as in `Joined`, since no kind is handed out.
#[derive(Clone, Copy)]
pub struct BaseKinds;

impl RowKinds for BaseKinds {
    ghost kinds = { λ _. base_kinds };

    ghost lawful = { λ s. base_kinds_lawful };

    fn has(&self, kind: u8) -> bool {
        kind == NUMBER || kind == MARK
    }

    fn takes(&self, kind: u8, row: Row) -> bool {
        if kind == MARK {
            Mark.takes(row)
        } else {
            Number.takes(row)
        }
    }

    fn constant(&self, kind: u8, parameter: u32) -> Row {
        if kind == MARK {
            Mark.constant(parameter)
        } else {
            Number.constant(parameter)
        }
    }

    fn words(&self, kind: u8, n: u16) -> u16 {
        if kind == MARK {
            Mark.words(n)
        } else {
            Number.words(n)
        }
    }

    fn read(&self, kind: u8, run: &[u32], n: u16, k: u16) -> Row {
        if kind == MARK {
            Mark.read(run, n, k)
        } else {
            Number.read(run, n, k)
        }
    }

    fn append(&self, kind: u8, run: &mut [u32], n: u16, filled: u16, row: Row) -> u16 {
        if kind == MARK {
            append(&Mark, run, n, filled, row)
        } else {
            append(&Number, run, n, filled, row)
        }
    }

    fn width(&self, kind: u8) -> u8 {
        if kind == MARK {
            Mark.width()
        } else {
            Number.width()
        }
    }

    fn widest(&self) -> u8 {
        Number.width()
    }

    fn parse(&self, kind: u8, bytes: &[u8]) -> Option<Row> {
        if kind == MARK {
            Mark.parse(bytes)
        } else {
            Number.parse(bytes)
        }
    }

    fn byte(&self, kind: u8, row: Row, j: u8) -> u8 {
        if kind == MARK {
            Mark.byte(row, j)
        } else {
            Number.byte(row, j)
        }
    }
}

// A set with one kind more, under a number. The numbers that the set has stay as they are.
#[derive(Clone, Copy)]
pub struct Joined<S, K> {
    pub set: S,
    pub number: u8,
    pub kind: K,
}

impl<S: RowKinds, K: RowKind> Joined<S, K> {
    // Whether the number is that of the kind more, and the set has it not.
    fn adds(&self, kind: u8) -> bool
        ensures { result ≡ not ((S.RowKinds.kinds self.now.set).has kind) && (kind == self.now.number) }
    {
        !self.set.has(kind) && kind == self.number
    }
}

impl<S: RowKinds, K: RowKind> RowKinds for Joined<S, K> {
    ghost kinds = { λ s. joined_kinds (S.RowKinds.kinds s.set) s.number (K.RowKind.means s.kind) };

    ghost lawful = { λ s. joined_kinds_lawful (S.RowKinds.kinds s.set) s.number (K.RowKind.means s.kind) (S.RowKinds.lawful s.set) (K.RowKind.lawful s.kind) };

    fn has(&self, kind: u8) -> bool {
        self.set.has(kind) || kind == self.number
    }

    fn takes(&self, kind: u8, row: Row) -> bool {
        if self.adds(kind) {
            self.kind.takes(row)
        } else {
            self.set.takes(kind, row)
        }
    }

    fn constant(&self, kind: u8, parameter: u32) -> Row {
        if self.adds(kind) {
            self.kind.constant(parameter)
        } else {
            self.set.constant(kind, parameter)
        }
    }

    fn words(&self, kind: u8, n: u16) -> u16 {
        if self.adds(kind) {
            self.kind.words(n)
        } else {
            self.set.words(kind, n)
        }
    }

    fn read(&self, kind: u8, run: &[u32], n: u16, k: u16) -> Row {
        if self.adds(kind) {
            self.kind.read(run, n, k)
        } else {
            self.set.read(kind, run, n, k)
        }
    }

    fn append(&self, kind: u8, run: &mut [u32], n: u16, filled: u16, row: Row) -> u16 {
        if self.adds(kind) {
            append(&self.kind, run, n, filled, row)
        } else {
            self.set.append(kind, run, n, filled, row)
        }
    }

    fn width(&self, kind: u8) -> u8 {
        if self.adds(kind) {
            self.kind.width()
        } else {
            self.set.width(kind)
        }
    }

    fn widest(&self) -> u8 {
        self.set.widest().max(self.kind.width())
    }

    fn parse(&self, kind: u8, bytes: &[u8]) -> Option<Row> {
        if self.adds(kind) {
            self.kind.parse(bytes)
        } else {
            self.set.parse(kind, bytes)
        }
    }

    fn byte(&self, kind: u8, row: Row, j: u8) -> u8 {
        if self.adds(kind) {
            self.kind.byte(row, j)
        } else {
            self.set.byte(kind, row, j)
        }
    }
}
