ghost use Rattle.trials.specs.Wide.{wide};
ghost use Rattle.trials.specs.Wides.{wide_lawful};

use rows::kind::RowKind;
use rows::kinds::{BaseKinds, Joined};
use rows::number::Number;
use rows::row::Row;
use rows::words::word_at;

// The number of Wide in the larger set, as each kind has one in a set.
pub const WIDE: u8 = 3;

// The base set with Wide joined to it.
pub const WIDE_KINDS: Joined<BaseKinds, Wide> = Joined {
    set: BaseKinds,
    number: WIDE,
    kind: Wide,
};

// A kind of two words a row: the value, and beside it the value with every bit turned.
#[derive(Clone, Copy)]
pub struct Wide;

impl RowKind for Wide {
    ghost means = { λ _. wide };

    ghost lawful = { λ s. wide_lawful };

    fn takes(&self, _row: Row) -> bool {
        true
    }

    fn constant(&self, parameter: u32) -> Row {
        Row { value: parameter }
    }

    fn words(&self, n: u16) -> u16 {
        2 * n
    }

    fn read(&self, run: &[u32], _n: u16, k: u16) -> Row {
        Row {
            value: word_at(run, 2 * k as usize),
        }
    }

    fn write(&self, run: &mut [u32], _n: u16, k: u16, row: Row) {
        let i = 2 * k as usize;
        run[i] = row.value;
        run[i + 1] = u32::MAX - row.value;
    }

    fn width(&self) -> u8 {
        4
    }

    fn parse(&self, bytes: &[u8]) -> Option<Row> {
        Number.parse(bytes)
    }

    fn byte(&self, row: Row, j: u8) -> u8 {
        Number.byte(row, j)
    }
}
